// The value of a key hash: 20 bytes as 28 characters of Base64 (RFC 4648).
ghost use Rattle.std.specs.Prelude.{◌≡◌, ℕ, ◌-◌, ◌/◌, ◌%◌, ◌<◌, ◌≤◌, ◌&&◌, ◌==◌, [], ◌++◌, All, length, map, fold, take, replicate, slice_index_or, true, nat_le, nat_lt, if◌then◌else◌, Ok, Err};
ghost use Rattle.std.specs.Int.Digits.{number_from_digits, number_from_digits_after, AllBelowBase};
ghost use Rattle.refusal.specs.declared.Refusal.TheVariants.{Malformed};
ghost use Rattle.keyhash.specs.Numeral.{numeral, Rewritten};
ghost use Rattle.keyhash.specs.Canonical.{Canonical};
ghost use Rattle.keyhash.specs.Base64.{character, digit_of, AlphabetOfRfc4648, bit_string, text, reading, StrayBits};

use refusal::Refusal;
use std::array;

// What the digits from `from` on add to a sum, and the others do not.
fn from_on(v: u8, from: u8, step: u8) -> u8
    ensures { result ≡ (if nat_le from v then step else 0) }
{
    if v >= from { step } else { 0 }
}

// The character that stands for six bits: each range of the alphabet, `a` to `z`, `0` to `9`, `+` and `/`, stands a step away from the one before it. Sums take fewer steps over a vector than a choice among ranges.
fn character_of(v: u8) -> u8
    requires { v < 64 }
    ensures { result ≡ character v }
{
    let letter = b'A' + v + from_on(v, 26, 6);
    letter - from_on(v, 52, 75) - from_on(v, 62, 15) + from_on(v, 63, 3)
}

// What a character that stands for no six bits is read as. With an `Option` for each digit the loop over the characters is not made of vectors: reading then takes eight times as long, and a sixth of the speed of plain Rust.
const NO_DIGIT: u8 = 64;

// The six bits that a character stands for.
fn digit_of(c: u8) -> u8
    ensures { result ≡ digit_of c }
{
    match char::from(c) {
        'A'..='Z' => c - b'A',
        'a'..='z' => c - b'a' + 26,
        '0'..='9' => c - b'0' + 52,
        '+' => 62,
        '/' => 63,
        _ => NO_DIGIT,
    }
}

// The four digits of six bits that three bytes are cut into, built in one word so that they are stored at once. Behind the same digits, both are the same number.
fn four_digits(bytes: [u8; 3]) -> [u8; 4]
    ensures below { AllBelowBase 64 result }
    ensures same_number { (before : ℕ) → number_from_digits_after 256 before bytes ≡ number_from_digits_after 64 before result }
{
    let [a, b, c] = bytes;
    let bits = u32::from_be_bytes([0, a, b, c]);
    let first = bits / 0x4_0000;
    let second = bits / 0x1000 % 64;
    let third = bits / 64 % 64;
    let fourth = bits % 64;
    (first + second * 0x100 + third * 0x1_0000 + fourth * 0x100_0000).to_le_bytes()
}

// The three bytes that four digits of six bits hold, by one word that is read at once.
fn three_bytes(digits: [u8; 4]) -> [u8; 3]
    ensures { AllBelowBase 64 digits → Rewritten 64 256 digits result }
{
    let word = u32::from_le_bytes(digits);
    let first = word % 64;
    let second = word / 0x100 % 64;
    let third = word / 0x1_0000 % 64;
    let fourth = word / 0x100_0000 % 64;
    let [_, a, b, c] = (first * 0x4_0000 + second * 0x1000 + third * 64 + fourth).to_be_bytes();
    [a, b, c]
}

// The bytes of `front`, and `filler` in the places behind them.
fn padded<const N: usize>(front: &[u8], filler: u8) -> [u8; N]
    requires { length front.now ≤ N }
    ensures { result ≡ front.now ++ replicate (N - length front.now) filler }
{
    let mut out = [filler; N];
    out[..front.len()].copy_from_slice(front);
    out
}

// The digits of six bits that 24 bytes are cut into.
fn cut(bytes: &[u8; 24]) -> [u8; 32]
    ensures { Rewritten 256 64 bytes.now result }
{
    let threes = bytes.as_chunks::<3>().0;
    let fours: [[u8; 4]; 8] = array::from_fn(
        |i: usize|
            requires { i < length threes.now }
            ensures { Rewritten 256 64 (slice_index_or threes.entry.now i []) result }
        { four_digits(threes[i]) },
    );
    let mut digits = [0; 32];
    digits.copy_from_slice(fours.as_flattened());
    digits
}

// The bytes that 32 digits of six bits hold. It is `cut` the other way; one function for both would take four sizes and a closure.
fn join(digits: &[u8; 32]) -> [u8; 24]
    ensures { AllBelowBase 64 digits.now → Rewritten 64 256 digits.now result }
{
    let fours = digits.as_chunks::<4>().0;
    let threes: [[u8; 3]; 8] = array::from_fn(
        |i: usize|
            requires { i < length fours.now }
            ensures { AllBelowBase 64 (slice_index_or fours.entry.now i []) → Rewritten 64 256 (slice_index_or fours.entry.now i []) result }
        { three_bytes(fours[i]) },
    );
    let mut bytes = [0; 24];
    bytes.copy_from_slice(threes.as_flattened());
    bytes
}

// The digit of each character. `map` of arrays moves the elements one by one, and reading then takes ten times as long.
fn digits_of(chars: [u8; 32]) -> [u8; 32]
    ensures { result ≡ map digit_of chars }
{
    array::from_fn(|i| digit_of(chars[i]))
}

// Whether each of the digits is one of six bits. Every digit is looked at, so that the loop has no branch: with `all` reading is slower than plain Rust.
fn all_of_six_bits(digits: [u8; 32]) -> bool
    ensures { result ≡ fold (λ all digit. all && nat_lt digit 64) true digits }
{
    digits
        .iter()
        .fold(true, |all, digit| all & (*digit < NO_DIGIT))
}

// Digits of six bits in two whole vectors of sixteen bytes, of which those of a hash are the first 27.
#[derive(Drop)]
struct Digits {
    places: [u8; 32],
    ghost of_six_bits: { All (λ digit. digit < 64) places },
}

impl Digits {
    // The hash's 160 bits and two zero bits, cut into digits.
    fn of_hash(hash: [u8; 20]) -> Digits
        ensures { take 27 result.places ≡ numeral 64 27 (bit_string hash) }
    {
        let places = cut(&padded(&hash, 0));
        Digits { places }
    }

    // The 20 bytes that the first 27 digits hold, less the last two bits.
    fn hash(&self) -> [u8; 20]
        ensures { result ≡ numeral 256 20 (number_from_digits 64 (take 27 self.now.places) / 4) }
    {
        let mut hash = [0; 20];
        hash.copy_from_slice(&join(&self.places)[..20]);
        hash
    }

    // The character of each digit.
    fn characters(&self) -> [u8; 32]
        ensures { result ≡ map character self.now.places }
    {
        array::from_fn(|i| character_of(self.places[i]))
    }
}

// Whether the last digit has no stray bits, and '=' stands behind it.
fn ends_canonically(digit: u8, padding: u8) -> bool
    ensures { result ≡ (digit % 4 == 0 && padding == 61) }
{
    digit % 4 == 0 && padding == b'='
}

// The canonical text of a hash.
pub fn encode(hash: [u8; 20]) -> [u8; 28]
    ensures canonical_text { result ≡ text hash }
    ensures reads_back { reading result ≡ Ok hash }
    ensures alphabet_of_rfc_4648 { AlphabetOfRfc4648 }
{
    padded(&Digits::of_hash(hash).characters()[..27], b'=')
}

// The hash of which the characters are the canonical text.
pub fn decode(chars: [u8; 28]) -> Result<[u8; 20], Refusal>
    ensures as_defined { result ≡ reading chars }
    ensures reader_and_writer_are_inverse { Canonical text reading }
    ensures stray_bits_are_refused { StrayBits chars → result ≡ Err Malformed }
{
    // Tested here: a function that answers `Option<Digits>` passes the places through memory, and reading takes a fifth longer.
    let places = digits_of(padded(&chars[..27], b'A'));
    if !all_of_six_bits(places) || !ends_canonically(places[26], chars[27]) {
        return Err(Refusal::Malformed);
    }
    Ok(Digits { places }.hash())
}
