ghost use Rattle.std.specs.Prelude.{◌≡◌, ℕ, ◌+◌, ◌≤◌, length};
ghost use Rattle.sha1_hmac.specs.Words.{choice, parity, majority};
ghost use Rattle.sha1_hmac.specs.Compression.{constant, mixed, round, sums, compress};
ghost use Rattle.sha1_hmac.specs.Fours.{four, words_at, first_window, advanced, onward, rounds_over, first_rounds};

// K_t of the rounds 0 to 19, 20 to 39, 40 to 59 and 60 to 79.
const K0: u32 = 0x5a82_7999;

const K20: u32 = 0x6ed9_eba1;

const K40: u32 = 0x8f1b_bcdc;

const K60: u32 = 0xca62_c1d6;

use std::array;

// A function f_t of three words.
trait RoundFunction {
    ghost gives: { ℕ → ℕ → ℕ → ℕ };

    fn of(x: u32, y: u32, z: u32) -> u32
        ensures { result ≡ gives x y z };
}

struct Choice;

struct Parity;

struct Majority;

impl RoundFunction for Choice {
    ghost gives = { choice };

    fn of(x: u32, y: u32, z: u32) -> u32 {
        (x & y) ^ (!x & z)
    }
}

impl RoundFunction for Parity {
    ghost gives = { parity };

    fn of(x: u32, y: u32, z: u32) -> u32 {
        x ^ y ^ z
    }
}

impl RoundFunction for Majority {
    ghost gives = { majority };

    fn of(x: u32, y: u32, z: u32) -> u32 {
        (x & y) ^ (x & z) ^ (y & z)
    }
}

// One round over the working variables. They go from round to round by value beside the words, as in the standard: a struct of both
// would be taken apart and made anew in each function.
#[tactic(auto, unfolding(crate::specs::Compression::round))]
fn one_round<F: RoundFunction>(s: [u32; 5], k: u32, w: u32) -> [u32; 5]
    ensures { result ≡ round F.gives k w s }
{
    let [a, b, c, d, e] = s;
    let f = F::of(b, c, d);
    let t = a
        .rotate_left(5)
        .wrapping_add(f)
        .wrapping_add(e)
        .wrapping_add(k)
        .wrapping_add(w);
    [t, a, b.rotate_left(30), c, d]
}

// Four rounds with one function and one constant.
#[tactic(auto, unfolding(crate::specs::Fours::four))]
fn four_rounds<F: RoundFunction>(s: [u32; 5], k: u32, w: [u32; 4]) -> [u32; 5]
    ensures { result ≡ four F.gives k w s }
{
    let [w0, w1, w2, w3] = w;
    let s = one_round::<F>(s, k, w0);
    let s = one_round::<F>(s, k, w1);
    let s = one_round::<F>(s, k, w2);
    one_round::<F>(s, k, w3)
}

// The words of sixteen bytes.
fn words(bytes: &[u8; 16]) -> [u32; 4]
    ensures { result ≡ words_at bytes.now 0 }
{
    let (words, _) = bytes.as_chunks();
    array::from_fn(|i| u32::from_be_bytes(words[i]))
}

// Sixteen words of the schedule in a row, by fours.
#[derive(Drop)]
struct Window {
    oldest: [u32; 4],
    older: [u32; 4],
    newer: [u32; 4],
    newest: [u32; 4],
}

// The word that follows from those 3, 8, 14 and 16 before it.
#[tactic(auto, unfolding(crate::specs::Compression::mixed))]
fn mixed(x: u32, y: u32, z: u32, v: u32) -> u32
    ensures { result ≡ mixed x y z v }
{
    (x ^ y ^ z ^ v).rotate_left(1)
}

impl Window {
    // The first sixteen words, which are the block's own.
    fn first(block: &[u8; 64]) -> Window
        ensures { result ≡ first_window block.now }
    {
        let (fours, _) = block.as_chunks();
        Window {
            oldest: words(&fours[0]),
            older: words(&fours[1]),
            newer: words(&fours[2]),
            newest: words(&fours[3]),
        }
    }

    // The sixteen words that begin four words on.
    #[tactic(auto, unfolding(crate::specs::Fours::next_words, crate::specs::Fours::advanced))]
    fn advanced(self) -> Window
        ensures { result ≡ advanced self }
    {
        let Window {
            oldest,
            older,
            newer,
            newest,
        } = self;
        let first = mixed(newest[1], newer[0], oldest[2], oldest[0]);
        let second = mixed(newest[2], newer[1], oldest[3], oldest[1]);
        let third = mixed(newest[3], newer[2], older[0], oldest[2]);
        let fourth = mixed(first, newer[3], older[1], oldest[3]);
        Window {
            oldest: older,
            older: newer,
            newer: newest,
            newest: [first, second, third, fourth],
        }
    }
}

// Four words on, and four rounds over them.
fn next_rounds<F: RoundFunction>(s: [u32; 5], k: u32, w: Window) -> ([u32; 5], Window)
    ensures state { result.0 ≡ rounds_over F.gives k 1 s w }
    ensures words { result.1 ≡ onward 1 w }
{
    let w = w.advanced();
    (four_rounds::<F>(s, k, w.newest), w)
}

// Twenty words on, and twenty rounds over them. As a call, which passes the words through memory, it made hashing a tenth slower.
#[inline(always)]
fn twenty_rounds<F: RoundFunction>(s: [u32; 5], k: u32, w: Window) -> ([u32; 5], Window)
    ensures state { result.0 ≡ rounds_over F.gives k 5 s w }
    ensures words { result.1 ≡ onward 5 w }
{
    let (s, w) = next_rounds::<F>(s, k, w);
    let (s, w) = next_rounds::<F>(s, k, w);
    let (s, w) = next_rounds::<F>(s, k, w);
    let (s, w) = next_rounds::<F>(s, k, w);
    next_rounds::<F>(s, k, w)
}

// The rounds 0 to 39, from the window of the words 0 to 15 to that of the words 24 to 39. With all eighty in one function hashing was a twentieth slower.
fn first_half(s: [u32; 5], w: Window) -> ([u32; 5], Window)
    ensures state { result.0 ≡ rounds_over parity (constant 20) 5 (rounds_over choice (constant 0) 1 (first_rounds s w) w) (onward 1 w) }
    ensures words { result.1 ≡ onward 6 w }
{
    let s = four_rounds::<Choice>(s, K0, w.oldest);
    let s = four_rounds::<Choice>(s, K0, w.older);
    let s = four_rounds::<Choice>(s, K0, w.newer);
    let s = four_rounds::<Choice>(s, K0, w.newest);
    let (s, w) = next_rounds::<Choice>(s, K0, w);
    twenty_rounds::<Parity>(s, K20, w)
}

// The rounds 40 to 79, over the words that follow the window of the words 24 to 39.
fn second_half(s: [u32; 5], w: Window) -> [u32; 5]
    ensures { result ≡ rounds_over parity (constant 60) 5 (rounds_over majority (constant 40) 5 s w) (onward 5 w) }
{
    let (s, w) = twenty_rounds::<Majority>(s, K40, w);
    let (s, _) = twenty_rounds::<Parity>(s, K60, w);
    s
}

// The five sums of two hash values.
fn sum(s: [u32; 5], h: [u32; 5]) -> [u32; 5]
    ensures { result ≡ sums s h }
{
    array::from_fn(|i| s[i].wrapping_add(h[i]))
}

// Works a block into the hash value, in place: handed over by value, its five words would be written one by one and read as one piece, for which the processor waits.
pub(crate) fn work_in(words: &mut [u32; 5], block: &[u8; 64])
    ensures { words.new ≡ compress words.old block.now }
{
    let h = *words;
    let (s, w) = first_half(h, Window::first(block));
    *words = sum(second_half(s, w), h);
}
