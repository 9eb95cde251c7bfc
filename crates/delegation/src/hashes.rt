// Hashes compared by words: three of eight bytes, of which the last two overlap.
ghost use Rattle.std.specs.Prelude.{◌≡◌, ◌+◌, ◌≤◌, take, drop};
ghost use Rattle.std.specs.Int.Digits.{number_from_digits};
ghost use Rattle.std.specs.Str.{bytes_eq};

fn word_at(hash: &[u8; 20], at: usize) -> u64
    requires { at + 8 ≤ 20 }
    ensures { result ≡ number_from_digits 256 (take 8 (drop at hash.now)) }
{
    let mut word = [0; 8];
    word.copy_from_slice(&hash[at..at + 8]);
    u64::from_be_bytes(word)
}

// Two hashes mostly differ in the first word. With `==`, which takes all twenty bytes, the search over a chain takes twice as long.
pub(crate) fn is_same(one: &[u8; 20], other: &[u8; 20]) -> bool
    ensures { result ≡ bytes_eq one.now other.now }
{
    if word_at(one, 0) != word_at(other, 0) {
        return false;
    }
    (word_at(one, 8) == word_at(other, 8)) & (word_at(one, 12) == word_at(other, 12))
}
