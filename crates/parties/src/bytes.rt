ghost use Rattle.std.specs.Prelude.{◌≡◌, Decides, fold, bit_or, bit_xor};
ghost use Rattle.std.specs.List.{zip};
ghost use Rattle.std.specs.Str.{bytes_eq};

// The bits in which two byte strings differ somewhere.
fn differing_bits(a: &[u8; 20], b: &[u8; 20]) -> u8
    ensures { result ≡ fold (λ bits p. bit_or bits (bit_xor p.0 p.1)) 0 (zip a.now b.now) }
{
    a.iter().zip(b).fold(0, |bits, (x, y)| bits | (x ^ y))
}

// Whether two byte strings are equal. Every byte is looked at, wherever the first difference lies, so the time tells nothing.
// By itself it is made of vectors; put in where it is called, the bytes are taken one by one, and a list of signatures is searched in five
// times the time.
#[inline(never)]
pub(crate) fn same_in_constant_time(a: &[u8; 20], b: &[u8; 20]) -> bool
    ensures test { result ≡ bytes_eq a.now b.now }
    ensures decides { Decides result (b.now ≡ a.now) }
{
    differing_bits(a, b) == 0
}
