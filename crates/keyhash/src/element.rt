// The text of a key hash as consoles send it: the escaped hash element, 119 bytes.
ghost use Rattle.std.specs.Prelude.{◌≡◌, ◌≢◌, ℕ, List, ◌++◌, length, drop, Ok, Err, IfSome, IfNone, Decides};
ghost use Rattle.refusal.specs.declared.Refusal.TheVariants.{Malformed};
ghost use Rattle.keyhash.specs.Canonical.{Canonical};
ghost use Rattle.keyhash.specs.Base64.{StrayBits};
ghost use Rattle.keyhash.specs.Element.{opening, closing, element, reading_element};

use crate::base64;
use refusal::Refusal;

// What stands before the 28 characters of the value, and after them.
pub const OPENING: &[u8; 64] = b"&lt;hash&gt;&lt;algorithm&gt;SHA1&lt;/algorithm&gt;&lt;value&gt;";

pub const CLOSING: &[u8; 27] = b"&lt;/value&gt;&lt;/hash&gt;";

// Where the value begins and ends, and the length of the whole.
const VALUE: usize = 64;

const VALUE_END: usize = 92;

pub const LENGTH: usize = 119;

// The element of a hash.
pub fn write(hash: [u8; 20]) -> [u8; 119]
    ensures canonical_text { result ≡ element hash }
    ensures reads_back { reading_element result ≡ Ok hash }
{
    let mut out = [0; LENGTH];
    out[..VALUE].copy_from_slice(OPENING);
    out[VALUE..VALUE_END].copy_from_slice(&base64::encode(hash));
    out[VALUE_END..].copy_from_slice(CLOSING);
    out
}

// Whether two texts of one length are the same bytes. Every byte is looked at, so that the loop has no branch.
fn same<const N: usize>(a: &[u8; N], b: &[u8; N]) -> bool
    ensures { Decides result (a.now ≡ b.now) }
{
    a.iter().zip(b).fold(true, |all, (x, y)| all & (x == y))
}

// What stands between the opening and the closing. Arrays of constant sizes are compared: with `strip_prefix` and `strip_suffix` reading is slower than plain Rust.
fn value_in(bytes: &[u8]) -> Option<&[u8; 28]>
    ensures some { IfSome result (λ value. (length value.now ≡ 28) × (bytes.now ≡ opening ++ (value.now ++ closing))) }
    ensures none { IfNone result ((value : List ℕ) → length value ≡ 28 → bytes.now ≢ opening ++ (value ++ closing)) }
{
    let whole: &[u8; LENGTH] = bytes.as_array()?;
    let (opening, rest) = whole.split_first_chunk::<VALUE>()?;
    let (value, closing) = rest.split_first_chunk()?;
    let closing = closing.as_array()?;
    if same(opening, OPENING) && same(closing, CLOSING) {
        Some(value)
    } else {
        None
    }
}

// The hash of which the bytes are the element.
pub fn read(bytes: &[u8]) -> Result<[u8; 20], Refusal>
    ensures as_defined { result ≡ reading_element bytes.now }
    ensures reader_and_writer_are_inverse { Canonical element reading_element }
    ensures stray_bits_are_refused { StrayBits (drop 64 bytes.now) → result ≡ Err Malformed }
{
    let value = value_in(bytes).ok_or(Refusal::Malformed)?;
    base64::decode(*value)
}
