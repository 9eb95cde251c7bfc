// The fields of a header: numbers of two to eight bytes, the highest first, and a hash. Bytes and a place are no struct: each function
// asks for as many bytes as its width, so that no one invariant would serve all.
ghost use Rattle.std.specs.Prelude.{◌≡◌, ◌+◌, ◌≤◌, length, take, drop};
ghost use Rattle.wire.specs.Envelope.{number_at};

// The N bytes from `at` on. `records` has the same: one for both would be public, and a public function of a crate asks nothing of its callers.
pub(crate) fn array_at<const N: usize>(bytes: &[u8], at: usize) -> [u8; N]
    requires { at + N ≤ length bytes.now }
    ensures { result ≡ take N (drop at bytes.now) }
{
    let mut out = [0; N];
    out.copy_from_slice(&bytes[at..at + N]);
    out
}

// A trait of the three widths would have these three lines as its impls.
#[tactic(auto, unfolding(crate::specs::Envelope::number_at))]
pub(crate) fn u16_at(bytes: &[u8], at: usize) -> u16
    requires { at + 2 ≤ length bytes.now }
    ensures { result ≡ number_at at 2 bytes.now }
{
    u16::from_be_bytes(array_at(bytes, at))
}

#[tactic(auto, unfolding(crate::specs::Envelope::number_at))]
pub(crate) fn u32_at(bytes: &[u8], at: usize) -> u32
    requires { at + 4 ≤ length bytes.now }
    ensures { result ≡ number_at at 4 bytes.now }
{
    u32::from_be_bytes(array_at(bytes, at))
}

#[tactic(auto, unfolding(crate::specs::Envelope::number_at))]
pub(crate) fn u64_at(bytes: &[u8], at: usize) -> u64
    requires { at + 8 ≤ length bytes.now }
    ensures { result ≡ number_at at 8 bytes.now }
{
    u64::from_be_bytes(array_at(bytes, at))
}
