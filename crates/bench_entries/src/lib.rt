// An entry that the benchmark in tools/bench links, and no device.
#![tactic(auto)]

ghost use Rattle.std.specs.Prelude.{◌≡◌, cond, eqb, length};
ghost use Rattle.sha1_hmac.specs.Message.{digest as digest_of};

// Writes the SHA-1 of `text` into `digest`. Answers 0, or 402 where `digest` is not 20 bytes and is left as it was: C reads a number.
#[unsafe(no_mangle)]
pub extern "C" fn bench_sha1(text: &[u8], digest: &mut [u8]) -> u32
    ensures answer { result ≡ cond (eqb (length digest.old) 20) 0 402 }
    ensures output { digest.new ≡ cond (eqb (length digest.old) 20) (digest_of text.now) digest.old }
{
    if digest.len() != 20 {
        return 402;
    }
    digest.copy_from_slice(&sha1_hmac::sha1(text));
    0
}
