#![tactic(auto)]

ghost use Rattle.std.specs.Prelude.{◌≡◌};
ghost use Rattle.sha1_hmac.specs.Message.{digest};
ghost use Rattle.sha1_hmac.specs.Keyed.{hmac_of};

mod compression;
mod keyed;
mod stream;

pub use keyed::{Hmac, key_from};
pub use stream::Sha1;
use stream::absorbed;

// SHA-1 of a text.
pub fn sha1(text: &[u8]) -> [u8; 20]
    ensures digests { result ≡ digest text.now }
{
    absorbed(text).finish()
}

// HMAC-SHA1 of a text under a key. A shorter key has zeros behind it.
pub fn hmac(key: [u8; 20], text: &[u8]) -> [u8; 20]
    ensures authenticates { result ≡ hmac_of key text.now }
{
    let mut state = Hmac::new(key);
    state.update(text);
    state.finish()
}
