ghost use Rattle.std.specs.Prelude.{◌≡◌, ℕ, List, [], ◌++◌, IfSome};
ghost use Rattle.sha1_hmac.specs.Keyed.{masked, hmac_of, Authenticates, key_from};
ghost use Rattle.sha1_hmac.specs.Laws.{ZerosDoNotChangeAKey};

use crate::stream::{Sha1, absorbed};

// The bytes of the inner and the outer pad.
const IPAD: u8 = 0x36;

const OPAD: u8 = 0x5c;

// HMAC-SHA1 of a text that comes in parts.
#[derive(Clone, Copy)]
pub struct Hmac {
    inner: Sha1,
    outer: Sha1,
}

// The key with zeros up to a block, each byte xor `mask`.
fn mask_key(key: [u8; 20], mask: u8) -> [u8; 64]
    ensures masks { result ≡ masked mask key }
    ensures zeros_do_not_change_a_key { ZerosDoNotChangeAKey }
{
    let mut block = [0; 64];
    block[..20].copy_from_slice(&key);
    for byte in &mut block {
        *byte ^= mask;
    }
    block
}

// The key of at most 20 bytes, with zeros behind them. There is none of more bytes.
pub fn key_from(bytes: &[u8]) -> Option<[u8; 20]>
    ensures as_defined { result ≡ key_from bytes.now }
    ensures gives_the_tags_of_the_bytes { IfSome result (λ key. (text : List ℕ) → hmac_of key text ≡ hmac_of bytes.now text) }
{
    if bytes.len() > 20 {
        return None;
    }
    let mut key = [0; 20];
    key[..bytes.len()].copy_from_slice(bytes);
    Some(key)
}

impl Hmac {
    // Before any text. A shorter key has zeros behind it.
    pub fn new(key: [u8; 20]) -> Hmac
        ensures absorbed_nothing { Authenticates result key [] }
        ensures zeros_do_not_change_a_key { ZerosDoNotChangeAKey }
    {
        let inner = absorbed(&mask_key(key, IPAD));
        let outer = absorbed(&mask_key(key, OPAD));
        Hmac { inner, outer }
    }

    // Takes in the next part of the text.
    pub fn update(&mut self, part: &[u8])
        ensures absorbs { (key text : List ℕ) → Authenticates self.old key text → Authenticates self.new key (text ++ part.now) }
    {
        self.inner.update(part);
    }

    // The tag of the text absorbed.
    pub fn finish(self) -> [u8; 20]
        ensures authenticates { (key text : List ℕ) → Authenticates self key text → result ≡ hmac_of key text }
    {
        let mut outer = self.outer;
        outer.update(&self.inner.finish());
        outer.finish()
    }
}
