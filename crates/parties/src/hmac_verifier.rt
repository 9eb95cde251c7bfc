ghost use Rattle.std.specs.Prelude.{◌≡◌, Decides};
ghost use Rattle.sha1_hmac.specs.Keyed.{hmac_of};
ghost use Rattle.parties.specs.Standing.{hmac_stands, OtherLengthsNeverStand};
ghost use Rattle.std.proofs.Common.{refl};
ghost use Rattle.std.proofs.lemmas.Bool.{leb-true};

use crate::bytes::same_in_constant_time;
use crate::verifier::Verifier;
use sha1_hmac::hmac;

// Accepts the HMAC-SHA1 tag of the text under the key.
#[derive(Clone, Copy)]
pub struct HmacVerifier;

impl Verifier for HmacVerifier {
    const TAG_LENGTH: usize = 20;

    ghost width = { 20 };

    ghost stands = { λ _. hmac_stands };

    ghost from_1_to_20_bytes = { (leb-true 1 20 refl, leb-true 20 20 refl) };

    fn tag_width() -> usize {
        Self::TAG_LENGTH
    }

    fn verify(&self, key: &[u8; 20], text: &[u8], tag: &[u8]) -> bool
        ensures says_whether_it_stands { result ≡ hmac_stands key.now text.now tag.now }
        ensures other_lengths_never_stand { OtherLengthsNeverStand 20 hmac_stands }
        ensures accepts_the_hmac_and_no_other_tag { Decides result (tag.now ≡ hmac_of key.now text.now) }
    {
        let Some(tag) = tag.as_array() else {
            return false;
        };
        same_in_constant_time(&hmac(*key, text), tag)
    }
}
