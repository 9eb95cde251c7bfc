ghost use Rattle.std.specs.Prelude.{◌≡◌, ◌≤◌, ◌&&◌, length, Decides, ◌==◌};
ghost use Rattle.sha1_hmac.specs.Message.{digest};
ghost use Rattle.parties.specs.Standing.{agrees, one_agrees, OneAgrees, signature_stands, OtherLengthsNeverStand};
ghost use Rattle.std.proofs.Common.{refl};
ghost use Rattle.std.proofs.lemmas.Bool.{leb-true};

use crate::bytes::same_in_constant_time;
use crate::verifier::Verifier;
use sha1_hmac::sha1;

// A signature that the secure element has verified: by whose key, over which text, and the tag.
#[derive(Clone, Copy)]
pub struct VerifiedSignature {
    pub key_hash: [u8; 20],
    pub text_digest: [u8; 20],
    pub tag: [u8; 20],
}

// Accepts the tags of the signatures on a list that the secure element lends.
#[derive(Clone, Copy)]
pub struct VerifiedSignatures<'a> {
    pub list: &'a [VerifiedSignature],
}

impl VerifiedSignature {
    fn agrees(&self, key: &[u8; 20], text_digest: &[u8; 20], tag: &[u8; 20]) -> bool
        ensures { result ≡ agrees key.now text_digest.now tag.now self.now }
    {
        same_in_constant_time(&self.key_hash, key)
            & same_in_constant_time(&self.text_digest, text_digest)
            & same_in_constant_time(&self.tag, tag)
    }
}

impl Verifier for VerifiedSignatures<'_> {
    const TAG_LENGTH: usize = 20;

    ghost width = { 20 };

    ghost stands = { λ s. signature_stands s.list.now };

    ghost from_1_to_20_bytes = { (leb-true 1 20 refl, leb-true 20 20 refl) };

    fn tag_width() -> usize
        ensures is_the_width { result ≡ 20 }
        ensures has_1_to_20_bytes { (1 ≤ 20) × (20 ≤ 20) }
    {
        Self::TAG_LENGTH
    }

    fn verify(&self, key: &[u8; 20], text: &[u8], tag: &[u8]) -> bool
        ensures says_whether_it_stands { result ≡ signature_stands self.now.list.now key.now text.now tag.now }
        ensures other_lengths_never_stand { OtherLengthsNeverStand 20 (signature_stands self.now.list.now) }
        ensures accepts_what_one_agrees_with_in_all_three_parts { Decides result ((length tag.now ≡ 20) × OneAgrees key.now (digest text.now) tag.now self.now.list.now) }
    {
        let Some(tag) = tag.as_array() else {
            return false;
        };
        let text_digest = sha1(text);
        self.list
            .iter()
            .any(|signature| signature.agrees(key, &text_digest, tag))
    }
}
