// A public verifier whose tags are shorter than those of the session verifier.
ghost use Rattle.std.specs.Prelude.{false};
ghost use Rattle.std.proofs.Common.{refl};
ghost use Rattle.std.proofs.lemmas.Bool.{leb-true};

use parties::verifier::Verifier;

pub struct SixteenBytes;

impl Verifier for SixteenBytes {
    const TAG_LENGTH: usize = 16;

    ghost width = { 16 };

    ghost stands = { λ _ _ _ _. false };

    ghost from_1_to_20_bytes = { (leb-true 1 16 refl, leb-true 16 20 refl) };

    fn tag_width() -> usize {
        Self::TAG_LENGTH
    }

    fn verify(&self, _key: &[u8; 20], _text: &[u8], _tag: &[u8]) -> bool {
        false
    }
}
