ghost use Rattle.std.specs.Prelude.{◌≡◌, ◌≤◌, MatchOption, MatchResult, Some, None};
ghost use Rattle.refusal.specs.declared.Refusal.TheVariants.{Malformed};

use parties::verifier::Verifier;
use refusal::Refusal;

// Who signed an envelope, which decides what its header says of the signer and how long its tag is. The first byte of an
// envelope is the number of its kind.
#[derive(Clone, Copy, PartialEq, Eq, Debug)]
pub enum Kind {
    // No one: the envelope has no tag.
    Unmarked = 0,
    // A session, by its key.
    Session = 1,
    // A public key.
    PublicKey = 2,
}

impl TryFrom<u8> for Kind {
    type Error = Refusal;

    ghost use Rattle.wire.specs.Envelope.{kind_numbered};

    ghost try_from_gives = { λ number r. MatchOption (kind_numbered number) (MatchResult r (λ _. ⊥) (λ why. why ≡ Malformed)) (λ kind. MatchResult r (λ k. k ≡ kind) (λ _. ⊥)) };

    fn try_from(number: u8) -> Result<Kind, Refusal> {
        match number {
            0 => Ok(Kind::Unmarked),
            1 => Ok(Kind::Session),
            2 => Ok(Kind::PublicKey),
            _ => Err(Refusal::Malformed),
        }
    }
}

impl Kind {
    ghost use Rattle.wire.specs.Envelope.{number_of};

    // The first byte of an envelope of this kind.
    pub(crate) fn number(self) -> u8
        ensures { result ≡ number_of self }
    {
        self as u8
    }
}

// How long the tags are: those of the session verifier, and those of the public verifier.
#[derive(Clone, Copy)]
pub struct TagLengths {
    pub session: usize,
    pub public: usize,
    ghost at_most_20: { (session ≤ 20) × (public ≤ 20) },
}

impl TagLengths {
    ghost use Rattle.wire.specs.Envelope.{tag_width};

    pub fn of<S: Verifier, P: Verifier>() -> TagLengths
        ensures session { result.session ≡ S.Verifier.width }
        ensures public { result.public ≡ P.Verifier.width }
    {
        TagLengths {
            session: S::tag_width(),
            public: P::tag_width(),
        }
    }

    // How long the tag is, by who signed.
    pub fn for_kind(self, kind: Kind) -> usize
        ensures as_defined { result ≡ tag_width self.session self.public kind }
        ensures at_most_20 { result ≤ 20 }
    {
        match kind {
            Kind::Unmarked => 0,
            Kind::Session => self.session,
            Kind::PublicKey => self.public,
        }
    }
}
