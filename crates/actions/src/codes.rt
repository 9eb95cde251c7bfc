// The code of each action, and the kind of envelope that it comes in.
ghost use Rattle.std.specs.Prelude.{◌≡◌, Ok, Err, MatchOption};
ghost use Rattle.refusal.specs.declared.Refusal.TheVariants.{UnknownAction};
ghost use Rattle.actions.specs.Codes.{action_of, code_of, kind_for, OneCodeForEach};

use crate::types::Action;
use refusal::Refusal;
use wire::types::Kind;

// The action with this code.
impl TryFrom<u8> for Action {
    type Error = Refusal;

    ghost try_from_gives = { λ code r. MatchOption (action_of code) (r ≡ Err UnknownAction) (λ action. r ≡ Ok action) };

    #[tactic(auto, unfolding(crate::specs::Codes::action_of))]
    fn try_from(code: u8) -> Result<Action, Refusal> {
        match code {
            0x01 => Ok(Action::TakeOwnership),
            0x02 => Ok(Action::SetSessionKeys),
            0x03 => Ok(Action::ExpireSessionKeys),
            0x04 => Ok(Action::GrantOwnership),
            0x05 => Ok(Action::RevokeOwnership),
            0x06 => Ok(Action::AddAclEntry),
            0x07 => Ok(Action::DeleteAclEntry),
            0x08 => Ok(Action::CacheCertificate),
            0x09 => Ok(Action::FactorySecurityReset),
            0x0A => Ok(Action::Perform),
            _ => Err(Refusal::UnknownAction),
        }
    }
}

impl Action {
    pub fn code(self) -> u8
        ensures as_defined { result ≡ code_of self }
        ensures one_code_for_each { OneCodeForEach }
    {
        self as u8
    }

    // The first two come under a public key, since there is no session yet.
    pub fn kind(self) -> Kind
        ensures as_defined { result ≡ kind_for self }
    {
        match self {
            Action::TakeOwnership | Action::SetSessionKeys => Kind::PublicKey,
            Action::ExpireSessionKeys
            | Action::GrantOwnership
            | Action::RevokeOwnership
            | Action::AddAclEntry
            | Action::DeleteAclEntry
            | Action::CacheCertificate
            | Action::FactorySecurityReset
            | Action::Perform => Kind::Session,
        }
    }
}
