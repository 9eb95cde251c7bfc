// Stages 2 to 6: whether a request is authentic and fresh. What passes is consumed.
ghost use Rattle.std.specs.Prelude.{◌≡◌, ◌+◌, ◌<◌, true, false, IfOk, MatchOption, Some, None};
ghost use Rattle.std.specs.List.{position};
ghost use Rattle.sessions.specs.Opened.{used_at};
ghost use Rattle.actions.specs.Views.{saying};
ghost use Rattle.machine.specs.Requests.{kind_asked};
ghost use Rattle.machine.specs.Machine.{accepted, by_session, signs, largest, screened};
ghost use Rattle.requests.specs.Received.{signed_by};
ghost use Rattle.guard.specs.View.{alone, brought, opened_as, unplaced};

use crate::signing::{screen_key, screen_session};
use crate::types::{Delivery, Guard};
use actions::types::Arguments;
use parties::verifier::Verifier;
use refusal::Refusal;
use requests::Request;
use sessions::set_last;
use wire::types::Kind;

// The kind that the action of these arguments asks for.
pub(crate) fn kind_asked(arguments: &Arguments) -> Kind
    ensures { result ≡ kind_asked (saying arguments.now) }
{
    match arguments {
        Arguments::TakeOwnership { .. } | Arguments::SetSessionKeys { .. } => Kind::PublicKey,
        Arguments::ExpireSessionKeys
        | Arguments::GrantOwnership { .. }
        | Arguments::RevokeOwnership { .. }
        | Arguments::AddAclEntry { .. }
        | Arguments::DeleteAclEntry { .. }
        | Arguments::CacheCertificate { .. }
        | Arguments::FactorySecurityReset
        | Arguments::Perform { .. } => Kind::Session,
    }
}

impl Guard {
    // The place of the session that signs the request, where one does, and none where a public key does.
    pub(crate) fn screen<V: Verifier, P: Verifier>(
        &self,
        request: &Request,
        kind: Kind,
        delivery: &Delivery<V, P>,
    ) -> Result<Option<usize>, Refusal>
        ensures answer { unplaced result ≡ screened (alone self.now) (opened_as (signed_by request.now) (brought V.Verifier.width V.Verifier.stands P.Verifier.width P.Verifier.stands delivery.now)) kind }
        ensures place { IfOk result (λ place. MatchOption place (by_session kind ≡ false) (λ i. (by_session kind ≡ true) × (position (signs (signed_by request.now)) self.now.sessions ≡ Some i))) }
    {
        if request.control_number != delivery.control {
            return Err(Refusal::OtherControlNumber);
        }
        if request.kind != kind {
            return Err(Refusal::WrongKind);
        }
        match kind {
            Kind::Session => Ok(Some(screen_session(&self.sessions, request, delivery.session)?)),
            Kind::Unmarked | Kind::PublicKey => {
                screen_key(self.base, request, delivery.public)?;
                Ok(None)
            }
        }
    }

    // Uses up the number of the session at that place, or the lifetime base.
    pub(crate) fn consume(&mut self, place: Option<usize>, number: u64)
        requires { place ≡ None → self.old.base < largest }
        ensures sessions { MatchOption place (self.new.sessions ≡ self.old.sessions) (λ i. self.new.sessions ≡ used_at self.old.sessions i number) }
        ensures base { MatchOption place (self.new.base ≡ self.old.base + 1) (λ _. self.new.base ≡ self.old.base) }
        ensures nothing_else { (self.new.device ≡ self.old.device) × (self.new.password ≡ self.old.password) × (self.new.owners ≡ self.old.owners) × (self.new.entries ≡ self.old.entries) × (self.new.certificates ≡ self.old.certificates) }
    {
        match place {
            Some(i) => {
                set_last(&mut self.sessions, i, number);
            }
            None => self.base += 1,
        }
    }
}
