// Stages 7 to 9: who may, and what an accepted request does.
ghost use Rattle.std.specs.Prelude.{◌≡◌, ◌+◌, false, [], if◌then◌else◌, Some, None};
ghost use Rattle.refusal.specs.declared.Refusal.TheVariants.{NotAuthorised, NotTaken};
ghost use Rattle.parties.specs.Commands.{command};
ghost use Rattle.actions.specs.Views.{saying};
ghost use Rattle.machine.specs.Delegation.{is_owner, authorised};
ghost use Rattle.machine.specs.Machine.{accepted, is_accepted, passing, decided, command_asked, done_after, last_after, tables_of};
ghost use Rattle.requests.specs.Received.{signed_by};
ghost use Rattle.guard.specs.View.{alone, brought, opened_as, taken_of, Acted};

use crate::owning::{add_entry, delete_entry, grant, require_owner, revoke, take_ownership};
use crate::signing::{cache, expire_session, open_session};
use crate::types::{Delivery, Guard};
use actions::types::Arguments;
use delegation::is_authorised;
use parties::command::CommandView;
use parties::service::Service;
use parties::verifier::Verifier;
use refusal::Refusal;
use requests::Request;

impl Guard {
    // Empties all four tables; base and password stay.
    fn reset(&mut self, signer: &[u8; 20]) -> Result<(), Refusal>
        ensures answer { result ≡ passing (is_owner self.old.owners signer.now) NotAuthorised accepted }
        ensures owners { self.new.owners ≡ (if is_accepted result then [] else self.old.owners) }
        ensures entries { self.new.entries ≡ (if is_accepted result then [] else self.old.entries) }
        ensures certificates { self.new.certificates ≡ (if is_accepted result then [] else self.old.certificates) }
        ensures sessions { self.new.sessions ≡ (if is_accepted result then [] else self.old.sessions) }
        ensures nothing_else { (self.new.device ≡ self.old.device) × (self.new.password ≡ self.old.password) × (self.new.base ≡ self.old.base) }
    {
        require_owner(&self.owners, signer)?;
        self.owners.clear();
        self.entries.clear();
        self.certificates.clear();
        self.sessions.clear();
        Ok(())
    }

    // Commands the service for an authorised signer.
    fn perform<S: Service>(
        &self,
        signer: &[u8; 20],
        name: &[u8],
        payload: &[u8],
        clock: u64,
        service: &mut S,
    ) -> Result<(), Refusal>
        ensures answer { result ≡ passing (authorised (tables_of (alone self.now)) clock name.now signer.now) NotAuthorised (passing (S.Service.verdict service.old (command name.now payload.now clock)) NotTaken accepted) }
        ensures done { S.Service.done service.new ≡ (if is_accepted result then S.Service.done service.old + 1 else S.Service.done service.old) }
        ensures last { S.Service.last service.new ≡ (if is_accepted result then Some (command name.now payload.now clock) else S.Service.last service.old) }
        ensures untouched { is_accepted result ≡ false → service.new ≡ service.old }
    {
        if !is_authorised(
            &self.owners,
            &self.entries,
            &self.certificates,
            clock,
            name,
            signer,
        ) {
            return Err(Refusal::NotAuthorised);
        }
        service.perform(CommandView {
            name,
            payload,
            clock,
        })?;
        Ok(())
    }

    // One function for each action, most of them over one table.
    pub(crate) fn act<V: Verifier, P: Verifier, S: Service>(
        &mut self,
        request: &Request,
        delivery: &Delivery<V, P>,
        service: &mut S,
    ) -> Result<(), Refusal>
        ensures answer { result ≡ decided (alone self.old) (opened_as (signed_by request.now) (brought V.Verifier.width V.Verifier.stands P.Verifier.width P.Verifier.stands delivery.now)) (taken_of (S.Service.verdict service.old) (command_asked delivery.now.clock (saying request.now.arguments))) (saying request.now.arguments) }
        ensures tables { Acted (signed_by request.now) (saying request.now.arguments) result self.old self.new }
        ensures done { S.Service.done service.new ≡ (if is_accepted result then done_after (command_asked delivery.now.clock (saying request.now.arguments)) (S.Service.done service.old) else S.Service.done service.old) }
        ensures last { S.Service.last service.new ≡ (if is_accepted result then last_after (command_asked delivery.now.clock (saying request.now.arguments)) (S.Service.last service.old) else S.Service.last service.old) }
        ensures untouched { is_accepted result ≡ false → service.new ≡ service.old }
        ensures idle { command_asked delivery.now.clock (saying request.now.arguments) ≡ None → service.new ≡ service.old }
    {
        let signer = &request.signer;
        match request.arguments {
            Arguments::TakeOwnership { proof } => take_ownership(
                &mut self.owners,
                &self.password,
                request.key_number,
                signer,
                proof,
                delivery.session,
            ),
            Arguments::SetSessionKeys { key } => open_session(&mut self.sessions, request, key),
            Arguments::ExpireSessionKeys => {
                expire_session(&mut self.sessions, request);
                Ok(())
            }
            Arguments::GrantOwnership { hash } => grant(&mut self.owners, signer, hash),
            Arguments::RevokeOwnership { hash } => revoke(&mut self.owners, signer, hash),
            Arguments::AddAclEntry { entry } => {
                add_entry(&self.owners, &mut self.entries, signer, entry)
            }
            Arguments::DeleteAclEntry { entry } => {
                delete_entry(&self.owners, &mut self.entries, signer, entry)
            }
            Arguments::CacheCertificate {
                certificate,
                bytes,
                issuer_tag,
            } => cache(
                &mut self.certificates,
                &self.device,
                certificate,
                bytes,
                issuer_tag,
                delivery.public,
            ),
            Arguments::FactorySecurityReset => self.reset(signer),
            Arguments::Perform { name, payload } => {
                self.perform(signer, name, payload, delivery.clock, service)
            }
        }
    }
}
