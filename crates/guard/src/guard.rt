// The public calls of the guard.
ghost use Rattle.std.specs.Prelude.{◌≡◌, ℕ, false, Option};
ghost use Rattle.parties.specs.Commands.{Command};
ghost use Rattle.machine.specs.Machine.{is_accepted};
ghost use Rattle.guard.specs.View.{view, brought, taken};
ghost use Rattle.guard.specs.Call.{Stepped, LawfulOn, Begins};

use crate::screening::kind_asked;
use crate::types::{Delivery, Guard};
use parties::service::Service;
use parties::verifier::Verifier;
use records::{Certificate, Entry, Scope};
use refusal::Refusal;
use requests::receive;
use sessions::Session;
use tables::Table;

impl Guard {
    // A guard with empty tables. A password of fewer than 20 bytes is filled up with zeros.
    pub fn new(device: [u8; 20], password: [u8; 20], base: u64) -> Guard
        ensures a_history_begins { (done : ℕ) (last : Option Command) → Begins device password base done last (view result done last) }
    {
        let scope = Scope {
            delegate: false,
            not_before: 0,
            not_after: 0,
            term_length: 0,
            term: [0; 48],
        };
        let hash = [0; 20];
        Guard {
            device,
            password,
            base,
            owners: Table::new(hash),
            entries: Table::new(Entry {
                subject: hash,
                scope,
            }),
            certificates: Table::new(Certificate {
                issuer: hash,
                subject: hash,
                device: hash,
                scope,
            }),
            sessions: Table::new(Session::default()),
        }
    }

    // Answers a delivery, and has the service do what it asks for where it is accepted.
    pub fn deliver<V: Verifier, P: Verifier, S: Service>(
        &mut self,
        delivery: &Delivery<V, P>,
        service: &mut S,
    ) -> Result<(), Refusal>
        ensures is_the_machines_step { Stepped (view self.old (S.Service.done service.old) (S.Service.last service.old)) (brought V.Verifier.width V.Verifier.stands P.Verifier.width P.Verifier.stands delivery.now) (taken (S.Service.verdict service.old) (brought V.Verifier.width V.Verifier.stands P.Verifier.width P.Verifier.stands delivery.now)) result (view self.new (S.Service.done service.new) (S.Service.last service.new)) }
        ensures lawful_after_every_history { LawfulOn (view self.old (S.Service.done service.old) (S.Service.last service.old)) (brought V.Verifier.width V.Verifier.stands P.Verifier.width P.Verifier.stands delivery.now) (taken (S.Service.verdict service.old) (brought V.Verifier.width V.Verifier.stands P.Verifier.width P.Verifier.stands delivery.now)) result (view self.new (S.Service.done service.new) (S.Service.last service.new)) }
        ensures refusal_leaves_the_service_untouched { is_accepted result ≡ false → service.new ≡ service.old }
    {
        let request = receive::<V, P>(delivery.envelope)?;
        let kind = kind_asked(&request.arguments);
        let place = self.screen(&request, kind, delivery)?;
        self.consume(place, request.number);
        self.act(&request, delivery, service)
    }
}
