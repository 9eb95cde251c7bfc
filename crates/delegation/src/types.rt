// What is asked of the tables, and what the search finds out of a certificate.
ghost use Rattle.std.specs.Prelude.{◌≡◌};
ghost use Rattle.records.specs.Applicability.{applicable};
ghost use Rattle.delegation.specs.Marks.{leads};

use records::{Certificate, Entry, Scope};
use std::marker::Model;

// Whether the signer may use the name at that reading of the clock, by what the three tables keep.
#[derive(Drop)]
pub(crate) struct Question<'a> {
    pub(crate) owners: &'a [[u8; 20]],
    pub(crate) entries: &'a [Entry],
    pub(crate) links: &'a [Certificate],
    pub(crate) clock: u64,
    pub(crate) name: &'a [u8],
    pub(crate) signer: &'a [u8; 20],
}

impl<'a> Model for Question<'a> {
    ghost use Rattle.std.specs.Prelude.{◌≤◌, length};
    ghost use Rattle.delegation.specs.Given.{Asked, tables_of};

    ghost Value = { Asked };

    ghost view = { λ q. record { tables = tables_of q.owners.now q.entries.now q.links.now; clock = q.clock; name = q.name.now; signer = q.signer.now } };

    // There is a mark for each certificate.
    ghost invariant = { λ q. length q.links.now ≤ 16 };
}

impl Question<'_> {
    pub(crate) fn applies(&self, scope: &Scope) -> bool
        ensures { result ≡ applicable scope.now self.now.clock self.now.name }
    {
        scope.applies(self.clock, self.name)
    }
}

#[derive(Clone, Copy, PartialEq, Eq, Debug)]
pub enum Mark {
    // nothing yet
    Untried,
    // it leads to the signer, and its issuer is yet to be followed
    Open,
    // it leads to the signer, and all that name its issuer and apply, with their flag, are marked
    Followed,
    // it does not apply
    Void,
}

impl Mark {
    pub(crate) fn leads(self) -> bool
        ensures { result ≡ leads self }
    {
        matches!(self, Mark::Open | Mark::Followed)
    }
}
