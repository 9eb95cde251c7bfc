// Whether a signer is authorised: by ownership, by an entry, or by a chain of certificates of any length.
#![tactic(auto)]

mod chain;
mod hashes;
mod roots;
mod types;

ghost use Rattle.std.specs.Prelude.{◌≡◌, Decides};
ghost use Rattle.permission.specs.Names.{IsName};
ghost use Rattle.machine.specs.Delegation.{Authorised, authorised, kept_in};
ghost use Rattle.delegation.specs.Given.{tables_of};

use records::{Certificate, Entry};
use tables::Table;
use types::Question;

pub fn is_authorised(
    owners: &Table<[u8; 20], 8>,
    entries: &Table<Entry, 32>,
    certificates: &Table<Certificate, 16>,
    clock: u64,
    name: &[u8],
    signer: &[u8; 20],
) -> bool
    ensures as_defined { result ≡ authorised (tables_of owners.now entries.now certificates.now) clock name.now signer.now }
    ensures is_the_relation { IsName name.now → Decides result (Authorised (kept_in (tables_of owners.now entries.now certificates.now)) clock name.now signer.now) }
{
    let question = Question {
        owners: owners.as_slice(),
        entries: entries.as_slice(),
        links: certificates.as_slice(),
        clock,
        name,
        signer,
    };
    question.is_authorised()
}
