// Owners and entries: who may sign, and who may begin a chain.
ghost use Rattle.std.specs.Prelude.{◌≡◌, ◌&&◌, []};
ghost use Rattle.std.specs.Str.{bytes_eq};
ghost use Rattle.records.specs.Applicability.{applicable};
ghost use Rattle.machine.specs.Delegation.{is_owner, is_entered, may_begin};
ghost use Rattle.delegation.specs.Given.{tables_of};

use crate::hashes::is_same;
use crate::types::Question;
use records::Entry;

impl Question<'_> {
    pub(crate) fn is_owner(&self, hash: &[u8; 20]) -> bool
        ensures { result ≡ is_owner self.now.tables.owners hash.now }
    {
        self.owners.iter().any(|owner| is_same(owner, hash))
    }

    // Whether the entry allows this subject that name now.
    fn allows(&self, entry: &Entry, hash: &[u8; 20]) -> bool
        ensures { result ≡ (bytes_eq entry.now.subject hash.now && applicable entry.now.scope self.now.clock self.now.name) }
    {
        is_same(&entry.subject, hash) && self.applies(&entry.scope)
    }

    pub(crate) fn is_entered(&self, hash: &[u8; 20]) -> bool
        ensures { result ≡ is_entered self.now.tables.entries self.now.clock self.now.name hash.now }
    {
        self.entries.iter().any(|entry| self.allows(entry, hash))
    }

    // Whether an entry with its flag names the hash.
    fn may_delegate(&self, hash: &[u8; 20]) -> bool
        ensures { result ≡ may_begin (tables_of [] self.now.tables.entries []) self.now.clock self.now.name hash.now }
    {
        self.entries
            .iter()
            .any(|entry| entry.scope.delegate && self.allows(entry, hash))
    }

    // Whether a chain may begin with the hash.
    pub(crate) fn may_begin(&self, hash: &[u8; 20]) -> bool
        ensures { result ≡ may_begin self.now.tables self.now.clock self.now.name hash.now }
    {
        self.is_owner(hash) || self.may_delegate(hash)
    }
}
