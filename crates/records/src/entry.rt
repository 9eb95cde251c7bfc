// An entry: 86 bytes, the subject's hash and a scope.
ghost use Rattle.std.specs.Prelude.{◌≡◌, Ok, Decides};
ghost use Rattle.records.specs.Records.{entry_bytes, entry_in};
ghost use Rattle.records.specs.Equality.{same_entry};
ghost use Rattle.records.specs.Inverse.{WellFormedScope, EntriesInverse};
ghost use Rattle.records.specs.Equal.{same_entry_decides};

use crate::bytes::array_at;
use crate::types::{Entry, Scope};
use refusal::Refusal;
use tables::Record;

const SUBJECT: usize = 0;

const SCOPE: usize = 20;

const LENGTH: usize = 86;

impl Entry {
    // The entry that the bytes hold.
    pub fn read(bytes: &[u8]) -> Result<Entry, Refusal>
        ensures as_defined { result ≡ entry_in bytes.now }
        ensures reading_and_writing_are_inverse { EntriesInverse }
    {
        if bytes.len() != LENGTH {
            return Err(Refusal::Malformed);
        }
        let (_, scope) = bytes.split_at(SCOPE);
        Ok(Entry {
            subject: array_at(bytes, SUBJECT),
            scope: Scope::read(scope)?,
        })
    }

    // Its bytes, whatever the fields hold.
    pub fn write(&self) -> [u8; 86]
        ensures as_defined { result ≡ entry_bytes self.now }
        ensures reads_back { WellFormedScope self.now.scope → entry_in result ≡ Ok self.now }
    {
        let mut out = [0; LENGTH];
        let (subject, scope) = out.split_at_mut(SCOPE);
        subject.copy_from_slice(&self.subject);
        scope.copy_from_slice(&self.scope.write());
        out
    }
}

// An entry is its own key.
impl Record for Entry {
    type Key = Entry;

    ghost key = { λ e. e };

    ghost equal = { same_entry };

    ghost decides = { same_entry_decides };

    fn has_key(&self, sought: &Entry) -> bool
        ensures same { result ≡ same_entry self.now sought.now }
        ensures yes_exactly_where_all_bytes_are_equal { Decides result (entry_bytes self.now ≡ entry_bytes sought.now) }
    {
        // Records that differ mostly differ in their windows.
        self.scope.same_window(&sought.scope) & (self == sought)
    }
}
