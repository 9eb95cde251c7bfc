// The session table, and what is changed in place.
ghost use Rattle.std.specs.Prelude.{◌≡◌, length, nat_lt};
ghost use Rattle.sessions.specs.Opened.{name_of, same_name, used_at, OnlyLast};
ghost use Rattle.sessions.specs.Names.{same_name-Decides};

use crate::types::{Session, SessionName};
use tables::{Record, Table};

// At most 16 open sessions, in the order in which they were opened.
pub type Sessions = Table<Session, 16>;

impl Record for Session {
    type Key = SessionName;

    ghost key = { name_of };

    ghost equal = { same_name };

    ghost decides = { same_name-Decides };

    fn has_key(&self, sought: &SessionName) -> bool {
        self.id == sought.id && self.signer == sought.signer
    }
}

// Writes the number of the session at place i that was used last; false where none is open there.
pub fn set_last(sessions: &mut Sessions, i: usize, number: u64) -> bool
    ensures answer { result ≡ nat_lt i (length sessions.old) }
    ensures after { sessions.new ≡ used_at sessions.old i number }
    ensures nothing_else { OnlyLast sessions.old i number sessions.new }
{
    let Some(session) = sessions.get_mut(i) else {
        return false;
    };
    session.last = number;
    true
}
