// Runs the tables on cases, with a record type of its own, and prints what they answer.
#![tactic(auto)]

ghost use Rattle.std.specs.Prelude.{◌&&◌, ◌==◌};
ghost use Rattle.tables_cases.specs.Entries.{fields_decide};

use sessions::{Session, SessionName, Sessions, set_last};
use std::{fmt, io};
use tables::{Full, Record, Table};

#[derive(Clone, Copy, PartialEq, Eq, Default)]
struct Entry {
    subject: u32,
    mask: u32,
}

impl fmt::Display for Entry {
    fn fmt<W: fmt::Write>(&self, f: &mut fmt::Formatter<W>) -> fmt::Result {
        write!(f, "{}/{}", self.subject, self.mask)
    }
}

impl Record for Entry {
    type Key = Entry;

    ghost key = { λ e. e };

    ghost equal = { λ a b. (a.subject == b.subject) && a.mask == b.mask };

    ghost decides = { fields_decide };

    fn has_key(&self, sought: &Entry) -> bool {
        *self == *sought
    }
}

// What an append answered.
#[derive(Clone, Copy)]
struct Answer(Result<(), Full>);

impl fmt::Display for Answer {
    fn fmt<W: fmt::Write>(&self, f: &mut fmt::Formatter<W>) -> fmt::Result {
        match self.0 {
            Ok(()) => write!(f, "done"),
            Err(Full) => write!(f, "full"),
        }
    }
}

fn show(rt: &HostRuntime, table: &Table<Entry, 3>) -> io::Result<()> {
    print!(rt; "kept")?;
    for entry in table.as_slice() {
        print!(rt; " {entry}")?;
    }
    println!(rt; "")
}

fn entries(rt: &HostRuntime) -> io::Result<()> {
    let mut table: Table<Entry, 3> = Table::default();
    for (subject, mask) in [(1, 1), (2, 1), (1, 2), (3, 3)] {
        let entry = Entry { subject, mask };
        let answer = Answer(table.append(entry));
        println!(rt; "append {entry}: {answer}")?;
    }
    show(rt, &table)?;
    let place = table.find(&Entry {
        subject: 1,
        mask: 2,
    });
    println!(rt; "find 1/2: {place:?}")?;
    let absent = table.find(&Entry {
        subject: 3,
        mask: 3,
    });
    println!(rt; "find 3/3: {absent:?}")?;
    let gone = table
        .remove(&Entry {
            subject: 1,
            mask: 1,
        })
        .is_some();
    println!(rt; "remove 1/1: {gone}")?;
    show(rt, &table)?;
    let past = table.remove_at(2).is_some();
    let free = table.free();
    println!(rt; "remove at 2: {past}, free {free}")?;
    table.clear();
    show(rt, &table)
}

fn named(id: u64, signer: u8) -> SessionName {
    SessionName {
        id,
        signer: [signer; 20],
    }
}

fn lasts(rt: &HostRuntime, sessions: &Sessions) -> io::Result<()> {
    print!(rt; "open")?;
    for session in sessions.as_slice() {
        print!(rt; " {}:{}", session.id, session.last)?;
    }
    println!(rt; "")
}

fn sessions(rt: &HostRuntime) -> io::Result<()> {
    let mut sessions = Sessions::default();
    for id in 0..17u64 {
        let answer = sessions.append(Session {
            id,
            signer: [7; 20],
            key: [9; 20],
            last: 0,
        });
        if id > 14 {
            let answer = Answer(answer);
            println!(rt; "open {id}: {answer}")?;
        }
    }
    let other = sessions.find(&named(3, 8));
    println!(rt; "find 3 of another signer: {other:?}")?;
    let Some(i) = sessions.find(&named(3, 7)) else {
        return println!(rt; "session 3 is lost");
    };
    let set = set_last(&mut sessions, i, 40);
    let past = set_last(&mut sessions, 16, 41);
    println!(rt; "set last at {i}: {set}, at 16: {past}")?;
    let closed = sessions.remove(&named(0, 7)).is_some();
    println!(rt; "close 0: {closed}")?;
    lasts(rt, &sessions)
}

fn main(rt: HostRuntime) -> io::Result<()> {
    entries(&rt)?;
    sessions(&rt)
}
