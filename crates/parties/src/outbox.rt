ghost use Rattle.std.specs.Prelude.{◌≡◌, ◌+◌, false, [], ◌∷◌, ◌++◌, length, drop, if◌then◌else◌, Some, None, nat_lt, is_ok};
ghost use Rattle.parties.specs.Commands.{viewed, Untouched, limit};
ghost use Rattle.parties.specs.Waiting.{is_sendable};
ghost use Rattle.parties.specs.Outboxes.{waiting, oldest, outbox_last, outbox_verdict};
ghost use Rattle.std.proofs.lemmas.Bool.{and_parts};
ghost use Rattle.parties.specs.Verdicts.{nothing_is_taken_past_the_limit, what_is_taken_passes_both};
ghost use Rattle.parties.specs.Sendable.{sendable_is_well_sized};

use crate::command::{CommandView, NotTaken};
use crate::command_log::CommandLog;
use crate::service::Service;
use crate::stored_command::StoredCommand;
use arrayvec::ArrayVec;

// How many commands may wait.
const ROOM: usize = 16;

// Keeps commands for a bus until the bus driver collects them, the oldest first.
#[derive(Drop)]
pub struct Outbox {
    queue: ArrayVec<StoredCommand, ROOM>,
    log: CommandLog<StoredCommand>,
}

impl Outbox {
    // Nothing waits, and no command is done.
    pub fn new() -> Outbox
        ensures nothing_waits { waiting result ≡ [] }
        ensures nothing_is_done { (result.log.done ≡ 0) × (outbox_last result ≡ None) }
    {
        Outbox {
            queue: ArrayVec::new(),
            log: CommandLog::new(),
        }
    }

    // How many commands wait.
    pub fn waiting_count(&self) -> usize
        ensures counts_what_waits { result ≡ length (waiting self.now) }
    {
        self.queue.len()
    }

    // The command that has waited longest, for the bus driver.
    pub fn collect(&mut self) -> Option<StoredCommand>
        ensures gives_the_oldest { result ≡ oldest (waiting self.old) }
        ensures removes_the_oldest { waiting self.new ≡ drop 1 (waiting self.old) }
        ensures number_and_last_stay { (self.new.log.done ≡ self.old.log.done) × (self.new.log.last ≡ self.old.log.last) }
    {
        self.queue.pop_at(0)
    }
}

impl Service for Outbox {
    ghost done = { λ o. o.log.done };

    ghost last = { outbox_last };

    ghost verdict = { outbox_verdict };

    ghost nothing_is_taken_at_the_limit = { λ o _ full. nothing_is_taken_past_the_limit o.log.done _ full };

    ghost what_is_taken_is_well_sized = { λ o c taken.
        sendable_is_well_sized c
        (and_parts (nat_lt (length (waiting o)) 16) (is_sendable c.name c.payload) (what_is_taken_passes_both (nat_lt o.log.done limit) _ taken).1).1 };

    fn perform(&mut self, command: CommandView<'_>) -> Result<(), NotTaken>
        ensures answers_the_verdict { is_ok result ≡ outbox_verdict self.old (viewed command.entry) }
        ensures counts_what_is_taken { self.new.log.done ≡ (if is_ok result then self.old.log.done + 1 else self.old.log.done) }
        ensures remembers_what_is_taken { outbox_last self.new ≡ (if is_ok result then Some (viewed command.entry) else outbox_last self.old) }
        ensures untouched_by_what_is_not { is_ok result ≡ false → Untouched self.old self.new }
        ensures queues_what_is_taken { waiting self.new ≡ (if is_ok result then waiting self.old ++ (viewed command.entry ∷ []) else waiting self.old) }
    {
        let command = StoredCommand::new(command).ok_or(NotTaken)?;
        if self.queue.is_full() || !self.log.has_room() {
            return Err(NotTaken);
        }
        self.log.add(&command);
        self.queue.push(command);
        Ok(())
    }

    fn commands_done(&self) -> u64 {
        self.log.done
    }

    fn last_command(&self) -> Option<CommandView<'_>> {
        self.log.last.as_ref().map(StoredCommand::view)
    }
}
