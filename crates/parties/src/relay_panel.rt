ghost use Rattle.std.specs.Prelude.{◌≡◌, ◌+◌, true, false, replicate, if◌then◌else◌, Some, None, MatchOption, nat_lt, is_ok};
ghost use Rattle.parties.specs.Verdicts.{nothing_is_taken_past_the_limit, what_is_taken_passes_both};
ghost use Rattle.parties.specs.Commands.{viewed, Untouched, limit};
ghost use Rattle.parties.specs.Relays.{is_set_target, panel_verdict, panel_last, switched, Requested};
ghost use Rattle.parties.specs.SetTargets.{target_is_well_sized};

use crate::command::{CommandView, NotTaken};
use crate::command_log::CommandLog;
use crate::service::Service;

const SET_TARGET: &[u8] = b"SetTarget";

const RELAYS: u8 = 8;

// A SetTarget that was taken.
#[derive(Clone, Copy)]
pub(crate) struct SetTarget {
    payload: [u8; 2],
    clock: u64,
}

// Eight relays, which SetTarget switches.
#[derive(Drop)]
pub struct RelayPanel {
    relays: [bool; 8],
    log: CommandLog<SetTarget>,
}

// The payload, where the command is a SetTarget for a relay and a state that there are.
fn requested(command: CommandView<'_>) -> Option<[u8; 2]>
    ensures { let c = viewed command.entry in MatchOption result (is_set_target c.name c.payload ≡ false) (λ t. (is_set_target c.name c.payload ≡ true) × Requested c.name c.payload t) }
{
    let &[relay, state] = command.payload else {
        return None;
    };
    // `&` has no branch, so that there is one way to each answer.
    if (command.name == SET_TARGET) & (relay < RELAYS) & (state < 2) {
        Some([relay, state])
    } else {
        None
    }
}

impl RelayPanel {
    // All relays off, and no command done.
    pub fn new() -> RelayPanel
        ensures all_relays_are_off { result.relays ≡ replicate 8 false }
        ensures nothing_is_done { (result.log.done ≡ 0) × (panel_last result ≡ None) }
    {
        RelayPanel {
            relays: [false; 8],
            log: CommandLog::new(),
        }
    }

    // Which relays are on.
    pub fn relays(&self) -> [bool; 8]
        ensures are_the_relays { result ≡ self.now.relays }
    {
        let RelayPanel { relays, .. } = self;
        *relays
    }
}

impl Service for RelayPanel {
    ghost done = { λ p. p.log.done };

    ghost last = { panel_last };

    ghost verdict = { panel_verdict };

    ghost nothing_is_taken_at_the_limit = { λ p _ full. nothing_is_taken_past_the_limit p.log.done _ full };

    ghost what_is_taken_is_well_sized = { λ p c taken. target_is_well_sized c (what_is_taken_passes_both (nat_lt p.log.done limit) (is_set_target c.name c.payload) taken).1 };

    fn perform(&mut self, command: CommandView<'_>) -> Result<(), NotTaken>
        ensures answers_the_verdict { is_ok result ≡ panel_verdict self.old (viewed command.entry) }
        ensures counts_what_is_taken { self.new.log.done ≡ (if is_ok result then self.old.log.done + 1 else self.old.log.done) }
        ensures remembers_what_is_taken { panel_last self.new ≡ (if is_ok result then Some (viewed command.entry) else panel_last self.old) }
        ensures untouched_by_what_is_not { is_ok result ≡ false → Untouched self.old self.new }
        ensures sets_the_relay_and_no_other { self.new.relays ≡ (if is_ok result then switched self.old.relays command.entry.payload.now else self.old.relays) }
    {
        let target = requested(command).ok_or(NotTaken)?;
        if !self.log.has_room() {
            return Err(NotTaken);
        }
        self.relays[usize::from(target[0])] = target[1] == 1;
        self.log.add(&SetTarget {
            payload: target,
            clock: command.clock,
        });
        Ok(())
    }

    fn commands_done(&self) -> u64 {
        self.log.done
    }

    fn last_command(&self) -> Option<CommandView<'_>> {
        self.log.last.as_ref().map(|t| CommandView {
            name: SET_TARGET,
            payload: &t.payload,
            clock: t.clock,
        })
    }
}
