ghost use Rattle.std.specs.Prelude.{◌≡◌, ◌≤◌, true, false, length, MatchOption};
ghost use Rattle.parties.specs.Commands.{viewed};
ghost use Rattle.parties.specs.Waiting.{is_sendable};

use crate::command::CommandView;
use crate::short_bytes::ShortBytes;
use std::marker::Model;

// A command kept in place.
#[derive(Clone, Copy, Default)]
pub struct StoredCommand {
    name: ShortBytes,
    payload: ShortBytes,
    clock: u64,
}

impl Model for StoredCommand {
    ghost use Rattle.parties.specs.Commands.{Command};

    ghost Value = { Command };

    ghost view = { λ s. record { name = s.name; payload = s.payload; clock = s.clock } };

    ghost inverse = { λ c. record { name = c.name; payload = c.payload; clock = c.clock } };
}

impl StoredCommand {
    // The command, where it has a name, and there is room for both its name and its payload.
    pub fn new(command: CommandView<'_>) -> Option<StoredCommand>
        ensures stores_what_fits { let c = viewed command.entry in MatchOption result (is_sendable c.name c.payload ≡ false) (λ s. (is_sendable c.name c.payload ≡ true) × (s ≡ c)) }
    {
        if command.name.is_empty() {
            return None;
        }
        Some(StoredCommand {
            name: ShortBytes::copied(command.name)?,
            payload: ShortBytes::copied(command.payload)?,
            clock: command.clock,
        })
    }

    // The command, as it is lent to a reader.
    pub fn view(&self) -> CommandView<'_>
        ensures shows_the_command { viewed result ≡ self.now }
    {
        CommandView {
            name: self.name.as_slice(),
            payload: self.payload.as_slice(),
            clock: self.clock,
        }
    }
}
