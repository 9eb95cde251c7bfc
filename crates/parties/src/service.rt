ghost use Rattle.std.specs.Prelude.{◌≡◌, ℕ, ◌+◌, ◌≤◌, Bool, true, false, if◌then◌else◌, Some, Option, is_ok};
ghost use Rattle.std.specs.Option.{option_map};
ghost use Rattle.parties.specs.Commands.{Command, viewed, Untouched, WellSized, limit};

use crate::command::{CommandView, NotTaken};

// Performs commands, or does not take them.
pub trait Service {
    // The number of commands done.
    ghost done: { Self → ℕ };

    ghost last: { Self → Option Command };

    // Whether it takes a command. This may depend on anything that it holds.
    ghost verdict: { Self → Command → Bool };

    fn perform(&mut self, command: CommandView<'_>) -> Result<(), NotTaken>
        ensures answers_the_verdict { is_ok result ≡ verdict self.old (viewed command.entry) }
        ensures counts_what_is_taken { done self.new ≡ (if is_ok result then done self.old + 1 else done self.old) }
        ensures remembers_what_is_taken { last self.new ≡ (if is_ok result then Some (viewed command.entry) else last self.old) }
        ensures untouched_by_what_is_not { is_ok result ≡ false → Untouched self.old self.new };

    fn commands_done(&self) -> u64
        ensures is_the_number { result ≡ done self.now };

    fn last_command(&self) -> Option<CommandView<'_>>
        ensures is_the_last { option_map viewed result ≡ last self.now };

    ghost nothing_is_taken_at_the_limit: { (s : Self) (c : Command) → limit ≤ done s → verdict s c ≡ false };

    ghost what_is_taken_is_well_sized: { (s : Self) (c : Command) → verdict s c ≡ true → WellSized c };
}
