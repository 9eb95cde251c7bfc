ghost use Rattle.std.specs.Prelude.{◌≡◌, ◌+◌, ◌<◌, Some, None, nat_lt};
ghost use Rattle.parties.specs.Commands.{limit};

// How many commands a service has done, and the last of them.
#[derive(Drop)]
pub(crate) struct CommandLog<T> {
    pub(crate) done: u64,
    pub(crate) last: Option<T>,
}

impl<T: Copy> CommandLog<T> {
    pub(crate) fn new() -> CommandLog<T>
        ensures { (result.done ≡ 0) × (result.last ≡ None) }
    {
        CommandLog {
            done: 0,
            last: None,
        }
    }

    // Whether one more can be counted.
    pub(crate) fn has_room(&self) -> bool
        ensures { result ≡ nat_lt self.now.done limit }
    {
        self.done < u64::MAX
    }

    // By reference: where a value with a model is passed by value and used again, the borrow checker makes no proof.
    pub(crate) fn add(&mut self, command: &T)
        requires { self.old.done < limit }
        ensures counts { self.new.done ≡ self.old.done + 1 }
        ensures keeps { self.new.last ≡ Some command.now }
    {
        self.done += 1;
        self.last = Some(*command);
    }
}
