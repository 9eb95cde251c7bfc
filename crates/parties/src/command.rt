use refusal::Refusal;

// A command as it is given to a service, and as a service lends it.
#[derive(Clone, Copy)]
pub struct CommandView<'a> {
    pub name: &'a [u8],
    pub payload: &'a [u8],
    pub clock: u64,
}

// The service did not take the command.
#[derive(Clone, Copy, PartialEq, Eq, Debug)]
pub struct NotTaken;

impl From<NotTaken> for Refusal {
    ghost use Rattle.std.specs.Prelude.{◌≡◌};
    ghost use Rattle.refusal.specs.declared.Refusal.TheVariants.{NotTaken as Refused};

    ghost from_gives = { λ _ refusal. refusal ≡ Refused };

    fn from(_: NotTaken) -> Refusal {
        Refusal::NotTaken
    }
}
