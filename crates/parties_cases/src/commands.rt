// Statements to the relay panel and to the outbox.
use crate::words;
use anyhow::anyhow;
use hexadecimal::Digits;
use parties::command::{CommandView, NotTaken};
use parties::outbox::Outbox;
use parties::relay_panel::RelayPanel;
use parties::service::Service;
use parties::stored_command::StoredCommand;
use std::alloc::Global;
use std::fmt;

// Bytes as hexadecimal digits, `-` for none.
#[derive(Drop)]
struct ShownBytes<'a>(&'a [u8]);

impl fmt::Display for ShownBytes<'_> {
    fn fmt<W: fmt::Write>(&self, f: &mut fmt::Formatter<W>) -> fmt::Result {
        if self.0.is_empty() {
            return write!(f, "-");
        }
        let digits = Digits { bytes: self.0 };
        write!(f, "{digits}")
    }
}

// A command, if there is one.
#[derive(Drop)]
struct Shown<'a>(Option<CommandView<'a>>);

impl fmt::Display for Shown<'_> {
    fn fmt<W: fmt::Write>(&self, f: &mut fmt::Formatter<W>) -> fmt::Result {
        let Some(command) = &self.0 else {
            return write!(f, "none");
        };
        let name = ShownBytes(command.name);
        let payload = ShownBytes(command.payload);
        let clock = command.clock;
        write!(f, "{name} {payload} {clock}")
    }
}

fn state<S: Service>(heap: Global, service: &S) -> anyhow::Result<String> {
    let done = service.commands_done();
    let last = Shown(service.last_command());
    Ok(format!(in heap; "done {done}, last {last}")?)
}

fn perform<S: Service>(heap: Global, service: &mut S, words: &str) -> anyhow::Result<String> {
    let (name, rest) = words::first(words);
    let (payload, clock) = words::first(rest);
    let payload = words::bytes(heap, payload)?;
    let command = CommandView {
        name: words::name(name),
        payload: &payload,
        clock: clock.parse()?,
    };
    let answer = match service.perform(command) {
        Ok(()) => "taken",
        Err(NotTaken) => "not taken",
    };
    let state = state(heap, service)?;
    Ok(format!(in heap; "{answer}, {state}")?)
}

fn lit(heap: Global, relays: [bool; 8]) -> anyhow::Result<String> {
    let digits = relays
        .iter()
        .map(|on| if *on { '1' } else { '0' })
        .collect(heap)?;
    Ok(digits)
}

pub(crate) fn panel_answer(
    heap: Global,
    panel: &mut RelayPanel,
    words: &str,
) -> anyhow::Result<String> {
    let (word, rest) = words::first(words);
    match word {
        "new" => {
            *panel = RelayPanel::new();
            Ok(format!(in heap; "new")?)
        }
        "relays" => lit(heap, panel.relays()),
        "state" => state(heap, panel),
        "perform" => perform(heap, panel, rest),
        _ => Err(anyhow!("an unknown statement to the panel")),
    }
}

pub(crate) fn outbox_answer(
    heap: Global,
    outbox: &mut Outbox,
    words: &str,
) -> anyhow::Result<String> {
    let (word, rest) = words::first(words);
    match word {
        "new" => {
            *outbox = Outbox::new();
            Ok(format!(in heap; "new")?)
        }
        "waiting" => {
            let count = outbox.waiting_count();
            Ok(format!(in heap; "{count}")?)
        }
        "collect" => {
            let collected = outbox.collect();
            let command = Shown(collected.as_ref().map(StoredCommand::view));
            Ok(format!(in heap; "{command}")?)
        }
        "state" => state(heap, outbox),
        "perform" => perform(heap, outbox, rest),
        _ => Err(anyhow!("an unknown statement to the outbox")),
    }
}
