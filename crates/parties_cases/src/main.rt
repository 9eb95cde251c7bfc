// Drives the services and the verifiers through the statements of its input, one to a line, and prints what each answers.
// Bytes are in hexadecimal, `-` for none; a name stands as it is, `-` for none.
#![tactic(auto)]

mod commands;
mod tags;
mod words;

use anyhow::anyhow;
use commands::{outbox_answer, panel_answer};
use parties::outbox::Outbox;
use parties::relay_panel::RelayPanel;
use parties::verified_signatures::VerifiedSignature;
use std::alloc::Global;

// What the statements speak of.
#[derive(Drop)]
struct Parties {
    panel: RelayPanel,
    outbox: Outbox,
    list: Vec<VerifiedSignature>,
}

fn answer(heap: Global, parties: &mut Parties, line: &str) -> anyhow::Result<String> {
    let (subject, rest) = words::first(line);
    match subject {
        "panel" => panel_answer(heap, &mut parties.panel, rest),
        "outbox" => outbox_answer(heap, &mut parties.outbox, rest),
        "hmac" => tags::hmac_answer(heap, rest),
        "list" => tags::list_answer(heap, &mut parties.list, rest),
        "widths" => tags::widths(heap),
        _ => Err(anyhow!("an unknown statement")),
    }
}

fn run(rt: &HostRuntime) -> anyhow::Result<()> {
    let mut parties = Parties {
        panel: RelayPanel::new(),
        outbox: Outbox::new(),
        list: Vec::new(rt.alloc()),
    };
    for line in rt.lines(rt.alloc()) {
        let line = line?;
        let answer = answer(rt.alloc(), &mut parties, line.as_str())?;
        println!(rt; "{answer}")?;
    }
    Ok(())
}

fn main(rt: HostRuntime) -> anyhow::Result<()> {
    run(&rt)
}
