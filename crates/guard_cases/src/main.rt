// Envelopes in hexadecimal from the standard input, one to a line, `-` for no bytes: delivers each to one guard, and
// writes 0, or the stage and the code of the refusal. At the end it writes how many commands the relay panel has done.
#![tactic(auto)]

use anyhow::Context;
use guard::{Delivery, Guard};
use parties::hmac_verifier::HmacVerifier;
use parties::relay_panel::RelayPanel;
use parties::service::Service;
use std::alloc::Global;

const CONTROL: u16 = 7;

const CLOCK: u64 = 50;

// What the guard answers to an envelope. Both verifiers are HMAC-SHA1, a signer's hash being its public key.
fn answer(
    heap: Global,
    guard: &mut Guard,
    panel: &mut RelayPanel,
    digits: &str,
) -> anyhow::Result<String> {
    let bytes = hexadecimal::bytes_named(heap, digits.as_bytes())?.context(
        "not hexadecimal digits",
    )?;
    let delivery = Delivery {
        envelope: bytes.as_slice(),
        control: CONTROL,
        clock: CLOCK,
        session: &HmacVerifier,
        public: &HmacVerifier,
    };
    let delivered = guard.deliver(&delivery, panel);
    Ok(match delivered {
        Ok(()) => format!(in heap; "0")?,
        Err(why) => format!(in heap; "{why}")?,
    })
}

fn run(rt: &HostRuntime) -> anyhow::Result<()> {
    let mut guard = Guard::new([0xDD; 20], [0; 20], 5);
    let mut panel = RelayPanel::new();
    for line in rt.lines(rt.alloc()) {
        let line = line?;
        let answer = answer(rt.alloc(), &mut guard, &mut panel, line.as_str())?;
        println!(rt; "{answer}")?;
    }
    let done = panel.commands_done();
    println!(rt; "done {done}")?;
    Ok(())
}

fn main(rt: HostRuntime) -> anyhow::Result<()> {
    run(&rt)
}
