// Envelopes from the standard input, one to a line: for each, what it is refused for, or what it says.
// A line has the bytes in hexadecimal, and may have a blank and a number of zero bytes that follow them.
#![tactic(auto)]

mod envelopes;
mod show;
mod verifier;

use std::io::{BufRead, BufReader};

fn main(rt: HostRuntime) -> anyhow::Result<()> {
    // From a pipe `rt.lines` reads one byte at a time.
    for line in BufReader::new(rt.alloc(), rt.stdin())?.lines(rt.alloc()) {
        let line = line?;
        let bytes = envelopes::bytes_of(rt.alloc(), line.as_str())?;
        envelopes::judge(&rt, bytes.as_slice())?;
    }
    Ok(())
}
