// Lines `TERMHEX NAME` from the standard input: for each, whether the term covers the name.
#![tactic(auto)]

use anyhow::Context;
use std::alloc::Global;
use std::io::{BufRead, BufReader};

// `-` stands for a name of no bytes, so that no line has an empty word.
fn word(text: &str) -> &str {
    if text == "-" { "" } else { text }
}

fn answer(heap: Global, line: &str) -> anyhow::Result<&'static str> {
    let (digits, name) = line.split_once(' ').context("a line of one word")?;
    let term = hexadecimal::bytes_named(heap, digits.as_bytes())?.context(
        "not hexadecimal digits",
    )?;
    Ok(
        match permission::covers(term.as_slice(), word(name).as_bytes()) {
            Ok(true) => "yes",
            Ok(false) => "no",
            Err(_) => "malformed",
        },
    )
}

fn main(rt: HostRuntime) -> anyhow::Result<()> {
    // From a pipe `rt.lines` reads one byte at a time.
    for line in BufReader::new(rt.alloc(), rt.stdin())?.lines(rt.alloc()) {
        let line = line?;
        rt.println(answer(rt.alloc(), line.as_str())?)?;
    }
    Ok(())
}
