// Answers the statements of a file, or of standard input, and gives an account of them.
#![tactic(auto)]

use account::Account;
use anyhow::anyhow;
use script::play::play;
use std::io::{Read, Write};
use std::{env, fs};

// The statements: of the file that the command names, else of standard input.
fn input(rt: &HostRuntime) -> anyhow::Result<Vec<u8>> {
    let mut words = env::args(rt)?;
    let _program = words.next();
    if let Some(path) = words.next() {
        return Ok(fs::read(rt, path.as_str())?);
    }
    let mut bytes = Vec::new(rt.alloc());
    rt.stdin().read_to_end(&mut bytes)?;
    Ok(bytes)
}

// The account, as commentary.
fn report(rt: &HostRuntime, account: &Account) -> anyhow::Result<()> {
    rt.print(account.counts(rt.alloc())?)?;
    for hash in account.repeated(rt.alloc())?.iter() {
        let mut line = Vec::from_slice(rt.alloc(), b"# came more than once: ")?;
        hexadecimal::push(&mut line, hash)?;
        line.push(b'\n')?;
        rt.stdout().write_all(line.as_slice())?;
    }
    Ok(())
}

fn run(rt: &HostRuntime) -> anyhow::Result<()> {
    let statements = input(rt)?;
    let session = play(rt.alloc(), statements.as_slice())?;
    rt.stdout().write_all(session.output.as_slice())?;
    report(rt, &session.account)?;
    if session.account.has_mistakes() {
        return Err(anyhow!("some lines are no statements"));
    }
    Ok(())
}

fn main(rt: HostRuntime) -> anyhow::Result<()> {
    run(&rt)
}
