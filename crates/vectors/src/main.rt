// Runs the cases of its input, one to a line, and writes what the crate `sha1_hmac` answers to each.
// A text or a key is in hexadecimal, `-` for none: `sha1 TEXT`, `repeat COUNT TEXT` or `hmac KEY TEXT`.
#![tactic(auto)]

mod cases;

fn run(rt: &HostRuntime) -> anyhow::Result<()> {
    for line in rt.lines(rt.alloc()) {
        let line = line?;
        let answer = cases::answer(rt.alloc(), line.as_str())?;
        println!(rt; "{line}: {answer}")?;
    }
    Ok(())
}

fn main(rt: HostRuntime) -> anyhow::Result<()> {
    run(&rt)
}
