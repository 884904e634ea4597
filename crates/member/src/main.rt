//! Runs one member of the register from a script on standard input, and prints a reply to each command.
#![tactic(auto)]

use anyhow::anyhow;
use replies::{Played, answer_all};
use std::io::{BufWriter, Read, Write};

fn run(rt: &HostRuntime) -> anyhow::Result<()> {
    let heap = rt.alloc();
    let mut text = Vec::new(heap);
    rt.stdin().read_to_end(&mut text)?;
    let out = BufWriter::new(heap, rt.stdout())?;
    let mut script = Played::new(text.as_slice(), out);
    answer_all(heap, &mut script)?;
    script.out.flush()?;
    if script.clean {
        Ok(())
    } else {
        Err(anyhow!("the script has lines that are no command"))
    }
}

fn main(rt: HostRuntime) -> anyhow::Result<()> {
    run(&rt)
}
