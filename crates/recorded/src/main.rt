//! Answers the commands of a stored file again, and compares each answer with the one that the file has.
#![tactic(auto)]

use anyhow::anyhow;
use recordings::Replay;
use replies::answer_all;
use std::io::{BufWriter, Read};

fn run(rt: &HostRuntime) -> anyhow::Result<()> {
    let heap = rt.alloc();
    let mut file = Vec::new(heap);
    rt.stdin().read_to_end(&mut file)?;
    let out = BufWriter::new(heap, rt.stdout())?;
    let mut replay = Replay::new(file.as_slice(), out);
    answer_all(heap, &mut replay)?;
    if replay.finish()? {
        Ok(())
    } else {
        Err(anyhow!("not every command was answered as recorded"))
    }
}

fn main(rt: HostRuntime) -> anyhow::Result<()> {
    run(&rt)
}
