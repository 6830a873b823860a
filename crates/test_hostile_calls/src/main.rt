#![tactic(auto)]

mod asked;
mod calls;
mod contents;
mod dice;
mod images;
mod plain_box;
mod plain_cipher;
mod plain_kinds;
mod plain_modes;
mod plain_records;
mod plain_shelf;
mod tally;
mod trial;
mod viewed;

use anyhow::Context;
use std::io::{BufRead, BufReader};
use trial::Trial;

// Drives boxes by pseudo-random calls, whatever comes, and compares each answer with that of a
// plain box. A line of standard input has a seed, a count of boxes, and a count of calls on each.
fn main(rt: HostRuntime) -> anyhow::Result<()> {
    let heap = rt.alloc();
    for line in BufReader::new(heap, rt.stdin())?.lines(heap) {
        let line = line?;
        let mut words = line.split_ascii_whitespace();
        let seed: u64 = words.next().context("a seed")?.parse()?;
        let boxes: u64 = words.next().context("a count of boxes")?.parse()?;
        let calls: u64 = words.next().context("a count of calls")?.parse()?;
        println!(rt; "seed {seed}: {boxes} boxes with {calls} calls each")?;
        let mut trial = Trial::new(&rt, seed);
        let worked = trial.run(boxes, calls);
        trial.end();
        worked?;
    }
    Ok(())
}
