#![tactic(auto)]

use std::alloc::{AllocError, Global};

// Runs commands of the program, one to a line of standard input, and says of each whether all was
// done.
fn main(rt: HostRuntime) -> anyhow::Result<()> {
    for line in rt.lines(rt.alloc()) {
        let line = line?;
        println!(rt; "$ {line}")?;
        let words = words_of(rt.alloc(), &line)?;
        let done = cli::run(&rt, &words)?;
        println!(rt; "done: {done}")?;
    }
    Ok(())
}

fn words_of(heap: Global, line: &str) -> Result<Vec<String>, AllocError> {
    line.split_whitespace()
        .map(|word| String::from_str(heap, word))
        .try_collect(heap)
}
