#![tactic(auto)]

// Runs `majgunter box` on the script that is standard input, says whether all was done, and prints
// the digests of what it saved.
fn main(rt: HostRuntime) -> anyhow::Result<()> {
    let done = run(&rt, &["box"])?;
    println!(rt; "done: {done}")?;
    run(
        &rt,
        &[
            "hash",
            "tray-after",
            "tray-cube",
            "plate-after",
            "plate-words",
        ],
    )?;
    Ok(())
}

fn run(rt: &HostRuntime, words: &[&str]) -> anyhow::Result<bool> {
    let mut line = Vec::new(rt.alloc());
    for word in words {
        line.push(String::from_str(rt.alloc(), word)?)?;
    }
    Ok(cli::run(rt, &line)?)
}
