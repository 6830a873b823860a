#![tactic(auto)]

ghost use Rattle.std.specs.Prelude.{map, IfOk, IsTrue, string_bytes};
ghost use Rattle.cli.specs.Commands.{IsHelp, IsCommand};

mod commands;
mod locks;
mod problems;
mod shelves;
#[cfg(test)]
mod tests;

use commands::{Command, USAGE};
use desk::digest_line;
use files::read_limited;
use locks::{lock_file, unlock_file};
use problems::Problem;
use shelves::{plate_text, tray_text};
use std::io;

/// One command of the program, in words. Whether all was done; what was not is on standard error.
pub fn run(rt: &HostRuntime, words: &[String]) -> io::Result<bool>
    ensures help { IsHelp (map string_bytes words.now) → IfOk result IsTrue }
    ensures commands { IfOk result (λ done. IsTrue done → IsCommand (map string_bytes words.now)) }
{
    let Some(command) = Command::of(words) else {
        eprintln!(rt; "{USAGE}")?;
        return Ok(false);
    };
    match command {
        Command::Help => {
            println!(rt; "{USAGE}")?;
            Ok(true)
        }
        Command::Hash(files) => hash_files(rt, command, files),
        Command::Lock { nonce, files } => {
            let done = lock_file(rt, nonce, files);
            command.print_answer(rt, files.from, done.map(|()| ""))
        }
        Command::Unlock(files) => {
            let done = unlock_file(rt, files);
            command.print_answer(rt, files.from, done.map(|()| ""))
        }
        Command::Tray { file } => command.print_answer(rt, file, tray_text(rt, file)),
        Command::Plate { file, places } => {
            let text = plate_text(rt, file, places);
            command.print_answer(rt, file, text)
        }
        Command::Box => box_desk::work_script(rt),
    }
}

// A line for each file; one that has none gets its reason on standard error, and the others are
// still done.
fn hash_files(rt: &HostRuntime, command: Command, files: &[String]) -> io::Result<bool> {
    let mut all = true;
    for file in files {
        all = command.print_answer(rt, file, hash_file(rt, file))? && all;
    }
    Ok(all)
}

fn hash_file(rt: &HostRuntime, name: &str) -> Result<String, Problem> {
    let bytes = read_limited(rt, name, 65_537)?;
    let mut line = digest_line(rt.alloc(), name, &bytes)?;
    line.push('\n')?;
    Ok(line)
}
