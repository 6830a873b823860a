ghost use Rattle.std.specs.Prelude.{◌↔◌, ◌∷◌, codes, map, IfOk, IsOk, IsTrue, string_bytes};
ghost use Rattle.cli.specs.Spelling.{CommandOf};

use crate::problems::Problem;
use desk::Unmade;
use faults::ModeCause;
use std::{fmt, io};

/// How the commands are called.
pub(crate) const USAGE: &str =
    "usage: majgunter hash FILE...                            print the Saturnin-Hash of each file
       majgunter lock [--nonce HEX] KEYFILE IN OUT      lock a file with a key of 32 bytes
       majgunter unlock KEYFILE IN OUT                  unlock it again
       majgunter shelf tray FILE                        print what a tray holds
       majgunter shelf plate FILE PLACES                print what a plate of so many places holds
       majgunter box                                    work a box by a script on standard input";

const PLATE_HINT: &str = "; a plate has 1 to 4,096 places, no mark above their count, \
                          and no used cell after an unused one";

/// The names of the files that a locking or an unlocking is about.
#[derive(Clone, Copy)]
pub(crate) struct Files<'a> {
    pub(crate) key: &'a str,
    pub(crate) from: &'a str,
    pub(crate) to: &'a str,
}

/// A command of the program, with what its words name.
#[derive(Clone, Copy)]
pub(crate) enum Command<'a> {
    Help,
    Hash(&'a [String]),
    Lock {
        nonce: Option<&'a str>,
        files: Files<'a>,
    },
    Unlock(Files<'a>),
    Tray {
        file: &'a str,
    },
    Plate {
        file: &'a str,
        places: &'a str,
    },
    Box,
}

impl<'a> Command<'a> {
    /// The command that the words are, if they are one.
    pub(crate) fn of(words: &'a [String]) -> Option<Command<'a>>
        ensures { CommandOf (map string_bytes words.now) result }
    {
        let [first, rest @ ..] = words else {
            return None;
        };
        match first.as_str() {
            "help" | "--help" => rest.is_empty().then_some(Command::Help),
            "hash" => (!rest.is_empty()).then_some(Command::Hash(rest)),
            "lock" => Command::of_lock(rest),
            "unlock" => Command::of_unlock(rest),
            "shelf" => Command::of_shelf(rest),
            "box" => rest.is_empty().then_some(Command::Box),
            _ => None,
        }
    }

    fn of_lock(words: &'a [String]) -> Option<Command<'a>>
        ensures { CommandOf (codes "lock" ∷ map string_bytes words.now) result }
    {
        match words {
            [key, from, to] => Some(Command::Lock {
                nonce: None,
                files: Files { key, from, to },
            }),
            [option, nonce, key, from, to] if option.as_str() == "--nonce" => Some(Command::Lock {
                nonce: Some(nonce),
                files: Files { key, from, to },
            }),
            _ => None,
        }
    }

    fn of_unlock(words: &'a [String]) -> Option<Command<'a>>
        ensures { CommandOf (codes "unlock" ∷ map string_bytes words.now) result }
    {
        let [key, from, to] = words else {
            return None;
        };
        Some(Command::Unlock(Files { key, from, to }))
    }

    fn of_shelf(words: &'a [String]) -> Option<Command<'a>>
        ensures { CommandOf (codes "shelf" ∷ map string_bytes words.now) result }
    {
        match words {
            [kind, file] if kind.as_str() == "tray" => Some(Command::Tray { file }),
            [kind, file, places] if kind.as_str() == "plate" => Some(Command::Plate {
                file,
                places,
            }),
            _ => None,
        }
    }

    /// Prints what the command gives, or, on standard error, why it is not done. Whether it is
    /// done.
    pub(crate) fn print_answer<T: fmt::Display + Drop>(
        &self,
        rt: &HostRuntime,
        name: &str,
        answer: Result<T, Problem>,
    ) -> io::Result<bool>
        ensures { IfOk result (λ done. IsTrue done ↔ IsOk answer) }
    {
        match answer {
            Ok(text) => {
                print!(rt; "{text}")?;
                Ok(true)
            }
            Err(problem) => {
                let hint = self.hint(&problem);
                eprintln!(rt; "majgunter: {name}: {problem}{hint}")?;
                Ok(false)
            }
        }
    }

    // What a refusal means to the user of this command.
    fn hint(&self, problem: &Problem) -> &'static str {
        let cause = match problem {
            Problem::Unmade(Unmade::Refused(fault)) => fault.cause,
            Problem::Unmade(Unmade::Unfit(_)) => {
                return PLATE_HINT;
            }
            _ => return "",
        };
        match (self, cause) {
            (Command::Hash(_), ModeCause::Limit) => "; a hash takes at most 65,536 bytes",
            (Command::Lock { .. }, ModeCause::Length) =>
                "; a key file has 32 bytes, and a nonce 20",
            (Command::Lock { .. }, ModeCause::Limit) => "; a file to lock has at most 65,536 bytes",
            (Command::Unlock(_), ModeCause::Length) =>
                "; a key file has 32 bytes, and a locked file at least 56",
            (Command::Unlock(_), ModeCause::Limit) => "; a locked file has at most 65,592 bytes",
            (Command::Unlock(_), ModeCause::Tag) =>
                "; the file is damaged, locked with another key, or no locked file",
            _ => "",
        }
    }
}
