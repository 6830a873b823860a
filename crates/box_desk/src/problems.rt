ghost use Rattle.std.specs.Prelude.{◌≡◌};
ghost use Rattle.faults.specs.Causes.{from_shelf};
ghost use Rattle.box_desk.specs.Digits.{decoding_problem};
ghost use Rattle.box_desk.specs.declared.problems.Problem.TheVariants.{Refused};
ghost use Rattle.box_desk.specs.declared.problems.Problem.TheVariants.{Unread as UnreadProblem};
ghost use Rattle.box_desk.specs.declared.problems.Problem.TheVariants.{Memory};

use faults::{BoxFault, ShelfFault};
use files::Unread;
use hex::FromHexError;
use std::alloc::AllocError;
use std::{fmt, io};

/// Why a line was not done.
#[derive(Drop)]
pub(crate) enum Problem {
    /// its first word names no call
    NoCall,
    /// how the call that it names is to be written
    Misspelt(&'static str),
    /// a line of more than 65,535 bytes
    TooLong,
    /// a slip that is not in pairs of hexadecimal digits
    NoDigits,
    /// a sign that is not 16 hexadecimal digits
    NoSign,
    /// a number that is not in hand
    NoNumber(u64),
    NoKey,
    NoShelf,
    NoBox,
    /// a record that was read and holds no sheet
    NoSheet,
    /// a key file that has not 32 bytes
    KeyLength,
    Unread(Unread),
    Unwritten(io::Error),
    Memory,
    Refused(BoxFault),
}

impl From<BoxFault> for Problem {
    ghost from_gives = { λ f r. r ≡ Refused f };

    fn from(f: BoxFault) -> Problem {
        Problem::Refused(f)
    }
}

impl From<ShelfFault> for Problem {
    ghost from_gives = { λ f r. r ≡ Refused (from_shelf f) };

    fn from(f: ShelfFault) -> Problem {
        Problem::Refused(f.into())
    }
}

impl From<Unread> for Problem {
    ghost from_gives = { λ u r. r ≡ UnreadProblem u };

    fn from(u: Unread) -> Problem {
        Problem::Unread(u)
    }
}

impl From<AllocError> for Problem {
    ghost from_gives = { λ _ r. r ≡ Memory };

    fn from(_e: AllocError) -> Problem {
        Problem::Memory
    }
}

impl From<FromHexError> for Problem {
    ghost from_gives = { λ e r. r ≡ decoding_problem e };

    fn from(e: FromHexError) -> Problem {
        match e {
            FromHexError::OutOfMemory => Problem::Memory,
            _ => Problem::NoDigits,
        }
    }
}

impl fmt::Display for Problem {
    fn fmt<W: fmt::Write>(&self, f: &mut fmt::Formatter<W>) -> fmt::Result {
        match self {
            Problem::NoCall => write!(f, "no such call"),
            Problem::Misspelt(usage) => write!(f, "to be written as \"{usage}\""),
            Problem::TooLong => write!(f, "over 65535 bytes, the most that a line has"),
            Problem::NoDigits => write!(f, "not in pairs of hexadecimal digits"),
            Problem::NoSign => write!(f, "a sign has 16 hexadecimal digits"),
            Problem::NoNumber(number) => write!(f, "no number {number} in hand"),
            Problem::NoKey => write!(f, "no key yet"),
            Problem::NoShelf => write!(f, "no tray or plate yet"),
            Problem::NoBox => write!(f, "no box yet"),
            Problem::NoSheet => write!(f, "no sheet in the record"),
            Problem::KeyLength => write!(f, "a key file has 32 bytes"),
            Problem::Unread(unread) => write!(f, "{unread}"),
            Problem::Unwritten(e) => write!(f, "{e}"),
            Problem::Memory => write!(f, "no memory"),
            Problem::Refused(fault) => write!(f, "{fault}"),
        }
    }
}
