ghost use Rattle.std.specs.Prelude.{◌≡◌};
ghost use Rattle.desk.specs.declared.unmade.Unmade.TheVariants.{Memory};
ghost use Rattle.files.specs.declared.unread.Unread.TheVariants.{Failed};
ghost use Rattle.cli.specs.declared.problems.Problem.TheVariants.{Unmade as UnmadeProblem};
ghost use Rattle.cli.specs.declared.problems.Problem.TheVariants.{Unread as UnreadProblem};

use desk::Unmade;
use files::Unread;
use std::alloc::AllocError;
use std::{fmt, io};

/// Why a command is not done.
#[derive(Drop)]
pub enum Problem {
    Unmade(Unmade),
    /// a nonce that is not in hexadecimal digits
    NoDigits,
    /// a count of places that is no number
    NoCount,
    Unread(Unread),
    KeyUnread(io::Error),
    Unwritten(io::Error),
}

impl From<Unmade> for Problem {
    ghost from_gives = { λ u r. r ≡ UnmadeProblem u };

    fn from(u: Unmade) -> Problem {
        Problem::Unmade(u)
    }
}

impl From<AllocError> for Problem {
    ghost from_gives = { λ _ r. r ≡ UnmadeProblem Memory };

    fn from(e: AllocError) -> Problem {
        Problem::Unmade(e.into())
    }
}

impl From<Unread> for Problem {
    ghost from_gives = { λ u r. r ≡ UnreadProblem u };

    fn from(u: Unread) -> Problem {
        Problem::Unread(u)
    }
}

impl From<io::Error> for Problem {
    ghost from_gives = { λ e r. r ≡ UnreadProblem (Failed e) };

    fn from(e: io::Error) -> Problem {
        Problem::Unread(e.into())
    }
}

impl fmt::Display for Problem {
    fn fmt<W: fmt::Write>(&self, f: &mut fmt::Formatter<W>) -> fmt::Result {
        match self {
            Problem::Unmade(unmade) => write!(f, "{unmade}"),
            Problem::NoDigits => write!(f, "the nonce is not in hexadecimal digits"),
            Problem::NoCount => write!(f, "the count of places is not a number"),
            Problem::Unread(unread) => write!(f, "{unread}"),
            Problem::KeyUnread(e) => write!(f, "the key file: {e}"),
            Problem::Unwritten(e) => write!(f, "the file to write: {e}"),
        }
    }
}
