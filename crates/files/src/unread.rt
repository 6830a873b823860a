ghost use Rattle.std.specs.Prelude.{◌≡◌};
ghost use Rattle.files.specs.declared.unread.Unread.TheVariants.{Failed};

use std::{fmt, io};

/// Why an image is not read.
#[derive(Drop)]
pub enum Unread {
    Failed(io::Error),
    /// more bytes than this, the most that a shelf of its kind has
    Over(u64),
}

impl From<io::Error> for Unread {
    ghost from_gives = { λ e r. r ≡ Failed e };

    fn from(e: io::Error) -> Unread {
        Unread::Failed(e)
    }
}

impl fmt::Display for Unread {
    fn fmt<W: fmt::Write>(&self, f: &mut fmt::Formatter<W>) -> fmt::Result {
        match self {
            Unread::Failed(e) => write!(f, "{e}"),
            Unread::Over(limit) => write!(f, "over {limit} bytes, the most that such a shelf has"),
        }
    }
}
