ghost use Rattle.std.specs.Prelude.{◌≡◌, Some};
ghost use Rattle.desk.specs.Printed.{printed_unmade};
ghost use Rattle.desk.specs.declared.unmade.Unmade.TheVariants.{Refused, Unfit, Memory};

use faults::{ModeFault, ShelfFault};
use std::alloc::AllocError;
use std::fmt;

/// Why something is not made.
#[derive(Drop)]
pub enum Unmade {
    /// refused by the cipher or a mode
    Refused(ModeFault),
    /// an image that is no plate of so many places
    Unfit(ShelfFault),
    /// no memory for it
    Memory,
}

impl From<ModeFault> for Unmade {
    ghost from_gives = { λ f r. r ≡ Refused f };

    fn from(f: ModeFault) -> Unmade {
        Unmade::Refused(f)
    }
}

impl From<ShelfFault> for Unmade {
    ghost from_gives = { λ f r. r ≡ Unfit f };

    fn from(f: ShelfFault) -> Unmade {
        Unmade::Unfit(f)
    }
}

impl From<AllocError> for Unmade {
    ghost from_gives = { λ _ r. r ≡ Memory };

    fn from(_e: AllocError) -> Unmade {
        Unmade::Memory
    }
}

impl fmt::Display for Unmade {
    ghost output = { λ u. Some (printed_unmade u) };

    fn fmt<W: fmt::Write>(&self, f: &mut fmt::Formatter<W>) -> fmt::Result {
        match self {
            Unmade::Refused(fault) => write!(f, "{fault}"),
            Unmade::Unfit(fault) => write!(f, "{fault}"),
            Unmade::Memory => write!(f, "no memory"),
        }
    }
}
