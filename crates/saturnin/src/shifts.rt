ghost use Rattle.std.specs.Prelude.{◌≡◌};
ghost use Rattle.saturnin.specs.Cube.{Cube};
ghost use Rattle.saturnin.specs.Layers.{SR_slice, SR_slice⁻¹, SR_sheet, SR_sheet⁻¹};

use crate::form::Form;

// The shift before the columns of a super-round's second round, and the way back after them.
pub(crate) trait Shift {
    ghost there: { Cube → Cube };

    ghost back: { Cube → Cube };

    fn there<F: Form>(s: F) -> F
        ensures { F.cube result ≡ there (F.cube s) };

    fn back<F: Form>(s: F) -> F
        ensures { F.cube result ≡ back (F.cube s) };
}

pub(crate) struct ShiftSlices;

impl Shift for ShiftSlices {
    ghost there = { SR_slice };

    ghost back = { SR_slice⁻¹ };

    fn there<F: Form>(s: F) -> F {
        s.shift_slices()
    }

    fn back<F: Form>(s: F) -> F {
        s.shift_slices_back()
    }
}

pub(crate) struct ShiftSheets;

impl Shift for ShiftSheets {
    ghost there = { SR_sheet };

    ghost back = { SR_sheet⁻¹ };

    fn there<F: Form>(s: F) -> F {
        s.shift_sheets()
    }

    fn back<F: Form>(s: F) -> F {
        s.shift_sheets_back()
    }
}
