ghost use Rattle.std.specs.Prelude.{◌≡◌, ℕ, ◌≤◌};
ghost use Rattle.faults.specs.Tables.{Checks};
ghost use Rattle.cipher.specs.Calls.{parameter_table};

use faults::{ModeCause, ModeFault};

/// Which cipher of the family it is: the domain separator, 0 to 15, and the count of super-rounds,
/// 10 to 31.
#[derive(Clone, Copy)]
pub struct Parameters {
    pub separator: u8,
    pub super_rounds: u8,
    ghost separated: { separator ≤ 15 },
    ghost enough: { 10 ≤ «super_rounds» },
    ghost few: { «super_rounds» ≤ 31 },
}

impl Parameters {
    /// Refused with 3 outside these ranges.
    pub fn new(separator: u8, super_rounds: u8) -> Result<Parameters, ModeFault>
        ensures { Checks (parameter_table separator «super_rounds»)
            (λ p. (p.separator ≡ separator) × (p.«super_rounds» ≡ «super_rounds»)) result }
    {
        if separator > 15 || super_rounds < 10 || super_rounds > 31 {
            return Err(ModeCause::Parameter.into());
        }
        Ok(Parameters {
            separator,
            super_rounds,
        })
    }
}
