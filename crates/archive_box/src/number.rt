ghost use Rattle.std.specs.Prelude.{◌≡◌, ◌≤◌};
ghost use Rattle.box_model.specs.States.{last_number};

use faults::BoxFault;

/// A drawn number, 1 to 999,999,999. It is spent by a seal, a slip or a void, and can neither be
/// used twice nor let go.
pub struct Number {
    pub(crate) value: u64,
    pub(crate) once: Once,
    ghost from_one: { 1 ≤ value },
    ghost within: { value ≤ last_number },
}

// What stands in a number alone and derives nothing: so a number can derive neither Drop nor
// Clone, and no other crate can make one.
pub struct Once;

/// Why a seal or a slip was refused, and the number handed back.
pub struct Refusal {
    pub fault: BoxFault,
    pub number: Number,
}

impl Number {
    /// The number itself, 1 to 999,999,999.
    pub fn value(&self) -> u64
        ensures { result ≡ self.now.value }
    {
        self.value
    }

    // Takes the number apart, which spends it.
    pub(crate) fn spend(self) -> u64
        ensures { result ≡ self.value }
    {
        let Number { value, once: Once } = self;
        value
    }
}
