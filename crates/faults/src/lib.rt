#![tactic(auto)]

ghost use Rattle.std.specs.Prelude.{◌≡◌, None, Some};
ghost use Rattle.faults.specs.Causes.{entry, mode_fault, shelf_fault, box_fault, from_mode};
ghost use Rattle.faults.specs.Causes.{from_shelf, placed};
ghost use Rattle.faults.specs.Words.{printed};
ghost use Rattle.faults.specs.declared.BoxCause.TheVariants.{Mode, Shelf};

use std::fmt;

/// Why the cipher or a mode refuses a call.
#[derive(Clone, Copy, PartialEq, Eq, Debug)]
pub enum ModeCause {
    /// a key, nonce of Short, block, tag or output buffer that is not of its stated length
    Length,
    /// a nonce, data, a message or a chain's tail over its limit
    Limit,
    /// a separator above 15, or a count of super-rounds outside 10 to 31
    Parameter,
    /// the tag differs
    Tag,
    /// a block of Short that turns back into another nonce or into no padding
    Padding,
}

/// Why a shelf refuses a call.
#[derive(Clone, Copy, PartialEq, Eq, Debug)]
pub enum ShelfCause {
    /// a record or a record buffer that is not of its stated length
    Length,
    /// a place that the shelf does not have
    Outside,
    /// a put at a shut place
    Shut,
    /// memory that is no plate
    Unfit,
}

/// Why a box refuses a call: a cause of its own, or one that came up from below.
#[derive(Clone, Copy, PartialEq, Eq, Debug)]
pub enum BoxCause {
    Mode(ModeCause),
    Shelf(ShelfCause),
    /// a label, a slip or a buffer that is not of its stated length
    Length,
    /// a message over its limit
    Limit,
    /// a slip's content outside its range
    Content,
    /// a number that is not out in this box
    NotOut,
    /// no number is left
    UsedUp,
    /// sixteen numbers are out
    SixteenOut,
    /// an empty place, in a read
    Empty,
    /// a record whose length is above the limit, or whose filling is not zero
    Filling,
    /// a slip whose message the kind that is asked for cannot have written
    OtherKind,
}

/// A refusal by the cipher or a mode; layer 1.
#[derive(Clone, Copy, PartialEq, Eq, Debug)]
pub struct ModeFault {
    pub cause: ModeCause,
}

/// A refusal by a shelf, with the place that it names; layer 2.
#[derive(Clone, Copy, PartialEq, Eq, Debug)]
pub struct ShelfFault {
    pub cause: ShelfCause,
    pub place: Option<u32>,
}

/// A refusal by a box, with the place that it names; the layer is that of its cause.
#[derive(Clone, Copy, PartialEq, Eq, Debug)]
pub struct BoxFault {
    pub cause: BoxCause,
    pub place: Option<u32>,
}

// A fault without a place.
impl From<ModeCause> for ModeFault {
    ghost from_gives = { λ c r. r ≡ mode_fault c };

    fn from(cause: ModeCause) -> ModeFault {
        ModeFault { cause }
    }
}

impl From<ShelfCause> for ShelfFault {
    ghost from_gives = { λ c r. r ≡ shelf_fault None c };

    fn from(cause: ShelfCause) -> ShelfFault {
        ShelfFault { cause, place: None }
    }
}

impl From<BoxCause> for BoxFault {
    ghost from_gives = { λ c r. r ≡ box_fault None c };

    fn from(cause: BoxCause) -> BoxFault {
        BoxFault { cause, place: None }
    }
}

impl BoxCause {
    /// The number of the cause, 1 to 16; none has 14.
    pub fn number(self) -> u8
        ensures { result ≡ (entry self).number }
    {
        match self {
            BoxCause::Mode(ModeCause::Length)
            | BoxCause::Shelf(ShelfCause::Length)
            | BoxCause::Length => 1,
            BoxCause::Mode(ModeCause::Limit) | BoxCause::Limit => 2,
            BoxCause::Mode(ModeCause::Parameter) => 3,
            BoxCause::Shelf(ShelfCause::Outside) => 4,
            BoxCause::Shelf(ShelfCause::Shut) => 5,
            BoxCause::NotOut => 6,
            BoxCause::UsedUp => 7,
            BoxCause::SixteenOut => 8,
            BoxCause::Empty => 9,
            BoxCause::Filling => 10,
            BoxCause::Mode(ModeCause::Tag) => 11,
            BoxCause::Mode(ModeCause::Padding) => 12,
            BoxCause::Shelf(ShelfCause::Unfit) => 13,
            BoxCause::Content => 15,
            BoxCause::OtherKind => 16,
        }
    }

    /// The layer of the cause: 1 modes, 2 shelf, 3 box.
    pub fn layer(self) -> u8
        ensures { result ≡ (entry self).layer }
    {
        match self {
            BoxCause::Mode(_) => 1,
            BoxCause::Shelf(_) => 2,
            _ => 3,
        }
    }
}

// What the cause means, in words.
impl fmt::Display for BoxCause {
    ghost output = { λ c. Some (entry c).words };

    fn fmt<W: fmt::Write>(&self, f: &mut fmt::Formatter<W>) -> fmt::Result {
        let words = match self {
            BoxCause::Mode(ModeCause::Length)
            | BoxCause::Shelf(ShelfCause::Length)
            | BoxCause::Length => "not of its stated length",
            BoxCause::Mode(ModeCause::Limit) | BoxCause::Limit => "over its limit",
            BoxCause::Mode(ModeCause::Parameter) => {
                "separator or count of super-rounds out of range"
            }
            BoxCause::Shelf(ShelfCause::Outside) => "no such place",
            BoxCause::Shelf(ShelfCause::Shut) => "the place is shut",
            BoxCause::NotOut => "the number is not out in this box",
            BoxCause::UsedUp => "the numbers are used up",
            BoxCause::SixteenOut => "sixteen numbers are out",
            BoxCause::Empty => "the place is empty",
            BoxCause::Filling => "length above 928, or filling not zero",
            BoxCause::Mode(ModeCause::Tag) => "the tag differs",
            BoxCause::Mode(ModeCause::Padding) => "another nonce or no padding",
            BoxCause::Shelf(ShelfCause::Unfit) => "the plate is unfit",
            BoxCause::Content => "content outside its range",
            BoxCause::OtherKind => "not a message of this kind",
        };
        f.write_str(words)
    }
}

impl ModeFault {
    /// The number of the cause.
    pub fn number(self) -> u8
        ensures { result ≡ (entry (Mode self.cause)).number }
    {
        BoxCause::Mode(self.cause).number()
    }

    /// Layer 1.
    pub fn layer(self) -> u8
        ensures { result ≡ (entry (Mode self.cause)).layer }
    {
        BoxCause::Mode(self.cause).layer()
    }
}

impl ShelfFault {
    /// The number of the cause.
    pub fn number(self) -> u8
        ensures { result ≡ (entry (Shelf self.cause)).number }
    {
        BoxCause::Shelf(self.cause).number()
    }

    /// Layer 2.
    pub fn layer(self) -> u8
        ensures { result ≡ (entry (Shelf self.cause)).layer }
    {
        BoxCause::Shelf(self.cause).layer()
    }
}

impl BoxFault {
    /// The number of the cause.
    pub fn number(self) -> u8
        ensures { result ≡ (entry self.cause).number }
    {
        self.cause.number()
    }

    /// The layer of the cause.
    pub fn layer(self) -> u8
        ensures { result ≡ (entry self.cause).layer }
    {
        self.cause.layer()
    }

    /// The same fault with the place that the box adds.
    pub fn placed(self, place: u32) -> BoxFault
        ensures { result ≡ placed place self }
    {
        BoxFault {
            place: Some(place),
            ..self
        }
    }
}

impl From<ModeFault> for BoxFault {
    ghost from_gives = { λ f r. r ≡ from_mode f };

    fn from(f: ModeFault) -> BoxFault {
        BoxCause::Mode(f.cause).into()
    }
}

impl From<ShelfFault> for BoxFault {
    ghost from_gives = { λ f r. r ≡ from_shelf f };

    fn from(f: ShelfFault) -> BoxFault {
        BoxFault {
            cause: BoxCause::Shelf(f.cause),
            place: f.place,
        }
    }
}

// `refused with 4, layer 2, place 7: no such place`
impl fmt::Display for BoxFault {
    ghost output = { λ f. Some (printed f) };

    fn fmt<W: fmt::Write>(&self, f: &mut fmt::Formatter<W>) -> fmt::Result {
        let number = self.number();
        let layer = self.layer();
        write!(f, "refused with {number}, layer {layer}")?;
        if let Some(place) = self.place {
            write!(f, ", place {place}")?;
        }
        let cause = self.cause;
        write!(f, ": {cause}")
    }
}

impl fmt::Display for ModeFault {
    ghost output = { λ f. Some (printed (from_mode f)) };

    fn fmt<W: fmt::Write>(&self, f: &mut fmt::Formatter<W>) -> fmt::Result {
        let raised: BoxFault = (*self).into();
        write!(f, "{raised}")
    }
}

impl fmt::Display for ShelfFault {
    ghost output = { λ f. Some (printed (from_shelf f)) };

    fn fmt<W: fmt::Write>(&self, f: &mut fmt::Formatter<W>) -> fmt::Result {
        let raised: BoxFault = (*self).into();
        write!(f, "{raised}")
    }
}
