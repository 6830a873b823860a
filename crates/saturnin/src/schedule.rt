ghost use Rattle.std.specs.Prelude.{◌≡◌, ◌+◌, ◌*◌, ◌<◌};
ghost use Rattle.octets.specs.Lists.{table};
ghost use Rattle.saturnin.specs.Rounds.{clock, clocked};
ghost use Rattle.saturnin.specs.Schedules.{Scheduled};

use cipher::Parameters;

/// The two constants of a super-round, RC0 and RC1.
#[derive(Clone, Copy)]
pub struct RoundConstants(pub u16, pub u16);

/// The constants of a cipher, a pair for each of its super-rounds.
#[derive(Clone, Copy)]
pub struct Constants<'a> {
    pub of: Parameters,
    pub rounds: &'a [RoundConstants],
    ghost scheduled: { Scheduled of.separator of.«super_rounds» of.«super_rounds» rounds.now },
}

/// The constants of super-rounds 0 to 30, the most that a cipher has.
#[derive(Clone, Copy)]
pub struct Schedule {
    pub of: Parameters,
    pub rounds: [RoundConstants; 31],
    ghost scheduled: { Scheduled of.separator of.«super_rounds» 31 rounds },
}

impl Schedule {
    /// The constants for a separator and a count of super-rounds, by the clocking.
    pub fn new(of: Parameters) -> Schedule
        ensures { result.of ≡ of }
    {
        let start = 0xfe00 + 16 * of.super_rounds as u16 + of.separator as u16;
        let mut c = RoundConstants(start, start);
        let mut rounds = [c; 31];
        for pair in &mut rounds {
            c = RoundConstants(clock_sixteen::<0x002d>(c.0), clock_sixteen::<0x0053>(c.1));
            *pair = c;
        }
        Schedule { of, rounds }
    }

    /// Those that the cipher uses.
    pub fn constants(&self) -> Constants<'_>
        ensures { result.of ≡ self.now.of }
    {
        Constants {
            of: self.of,
            rounds: &self.rounds[..self.of.super_rounds as usize],
        }
    }
}

// Sixteen clocks. A polynomial is given by its taps, the terms below X^16.
fn clock_sixteen<const TAPS: u16>(c: u16) -> u16
    ensures { result ≡ clocked (65536 + TAPS) c 16 }
{
    let mut x = c;
    for _i in 0..16u32 {
        x = clock_once::<TAPS>(x);
    }
    x
}

fn clock_once<const TAPS: u16>(c: u16) -> u16
    ensures { result ≡ clock (65536 + TAPS) c }
{
    if c < 0x8000 {
        2 * c
    } else {
        (2 * (c - 0x8000)) ^ TAPS
    }
}
