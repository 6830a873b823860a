ghost use Rattle.cipher.specs.Meaning.{GivesBlocks, TwoWay};
ghost use Rattle.saturnin.specs.Rounds.{forward};
ghost use Rattle.saturnin.specs.Back.{back};
ghost use Rattle.saturnin.specs.Shifts.{ShiftsMove};

/// A theorem on the definitions: the cipher turned back gives the only block of 32 bytes that the
/// cipher takes to the given one.
pub fn back_gives_the_only_block()
    ensures blocks { GivesBlocks forward }
    ensures only { TwoWay forward back }
{}

/// A theorem on the definitions: where the shift of each round takes each nibble.
pub fn shifts_move_nibbles()
    ensures { ShiftsMove }
{}
