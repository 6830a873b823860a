ghost use Rattle.saturnin.specs.Layers.{M_row};
ghost use Rattle.saturnin.specs.Back.{M⁻¹_row};
ghost use Rattle.saturnin_cube.specs.Nibbles.{of_row, IsRow};

use crate::shape::Row;

impl Row {
    // M, as a network of sums and alphas.
    pub(crate) fn mixed(self) -> Row
        ensures { IsRow result (λ y.
            M_row y (of_row self 0) (of_row self 1) (of_row self 2) (of_row self 3)) }
    {
        let [a, b, c, d] = self.nibbles;
        let a = a ^ b;
        let c = c ^ d;
        let b = b.alpha() ^ c;
        let d = d.alpha() ^ a;
        let a = a.alpha().alpha() ^ b;
        let c = c.alpha().alpha() ^ d;
        Row {
            nibbles: [a, b ^ c, c, d ^ a],
        }
    }

    // The same network from its end to its start.
    pub(crate) fn mixed_back(self) -> Row
        ensures { IsRow result (λ y.
            M⁻¹_row y (of_row self 0) (of_row self 1) (of_row self 2) (of_row self 3)) }
    {
        let [a, b, c, d] = self.nibbles;
        let d = d ^ a;
        let b = b ^ c;
        let a = (a ^ b).alpha_back().alpha_back();
        let c = (c ^ d).alpha_back().alpha_back();
        let d = (d ^ a).alpha_back();
        let b = (b ^ c).alpha_back();
        Row {
            nibbles: [a ^ b, b, c ^ d, d],
        }
    }
}
