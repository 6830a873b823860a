ghost use Rattle.std.specs.Prelude.{◌≡◌, IfSome};

use cipher::Parameters;
use saturnin::{Constants, RoundConstants, Schedule};

// The constants of the separators and counts that the modes use: separators 1 to 6 with 10
// super-rounds, and 7 and 8 with 16. A pair is RC0 and RC1.
static OF_TEN: [[RoundConstants; 10]; 6] = [
    // separator 1
    [
        RoundConstants(0x26c2, 0x4eb0),
        RoundConstants(0x5303, 0x9059),
        RoundConstants(0xe632, 0xaa8f),
        RoundConstants(0x8a92, 0xfe92),
        RoundConstants(0xa419, 0x4115),
        RoundConstants(0x9532, 0x9353),
        RoundConstants(0xcc4e, 0x5db1),
        RoundConstants(0x15ca, 0x5415),
        RoundConstants(0x55a8, 0xbd1f),
        RoundConstants(0x1a0d, 0x5a6e),
    ],
    // separator 2
    [
        RoundConstants(0x26b5, 0x4e45),
        RoundConstants(0x5ff0, 0xa356),
        RoundConstants(0x20d8, 0x0f8f),
        RoundConstants(0xbee1, 0x0b54),
        RoundConstants(0x6c9d, 0x7d1a),
        RoundConstants(0x280a, 0x17a6),
        RoundConstants(0xc986, 0xaa46),
        RoundConstants(0x9062, 0xc119),
        RoundConstants(0x5cde, 0x182c),
        RoundConstants(0x53fe, 0xa00d),
    ],
    // separator 3
    [
        RoundConstants(0x2698, 0x4e16),
        RoundConstants(0x5ba1, 0xb253),
        RoundConstants(0x9d65, 0x6c8f),
        RoundConstants(0xad30, 0x5816),
        RoundConstants(0xd4fa, 0x691f),
        RoundConstants(0xbcf9, 0x6bf5),
        RoundConstants(0x3525, 0xf8eb),
        RoundConstants(0xecfa, 0xb21d),
        RoundConstants(0xa417, 0x7b3d),
        RoundConstants(0x94b4, 0xf62c),
    ],
    // separator 4
    [
        RoundConstants(0x265b, 0x4faf),
        RoundConstants(0x4616, 0xc548),
        RoundConstants(0xad21, 0x45dc),
        RoundConstants(0xd607, 0xe08b),
        RoundConstants(0xfdb8, 0x0504),
        RoundConstants(0x5257, 0x1e1f),
        RoundConstants(0xc216, 0x45fb),
        RoundConstants(0x9b1f, 0xeb52),
        RoundConstants(0x4e32, 0x5219),
        RoundConstants(0xc018, 0x5498),
    ],
    // separator 5
    [
        RoundConstants(0x2676, 0x4ffc),
        RoundConstants(0x4247, 0xd44d),
        RoundConstants(0x109c, 0x26dc),
        RoundConstants(0xc5d6, 0xb3c9),
        RoundConstants(0x45df, 0x1101),
        RoundConstants(0xc6a4, 0x624c),
        RoundConstants(0x3eb5, 0x1756),
        RoundConstants(0xe787, 0x9856),
        RoundConstants(0xb6fb, 0x3108),
        RoundConstants(0x0752, 0x02b9),
    ],
    // separator 6
    [
        RoundConstants(0x2601, 0x4f09),
        RoundConstants(0x4eb4, 0xe742),
        RoundConstants(0xd676, 0x83dc),
        RoundConstants(0xf1a5, 0x460f),
        RoundConstants(0x8d5b, 0x2d0e),
        RoundConstants(0x7b9c, 0xe6b9),
        RoundConstants(0x3b7d, 0xe0a1),
        RoundConstants(0x622f, 0x0d5a),
        RoundConstants(0xbf8d, 0x943b),
        RoundConstants(0x4ea1, 0xf8da),
    ],
];

static OF_SIXTEEN: [[RoundConstants; 16]; 2] = [
    // separator 7
    [
        RoundConstants(0x180c, 0x3fba),
        RoundConstants(0xb9ab, 0x563a),
        RoundConstants(0xa5ef, 0x125e),
        RoundConstants(0xa26c, 0x859d),
        RoundConstants(0x779b, 0xb8cf),
        RoundConstants(0xe793, 0x7d4d),
        RoundConstants(0xb49f, 0x07ef),
        RoundConstants(0x5306, 0x8d52),
        RoundConstants(0xe6ab, 0x1e08),
        RoundConstants(0x9f87, 0x4172),
        RoundConstants(0xef0a, 0x8c4a),
        RoundConstants(0xc9a7, 0x4aa0),
        RoundConstants(0x95ef, 0xd93a),
        RoundConstants(0xd2af, 0xbb00),
        RoundConstants(0x5bf0, 0xb62c),
        RoundConstants(0x94d8, 0x386d),
    ],
    // separator 8
    [
        RoundConstants(0x19a7, 0x3c9b),
        RoundConstants(0x8694, 0xa909),
        RoundConstants(0x78da, 0x23f8),
        RoundConstants(0x47d3, 0xa7b6),
        RoundConstants(0x9d78, 0x74fc),
        RoundConstants(0xae11, 0xeaca),
        RoundConstants(0xa677, 0x2f31),
        RoundConstants(0xc054, 0x4cc8),
        RoundConstants(0xca05, 0x2f51),
        RoundConstants(0xf195, 0x5268),
        RoundConstants(0x8a2b, 0x4f5b),
        RoundConstants(0xb4ac, 0xf614),
        RoundConstants(0x5401, 0xf1d9),
        RoundConstants(0x2568, 0x764d),
        RoundConstants(0x3611, 0x6a49),
        RoundConstants(0x9c3e, 0x8eef),
    ],
];

// The constants from the table, for a separator and a count that some mode uses.
fn mode_constants(of: Parameters) -> Option<Constants<'static>>
    ensures { IfSome result (λ c. c.of ≡ of) }
{
    let rounds: &[RoundConstants] = match (of.separator, of.super_rounds) {
        (1..=6, 10) => &OF_TEN[of.separator as usize - 1],
        (7..=8, 16) => &OF_SIXTEEN[of.separator as usize - 7],
        _ => return None,
    };
    Some(Constants { of, rounds })
}

// The constants are from the table where a mode uses them, and else by the clocking.
pub(crate) fn with_constants<F: FnOnce(Constants<'_>) -> [u8; 32]>(of: Parameters, f: F) -> [u8; 32]
    requires { F.IsAlwaysCallable f }
    ensures { (constants : _) × (constants.of ≡ of) × F.post f constants result }
{
    match mode_constants(of) {
        Some(constants) => f(constants),
        None => f(Schedule::new(of).constants()),
    }
}
