ghost use Rattle.std.specs.Prelude.{◌≡◌, ◌+◌, ◌<◌};
ghost use Rattle.saturnin.specs.Cube.{word};

use crate::quad::Quad;

// Word j: register j, low byte first, and register j + 8 in the upper half.
fn word_at(bytes: &[u8; 32], j: usize) -> u32
    requires { j < 8 }
    ensures { result ≡ word bytes.now j }
{
    u32::from_le_bytes([
        bytes[2 * j],
        bytes[2 * j + 1],
        bytes[2 * j + 16],
        bytes[2 * j + 17],
    ])
}

// Words j to j + 3.
pub(crate) fn quad_at(bytes: &[u8; 32], j: usize) -> Quad
    requires { j < 5 }
    ensures a { result.a ≡ word bytes.now j }
    ensures b { result.b ≡ word bytes.now (j + 1) }
    ensures c { result.c ≡ word bytes.now (j + 2) }
    ensures d { result.d ≡ word bytes.now (j + 3) }
{
    Quad {
        a: word_at(bytes, j),
        b: word_at(bytes, j + 1),
        c: word_at(bytes, j + 2),
        d: word_at(bytes, j + 3),
    }
}
