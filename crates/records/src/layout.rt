ghost use Rattle.std.specs.Prelude.{◌≡◌, ◌+◌, ◌≤◌, length};
ghost use Rattle.octets.specs.Octets.{part as part_of};

/// Where the number of a record begins: 8 bytes, the second half of its nonce of 16.
pub const NUMBER_AT: usize = 8;

/// Where the head of a record begins, after the nonce: 48 bytes, a label of 46 and a length.
pub const HEAD_AT: usize = 16;

/// Where the length of a record's message begins: 2 bytes, at the end of the head.
pub const LENGTH_AT: usize = 62;

/// Where the text of a record begins, after the head.
pub const TEXT_AT: usize = 64;

/// How many bytes the text of a record takes at most; text and filling together take as many.
pub const TEXT_ROOM: usize = 928;

/// Where the tag of a record begins: its last 32 bytes.
pub const TAG_AT: usize = 992;

/// Where the block of a slip begins, after the nonce of 16 bytes: its last 32 bytes.
pub const BLOCK_AT: usize = 16;

// So many bytes of a record or a slip, from one of them on.
pub(crate) fn part<const SIZE: usize, const N: usize>(bytes: &[u8; SIZE], from: usize) -> &[u8; N]
    requires { from + N ≤ SIZE }
    ensures part { result.now ≡ part_of from N bytes.now }
    ensures whole { length bytes.now ≡ SIZE }
    ensures long { length result.now ≡ N }
{
    let whole = &bytes[..];
    whole[from..from + N].as_array().unwrap()
}
