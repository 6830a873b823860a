ghost use Rattle.std.specs.Prelude.{◌≡◌, ℕ, ◌<◌, ◌≤◌, T, bit_xor, length, slice_index};
ghost use Rattle.octets.specs.Octets.{big_endian as big_endian_of};
ghost use Rattle.modes.specs.Bytes.{padded, xor as xored};

use octets::joined;
use std::array;

pub(crate) fn xor(a: &[u8; 32], b: &[u8; 32]) -> [u8; 32]
    ensures { result ≡ xored a.now b.now }
{
    array::from_fn(|i| a[i] ^ b[i])
}

// Adds as much of a block to a part of a text as the part is long.
pub(crate) fn add(part: &mut [u8], block: &[u8; 32])
    requires { length part.old ≤ 32 }
    ensures { (k : ℕ) → k < length part.old
        → slice_index part.new k ≡ bit_xor (slice_index part.old k) (slice_index block.now k) }
{
    for (i, byte) in part.iter_mut().enumerate() {
        *byte ^= block[i];
    }
}

// Whether two blocks are the same. All bytes are looked at, wherever they differ.
pub(crate) fn same(a: &[u8; 32], b: &[u8; 32]) -> bool
    ensures yes { T result → a.now ≡ b.now }
    ensures no { a.now ≡ b.now → T result }
{
    xor(a, b).iter().fold(0, |difference, x| difference | x) == 0
}

// A text, the byte 0x80, and zeros.
pub(crate) fn pad<const N: usize>(text: &[u8]) -> [u8; N]
    requires { length text.now < N }
    ensures { result ≡ padded N text.now }
{
    let mut out = [0; N];
    let n = text.len();
    out[..n].copy_from_slice(text);
    out[n] = 0x80;
    out
}

// A number at the end of a block.
pub(crate) fn big_endian(n: u64) -> [u8; 32]
    ensures { result ≡ big_endian_of 32 n }
{
    joined(&[0; 24], &n.to_be_bytes())
}
