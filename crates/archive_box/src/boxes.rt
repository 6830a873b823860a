ghost use Rattle.std.specs.Prelude.{◌≤◌};
ghost use Rattle.cipher.specs.Meaning.{Bytes};

use numbers::NumbersOut;

/// A box on a cipher and a shelf, which it holds: it hands out numbers from its first to
/// 999,999,999, at most sixteen of them at a time, and seals under each at most once.
#[derive(Drop)]
pub struct ArchiveBox<C, S> {
    pub(crate) cipher: C,
    pub(crate) shelf: S,
    pub(crate) key: [u8; 32],
    pub(crate) sign: [u8; 8],
    pub(crate) next: u64,
    pub(crate) out: NumbersOut,
    ghost from_one: { 1 ≤ next },
    ghost key_fits: { Bytes 32 key },
    ghost sign_fits: { Bytes 8 sign },
}
