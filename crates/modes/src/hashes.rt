ghost use Rattle.std.specs.Prelude.{◌≡◌, ℕ, ◌≤◌, length};
ghost use Rattle.faults.specs.Tables.{Checks};
ghost use Rattle.modes.specs.Hash.{hash as hashed, hash_table, Hashes};

use crate::chains::Chain;
use cipher::Cipher;
use faults::{ModeCause, ModeFault};

/// The digest of a message of at most 65,536 bytes, into a buffer of 32. Refused with 1 where the
/// buffer has another length, and with 2 where the message is longer; the buffer then stays.
pub fn hash<C: Cipher>(cipher: &C, message: &[u8], digest: &mut [u8]) -> Result<(), ModeFault>
    ensures { Hashes (C.Cipher.forward cipher.now) message.now digest.old result digest.new }
{
    check_hash(message.len(), digest.len())?;
    digest.copy_from_slice(&hash_of(cipher, message));
    Ok(())
}

fn check_hash(message: usize, digest: usize) -> Result<(), ModeFault>
    ensures { Checks (hash_table message digest)
        (λ _. (digest ≡ 32) × (message ≤ 65536)) result }
{
    if digest != 32 {
        return Err(ModeCause::Length.into());
    }
    if message > 65536 {
        return Err(ModeCause::Limit.into());
    }
    Ok(())
}

#[tactic(auto, unfolding(crate::specs::Hash::hash))]
fn hash_of<C: Cipher>(cipher: &C, message: &[u8]) -> [u8; 32]
    ensures { result ≡ hashed (C.Cipher.forward cipher.now) message.now }
{
    let mut chain = Chain::<C, 7, 8, 16>::from(cipher, [0; 32]);
    chain.feed(message);
    chain.end()
}
