ghost use Rattle.std.specs.Prelude.{◌≡◌, ◌≤◌, length, vec_items};
ghost use Rattle.faults.specs.Tables.{Checks};
ghost use Rattle.desk.specs.Locks.{lock_rows, unlock_rows, MayUnlock, LockAnswer, UnlockAnswer};

use crate::unmade::Unmade;
use faults::{ModeCause, ModeFault};
use saturnin_words::WordForm;
use std::alloc::Global;

/// What was read as the key of a lock; a key has 32 bytes.
#[derive(Drop)]
pub struct LockKey {
    pub bytes: Vec<u8>,
}

/// What was read as the nonce of a locked file; a nonce has 20 bytes.
#[derive(Drop)]
pub struct Nonce {
    pub bytes: Vec<u8>,
}

/// The bytes of a locked file, 56 more than the message has.
/// Refused, before memory is asked for, are a key and a nonce that are not of their length, and a
/// message of more than 65,536 bytes.
pub fn locked_bytes(
    heap: Global,
    key: &LockKey,
    nonce: &Nonce,
    message: &[u8],
) -> Result<Vec<u8>, Unmade>
    ensures { LockAnswer vec_items key.now.bytes.items nonce.now.bytes.items message.now result }
{
    check_lock(key.bytes.len(), nonce.bytes.len(), message.len())?;
    let mut file = vec![in heap; 0; message.len() + 56]?;
    locked::lock(&WordForm, &key.bytes, &nonce.bytes, message, &mut file)?;
    Ok(file)
}

// Whether key, nonce and message can be locked, by their lengths.
fn check_lock(key: usize, nonce: usize, message: usize) -> Result<(), ModeFault>
    ensures { Checks (lock_rows key nonce message)
        (λ _. (key ≡ 32) × (nonce ≡ 20) × (message ≤ 65536)) result }
{
    if key != 32 || nonce != 20 {
        return Err(ModeCause::Length.into());
    }
    if message > 65_536 {
        return Err(ModeCause::Limit.into());
    }
    Ok(())
}

/// The message of a locked file, 56 bytes shorter than the file is.
/// Refused are, before memory is asked for, a key that is not of its length and a file of less than
/// 56 or more than 65,592 bytes; and a file in which no message is locked with this key.
pub fn unlocked_bytes(heap: Global, key: &LockKey, file: &[u8]) -> Result<Vec<u8>, Unmade>
    ensures { UnlockAnswer vec_items key.now.bytes.items file.now result }
{
    check_unlock(&key.bytes, file)?;
    let mut message = vec![in heap; 0; file.len() - 56]?;
    locked::unlock(&WordForm, &key.bytes, file, &mut message)?;
    Ok(message)
}

// Whether a message may be locked in a file with a key, by their lengths.
fn check_unlock(key: &[u8], file: &[u8]) -> Result<(), ModeFault>
    ensures { Checks (unlock_rows key.now file.now)
        (λ _. MayUnlock (length key.now) (length file.now)) result }
{
    if key.len() != 32 || file.len() < 56 {
        return Err(ModeCause::Length.into());
    }
    if file.len() > 65_592 {
        return Err(ModeCause::Limit.into());
    }
    Ok(())
}
