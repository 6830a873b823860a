#![tactic(auto)]

ghost use Rattle.std.specs.Prelude.{◌≡◌, ◌+◌, ◌≤◌};
ghost use Rattle.faults.specs.Tables.{Checks};
ghost use Rattle.locked.specs.Locked.{lock_table, Locks, Unlocks};

use cipher::Cipher;
use faults::{ModeCause, ModeFault};
use modes::Cascade;
use octets::paste;

const MAGIC: &[u8] = b"MGL1";

/// Locks a message of at most 65,536 bytes, under a key of 32 and a nonce of 20, into a file's
/// buffer, which has 56 bytes more than the message. Refused with 1 where key, nonce or buffer have
/// another length, and with 2 where the message is longer; the buffer then stays.
pub fn lock<C: Cipher>(
    cipher: &C,
    key: &[u8],
    nonce: &[u8],
    message: &[u8],
    file: &mut [u8],
) -> Result<(), ModeFault>
    ensures { Locks (C.Cipher.forward cipher.now) key.now nonce.now message.now file.old
        result file.new }
{
    check_lock(key.len(), nonce.len(), message.len(), file.len())?;
    let mut tag = [0; 32];
    let under = Cascade {
        cipher,
        key,
        nonce,
        associated: MAGIC,
    };
    under.seal(message, &mut file[56..], &mut tag)?;
    paste(file, 0, MAGIC);
    paste(file, 4, nonce);
    paste(file, 24, &tag);
    Ok(())
}

// Whether key, nonce, message and file go together by their lengths.
fn check_lock(key: usize, nonce: usize, message: usize, file: usize) -> Result<(), ModeFault>
    ensures { Checks (lock_table key nonce message file)
        (λ _. (key ≡ 32) × (nonce ≡ 20) × (file ≡ 56 + message) × (message ≤ 65536)) result }
{
    if key != 32 || nonce != 20 || file < 56 || file - 56 != message {
        return Err(ModeCause::Length.into());
    }
    if message > 65536 {
        return Err(ModeCause::Limit.into());
    }
    Ok(())
}

/// Unlocks a file, under a key of 32 bytes, into a buffer for its message: 56 bytes fewer than the
/// file, and at most 65,536. Refused with 1 where key or buffer have another length, and with 2
/// where the buffer is longer, and the buffer then stays; and with 11 where the file is damaged,
/// locked by another key or no locked file, and the buffer then becomes zero.
pub fn unlock<C: Cipher>(
    cipher: &C,
    key: &[u8],
    file: &[u8],
    out: &mut [u8],
) -> Result<(), ModeFault>
    ensures { Unlocks (C.Cipher.forward cipher.now) key.now file.now out.old result out.new }
{
    check_lock(key.len(), 20, out.len(), file.len())?;
    if &file[..4] != MAGIC {
        out.fill(0);
        return Err(ModeCause::Tag.into());
    }
    let under = Cascade {
        cipher,
        key,
        nonce: &file[4..24],
        associated: MAGIC,
    };
    under.open(&file[56..], &file[24..56], out)
}
