ghost use Rattle.cli.specs.Nonces.{NonceAnswer};

use crate::commands::Files;
use crate::problems::Problem;
use desk::{LockKey, Nonce, Unmade, locked_bytes, unlocked_bytes};
use files::{read_limited, write_whole};
use hex::FromHexError;
use std::alloc::Global;

/// Locks a file under a nonce of the system's choice, or under one given in hexadecimal digits.
pub(crate) fn lock_file(
    rt: &HostRuntime,
    nonce: Option<&str>,
    files: Files,
) -> Result<(), Problem> {
    let key = read_key(rt, files.key)?;
    let message = read_limited(rt, files.from, 65_537)?;
    let nonce = match nonce {
        None => Nonce {
            bytes: read_limited(rt, "/dev/urandom", 20)?,
        },
        Some(digits) => nonce_in(rt.alloc(), digits)?,
    };
    let file = locked_bytes(rt.alloc(), &key, &nonce, &message)?;
    put(rt, files.to, &file)
}

// The nonce that a text spells, in digits of either case.
fn nonce_in(heap: Global, digits: &str) -> Result<Nonce, Problem>
    ensures { NonceAnswer digits.now result }
{
    match hex::decode(heap, digits) {
        Ok(bytes) => Ok(Nonce { bytes }),
        Err(FromHexError::OutOfMemory) => Err(Problem::Unmade(Unmade::Memory)),
        Err(_) => Err(Problem::NoDigits),
    }
}

/// Unlocks a file.
pub(crate) fn unlock_file(rt: &HostRuntime, files: Files) -> Result<(), Problem> {
    let key = read_key(rt, files.key)?;
    let file = read_limited(rt, files.from, 65_593)?;
    let message = unlocked_bytes(rt.alloc(), &key, &file)?;
    put(rt, files.to, &message)
}

fn read_key(rt: &HostRuntime, name: &str) -> Result<LockKey, Problem> {
    let bytes = read_limited(rt, name, 33).map_err(Problem::KeyUnread)?;
    Ok(LockKey { bytes })
}

fn put(rt: &HostRuntime, name: &str, bytes: &[u8]) -> Result<(), Problem> {
    write_whole(rt, name, bytes).map_err(Problem::Unwritten)
}
