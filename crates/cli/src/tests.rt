use super::*;
use commands::Files;
use desk::Unmade;
use std::fs;
use std::test::Fail;

// A small file goes there and back, and a damaged copy, another key and a short key are refused
// with nothing written.
#[test]
fn locks_and_unlocks(rt: HostRuntime) -> Result<(), Fail> {
    fs::write(&rt, "key", "0123456789abcdef0123456789abcdef")?;
    fs::write(&rt, "other", "0123456789abcdef0123456789abcdeF")?;
    fs::write(&rt, "short", "0123456789abcdef")?;
    fs::write(&rt, "rose", "a rose window")?;
    assert!(rt; lock_file(&rt, None, files("key", "rose", "rose.locked")).is_ok());
    assert!(rt; unlock_file(&rt, files("key", "rose.locked", "rose.again")).is_ok());
    assert!(rt; fs::read(&rt, "rose.again")?.as_slice() == b"a rose window".as_slice());
    assert_eq!(rt;
        refusal(unlock_file(&rt, files("other", "rose.locked", "never"))),
        Some(11)
    );
    assert_eq!(rt;
        refusal(unlock_file(&rt, files("short", "rose.locked", "never"))),
        Some(1)
    );
    assert_eq!(rt;
        refusal(unlock_file(&rt, files("key", "rose", "never"))),
        Some(1)
    );
    assert_eq!(rt;
        refusal(lock_file(&rt, None, files("short", "rose", "never"))),
        Some(1)
    );
    assert!(rt; fs::read(&rt, "never").is_err());
    Ok(())
}

fn files<'a>(key: &'a str, from: &'a str, to: &'a str) -> Files<'a> {
    Files { key, from, to }
}

// The number of a refusal.
fn refusal(done: Result<(), Problem>) -> Option<u8> {
    match done {
        Err(Problem::Unmade(Unmade::Refused(fault))) => Some(fault.number()),
        _ => None,
    }
}
