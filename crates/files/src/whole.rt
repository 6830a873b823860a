ghost use Rattle.std.specs.Prelude.{◌≤◌, length, IfOk};

use std::fs::{File, OpenOptions};
use std::io::{Read, Write};
use std::{fs, io};

/// At most so many bytes of a file, from its beginning, however long it is.
pub fn read_limited(rt: &HostRuntime, name: &str, limit: u64) -> io::Result<Vec<u8>>
    ensures { IfOk result (λ bytes. length bytes.items ≤ limit) }
{
    let mut bytes = Vec::new(rt.alloc());
    File::open(rt, name)?.take(limit).read_to_end(&mut bytes)?;
    bytes.truncate(limit as usize);
    Ok(bytes)
}

/// Writes the bytes into a new file `name.part`, and gives it the name when it is whole. Until
/// then, and on an error, a file that had the name stays as it is.
pub fn write_whole(rt: &HostRuntime, name: &str, bytes: &[u8]) -> io::Result<()> {
    let part = format!(in rt.alloc(); "{name}.part")?;
    let mut file = OpenOptions::new()
        .write(true)
        .create_new(true)
        .open(rt, &part)?;
    let written = filled(&mut file, bytes).and_then(|()| fs::rename(rt, &part, name));
    if written.is_err() {
        let _ = fs::remove_file(rt, &part);
    }
    written
}

fn filled(file: &mut File, bytes: &[u8]) -> io::Result<()> {
    file.write_all(bytes)?;
    file.sync_all()
}
