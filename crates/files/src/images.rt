ghost use Rattle.std.specs.Prelude.{◌≤◌, length, MatchResult};
ghost use Rattle.files.specs.Limits.{Names};

use crate::unread::Unread;
use crate::whole::read_limited;

// 4,096 places of 1,024 bytes.
const TRAY_BYTES: u64 = 4_194_304;

// 8,192 cells of 1,026 bytes.
const PLATE_BYTES: u64 = 8_404_992;

/// The image of a tray: a file of at most 4,194,304 bytes, the most that a tray has.
pub fn read_tray(rt: &HostRuntime, file: &str) -> Result<Vec<u8>, Unread>
    ensures { MatchResult result (λ image. length image.items ≤ 4194304) (Names 4194304) }
{
    read_image(rt, file, TRAY_BYTES)
}

/// The image of a plate: a file of at most 8,404,992 bytes, the most that a plate has.
pub fn read_plate(rt: &HostRuntime, file: &str) -> Result<Vec<u8>, Unread>
    ensures { MatchResult result (λ image. length image.items ≤ 8404992) (Names 8404992) }
{
    read_image(rt, file, PLATE_BYTES)
}

fn read_image(rt: &HostRuntime, file: &str, limit: u64) -> Result<Vec<u8>, Unread>
    ensures { MatchResult result (λ image. length image.items ≤ limit) (Names limit) }
{
    let image = read_limited(rt, file, limit.saturating_add(1))?;
    if image.len() as u64 > limit {
        return Err(Unread::Over(limit));
    }
    Ok(image)
}
