ghost use Rattle.std.specs.Prelude.{◌≡◌, ◌++◌, ◌%◌, length, IfOk, string_bytes};
ghost use Rattle.tray.specs.Trays.{tray as tray_in};
ghost use Rattle.cli.specs.Shelves.{spare_line, Lines, PlateLines};

use crate::problems::Problem;
use desk::{Unmade, plate_report, tray_report};
use files::{read_plate, read_tray};
use std::alloc::{AllocError, Global};

/// The text on the tray in a file.
pub(crate) fn tray_text(rt: &HostRuntime, file: &str) -> Result<String, Problem> {
    let image = read_tray(rt, file)?;
    Ok(tray_lines(rt.alloc(), image)?)
}

/// The text on the plate of so many places in a file, or why there is none.
pub(crate) fn plate_text(rt: &HostRuntime, file: &str, places: &str) -> Result<String, Problem> {
    let places = places.parse::<u32>().map_err(|_| Problem::NoCount)?;
    let image = read_plate(rt, file)?;
    Ok(plate_lines(rt.alloc(), image, places)?)
}

fn tray_lines(heap: Global, mut image: Vec<u8>) -> Result<String, AllocError>
    ensures { IfOk result
        (λ text. Lines (tray_in image.items) (length image.items % 1024) (string_bytes text)) }
{
    let text = tray_report(heap, &mut image)?;
    with_spare(heap, text, image.len() % 1024)
}

fn plate_lines(heap: Global, mut image: Vec<u8>, places: u32) -> Result<String, Unmade>
    ensures { PlateLines string_bytes image.items places result }
{
    let text = plate_report(heap, &mut image, places)?;
    Ok(with_spare(heap, text, image.len() % 1026)?)
}

// A report, and a line on the bytes that are left at the end.
fn with_spare(heap: Global, text: String, spare: usize) -> Result<String, AllocError>
    ensures { IfOk result (λ whole. string_bytes whole ≡ string_bytes text ++ spare_line spare) }
{
    if spare == 0 {
        return Ok(text);
    }
    format!(in heap; "{text}{spare} spare bytes at the end\n")
}
