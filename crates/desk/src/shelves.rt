ghost use Rattle.std.specs.Prelude.{◌≡◌, IfOk, string_bytes};
ghost use Rattle.tray.specs.Trays.{tray as tray_in};
ghost use Rattle.inventory.specs.Reports.{Reports};
ghost use Rattle.desk.specs.Shelves.{PlateAnswer};

use crate::unmade::Unmade;
use inventory::report;
use plate::Plate;
use std::alloc::{AllocError, Global};
use tray::Tray;

/// The report on the tray in an image: a line for each of its used places. The image stays as it
/// is.
pub fn tray_report(heap: Global, image: &mut [u8]) -> Result<String, AllocError>
    ensures report { IfOk result (λ text. Reports (tray_in image.old) (string_bytes text)) }
    ensures same { image.new ≡ image.old }
{
    let tray = Tray::new(image);
    report(heap, &tray)
}

/// The report on the plate of so many places in an image, or the fault `Unfit` of one that is
/// unfit. The image stays as it is.
pub fn plate_report(heap: Global, image: &mut [u8], places: u32) -> Result<String, Unmade>
    ensures report { PlateAnswer string_bytes image.old places result }
    ensures same { image.new ≡ image.old }
{
    Plate::check(image, places)?;
    let plate = Plate::new(image, places);
    Ok(report(heap, &plate)?)
}
