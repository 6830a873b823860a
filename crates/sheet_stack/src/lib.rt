#![tactic(auto)]

use archive_box::{ArchiveBox, Refusal};
use saturnin_words::WordForm;
use tray::Tray;

// Makes a box on the tray in this memory, draws a number, and seals a sheet under it: the number of
// the refusal, or 0.
#[unsafe(no_mangle)]
pub extern "C" fn sheet_stack_seal(
    memory: &mut [u8],
    key: &[u8; 32],
    place: u32,
    label: &[u8],
    message: &[u8],
    record: &mut [u8],
) -> u8 {
    let mut asked = ArchiveBox::new(WordForm, Tray::new(memory), *key, *b"stackbox", 1);
    let number = match asked.draw() {
        Ok(number) => number,
        Err(fault) => return fault.number(),
    };
    match asked.seal(number, place, label, message, record) {
        Ok(()) => 0,
        Err(Refusal { fault, number }) => {
            let _ = asked.void(number);
            fault.number()
        }
    }
}
