use crate::plain_records::{length_of, number_of};
use archive_box::Viewing;

// Whether a viewing on this buffer shows what stands in it, and leaves zeros.
pub(crate) fn viewing_is_right(buffer: &mut [u8]) -> bool {
    let right = match buffer.as_array::<1024>() {
        Some(record) => {
            let record = *record;
            shows(buffer, &record)
        }
        None => Viewing::new(buffer).sheet().is_none(),
    };
    right && buffer.iter().all(|b| *b == 0)
}

fn shows(buffer: &mut [u8], record: &[u8; 1024]) -> bool {
    let viewing = Viewing::new(buffer);
    let length = length_of(record);
    match viewing.sheet() {
        Some(sheet) => {
            length <= 928
                && sheet.number == number_of(record)
                && sheet.label.as_slice() == &record[16..62]
                && sheet.message == &record[64..64 + length]
        }
        None => length > 928,
    }
}
