use crate::plain_records::write;

// A shelf once more, by its image.
#[derive(Drop)]
pub(crate) struct PlainShelf {
    pub(crate) kind: Kind,
    pub(crate) image: Vec<u8>,
}

// Of a plate the count of places that it was made with.
#[derive(Clone, Copy, PartialEq, Eq, Debug)]
pub(crate) enum Kind {
    Tray,
    Plate(u32),
}

impl PlainShelf {
    // How many places it has; none where it is an unfit plate.
    pub(crate) fn count(&self) -> u32 {
        match self.kind {
            Kind::Tray => (self.image.len() / 1024).min(4096) as u32,
            Kind::Plate(places) if self.is_fit(places) => places,
            Kind::Plate(_) => 0,
        }
    }

    // The marks are at most the count, and no used cell stands after an unused one.
    fn is_fit(&self, places: u32) -> bool {
        let mut ended = false;
        for cell in self.cells().chunks_exact(1026) {
            let mark = mark_of(cell);
            if mark > places || (ended && mark > 0) {
                return false;
            }
            ended = mark == 0;
        }
        (1..=4096).contains(&places)
    }

    // The memory of its cells, without spare bytes.
    fn cells(&self) -> &[u8] {
        let cells = (self.image.len() / 1026).min(8192);
        &self.image[..1026 * cells]
    }

    pub(crate) fn is_open(&self, place: u32) -> bool {
        place < self.count()
            && match self.kind {
                Kind::Tray => true,
                Kind::Plate(_) => self
                    .cells()
                    .chunks_exact(1026)
                    .any(|cell| mark_of(cell) == 0),
            }
    }

    // What a place holds that it has.
    pub(crate) fn record(&self, place: u32) -> [u8; 1024] {
        let mut record = [0; 1024];
        match self.kind {
            Kind::Tray => {
                if let Some(held) = self.image.chunks_exact(1024).nth(place as usize) {
                    write(&mut record, 0, held);
                }
            }
            Kind::Plate(_) => {
                for cell in self.cells().chunks_exact(1026) {
                    if mark_of(cell) == place.saturating_add(1) {
                        write(&mut record, 0, cell.get(2..).unwrap_or(&[]));
                    }
                }
            }
        }
        record
    }

    // Puts a record at an open place.
    pub(crate) fn put(&mut self, place: u32, record: &[u8; 1024]) {
        match self.kind {
            Kind::Tray => write(
                &mut self.image,
                (place as usize).saturating_mul(1024),
                record,
            ),
            Kind::Plate(_) => {
                for cell in self.image.chunks_exact_mut(1026).take(8192) {
                    if mark_of(cell) == 0 {
                        write(
                            cell,
                            0,
                            &(((place & 0xFFFF) as u16).saturating_add(1)).to_be_bytes(),
                        );
                        write(cell, 2, record);
                        return;
                    }
                }
            }
        }
    }
}

fn mark_of(cell: &[u8]) -> u32 {
    match cell {
        [high, low, ..] => 256 * u32::from(*high) + u32::from(*low),
        _ => 0,
    }
}
