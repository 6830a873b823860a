/// What the sheet of a place is sealed under: a cipher, a key of 32 bytes, and the place. Its calls
/// pass on what they borrow together, so it has one lifetime in them.
#[derive(Drop)]
pub struct PlaceLock<'a, C> {
    pub cipher: &'a C,
    pub key: &'a [u8; 32],
    pub place: u32,
}

/// What a slip is sealed under: a cipher, and a key of 32 bytes.
#[derive(Drop)]
pub struct SlipLock<'a, C> {
    pub cipher: &'a C,
    pub key: &'a [u8; 32],
}
