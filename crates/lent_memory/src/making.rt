/// What a box is made with: a cipher, a key of 32 bytes, a sign of 8, and its first number, where 0
/// stands for 1.
#[derive(Drop)]
pub struct Making<C> {
    pub cipher: C,
    pub key: [u8; 32],
    pub sign: [u8; 8],
    pub first: u64,
}
