ghost use Rattle.std.specs.Prelude.{◌≡◌, ◌≢◌, ◌<◌, ◌≤◌, ◌++◌, length, MatchBool, MatchOption};
ghost use Rattle.octets.specs.Octets.{zeros, big_endian, part as part_of};
ghost use Rattle.records.specs.Records.{empty, nonce_in, number_in, head_in, label_in, length_in};
ghost use Rattle.records.specs.Records.{text_in, filling_in, tag_in, text_at, text_room};

use crate::layout::{HEAD_AT, LENGTH_AT, NUMBER_AT, TAG_AT, TEXT_AT, TEXT_ROOM, part};

/// The 1,024 bytes of a record, by its parts. Nothing is checked: it shows what the bytes say.
#[derive(Clone, Copy)]
pub struct Record<'a> {
    pub bytes: &'a [u8; 1024],
}

impl<'a> Record<'a> {
    /// Whether every byte is zero, as in an empty place.
    pub fn is_empty(&self) -> bool
        ensures { let bytes = self.now.bytes.now in
            MatchBool result (bytes ≡ empty) (bytes ≢ empty) }
    {
        let bytes = self.bytes;
        octets::is_zero(bytes)
    }

    /// The nonce that the record was sealed under: 16 bytes.
    pub fn nonce(&self) -> &'a [u8; 16]
        ensures { result.now ≡ nonce_in self.now.bytes.now }
    {
        part(self.bytes, 0)
    }

    /// The number that the record was sealed under; it is not opened for it.
    pub fn number(&self) -> u64
        ensures { result ≡ number_in self.now.bytes.now }
    {
        u64::from_be_bytes(*part(self.bytes, NUMBER_AT))
    }

    /// The head, which is authenticated and not encrypted: 48 bytes, label and length.
    pub fn head(&self) -> &'a [u8; 48]
        ensures { result.now ≡ head_in self.now.bytes.now }
    {
        part(self.bytes, HEAD_AT)
    }

    /// The label: 46 bytes.
    pub fn label(&self) -> &'a [u8; 46]
        ensures { result.now ≡ label_in self.now.bytes.now }
    {
        part(self.bytes, HEAD_AT)
    }

    /// The length of the message, as the head tells it: 0 to 65,535, also where that is above 928.
    pub fn length(&self) -> usize
        ensures { result ≡ length_in self.now.bytes.now }
    {
        u16::from_be_bytes(*part(self.bytes, LENGTH_AT)) as usize
    }

    /// The text, as long as the head tells: a ciphertext, or in an opened record the message. None
    /// where the length is above 928.
    pub fn text(&self) -> Option<&'a [u8]>
        ensures { let bytes = self.now.bytes.now in
            MatchOption result (text_room < length_in bytes)
            (λ text. (length_in bytes ≤ text_room) × (text.now ≡ text_in bytes)) }
    {
        self.room().get(..self.length())
    }

    /// The filling between text and tag. None where the length is above 928.
    pub fn filling(&self) -> Option<&'a [u8]>
        ensures { let bytes = self.now.bytes.now in
            MatchOption result (text_room < length_in bytes)
            (λ filling. (length_in bytes ≤ text_room) × (filling.now ≡ filling_in bytes)) }
    {
        self.room().get(self.length()..)
    }

    // The bytes that text and filling take together.
    fn room(&self) -> &'a [u8; TEXT_ROOM]
        ensures part { result.now ≡ part_of text_at text_room self.now.bytes.now }
        ensures long { length result.now ≡ text_room }
    {
        part(self.bytes, TEXT_AT)
    }

    /// The tag: 32 bytes.
    pub fn tag(&self) -> &'a [u8; 32]
        ensures { result.now ≡ tag_in self.now.bytes.now }
    {
        part(self.bytes, TAG_AT)
    }
}

/// Begins a record: the nonce, the head of label and length, and zeros for text, filling and tag.
pub fn begin(bytes: &mut [u8; 1024], nonce: &[u8; 16], label: &[u8; 46], length: u16)
    ensures { bytes.new ≡ nonce.now ++ ((label.now ++ big_endian 2 «length») ++ zeros 960) }
{
    bytes.fill(0);
    bytes[..HEAD_AT].copy_from_slice(nonce);
    bytes[HEAD_AT..LENGTH_AT].copy_from_slice(label);
    bytes[LENGTH_AT..TEXT_AT].copy_from_slice(&length.to_be_bytes());
}
