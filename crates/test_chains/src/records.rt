use crate::runs::Piece;
use anyhow::{Context, anyhow};
use std::alloc::Global;

// The lines `NAME = VALUE` of a record up to a blank line: two texts, and the calls that hand the
// same texts to the chains. What has no line is 0 or empty.
#[derive(Drop)]
pub(crate) struct Record {
    pub(crate) count: u32,
    pub(crate) key: Vec<u8>,
    pub(crate) nonce: Vec<u8>,
    pub(crate) associated: Vec<u8>,
    pub(crate) text: Vec<u8>,
    pub(crate) data_calls: Vec<Piece>,
    pub(crate) text_calls: Vec<Piece>,
}

impl Record {
    pub(crate) fn new(heap: Global) -> Record {
        Record {
            count: 0,
            key: Vec::new(heap),
            nonce: Vec::new(heap),
            associated: Vec::new(heap),
            text: Vec::new(heap),
            data_calls: Vec::new(heap),
            text_calls: Vec::new(heap),
        }
    }

    pub(crate) fn note(&mut self, heap: Global, line: &str) -> anyhow::Result<()> {
        let (name, value) = line.split_once(" =").context("a line has no ' ='")?;
        let value = value.trim();
        if name == "Count" {
            self.count = value.parse()?;
            return Ok(());
        }
        let bytes = hex::decode(heap, value).context("a value is not in hexadecimal digits")?;
        match name {
            "Key" => self.key = bytes,
            "Nonce" => self.nonce = bytes,
            "AD" => self.associated = bytes,
            "CT" => self.text = bytes,
            "data_block" => self.data_calls.push(Piece::Block(bytes))?,
            "data_tail" => self.data_calls.push(Piece::Tail(bytes))?,
            "text_block" => self.text_calls.push(Piece::Block(bytes))?,
            "text_tail" => self.text_calls.push(Piece::Tail(bytes))?,
            _ => return Err(anyhow!("a line has an unknown name")),
        }
        Ok(())
    }
}
