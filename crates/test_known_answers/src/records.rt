use anyhow::{Context, anyhow};
use std::alloc::Global;

// What stands under PT, CT or Msg.
#[derive(Drop)]
pub(crate) enum Text {
    Plain(Vec<u8>),
    Cipher(Vec<u8>),
    Message(Vec<u8>),
}

impl Text {
    // The name of the value that is left out.
    pub(crate) fn wanted(&self) -> &'static str {
        match self {
            Text::Plain(_) => "CT",
            Text::Cipher(_) => "PT",
            Text::Message(_) => "MD",
        }
    }
}

// The lines `NAME = VALUE` of a record up to a blank line. A number, or the key, is 0 or empty
// until its line comes: where it never comes, the call refuses that, or is of a kind that does not
// read it. The others say what kind of record it is.
#[derive(Drop)]
pub(crate) struct Record {
    pub(crate) count: u32,
    pub(crate) key: Vec<u8>,
    pub(crate) r: u8,
    pub(crate) d: u8,
    pub(crate) nonce: Option<Vec<u8>>,
    pub(crate) associated: Option<Vec<u8>>,
    pub(crate) text: Option<Text>,
}

impl Record {
    pub(crate) fn new(heap: Global) -> Record {
        Record {
            count: 0,
            key: Vec::new(heap),
            r: 0,
            d: 0,
            nonce: None,
            associated: None,
            text: None,
        }
    }

    pub(crate) fn note(&mut self, heap: Global, line: &str) -> anyhow::Result<()> {
        let (name, value) = line.split_once(" =").context("a line has no ' ='")?;
        let value = value.trim();
        match name {
            "Count" => self.count = value.parse()?,
            "R" => self.r = value.parse()?,
            "D" => self.d = value.parse()?,
            "Key" => self.key = bytes(heap, value)?,
            "Nonce" => self.nonce = Some(bytes(heap, value)?),
            "AD" => self.associated = Some(bytes(heap, value)?),
            "PT" => self.text = Some(Text::Plain(bytes(heap, value)?)),
            "CT" => self.text = Some(Text::Cipher(bytes(heap, value)?)),
            "Msg" => self.text = Some(Text::Message(bytes(heap, value)?)),
            _ => return Err(anyhow!("a line has an unknown name")),
        }
        Ok(())
    }
}

fn bytes(heap: Global, value: &str) -> anyhow::Result<Vec<u8>> {
    hex::decode(heap, value).context("a value is not in hexadecimal digits")
}
