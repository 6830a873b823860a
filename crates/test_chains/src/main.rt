#![tactic(auto)]

mod records;
mod runs;
mod texts;

use anyhow::anyhow;
use faults::ModeFault;
use records::Record;
use saturnin_words::WordForm;
use std::alloc::{AllocError, Global};
use std::io::{BufRead, BufReader};

// Reads records of known-answer files from standard input, and prints the tag of each by the calls
// on chains: once of its texts, and once after the calls that the record lists.
fn main(rt: HostRuntime) -> anyhow::Result<()> {
    let heap = rt.alloc();
    let mut record = Record::new(heap);
    for line in BufReader::new(heap, rt.stdin())?.lines(heap) {
        let line = line?;
        if line.is_empty() {
            answer(&rt, &record)?;
            record = Record::new(heap);
        } else {
            record.note(heap, &line)?;
        }
    }
    answer(&rt, &record)
}

fn answer(rt: &HostRuntime, record: &Record) -> anyhow::Result<()> {
    let heap = rt.alloc();
    let count = record.count;
    let Ok(key) = record.key.as_slice().try_into() else {
        return Err(anyhow!("a key has not 32 bytes"));
    };
    let of_texts = texts::tag_of_texts(
        &WordForm,
        key,
        &record.nonce,
        &record.associated,
        &record.text,
    );
    let of_run = runs::tag_of_run(
        &WordForm,
        key,
        &record.nonce,
        &record.data_calls,
        &record.text_calls,
    );
    let (of_texts, of_run) = (shown(heap, of_texts)?, shown(heap, of_run)?);
    println!(rt; "Count = {count}")?;
    println!(rt; "texts: Tag = {of_texts}")?;
    println!(rt; "calls: Tag = {of_run}")?;
    Ok(())
}

fn shown(heap: Global, tag: Result<[u8; 32], ModeFault>) -> Result<String, AllocError> {
    match tag {
        Ok(tag) => hex::encode(heap, tag.as_slice()),
        Err(fault) => format!(in heap; "{fault}"),
    }
}
