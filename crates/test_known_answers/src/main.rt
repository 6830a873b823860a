#![tactic(auto)]

mod records;
mod values;

use records::Record;
use saturnin_cube::CubeForm;
use saturnin_words::WordForm;
use std::alloc::{AllocError, Global};
use std::io::{BufRead, BufReader};
use values::{NoValue, value};

// Reads records of known-answer files from standard input, each with one of its values left out,
// and prints that value as both forms of the cipher give it.
fn main(rt: HostRuntime) -> anyhow::Result<()> {
    let heap = rt.alloc();
    let mut record = Record::new(heap);
    for line in BufReader::new(heap, rt.stdin())?.lines(heap) {
        let line = line?;
        if line.is_empty() {
            answer(&rt, &record)?;
            record = Record::new(heap);
        } else {
            record.note(heap, &line)?;
        }
    }
    answer(&rt, &record)
}

fn answer(rt: &HostRuntime, record: &Record) -> anyhow::Result<()> {
    let Some(text) = &record.text else {
        return Ok(());
    };
    let heap = rt.alloc();
    let count = record.count;
    let name = text.wanted();
    let words = shown(heap, value(&WordForm, heap, record, text))?;
    let cube = shown(heap, value(&CubeForm, heap, record, text))?;
    println!(rt; "Count = {count}")?;
    println!(rt; "words: {name} = {words}")?;
    println!(rt; "cube: {name} = {cube}")?;
    Ok(())
}

fn shown(heap: Global, value: Result<Vec<u8>, NoValue>) -> Result<String, AllocError> {
    match value {
        Ok(bytes) => hex::encode(heap, bytes.as_slice()),
        Err(NoValue::Refused(fault)) => format!(in heap; "{fault}"),
        Err(NoValue::Memory(e)) => Err(e),
    }
}
