use std::alloc::Global;
use std::io;
use std::io::{BufRead, Read};

// The most bytes that are taken for a line: 65,535 and its end.
const ROOM: u64 = 65_536;

/// What comes next in a script.
#[derive(Clone, Copy)]
pub(crate) enum Next {
    Line,
    TooLong,
    End,
}

/// A script, of which one line at a time is held.
#[derive(Drop)]
pub(crate) struct Script<R: BufRead + Drop> {
    reader: R,
    line: Vec<u8>,
    pub(crate) number: u64,
}

impl<R: BufRead + Drop> Script<R> {
    pub(crate) fn new(heap: Global, reader: R) -> Script<R> {
        Script {
            reader,
            line: Vec::new(heap),
            number: 0,
        }
    }

    /// Goes on to the next line. One that is too long is passed over, and what it begins with is
    /// held.
    pub(crate) fn go_on(&mut self) -> io::Result<Next> {
        self.line.clear();
        let mut limited = self.reader.by_ref().take(ROOM);
        let read = limited.read_until(b'\n', &mut self.line)?;
        if read == 0 {
            return Ok(Next::End);
        }
        self.number = self.number.saturating_add(1);
        if read as u64 == ROOM && self.line.last() != Some(&b'\n') {
            self.reader.skip_until(b'\n')?;
            return Ok(Next::TooLong);
        }
        Ok(Next::Line)
    }

    /// The line that is held, without its end.
    pub(crate) fn line(&self) -> &[u8] {
        match self.line.as_slice() {
            [line @ .., b'\r', b'\n'] | [line @ .., b'\n'] => line,
            line => line,
        }
    }
}
