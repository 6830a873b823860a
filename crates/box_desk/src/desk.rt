ghost use Rattle.std.specs.Prelude.{◌≡◌, ◌↔◌};
ghost use Rattle.faults.specs.Tables.{Not};
ghost use Rattle.script.specs.Names.{NamesCall};
ghost use Rattle.box_desk.specs.declared.problems.Problem.TheVariants.{NoCall};

use crate::answers::{Answer, Looked};
use crate::hand::Hand;
use crate::image::Image;
use crate::problems::Problem;
use crate::reader::{Next, Script};
use crate::settings::{Kind, Loaded, Making, Settings};
use crate::shown::Shown;
use crate::worker::{NoBox, Worker};
use archive_box::{ArchiveBox, Viewing};
use plate::Plate;
use saturnin_cube::CubeForm;
use saturnin_words::WordForm;
use script::{Call, CipherForm, usage_of};
use std::io::BufRead;
use std::{fmt, io};
use tray::Tray;

/// Works boxes by a script on standard input, and prints its log. Whether every line of it was
/// done.
pub fn work_script(rt: &HostRuntime) -> io::Result<bool> {
    let mut nothing = [];
    let mut none = NoBox {
        ender: ArchiveBox::new(WordForm, Tray::new(&mut nothing), [0; 32], [0; 8], 1),
    };
    let mut desk = Desk {
        rt,
        script: Script::new(rt.alloc(), rt.reader()),
        settings: Settings::new(),
        hand: Hand::new(rt.alloc()),
        all_done: true,
    };
    let worked = desk.work_boxes(&mut none);
    let Desk {
        rt: _,
        script: _,
        settings: _,
        hand,
        all_done,
    } = desk;
    hand.end(&mut none.ender);
    worked?;
    Ok(all_done)
}

// Where a script is worked.
struct Desk<'r, R: BufRead + Drop> {
    rt: &'r HostRuntime,
    script: Script<R>,
    settings: Settings,
    hand: Hand,
    all_done: bool,
}

impl<R: BufRead + Drop> Desk<'_, R> {
    // Works one box after another, until the script ends.
    fn work_boxes(&mut self, none: &mut NoBox) -> io::Result<()> {
        let mut making = self.work(none)?;
        for _ in 0..u64::MAX {
            match making {
                Some(next) => making = self.work_on_shelf(next)?,
                None => break,
            }
        }
        Ok(())
    }

    // Works a box on the shelf that is loaded. The next box is on the same, unless another is
    // loaded meanwhile.
    fn work_on_shelf(&mut self, making: Making) -> io::Result<Option<Making>> {
        let mut shelf = match self.settings.loaded.take() {
            Some(loaded) => loaded,
            None => Loaded::empty(self.rt.alloc()),
        };
        let next = match shelf.kind {
            Kind::Tray => self.work_box(making, Tray::new(&mut shelf.image))?,
            Kind::Plate(places) => self.work_box(making, Plate::new(&mut shelf.image, places))?,
        };
        if self.settings.loaded.is_none() {
            self.settings.loaded = Some(shelf);
        }
        Ok(next)
    }

    fn work_box<S: Image + Drop>(
        &mut self,
        making: Making,
        shelf: S,
    ) -> io::Result<Option<Making>> {
        let Making {
            key,
            sign,
            first,
            form,
        } = making;
        match form {
            CipherForm::Cube => self.work(&mut ArchiveBox::new(CubeForm, shelf, key, sign, first)),
            CipherForm::Words => self.work(&mut ArchiveBox::new(WordForm, shelf, key, sign, first)),
        }
    }

    // Works a box until the next is made, or none at the end of the script.
    fn work<W: Worker>(&mut self, worker: &mut W) -> io::Result<Option<Making>> {
        for _ in 0..u64::MAX {
            match self.script.go_on()? {
                Next::Line => {
                    if let Some(making) = self.do_line(worker)? {
                        return Ok(Some(making));
                    }
                }
                Next::TooLong => self.tell::<Answer>(Err(Problem::TooLong))?,
                Next::End => break,
            }
        }
        self.end_numbers(worker)?;
        Ok(None)
    }

    // Does a line, and tells its answer. If it makes a box, that is to be worked next.
    fn do_line<W: Worker>(&mut self, worker: &mut W) -> io::Result<Option<Making>> {
        let line = self.script.line();
        if is_silent(line) {
            return Ok(None);
        }
        let told = match Call::of(line) {
            Some(Call::Set(setting)) => self.settings.set(self.rt, setting),
            Some(Call::Make { sign, first }) => {
                let making = self.settings.making(sign, first);
                return self.tell_making(making);
            }
            Some(Call::Read { place }) => {
                self.tell_sheet(worker, place)?;
                return Ok(None);
            }
            Some(Call::Ask(call)) => worker.answer(self.rt, call, &mut self.hand),
            None => Err(misread(line)),
        };
        self.tell(told)?;
        Ok(None)
    }

    fn tell_making(&mut self, making: Result<Making, Problem>) -> io::Result<Option<Making>> {
        match making {
            Ok(making) => {
                self.tell(Ok(Answer::Done))?;
                Ok(Some(making))
            }
            Err(problem) => {
                self.tell::<Answer>(Err(problem))?;
                Ok(None)
            }
        }
    }

    fn tell_sheet<W: Worker>(&mut self, worker: &W, place: u32) -> io::Result<()> {
        let mut record = [0; 1024];
        let read = worker.read(place, &mut record);
        let viewing = Viewing::new(&mut record);
        match (read, viewing.sheet()) {
            (Ok(()), Some(sheet)) => self.tell(Ok(Looked(sheet))),
            (Ok(()), None) => self.tell::<Looked>(Err(Problem::NoSheet)),
            (Err(problem), _) => self.tell::<Looked>(Err(problem)),
        }
    }

    // A line of the log: the line of the script and its answer; one that was no call for a box has
    // its number before it.
    fn tell<T: fmt::Display + Drop>(&mut self, told: Result<T, Problem>) -> io::Result<()> {
        let rt = self.rt;
        let number = self.script.number;
        let line = Shown(self.script.line());
        self.all_done = self.all_done && told.is_ok();
        match told {
            Ok(answer) => println!(rt; "{line}: {answer}"),
            Err(Problem::Refused(fault)) => println!(rt; "{line}: {fault}"),
            Err(Problem::TooLong) => println!(rt; "line {number}: {}", Problem::TooLong),
            Err(problem) => println!(rt; "line {number}: {line}: {problem}"),
        }
    }

    // Voids the numbers in hand.
    fn end_numbers<W: Worker>(&mut self, worker: &mut W) -> io::Result<()> {
        let rt = self.rt;
        while let Some(number) = self.hand.take_first() {
            let value = number.value();
            match worker.end(number) {
                Ok(()) => println!(rt; "end: void {value}: done")?,
                Err(problem) => println!(rt; "end: void {value}: {problem}")?,
            }
        }
        Ok(())
    }
}

// Whether a line is empty or a remark.
fn is_silent(line: &[u8]) -> bool {
    matches!(line.trim_ascii_start(), [] | [b'#', ..])
}

// Why a line is no call.
fn misread(line: &[u8]) -> Problem
    ensures { (result ≡ NoCall) ↔ Not (NamesCall line.now) }
{
    match usage_of(line) {
        Some(usage) => Problem::Misspelt(usage),
        None => Problem::NoCall,
    }
}
