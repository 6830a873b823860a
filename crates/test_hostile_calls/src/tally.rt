use crate::calls::{Call, KindOfSlip, Told};
use faults::{BoxCause, BoxFault, ModeCause, ShelfCause};
use std::io;

/// How often each call was done, and was refused with each number.
#[derive(Drop)]
pub(crate) struct Tally {
    draw: Counts,
    seal: Counts,
    slip: Counts,
    make: CountsByKind,
    void: Counts,
    clear: Counts,
    read: Counts,
    unslip: Counts,
    read_slip: CountsByKind,
    number_at: Counts,
}

impl Tally {
    pub(crate) fn new() -> Tally {
        let none = Counts::new();
        Tally {
            draw: none,
            seal: none,
            slip: none,
            make: CountsByKind::new(),
            void: none,
            clear: none,
            read: none,
            unslip: none,
            read_slip: CountsByKind::new(),
            number_at: none,
        }
    }

    pub(crate) fn note(&mut self, call: &Call, answer: &Result<Told, BoxFault>) {
        let counts = match call {
            Call::Draw => &mut self.draw,
            Call::Seal { .. } => &mut self.seal,
            Call::Slip { .. } => &mut self.slip,
            Call::MakeSlip { number: _, content } => self.make.of(content.kind()),
            Call::Void { .. } => &mut self.void,
            Call::Clear { .. } => &mut self.clear,
            Call::Read { .. } => &mut self.read,
            Call::Unslip { .. } => &mut self.unslip,
            Call::ReadSlip { kind, bytes: _ } => self.read_slip.of(*kind),
            Call::NumberAt { .. } => &mut self.number_at,
        };
        match answer {
            Ok(_) => counts.note_done(),
            Err(fault) => counts.note_refused(fault.cause),
        }
    }

    pub(crate) fn print(&self, rt: &HostRuntime) -> io::Result<()> {
        let Tally {
            draw,
            seal,
            slip,
            make,
            void,
            clear,
            read,
            unslip,
            read_slip,
            number_at,
        } = self;
        draw.print(rt, "draw")?;
        seal.print(rt, "seal")?;
        slip.print(rt, "slip")?;
        make.print(rt, "make")?;
        void.print(rt, "void")?;
        clear.print(rt, "clear")?;
        read.print(rt, "read")?;
        unslip.print(rt, "unslip")?;
        read_slip.print(rt, "read as")?;
        number_at.print(rt, "number")
    }
}

// Of a call that takes a kind of slip.
#[derive(Clone, Copy)]
struct CountsByKind {
    licence: Counts,
    loan: Counts,
    receipt: Counts,
}

impl CountsByKind {
    fn new() -> CountsByKind {
        let none = Counts::new();
        CountsByKind {
            licence: none,
            loan: none,
            receipt: none,
        }
    }

    fn of(&mut self, kind: KindOfSlip) -> &mut Counts {
        match kind {
            KindOfSlip::Licence => &mut self.licence,
            KindOfSlip::Loan => &mut self.loan,
            KindOfSlip::Receipt => &mut self.receipt,
        }
    }

    fn print(&self, rt: &HostRuntime, name: &str) -> io::Result<()> {
        print!(rt; "{name} ")?;
        self.licence.print(rt, "licence")?;
        print!(rt; "{name} ")?;
        self.loan.print(rt, "loan")?;
        print!(rt; "{name} ")?;
        self.receipt.print(rt, "receipt")
    }
}

// Of one call: how often it was done, and was refused with each number.
#[derive(Clone, Copy)]
struct Counts {
    done: u64,
    length: u64,
    limit: u64,
    parameter: u64,
    outside: u64,
    shut: u64,
    not_out: u64,
    used_up: u64,
    sixteen_out: u64,
    empty: u64,
    filling: u64,
    tag: u64,
    padding: u64,
    unfit: u64,
    content: u64,
    other_kind: u64,
}

impl Counts {
    fn new() -> Counts {
        Counts {
            done: 0,
            length: 0,
            limit: 0,
            parameter: 0,
            outside: 0,
            shut: 0,
            not_out: 0,
            used_up: 0,
            sixteen_out: 0,
            empty: 0,
            filling: 0,
            tag: 0,
            padding: 0,
            unfit: 0,
            content: 0,
            other_kind: 0,
        }
    }

    fn note_done(&mut self) {
        self.done = self.done.saturating_add(1);
    }

    fn note_refused(&mut self, cause: BoxCause) {
        let count = match cause {
            BoxCause::Mode(ModeCause::Length)
            | BoxCause::Shelf(ShelfCause::Length)
            | BoxCause::Length => &mut self.length,
            BoxCause::Mode(ModeCause::Limit) | BoxCause::Limit => &mut self.limit,
            BoxCause::Mode(ModeCause::Parameter) => &mut self.parameter,
            BoxCause::Mode(ModeCause::Tag) => &mut self.tag,
            BoxCause::Mode(ModeCause::Padding) => &mut self.padding,
            BoxCause::Shelf(ShelfCause::Outside) => &mut self.outside,
            BoxCause::Shelf(ShelfCause::Shut) => &mut self.shut,
            BoxCause::Shelf(ShelfCause::Unfit) => &mut self.unfit,
            BoxCause::NotOut => &mut self.not_out,
            BoxCause::UsedUp => &mut self.used_up,
            BoxCause::SixteenOut => &mut self.sixteen_out,
            BoxCause::Empty => &mut self.empty,
            BoxCause::Filling => &mut self.filling,
            BoxCause::Content => &mut self.content,
            BoxCause::OtherKind => &mut self.other_kind,
        };
        *count = count.saturating_add(1);
    }

    fn print(&self, rt: &HostRuntime, name: &str) -> io::Result<()> {
        let Counts {
            done,
            length,
            limit,
            parameter,
            outside,
            shut,
            not_out,
            used_up,
            sixteen_out,
            empty,
            filling,
            tag,
            padding,
            unfit,
            content,
            other_kind,
        } = *self;
        print!(rt; "{name}: {done} done")?;
        let refused = [
            (1, length),
            (2, limit),
            (3, parameter),
            (4, outside),
            (5, shut),
            (6, not_out),
            (7, used_up),
            (8, sixteen_out),
            (9, empty),
            (10, filling),
            (11, tag),
            (12, padding),
            (13, unfit),
            (15, content),
            (16, other_kind),
        ];
        for (number, count) in refused.iter() {
            if *count > 0 {
                print!(rt; ", {count} with {number}")?;
            }
        }
        println!(rt)
    }
}
