#![tactic(auto)]

mod remakes;

use anyhow::anyhow;
use archive_box::{ArchiveBox, Number, Refusal};
use faults::BoxFault;
use remakes::{Remake, Remakes};
use saturnin_words::WordForm;
use slip_kinds::SlipKind;
use std::fmt::Debug;
use trade_slips::{Licence, Licences};
use tray::Tray;

type Asked<'a> = ArchiveBox<WordForm, Tray<'a>>;

// A kind of slip that is defined here alone, made and read by a box.
fn main(rt: HostRuntime) -> anyhow::Result<()> {
    let mut nothing = [];
    let mut asked = ArchiveBox::new(WordForm, Tray::new(&mut nothing), [7; 32], *b"windows4", 1);
    let remake = Remake {
        design: 12_345_678,
        pane: 1,
        urgent: true,
    };
    let slip = make::<Remakes>(&rt, &mut asked, &remake)?;
    read::<Remakes>(&rt, &asked, "remake", &slip)?;
    read::<Licences>(&rt, &asked, "licence", &slip)?;
    unslip(&rt, &asked, &slip)?;
    let licence = Licence {
        design: 12_345_678,
        copies: 257,
    };
    let slip = make::<Licences>(&rt, &mut asked, &licence)?;
    read::<Licences>(&rt, &asked, "licence", &slip)?;
    read::<Remakes>(&rt, &asked, "remake", &slip)?;
    let slip = make_after_refusal(&rt, &mut asked)?;
    read::<Remakes>(&rt, &asked, "remake", &slip)
}

// Makes the slip of a content under a new number.
fn make<K: SlipKind>(
    rt: &HostRuntime,
    asked: &mut Asked<'_>,
    content: &K::Content,
) -> anyhow::Result<[u8; 48]>
where
    K::Content: Debug,
{
    let number = asked.draw().map_err(told)?;
    let slip = slip_under::<K>(asked, number, content).map_err(told)?;
    show(rt, content, &slip)?;
    Ok(slip)
}

// A remake outside its range, and then one under the number that comes back.
fn make_after_refusal(rt: &HostRuntime, asked: &mut Asked<'_>) -> anyhow::Result<[u8; 48]> {
    let outside = Remake {
        design: 100_000_000,
        pane: 255,
        urgent: false,
    };
    let inside = Remake {
        design: 99_999_999,
        ..outside
    };
    let number = asked.draw().map_err(told)?;
    let mut slip = [0; 48];
    let Err(Refusal { fault, number }) = asked.make_slip::<Remakes>(number, &outside, &mut slip)
    else {
        return Err(anyhow!("a remake outside its range is made"));
    };
    let slip = slip_under::<Remakes>(asked, number, &inside).map_err(told)?;
    println!(rt; "{outside:?}: {fault}")?;
    show(rt, &inside, &slip)?;
    Ok(slip)
}

// The slip of a content under a number, which is ended where that is refused.
fn slip_under<K: SlipKind>(
    asked: &mut Asked<'_>,
    number: Number,
    content: &K::Content,
) -> Result<[u8; 48], BoxFault> {
    let mut slip = [0; 48];
    match asked.make_slip::<K>(number, content, &mut slip) {
        Ok(()) => Ok(slip),
        Err(Refusal { fault, number }) => {
            let _ = asked.void(number);
            Err(fault)
        }
    }
}

fn told(fault: BoxFault) -> anyhow::Error {
    anyhow!("{fault}")
}

fn show<T: Debug>(rt: &HostRuntime, content: &T, slip: &[u8; 48]) -> anyhow::Result<()> {
    let digits = hex::encode(rt.alloc(), slip.as_slice())?;
    println!(rt; "{content:?}: {digits}")?;
    Ok(())
}

// What a slip is read as, and the buffer after it.
fn read<K: SlipKind>(
    rt: &HostRuntime,
    asked: &Asked<'_>,
    name: &str,
    slip: &[u8; 48],
) -> anyhow::Result<()>
where
    K::Content: Debug + Drop,
{
    let mut buffer = [0xFF; 15];
    match asked.read_slip::<K>(slip, &mut buffer) {
        Ok(content) => println!(rt; "as a {name}: {content:?}")?,
        Err(fault) => println!(rt; "as a {name}: {fault}")?,
    }
    let digits = hex::encode(rt.alloc(), buffer.as_slice())?;
    println!(rt; "    {digits}")?;
    Ok(())
}

fn unslip(rt: &HostRuntime, asked: &Asked<'_>, slip: &[u8; 48]) -> anyhow::Result<()> {
    let mut buffer = [0xFF; 15];
    let length = asked.unslip(slip, &mut buffer).map_err(told)?;
    let digits = hex::encode(rt.alloc(), buffer.as_slice())?;
    println!(rt; "unslipped: {length} bytes")?;
    println!(rt; "    {digits}")?;
    Ok(())
}
