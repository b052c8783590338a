// The vectors of opening and reading: runs those that its arguments name, and prints a line for each.
// tests/VECTORS.md says what a vector holds and how its line reads.
#![tactic(auto)]

use items::{FrameRead, Item};
use opening::Held;
use refusal::Refusal;
use std::io;
use vector::Program;
use vector::print::{hex, no_vector, refused, say, with, with_time};
use vector::sweep::{Step, Tally, sweep_by};

const FRAME: u8 = b'f';

const OPEN: u8 = b'o';

const PART: u8 = b'p';

const SWEEP: u8 = b'F';

fn opened(rt: &impl Print, held: Held) -> io::Result<()> {
    with(rt, b"opened frames ", held.frames as u64)?;
    with(rt, b" sections ", held.sections as u64)?;
    with(rt, b" system ", held.system_tags as u64)?;
    with(rt, b" user ", held.user_tags as u64)
}

fn open(rt: &impl Print, file: &[u8]) -> io::Result<()> {
    match opening::open(file) {
        Ok(held) => opened(rt, held),
        Err(refusal) => refused(rt, refusal),
    }
}

fn framed(rt: &impl Print, frame: FrameRead) -> io::Result<()> {
    with(rt, b"frame at ", frame.place as u64)?;
    with(rt, b" length ", frame.length as u64)?;
    with_time(rt, b" time ", frame.time)?;
    with(rt, b" exposure ", frame.exposure as u64)
}

fn frame(rt: &impl Print, fields: &[u8]) -> io::Result<()> {
    let Some((number, file)) = fields.split_at_checked(8) else {
        return no_vector(rt);
    };
    match reading::frame(file, number::read(number, 0, 8)) {
        Ok(frame) => framed(rt, frame),
        Err(refusal) => refused(rt, refusal),
    }
}

fn item_of(kind: u64, i: u64, j: u64) -> Item {
    match kind {
        0 => Item::Section(i, j),
        1 => Item::SectionName(i),
        2 => Item::Configuration(i),
        3 => Item::SystemName(i),
        4 => Item::SystemValue(i),
        5 => Item::UserName(i),
        _ => Item::UserValue(i),
    }
}

fn part_of(rt: &impl Print, file: &[u8], item: Item) -> io::Result<()> {
    let part = reading::part(file, item);
    if let Some(refusal) = reading::refusal(file, item) {
        refused(rt, refusal)?;
        return with(rt, b" part of ", part.len() as u64);
    }
    let start = reading::find(file, item).map_or(0, |found| found.start);
    with(rt, b"part at ", start as u64)?;
    with(rt, b" length ", part.len() as u64)?;
    if !part.is_empty() {
        say(rt, b" ")?;
        hex(rt, part)?;
    }
    Ok(())
}

fn part(rt: &impl Print, fields: &[u8]) -> io::Result<()> {
    let Some((asked, file)) = fields.split_at_checked(17) else {
        return no_vector(rt);
    };
    let item = item_of(
        number::read(asked, 0, 1),
        number::read(asked, 1, 8),
        number::read(asked, 9, 8),
    );
    part_of(rt, file, item)
}

struct Opening;

impl Step for Opening {
    fn tried(&self, file: &[u8], before: Tally) -> Tally {
        vector::sweep::tried(before, opening::open_refusal(opening::open(file)))
    }
}

// The values of a sweep, and behind them the file.
fn swept(rt: &impl Print, fields: &[u8]) -> io::Result<()> {
    let Some((values, base)) = vector::counted(fields, 1) else {
        return no_vector(rt);
    };
    sweep_by(rt, base, values, &Opening)
}

// The call that a vector holds is told by its first byte.
struct Vectors;

impl Program for Vectors {
    fn answer(rt: &impl Print, vector: &[u8]) -> io::Result<()> {
        let Some((kind, fields)) = vector.split_first() else {
            return no_vector(rt);
        };
        match *kind {
            FRAME => frame(rt, fields),
            OPEN => open(rt, fields),
            PART => part(rt, fields),
            SWEEP => swept(rt, fields),
            _ => no_vector(rt),
        }
    }
}

fn main(rt: HostRuntime) -> io::Result<()> {
    vector::each_by::<Vectors, HostRuntime>(&rt)
}
