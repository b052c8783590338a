// The vectors of the browser, and of a tag by its name, each with the walk of a cursor over its table: runs those that its arguments name, and prints a line for each.
// tests/VECTORS.md says what a vector holds and how its line reads.
#![tactic(auto)]

use cursor::Cursor;
use refusal::Refusal;
use std::io;
use tables::TagFound;
use vector::print::{no_vector, refused, say, with, with_sum};
use vector::sweep::{Step, Tally, sweep_by};
use vector::{Program, counted};

const NAMED: u8 = b'n';

const SWEEP: u8 = b'B';

const TAG: u8 = b't';

// A tag's places; or `none`, where there is no such tag.
fn places(
    rt: &impl Print,
    found: Result<Option<TagFound>, Refusal>,
    none: &[u8],
) -> io::Result<()> {
    match found {
        Ok(Some(tag)) => {
            with(rt, b"tag name ", tag.name as u64)?;
            with(rt, b" ", tag.name_length as u64)?;
            with(rt, b" value ", tag.value as u64)?;
            with(rt, b" ", tag.value_length as u64)
        }
        Ok(None) => say(rt, none),
        Err(refusal) => refused(rt, refusal),
    }
}

// A check with the last two bytes of a number behind it.
fn with_number(sum: u64, n: usize) -> u64 {
    let low = vector::check::byte(sum, (n % 256) as u8);
    vector::check::byte(low, (n / 256 % 256) as u8)
}

// A check with the numbers of the tag that a cursor stands at behind it.
fn with_tag(sum: u64, at: Cursor) -> u64 {
    let tag = at.tag;
    let named = with_number(with_number(sum, tag.name), tag.name_length);
    let valued = with_number(with_number(named, tag.value), tag.value_length);
    with_number(valued, at.left)
}

// A cursor from tag to tag, as often as the table has bytes: where it has come to the end, or is refused, it stays. Where the walk ends, how many tags it
// told, and the check over their numbers.
fn walk(rt: &impl Print, table: &[u8]) -> io::Result<()> {
    let mut at = cursor::first_tag(table);
    let mut tags: u64 = 0;
    let mut sum = vector::check::START;
    for _ in 0..table.len() {
        if let Ok(Some(here)) = at {
            tags = tags.wrapping_add(1);
            sum = with_tag(sum, here);
        }
        at = cursor::next_tag(table, at);
    }
    match at {
        Ok(Some(here)) => with(rt, b" walk goes on at ", here.tag.name as u64),
        Ok(None) => {
            with(rt, b" walk ", tags)?;
            with_sum(rt, b" ", sum)
        }
        Err(refusal) => {
            say(rt, b" walk ")?;
            refused(rt, refusal)
        }
    }
}

fn browse(rt: &impl Print, fields: &[u8]) -> io::Result<()> {
    let Some((asked, table)) = fields.split_at_checked(8) else {
        return no_vector(rt);
    };
    let number = number::read(asked, 0, 8);
    places(rt, browser::tag_at(table, number), b"end")?;
    with(rt, b" next ", browser::next_number(table, number))?;
    walk(rt, table)
}

fn named(rt: &impl Print, fields: &[u8]) -> io::Result<()> {
    let Some((name, table)) = counted(fields, 1) else {
        return no_vector(rt);
    };
    places(rt, browser::tag_named(table, name), b"absent")?;
    walk(rt, table)
}

// The browser, a tag by its name, and a cursor, one after another.
struct Browsing;

impl Step for Browsing {
    fn tried(&self, table: &[u8], before: Tally) -> Tally {
        let browsed = vector::sweep::tried(before, browser::tag_at(table, 0).err());
        let named = vector::sweep::tried(browsed, browser::tag_named(table, b"A").err());
        vector::sweep::tried(named, cursor::first_tag(table).err())
    }
}

// The values of a sweep, and behind them the table.
fn swept(rt: &impl Print, fields: &[u8]) -> io::Result<()> {
    let Some((values, base)) = counted(fields, 1) else {
        return no_vector(rt);
    };
    sweep_by(rt, base, values, &Browsing)
}

// The call that a vector holds is told by its first byte.
struct Vectors;

impl Program for Vectors {
    fn answer(rt: &impl Print, vector: &[u8]) -> io::Result<()> {
        match vector.split_first() {
            Some((&NAMED, fields)) => named(rt, fields),
            Some((&SWEEP, fields)) => swept(rt, fields),
            Some((&TAG, fields)) => browse(rt, fields),
            _ => no_vector(rt),
        }
    }
}

fn main(rt: HostRuntime) -> io::Result<()> {
    vector::each_by::<Vectors, HostRuntime>(&rt)
}
