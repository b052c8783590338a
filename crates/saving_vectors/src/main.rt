// The vectors of saving: runs those that its arguments name, and prints a line for each.
// tests/VECTORS.md says what a vector holds and how its line reads.
#![tactic(auto)]

use refusal::Refusal;
use saving::Looked;
use std::io;
use vector::lend::lent;
use vector::print::{no_vector, refused, with, with_check};
use vector::sweep::{Step, Tally, sweep_by};
use vector::{Program, counted};

const COMMIT: u8 = b'm';

const CONVERT: u8 = b'v';

const LOOK: u8 = b'l';

const SWEEP_OF_FILE: u8 = b'U';

const SWEEP_OF_SHEET: u8 = b'S';

fn conflicts(rt: &impl Print, answer: Result<Looked, Refusal>) -> io::Result<()> {
    match answer {
        Ok(looked) => {
            with(rt, b"looked ", looked.changes as u64)?;
            with(rt, b" set ", looked.conflicts)
        }
        Err(refusal) => refused(rt, refusal),
    }
}

// What a commit or a conversion answered, and what it left in the output.
fn written(
    rt: &impl Print,
    word: &[u8],
    answer: Result<usize, Refusal>,
    out: &[u8],
) -> io::Result<()> {
    match answer {
        Ok(length) => with(rt, word, length as u64)?,
        Err(refusal) => refused(rt, refusal)?,
    }
    with_check(rt, b" out ", out)
}

// A conversion or a commit: both write what they answer.
fn writes(rt: &impl Print, kind: u8, file: &[u8], sheet: &[u8], out: &mut [u8]) -> io::Result<()> {
    if kind == CONVERT {
        let answer = converting::convert(file, sheet, out);
        return written(rt, b"converted ", answer, out);
    }
    let answer = saving::commit(file, sheet, out);
    written(rt, b"committed ", answer, out)
}

// A look, a commit and a conversion have the same fields, of which a look does not use the room.
fn call(rt: &impl Print, kind: u8, fields: &[u8]) -> io::Result<()> {
    let Some((room, given)) = fields.split_at_checked(2) else {
        return no_vector(rt);
    };
    let Some((sheet, file)) = counted(given, 2) else {
        return no_vector(rt);
    };
    if kind == LOOK {
        return conflicts(rt, saving::look(file, sheet));
    }
    let mut space = lent(0x5A);
    match space.get_mut(..number::read(room, 0, 2) as usize) {
        Some(out) => writes(rt, kind, file, sheet, out),
        None => Ok(()),
    }
}

// A look: its refusal, or the set where a refusal's place would stand.
fn looks(file: &[u8], sheet: &[u8], before: Tally) -> Tally {
    match saving::look(file, sheet) {
        Ok(looked) => vector::sweep::answered(before, looked.conflicts),
        Err(refusal) => vector::sweep::tried(before, Some(refusal)),
    }
}

// A commit, and behind it a conversion, each with an output of its own.
fn tries(file: &[u8], sheet: &[u8], before: Tally) -> Tally {
    let mut table = [0; 512];
    let mut new = [0; 512];
    let committed = saving::commit(file, sheet, &mut table).err();
    let converted = converting::convert(file, sheet, &mut new).err();
    vector::sweep::tried(vector::sweep::tried(before, committed), converted)
}

fn all(file: &[u8], sheet: &[u8], before: Tally) -> Tally {
    tries(file, sheet, looks(file, sheet, before))
}

// A sweep changes the sheet or the file, and leaves the other as it is.
#[derive(Clone, Copy)]
struct Saving<'a> {
    kind: u8,
    other: &'a [u8],
}

impl Step for Saving<'_> {
    fn tried(&self, bytes: &[u8], before: Tally) -> Tally {
        if self.kind == SWEEP_OF_SHEET {
            return all(self.other, bytes, before);
        }
        all(bytes, self.other, before)
    }
}

// The values of a sweep come first; what it leaves, and behind it what it changes, follow.
fn swept(rt: &impl Print, kind: u8, fields: &[u8]) -> io::Result<()> {
    let Some((values, given)) = counted(fields, 1) else {
        return no_vector(rt);
    };
    let Some((other, base)) = counted(given, 2) else {
        return no_vector(rt);
    };
    sweep_by(rt, base, values, &Saving { kind, other })
}

// The call that a vector holds is told by its first byte.
struct Vectors;

impl Program for Vectors {
    fn answer(rt: &impl Print, vector: &[u8]) -> io::Result<()> {
        let Some((kind, fields)) = vector.split_first() else {
            return no_vector(rt);
        };
        match *kind {
            COMMIT | CONVERT | LOOK => call(rt, *kind, fields),
            SWEEP_OF_FILE | SWEEP_OF_SHEET => swept(rt, *kind, fields),
            _ => no_vector(rt),
        }
    }
}

fn main(rt: HostRuntime) -> io::Result<()> {
    vector::each_by::<Vectors, HostRuntime>(&rt)
}
