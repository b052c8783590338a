// The vectors of the recorder: runs those that its arguments name, and prints a line for each.
// tests/VECTORS.md says what a vector holds and how its line reads.
#![tactic(auto)]

use recorder::{Piece, Recorder, Taken};
use refusal::Refusal;
use stages::Stage;
use std::io;
use vector::lend::lent;
use vector::print::{no_vector, refused, with, with_check, with_time};
use vector::sweep::{Step, Tally, sweep_by};
use vector::{Program, counted};

const ADD: u8 = b'a';

const BEGIN: u8 = b'b';

const CLOSE: u8 = b'c';

const SWEEP_OF_LIST: u8 = b'L';

const SWEEP_OF_TABLE: u8 = b'T';

// The bytes of a state and of the lengths of notes and output.
const STATE: usize = 46;

fn stage_of(stage: u64, piece: u8) -> Stage {
    match stage {
        0 => Stage::Fresh,
        1 => Stage::Running,
        2 => Stage::Closing(piece),
        _ => Stage::Closed,
    }
}

fn state_of(fields: &[u8]) -> Recorder {
    Recorder {
        stage: stage_of(
            number::read(fields, 0, 1),
            (number::read(fields, 1, 1) % 256) as u8,
        ),
        sections: number::read(fields, 2, 8),
        frames: number::read(fields, 10, 8),
        first: number::time_of(number::read(fields, 18, 8)),
        last: number::time_of(number::read(fields, 26, 8)),
        end: number::read(fields, 34, 8),
    }
}

fn piece(rt: &impl Print, piece: Result<Piece, Refusal>) -> io::Result<()> {
    match piece {
        Ok(given) => {
            with(rt, b"given ", given.place)?;
            with(rt, b" ", given.length as u64)
        }
        Err(refusal) => refused(rt, refusal),
    }
}

fn stage(rt: &impl Print, stage: Stage) -> io::Result<()> {
    match stage {
        Stage::Fresh => with(rt, b" stage 0 piece ", 0),
        Stage::Running => with(rt, b" stage 1 piece ", 0),
        Stage::Closing(next) => with(rt, b" stage 2 piece ", next as u64),
        Stage::Closed => with(rt, b" stage 3 piece ", 0),
    }
}

fn state(rt: &impl Print, state: Recorder) -> io::Result<()> {
    stage(rt, state.stage)?;
    with(rt, b" sections ", state.sections)?;
    with(rt, b" frames ", state.frames)?;
    with_time(rt, b" first ", state.first)?;
    with_time(rt, b" last ", state.last)?;
    with(rt, b" end ", state.end)
}

fn taken(rt: &impl Print, taken: Taken, notes: &[u8], out: &[u8]) -> io::Result<()> {
    piece(rt, taken.piece)?;
    state(rt, taken.state)?;
    with_check(rt, b" notes ", notes)?;
    with_check(rt, b" out ", out)
}

fn added(
    rt: &impl Print,
    recorder: Recorder,
    bytes: &[u8],
    notes: &mut [u8],
    out: &mut [u8],
) -> io::Result<()> {
    let time = number::time_of(number::read(bytes, 0, 8));
    let exposure = (number::read(bytes, 8, 4) % 0x1_0000_0000) as u32;
    let Some(sections) = bytes.get(12..) else {
        return no_vector(rt);
    };
    let answer = recorder.add(time, exposure, sections, notes, out);
    taken(rt, answer, notes, out)
}

// The set-up list behind its length, and the system table behind it.
fn begun(
    rt: &impl Print,
    recorder: Recorder,
    bytes: &[u8],
    notes: &mut [u8],
    out: &mut [u8],
) -> io::Result<()> {
    let Some((setup, system)) = counted(bytes, 2) else {
        return no_vector(rt);
    };
    let answer = recorder.begin(setup, system, notes, out);
    taken(rt, answer, notes, out)
}

fn closed(
    rt: &impl Print,
    recorder: Recorder,
    bytes: &[u8],
    notes: &mut [u8],
    out: &mut [u8],
) -> io::Result<()> {
    let Some(noted) = bytes.get(..notes.len()) else {
        return no_vector(rt);
    };
    notes.copy_from_slice(noted);
    let answer = recorder.close(notes, out);
    taken(rt, answer, notes, out)
}

// Notes and output of the lengths that the vector asks for; nothing where they are more than can be lent.
fn run(rt: &impl Print, kind: u8, fields: &[u8]) -> io::Result<()> {
    let Some((state, bytes)) = fields.split_at_checked(STATE) else {
        return no_vector(rt);
    };
    let recorder = state_of(state);
    let mut notes = lent(0xA5);
    let mut out = lent(0x5A);
    let Some(notes) = notes.get_mut(..number::read(state, 42, 2) as usize) else {
        return Ok(());
    };
    let Some(out) = out.get_mut(..number::read(state, 44, 2) as usize) else {
        return Ok(());
    };
    match kind {
        ADD => added(rt, recorder, bytes, notes, out),
        BEGIN => begun(rt, recorder, bytes, notes, out),
        _ => closed(rt, recorder, bytes, notes, out),
    }
}

fn began(setup: &[u8], system: &[u8]) -> Option<Refusal> {
    let mut notes = [0; 4];
    let mut out = [0; 512];
    Recorder::new()
        .begin(setup, system, &mut notes, &mut out)
        .piece
        .err()
}

// A sweep changes the set-up list or the system table, and leaves the other as it is.
#[derive(Clone, Copy)]
struct Beginning<'a> {
    kind: u8,
    other: &'a [u8],
}

impl Step for Beginning<'_> {
    fn tried(&self, bytes: &[u8], before: Tally) -> Tally {
        if self.kind == SWEEP_OF_LIST {
            return vector::sweep::tried(before, began(bytes, self.other));
        }
        vector::sweep::tried(before, began(self.other, bytes))
    }
}

// The values of a sweep come first, then what it leaves as it is, and behind it what it changes.
fn swept(rt: &impl Print, kind: u8, fields: &[u8]) -> io::Result<()> {
    let Some((values, given)) = counted(fields, 1) else {
        return no_vector(rt);
    };
    let Some((other, base)) = counted(given, 2) else {
        return no_vector(rt);
    };
    sweep_by(rt, base, values, &Beginning { kind, other })
}

// The call that a vector holds is told by its first byte.
struct Vectors;

impl Program for Vectors {
    fn answer(rt: &impl Print, vector: &[u8]) -> io::Result<()> {
        let Some((&kind, fields)) = vector.split_first() else {
            return no_vector(rt);
        };
        match kind {
            ADD | BEGIN | CLOSE => run(rt, kind, fields),
            SWEEP_OF_LIST | SWEEP_OF_TABLE => swept(rt, kind, fields),
            _ => no_vector(rt),
        }
    }
}

fn main(rt: HostRuntime) -> io::Result<()> {
    vector::each_by::<Vectors, HostRuntime>(&rt)
}
