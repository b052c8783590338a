// The vectors of whole recordings: runs those that its arguments name, and prints a line for each.
// tests/VECTORS.md says what a vector holds and how its line reads.
// A recording is made call by call and stored piece by piece; after every byte stored the file is repaired and opened.
#![tactic(auto)]

use header::Header;
use recorder::{Recorder, Taken};
use refusal::Refusal;
use repair::Repaired;
use std::io;
use vector::lend::lent;
use vector::print::{no_vector, with, with_check, with_sum};
use vector::{Program, check, counted};

const WHOLE: u8 = b'w';

// More bytes than any vector or any file here has.
const MANY: usize = 1_000_000;

// The bytes of a frame of the vector ahead of its sections: time and exposure.
const FRAME_HEAD: usize = 12;

// What is lent to the calls, and the file that their pieces are stored into.
#[derive(Drop)]
struct Lent {
    notes: [u8; 65536],
    out: [u8; 65536],
    file: [u8; 65536],
}

// How far the storing is: where the file ends, the bytes stored, the cuts so far and the check over them, and the first refusal.
#[derive(Clone, Copy)]
struct Stored {
    end: usize,
    bytes: u64,
    cuts: u64,
    sum: u64,
    refused: Option<Refusal>,
}

// The recorder's state, and what is stored of its pieces.
#[derive(Clone, Copy)]
struct Recording {
    state: Recorder,
    stored: Stored,
}

// A frame of the vector, and what stands behind it.
#[derive(Clone, Copy)]
struct Frame<'a> {
    time: i64,
    exposure: u32,
    sections: &'a [u8],
    rest: &'a [u8],
}

// So many bytes from the start of some; no bytes where they are not all there.
fn front(bytes: &[u8], n: usize) -> &[u8] {
    match bytes.get(..n) {
        Some(part) => part,
        None => &bytes[..0],
    }
}

// A check with the four bytes of a number behind it.
fn check_number(sum: u64, n: u64) -> u64 {
    let mut four = [0; 4];
    number::write(&mut four, 0, 4, n);
    check::bytes(sum, &four)
}

// A check with a repaired file behind it. It has to open: where it does not, the check is spoilt.
fn check_opened(sum: u64, file: &[u8]) -> u64 {
    match opening::open(file) {
        Ok(_) => check::bytes(sum, file),
        Err(_) => 0,
    }
}

// A check with repair's number behind it and, where that is 0, the repaired file: the kept bytes with the three header fields set, then the tail.
fn check_repaired(
    sum: u64,
    file: &[u8],
    answer: Result<Repaired, Refusal>,
    tail_bytes: &[u8],
) -> u64 {
    let made = match answer {
        Ok(made) => made,
        Err(refusal) => return check::byte(sum, refusal.number()),
    };
    let mut space = lent(0);
    let repaired: &mut [u8] = &mut space;
    parts::copy(file, 0, repaired, 0, made.kept);
    number::write(repaired, Header::COUNT_PLACE, 4, made.count as u64);
    number::write(repaired, Header::INDEX_PLACE, 8, made.index as u64);
    number::write(repaired, Header::USER_PLACE, 8, made.user as u64);
    parts::copy(tail_bytes, 0, repaired, made.kept, made.tail);
    let length = made.kept.wrapping_add(made.tail);
    check_opened(check::byte(sum, 0), front(repaired, length))
}

// A check with a cut behind it: the bytes stored, the answer of repair, and the number that opening the cut file gives.
fn check_cut(sum: u64, file: &[u8], bytes: u64) -> u64 {
    let mut out = lent(0x5A);
    let answer = repair::repair(file, &mut out);
    let repaired = check_repaired(check_number(sum, bytes), file, answer, &out);
    match opening::open(file) {
        Ok(_) => check::byte(repaired, 0),
        Err(refusal) => check::byte(repaired, refusal.number()),
    }
}

// A cut after so many more bytes, the last of them ending at a place of the file.
fn cut(file: &[u8], last: usize, more: u64, before: Stored) -> Stored {
    let end = before.end.max(last);
    let bytes = before.bytes.wrapping_add(more);
    Stored {
        end,
        bytes,
        cuts: before.cuts.wrapping_add(1),
        sum: check_cut(before.sum, front(file, end), bytes),
        refused: before.refused,
    }
}

// The opening piece is stored whole: the first cut is behind it.
fn store_opening(lent: &mut Lent, length: usize, before: Stored) -> Stored {
    parts::copy(&lent.out, 0, &mut lent.file, 0, length);
    cut(&lent.file, length, length as u64, before)
}

// A later piece is stored byte by byte, with a cut behind each.
fn store(lent: &mut Lent, place: usize, length: usize, before: Stored) -> Stored {
    let mut stored = before;
    if MANY < place {
        return stored;
    }
    if MANY < length {
        return stored;
    }
    for i in 0..length {
        parts::copy(&lent.out, i, &mut lent.file, place + i, 1);
        stored = cut(&lent.file, place + i + 1, 1, stored);
    }
    stored
}

// What a call handed out is stored; the first refusal stays.
fn keep(taken: Taken, lent: &mut Lent, before: Stored) -> Recording {
    let state = taken.state;
    let stored = match taken.piece {
        Ok(piece) if before.cuts == 0 => store_opening(lent, piece.length, before),
        Ok(piece) => store(lent, piece.place as usize, piece.length, before),
        Err(refusal) => Stored {
            refused: before.refused.or(Some(refusal)),
            ..before
        },
    };
    Recording { state, stored }
}

// The frame at the start of some bytes; two bytes of length stand ahead of its sections.
fn front_frame(fields: &[u8]) -> Option<Frame<'_>> {
    let (head, behind) = fields.split_at_checked(FRAME_HEAD)?;
    let (sections, rest) = counted(behind, 2)?;
    Some(Frame {
        time: number::time_of(number::read(head, 0, 8)),
        exposure: (number::read(head, 8, 4) % 0x1_0000_0000) as u32,
        sections,
        rest,
    })
}

// Whether so many frames are all there.
fn frames_there(fields: &[u8], frames: u8) -> bool {
    let mut rest = fields;
    for _ in 0..frames {
        let Some(frame) = front_frame(rest) else {
            return false;
        };
        rest = frame.rest;
    }
    true
}

fn begin(setup: &[u8], system: &[u8], lent: &mut Lent) -> Recording {
    let taken = Recorder::new().begin(setup, system, &mut lent.notes, &mut lent.out);
    let nothing = Stored {
        end: 0,
        bytes: 0,
        cuts: 0,
        sum: check::START,
        refused: None,
    };
    keep(taken, lent, nothing)
}

fn add(frame: Frame<'_>, lent: &mut Lent, before: Recording) -> Recording {
    let state = before.state;
    let taken = state.add(
        frame.time,
        frame.exposure,
        frame.sections,
        &mut lent.notes,
        &mut lent.out,
    );
    keep(taken, lent, before.stored)
}

fn add_all(fields: &[u8], frames: u8, lent: &mut Lent, begun: Recording) -> Recording {
    let mut recording = begun;
    let mut rest = fields;
    for _ in 0..frames {
        let Some(frame) = front_frame(rest) else {
            return recording;
        };
        recording = add(frame, lent, recording);
        rest = frame.rest;
    }
    recording
}

fn close_all(lent: &mut Lent, added: Recording) -> Recording {
    let mut recording = added;
    for _ in 0..5 {
        let state = recording.state;
        let taken = state.close(&lent.notes, &mut lent.out);
        recording = keep(taken, lent, recording.stored);
    }
    recording
}

fn line(rt: &impl Print, stored: Stored, file: &[u8]) -> io::Result<()> {
    if let Some(refusal) = stored.refused {
        return with(rt, b"refused ", refusal.number() as u64);
    }
    with(rt, b"whole ", stored.end as u64)?;
    with_check(rt, b" ", front(file, stored.end))?;
    with(rt, b" cuts ", stored.cuts)?;
    with_sum(rt, b" ", stored.sum)
}

// The calls on lent bytes.
fn record(
    rt: &impl Print,
    setup: &[u8],
    system: &[u8],
    frames: &[u8],
    count: u8,
) -> io::Result<()> {
    let mut lent = Lent {
        notes: lent(0),
        out: lent(0),
        file: lent(0),
    };
    let begun = begin(setup, system, &mut lent);
    let added = add_all(frames, count, &mut lent, begun);
    let closed = close_all(&mut lent, added);
    line(rt, closed.stored, &lent.file)
}

fn whole(rt: &impl Print, fields: &[u8]) -> io::Result<()> {
    let Some((setup, behind)) = counted(fields, 2) else {
        return no_vector(rt);
    };
    let Some((system, last)) = counted(behind, 2) else {
        return no_vector(rt);
    };
    let Some((count, frames)) = last.split_first() else {
        return no_vector(rt);
    };
    if frames_there(frames, *count) {
        return record(rt, setup, system, frames, *count);
    }
    no_vector(rt)
}

// The call that a vector holds is told by its first byte.
struct Vectors;

impl Program for Vectors {
    fn answer(rt: &impl Print, vector: &[u8]) -> io::Result<()> {
        match vector.split_first() {
            Some((&WHOLE, fields)) => whole(rt, fields),
            _ => no_vector(rt),
        }
    }
}

fn main(rt: HostRuntime) -> io::Result<()> {
    vector::each_by::<Vectors, HostRuntime>(&rt)
}
