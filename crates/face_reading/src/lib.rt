// The C face of reading: answers are flat structs of numbers, each with `refused` and the refusal's `place` ahead. The crate `fstf` exports the calls,
// and include/fstf.h declares them.
#![tactic(auto)]

ghost use Rattle.std.specs.Prelude.{◌≡◌};
ghost use Rattle.reading.specs.Read.{find_of, frame_read_of};
ghost use Rattle.face_reading.specs.Face.{held_asked, frame_not, frame_flat, frame_held, part_not, part_flat, part_held, item_asked};

use face_opening::FstfOpened;
use items::{Found, FrameRead, Item};
use opening::Held;
use refusal::Refusal;

// The numbers that opening gave, or any others. Both types are of other crates, so that there can be no `From`.
fn held_asked(opened: FstfOpened) -> Held
    ensures { result ≡ held_asked opened }
{
    Held {
        frames: opened.frames as usize,
        sections: opened.sections as usize,
        system_tags: opened.system_tags as usize,
        user_tags: opened.user_tags as usize,
        system: opened.system as usize,
        start: opened.start as usize,
        index: opened.index as usize,
        user: opened.user as usize,
    }
}

// A frame: where it stands and what its head says; refused, all else is 0.
#[repr(C)]
#[derive(Clone, Copy)]
pub struct FstfFrame {
    pub refused: u64,
    pub place: u64,
    pub start: u64,
    pub length: u64,
    pub time: i64,
    pub exposure: u64,
}

fn frame_not(number: u64, place: u64) -> FstfFrame
    ensures { result ≡ frame_not number place }
{
    FstfFrame {
        refused: number,
        place,
        start: 0,
        length: 0,
        time: 0,
        exposure: 0,
    }
}

impl From<Result<FrameRead, Refusal>> for FstfFrame {
    ghost from_gives = { λ answer made. made ≡ frame_flat answer };

    fn from(answer: Result<FrameRead, Refusal>) -> FstfFrame {
        match answer {
            Ok(frame) => FstfFrame {
                refused: 0,
                place: 0,
                start: frame.place as u64,
                length: frame.length as u64,
                time: frame.time,
                exposure: frame.exposure as u64,
            },
            Err(refusal) => frame_not(refusal.number() as u64, refusal.place() as u64),
        }
    }
}

pub fn frame(file: &[u8], i: u64) -> FstfFrame
    ensures { result ≡ frame_flat (frame_read_of file.now i) }
{
    reading::frame(file, i).into()
}

// A frame by the numbers of an opening that went ahead, whose refusal is passed through.
pub fn frame_of(file: &[u8], opened: FstfOpened, i: u64) -> FstfFrame
    ensures { result ≡ frame_held file.now opened i }
{
    if opened.refused != 0 {
        return frame_not(opened.refused, opened.place);
    }
    items::frame_of(file, held_asked(opened), i).into()
}

// Where the bytes of an item stand in the file; refused, "the empty part at the file's start".
#[repr(C)]
#[derive(Clone, Copy)]
pub struct FstfPart {
    pub refused: u64,
    pub place: u64,
    pub start: u64,
    pub length: u64,
}

fn part_not(number: u64, place: u64) -> FstfPart
    ensures { result ≡ part_not number place }
{
    FstfPart {
        refused: number,
        place,
        start: 0,
        length: 0,
    }
}

impl From<Result<Found, Refusal>> for FstfPart {
    ghost from_gives = { λ answer made. made ≡ part_flat answer };

    fn from(answer: Result<Found, Refusal>) -> FstfPart {
        match answer {
            Ok(found) => FstfPart {
                refused: 0,
                place: 0,
                start: found.start as u64,
                length: found.len as u64,
            },
            Err(refusal) => part_not(refusal.number() as u64, refusal.place() as u64),
        }
    }
}

// No file has a frame of this number, so that a kind which is none is answered as an item that is not there.
const NO_FRAME: u64 = 0xFFFF_FFFF_FFFF_FFFF;

// The item that a kind names: 0 section j of frame i, 1 name and 2 configuration of section i, 3 name and 4 value of system tag i, 5 and 6 of user tag i.
fn item_asked(kind: u64, i: u64, j: u64) -> Item
    ensures { result ≡ item_asked kind i j }
{
    match kind {
        0 => Item::Section(i, j),
        1 => Item::SectionName(i),
        2 => Item::Configuration(i),
        3 => Item::SystemName(i),
        4 => Item::SystemValue(i),
        5 => Item::UserName(i),
        6 => Item::UserValue(i),
        _ => Item::Section(NO_FRAME, j),
    }
}

pub fn part(file: &[u8], kind: u64, i: u64, j: u64) -> FstfPart
    ensures { result ≡ part_flat (find_of file.now (item_asked kind i j)) }
{
    reading::find(file, item_asked(kind, i, j)).into()
}

// An item by the numbers of an opening that went ahead, whose refusal is passed through.
pub fn part_of(file: &[u8], opened: FstfOpened, kind: u64, i: u64, j: u64) -> FstfPart
    ensures { result ≡ part_held file.now opened (item_asked kind i j) }
{
    if opened.refused != 0 {
        return part_not(opened.refused, opened.place);
    }
    items::find_of(file, held_asked(opened), item_asked(kind, i, j)).into()
}
