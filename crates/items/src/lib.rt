// Frames and items of a file by the numbers of its opening: where they stand. Any other numbers are taken too; what they lead to lies in the file.
#![tactic(auto, using(crate::proofs::Laws::laws, crate::proofs::Frames::laws))]

ghost use Rattle.std.specs.Prelude.{◌≡◌};
ghost use Rattle.tables.specs.Tables.{tag_found};
ghost use Rattle.items.specs.Items.{held_name, next_at, held_configuration, name_of, value_of, frame_place, held_section, held_item, held_found, frame_behind, held_frame};

use header::Header;
use opening::Held;
use refusal::Refusal;
use rows::Row;

// Frames, sections and tags by their numbers, from 0.
#[derive(Clone, Copy, Debug, PartialEq, Eq)]
pub enum Item {
    Section(u64, u64),
    SectionName(u64),
    Configuration(u64),
    SystemName(u64),
    SystemValue(u64),
    UserName(u64),
    UserValue(u64),
}

// Where the bytes of an item stand in the file. In a file that opened nothing stands there only where a number is not below its count: what the other
// tests below would find missing is there, by their proofs. Numbers that no opening gave may lead nowhere too.
#[derive(Clone, Copy, Debug, PartialEq, Eq)]
pub struct Found {
    pub start: usize,
    pub len: usize,
}

// The name of a section stands behind the definitions ahead of its own.
fn name_of_section(file: &[u8], sections: usize, i: u64) -> Option<Found>
    ensures { result ≡ held_name file.now sections i }
{
    if sections as u64 <= i {
        return None;
    }
    let place = rows::row_start(file, Header::LENGTH + 1, i as usize, Row::Definition)?;
    let len = strings::string(file, place)?;
    Some(Found {
        start: place + 1,
        len,
    })
}

// "each configuration runs to the next offset, the last one to the system table": with so many definitions left from a place on.
fn next_offset(file: &[u8], at: usize, left: usize, system: usize) -> usize
    ensures { result ≡ next_at file.now at left system }
{
    if left == 0 {
        return system;
    }
    let Some(next) = front::definition_at(file, at) else {
        return system;
    };
    next.offset
}

fn configuration(file: &[u8], sections: usize, system: usize, i: u64) -> Option<Found>
    ensures { result ≡ held_configuration file.now sections system i }
{
    if sections as u64 <= i {
        return None;
    }
    let number = i as usize;
    let place = rows::row_start(file, Header::LENGTH + 1, number, Row::Definition)?;
    let found = front::definition_at(file, place)?;
    let end = next_offset(file, found.next, sections - number - 1, system);
    if end < found.offset {
        return None;
    }
    if file.len() < end {
        return None;
    }
    Some(Found {
        start: found.offset,
        len: end - found.offset,
    })
}

// The name of a tag of the table at a place, and its value.
fn name_of_tag(file: &[u8], table: usize, i: u64) -> Option<Found>
    ensures { result ≡ name_of (tag_found file.now table i) }
{
    let tag = tables::tag_found(file, table, i as usize)?;
    Some(Found {
        start: tag.name,
        len: tag.name_length,
    })
}

fn value_of_tag(file: &[u8], table: usize, i: u64) -> Option<Found>
    ensures { result ≡ value_of (tag_found file.now table i) }
{
    let tag = tables::tag_found(file, table, i as usize)?;
    Some(Found {
        start: tag.value,
        len: tag.value_length,
    })
}

// Where a frame starts: its index entry says so behind the time.
fn frame_place(file: &[u8], frames: usize, index: usize, i: u64) -> Option<usize>
    ensures { result ≡ frame_place file.now frames index i }
{
    if frames as u64 <= i {
        return None;
    }
    if Header::MOST_FRAMES as u64 <= i {
        return None;
    }
    if file.len() < index {
        return None;
    }
    let entry = index + 4 + Header::INDEX_ENTRY * i as usize;
    Some(number::read(file, entry + 4, 8) as usize)
}

// The bytes of a section of a frame stand behind the frame's head, the sections ahead and its own size.
fn section(file: &[u8], held: Held, i: u64, j: u64) -> Option<Found>
    ensures { result ≡ held_section file.now held.frames held.index held.sections i j }
{
    if held.sections as u64 <= j {
        return None;
    }
    let place = frame_place(file, held.frames, held.index, i)?;
    if file.len() < place {
        return None;
    }
    let start = frames::sized_sections(file, place + Header::FRAME_HEAD, j as usize)?;
    let end = frames::sized(file, start)?;
    Some(Found {
        start: start + 4,
        len: end - start - 4,
    })
}

fn item_of(file: &[u8], held: Held, item: Item) -> Option<Found>
    ensures { result ≡ held_item file.now held item }
{
    match item {
        Item::Section(i, j) => section(file, held, i, j),
        Item::SectionName(i) => name_of_section(file, held.sections, i),
        Item::Configuration(i) => configuration(file, held.sections, held.system, i),
        Item::SystemName(i) => name_of_tag(file, held.system, i),
        Item::SystemValue(i) => value_of_tag(file, held.system, i),
        Item::UserName(i) => name_of_tag(file, held.user, i),
        Item::UserValue(i) => value_of_tag(file, held.user, i),
    }
}

// An item of a file that opened with these numbers. Any other numbers are taken too; what they lead to lies in the file.
pub fn find_of(file: &[u8], held: Held, item: Item) -> Result<Found, Refusal>
    ensures { result ≡ held_found file.now held item }
{
    item_of(file, held, item).ok_or(Refusal::NoSuchItem)
}

// A frame: where it stands, and what its head says.
#[derive(Clone, Copy, Debug, PartialEq, Eq)]
pub struct FrameRead {
    pub place: usize,
    pub length: usize,
    pub time: i64,
    pub exposure: u32,
}

fn frame_read(file: &[u8], held: Held, i: u64) -> Option<FrameRead>
    ensures { result ≡ frame_behind file.now held.sections (frame_place file.now held.frames held.index i) }
{
    let place = frame_place(file, held.frames, held.index, i)?;
    let found = frames::frame_at(file, place, held.sections)?;
    Some(FrameRead {
        place,
        length: found.next - place,
        time: number::time_of(found.time),
        exposure: found.exposure as u32,
    })
}

// A frame of a file that opened with these numbers. The numbers of another file may lead nowhere: no such frame.
pub fn frame_of(file: &[u8], held: Held, i: u64) -> Result<FrameRead, Refusal>
    ensures { result ≡ held_frame file.now held i }
{
    frame_read(file, held, i).ok_or(Refusal::NoSuchItem)
}
