// What stands ahead of the frames: the lines of refusal 1 to 4 in their order, with which opening and repair both begin.
#![tactic(auto, using(crate::proofs::Laws::laws, crate::proofs::Definitions::laws, crate::proofs::Line3::laws, crate::proofs::Faults::laws, crate::proofs::Fronts::laws))]

ghost use Rattle.std.specs.Prelude.{◌≡◌, drop};
ghost use Rattle.layout.specs.Reading.{times, definition};
ghost use Rattle.layout.specs.Opening.{not_fstf, other_revision, sections_fault};
ghost use Rattle.parts.specs.Parts.{end_of};
ghost use Rattle.front.specs.Front.{definition_at, offsets_at, section_count, sections_of, first_elsewhere, system_table, front_of, front_refusal};

use header::Header;
use parts::Fault;
use refusal::Refusal;
use rows::Row;
use tables::TablePlace;

// 1: "under 34 bytes, or the first four differ"
fn not_fstf(file: &[u8]) -> bool
    ensures { result ≡ not_fstf file.now }
{
    if file.len() < Header::LENGTH + 1 {
        return true;
    }
    number::read(file, 0, 4) != Header::FILE_MARK
}

// 2: "not 1"
fn other_revision(file: &[u8]) -> bool
    ensures { result ≡ other_revision file.now }
{
    number::read(file, Header::REVISION_PLACE, 1) != Header::REVISION
}

// ── Sections ──

// A section's definition: where the next one starts, and the offset of its configuration.
#[derive(Clone, Copy, Debug, PartialEq, Eq)]
pub struct DefinitionAt {
    pub next: usize,
    pub offset: usize,
}

pub fn definition_at(file: &[u8], at: usize) -> Option<DefinitionAt>
    ensures { result ≡ definition_at file.now at }
{
    let name = strings::section_name(file, at)?;
    let place = at + 1 + name;
    if file.len() - place < 8 {
        return None;
    }
    Some(DefinitionAt {
        next: place + 8,
        offset: number::read(file, place, 8) as usize,
    })
}

// Some definitions whose offsets never fall: where they end, and the last offset.
#[derive(Clone, Copy, Debug, PartialEq, Eq)]
struct Offsets {
    end: usize,
    last: usize,
}

// The definitions behind one whose configuration is at `offset`: none starts ahead of the one before it, or more than 65,535 bytes behind it.
fn later_offsets(file: &[u8], at: usize, definitions: usize, offset: usize) -> Option<Offsets>
    ensures { result ≡ offsets_at file.now at definitions offset }
{
    let mut place = at;
    let mut last = offset;
    for _ in 0..definitions {
        let found = definition_at(file, place)?;
        if found.offset < last {
            return None;
        }
        if Header::LONGEST_CONFIGURATION < found.offset - last {
            return None;
        }
        place = found.next;
        last = found.offset;
    }
    Some(Offsets { end: place, last })
}

// The number of sections, which is from 1 to 8.
fn section_count(file: &[u8]) -> Option<usize>
    ensures { result ≡ section_count file.now }
{
    if file.len() <= Header::LENGTH {
        return None;
    }
    let count = number::read(file, Header::LENGTH, 1) as usize;
    if count < 1 {
        return None;
    }
    if Header::MOST_SECTIONS < count {
        return None;
    }
    Some(count)
}

// The sections' definitions: how many, and the offset of the last configuration.
#[derive(Clone, Copy, Debug, PartialEq, Eq)]
struct Sections {
    count: usize,
    last: usize,
}

// 3: "definitions or configuration offsets break the layout"
fn sections_in(file: &[u8]) -> Option<Sections>
    ensures { result ≡ sections_of file.now }
{
    let count = section_count(file)?;
    let first = definition_at(file, Header::LENGTH + 1)?;
    let later = later_offsets(file, first.next, count - 1, first.offset)?;
    if first.offset != later.end {
        return None;
    }
    if !names::distinct_names(file, Header::LENGTH + 1, count, Row::Definition) {
        return None;
    }
    Some(Sections {
        count,
        last: later.last,
    })
}

// ── Where the sections' definitions break the layout ──

// Where n definitions end: a name used twice and a wrong offset do not end the reading.
fn definitions_end(file: &[u8], at: usize, n: usize) -> Option<usize>
    ensures { result ≡ end_of at (times n definition (drop at file.now)) }
{
    let mut place = at;
    for _ in 0..n {
        place = definition_at(file, place)?.next;
    }
    Some(place)
}

// Whether the definitions can all be read, and end elsewhere than at this offset.
fn first_elsewhere(file: &[u8], offset: usize) -> bool
    ensures { result ≡ first_elsewhere file.now offset }
{
    let Some(count) = section_count(file) else {
        return false;
    };
    let Some(end) = definitions_end(file, Header::LENGTH + 1, count) else {
        return false;
    };
    offset != end
}

// 3's place: the first offset's field where it is not the definitions' end; else the first fault front to back, of which each offset is held to the one
// ahead of it, and the first to itself.
fn sections_fault(file: &[u8]) -> usize
    ensures { result ≡ sections_fault file.now }
{
    let Some(first) = definition_at(file, Header::LENGTH + 1) else {
        return faults::first_fault(file, Header::LENGTH, Row::Definition, 0);
    };
    if first_elsewhere(file, first.offset) {
        return first.next - 8;
    }
    faults::first_fault(file, Header::LENGTH, Row::Definition, first.offset)
}

// ── The front ──

// 4: "its offset is before the last configuration's or more than 65,535 after it, or the table is malformed or runs past the end"
fn system_table(file: &[u8], system: usize, last: usize) -> Result<TablePlace, Fault>
    ensures { result ≡ system_table file.now system last }
{
    let wrong_offset = Fault {
        place: Header::SYSTEM_PLACE,
    };
    if system < last {
        return Err(wrong_offset);
    }
    if Header::LONGEST_CONFIGURATION < system - last {
        return Err(wrong_offset);
    }
    tables::table(file, system)
}

// What stands ahead of the frames: the number of sections, the system table's offset and number of tags, and where the frames start.
#[derive(Clone, Copy, Debug, PartialEq, Eq)]
pub struct FrontHeld {
    pub sections: usize,
    pub system: usize,
    pub system_tags: usize,
    pub start: usize,
}

// 1 to 4, with which opening and repair both begin.
pub fn open_front(file: &[u8]) -> Result<FrontHeld, Refusal>
    ensures { result ≡ front_of file.now }
{
    if not_fstf(file) {
        return Err(Refusal::NotFstf);
    }
    if other_revision(file) {
        return Err(Refusal::Revision);
    }
    let Some(sections) = sections_in(file) else {
        return Err(Refusal::Sections(sections_fault(file)));
    };
    let header = Header::parse(file);
    let table = system_table(file, header.system, sections.last).map_err(
        |fault| Refusal::SystemTable(fault.place),
    )?;
    Ok(FrontHeld {
        sections: sections.count,
        system: header.system,
        system_tags: table.tags,
        start: table.end,
    })
}

// What a front is refused with.
pub fn front_refusal(front: Result<FrontHeld, Refusal>) -> Option<Refusal>
    ensures { result ≡ front_refusal front }
{
    front.err()
}
