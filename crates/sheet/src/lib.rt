// A change sheet: how many changes it has; the value that an entry of one names, and the one that a tag has.
#![tactic(auto, using(crate::proofs::Sheets::laws, crate::proofs::Values::laws))]

ghost use Rattle.std.specs.Prelude.{◌≡◌, drop};
ghost use Rattle.layout.specs.Reading.{times, exactly};
ghost use Rattle.layout.specs.Saving.{entry_of};
ghost use Rattle.rows.specs.Rows.{entry_up_to};
ghost use Rattle.parts.specs.Parts.{end_of};
ghost use Rattle.sheet.specs.Sheet.{change_up_to, sheet_up_to, sheet_end_of, sheet_of};
ghost use Rattle.sheet.specs.Values.{entry_value, new_value, row_value, held_value};

use header::Header;
use parts::Fault;
use rows::Row;

// The greatest kind of what was seen: in a sheet, and in one from before "2 nobody looked" was withdrawn.
pub const MOST_SEEN: usize = 1;

pub const MOST_SEEN_BEFORE: usize = 2;

// A value that stands in some bytes: the place of its short string, and its number of bytes.
#[derive(Clone, Copy, Debug, PartialEq, Eq)]
pub struct Value {
    pub place: usize,
    pub length: usize,
}

// What a kind byte asks for: "0 absent, 1 a value, which follows".
fn kind_end(s: &[u8], at: usize, kind: u8) -> Option<usize>
    ensures { result ≡ end_of at (entry_of kind (drop at s.now)) }
{
    if kind == 1 {
        let n = strings::tag_value(s, at)?;
        return Some(at + 1 + n);
    }
    Some(at)
}

// An entry, whose kind goes up to `most`.
fn entry_end(s: &[u8], at: usize, most: usize) -> Option<usize>
    ensures { result ≡ end_of at (entry_up_to most (drop at s.now)) }
{
    let kind = *s.get(at)?;
    if most < kind as usize {
        return None;
    }
    kind_end(s, at + 1, kind)
}

// "per change a name; a seen kind ..; a new kind .."
fn change_end(s: &[u8], at: usize, most: usize) -> Option<usize>
    ensures { result ≡ end_of at (change_up_to most (drop at s.now)) }
{
    let n = strings::tag_name(s, at)?;
    let next = entry_end(s, at + 1 + n, most)?;
    entry_end(s, next, 1)
}

// Where n changes end.
fn changes_end(s: &[u8], at: usize, n: usize, most: usize) -> Option<usize>
    ensures { result ≡ end_of at (times n (change_up_to most) (drop at s.now)) }
{
    let mut place = at;
    for _ in 0..n {
        place = change_end(s, place, most)?;
    }
    Some(place)
}

// A sheet by its number of changes, and where it ends.
#[derive(Clone, Copy, Debug, PartialEq, Eq)]
struct SheetEnd {
    changes: usize,
    end: usize,
}

// "UInt8 number of changes, 0 to 64 ..; no name comes twice"
fn sheet_end(s: &[u8], most: usize) -> Option<SheetEnd>
    ensures { result ≡ sheet_end_of (sheet_up_to most s.now) }
{
    if s.len() < 1 {
        return None;
    }
    let changes = number::read(s, 0, 1) as usize;
    if Header::MOST_CHANGES < changes {
        return None;
    }
    let end = changes_end(s, 1, changes, most)?;
    if !names::distinct_names(s, 1, changes, Row::Change) {
        return None;
    }
    Some(SheetEnd { changes, end })
}

// The same, and "nothing follows the last change": how many changes it has. Kinds of what was seen go up to `most`. A sheet that is refused is walked once
// more, for its first fault.
pub fn changes_of(s: &[u8], most: usize) -> Result<usize, Fault>
    ensures { result ≡ sheet_of (exactly (sheet_up_to most) s.now) }
{
    let Some(sheet) = sheet_end(s, most) else {
        let place = faults::first_fault(s, 0, Row::Change, most);
        return Err(Fault { place });
    };
    if sheet.end == s.len() {
        return Ok(sheet.changes);
    }
    Err(Fault { place: sheet.end })
}

// The value of an entry, by its kind byte.
pub fn entry_value(s: &[u8], at: usize) -> Option<Value>
    ensures { result ≡ entry_value s.now at }
{
    if *s.get(at)? != 1 {
        return None;
    }
    let length = strings::string(s, at + 1)?;
    Some(Value {
        place: at + 1,
        length,
    })
}

// The value of the new entry, which stands behind the seen one.
pub fn new_value(s: &[u8], seen: usize) -> Option<Value>
    ensures { result ≡ new_value s.now seen }
{
    let at = rows::entry_end(s, seen)?;
    entry_value(s, at)
}

// The value of the tag at a place.
fn row_value(table: &[u8], place: usize) -> Option<Value>
    ensures { result ≡ row_value table.now place }
{
    let row = rows::row_at(table, place, Row::Tag)?;
    let start = place + 1 + row.name;
    Some(Value {
        place: start,
        length: row.end - (start + 1),
    })
}

// What the tag at a place holds; nothing for place 0, where none stands.
pub fn held_value(table: &[u8], tag: usize) -> Option<Value>
    ensures { result ≡ held_value table.now tag }
{
    if tag == 0 {
        return None;
    }
    row_value(table, tag)
}
