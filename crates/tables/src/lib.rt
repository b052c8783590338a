// Tag tables, over lent bytes.
#![tactic(auto, using(crate::proofs::Laws::laws, crate::proofs::Apart::laws, crate::proofs::Alone::laws))]

ghost use Rattle.std.specs.Prelude.{◌≡◌, drop};
ghost use Rattle.layout.specs.Reading.{times, exactly, tag, table};
ghost use Rattle.parts.specs.Parts.{end_of};
ghost use Rattle.names.specs.Names.{distinct_names};
ghost use Rattle.rows.specs.declared.Row.TheVariants as row;
ghost use Rattle.tables.specs.Tables.{tag_place_of, table_end_of, table_place_of, tags_of, tag_found, Ends, apart_of};

use header::Header;
use parts::Fault;
use rows::Row;

// A tag at a place: the numbers of bytes of its name and of its value.
#[derive(Clone, Copy, Debug, PartialEq, Eq)]
pub struct TagPlace {
    pub name: usize,
    pub value: usize,
}

// A table at a place: its number of tags, and where it ends.
#[derive(Clone, Copy, Debug, PartialEq, Eq)]
pub struct TablePlace {
    pub tags: usize,
    pub end: usize,
}

// A tag: its name and its value, as short strings of bytes that a tag may have.
pub fn tag(s: &[u8], at: usize) -> Option<TagPlace>
    ensures { result ≡ tag_place_of (tag (drop at s.now)) }
{
    let name = strings::tag_name(s, at)?;
    let value = strings::tag_value(s, at + 1 + name)?;
    Some(TagPlace { name, value })
}

// Where n tags end.
fn tags_end(s: &[u8], at: usize, n: usize) -> Option<usize>
    ensures { result ≡ end_of at (times n tag (drop at s.now)) }
{
    let mut place = at;
    for _ in 0..n {
        let found = tag(s, place)?;
        place = place + 1 + found.name + 1 + found.value;
    }
    Some(place)
}

// Where tags end, with whether their names were seen to differ on the way.
#[derive(Clone, Copy, Debug, PartialEq, Eq)]
struct TagsEnd {
    end: usize,
    apart: bool,
}

// Where n tags end. Each name is marked as its tag is passed: where no mark was set before, no two names are equal, and no second walk is needed.
fn marked_tags_end(s: &[u8], at: usize, n: usize) -> Option<TagsEnd>
    ensures { Ends s.now at n result }
{
    let mut marked = [0; marks::MARKS];
    let mut apart = true;
    let mut place = at;
    for passed in 0..n {
        let found = tag(s, place)?;
        let mark = marks::mark_of(s, place + 1, found.name);
        apart &= !marks::marked(&marked, mark);
        marks::mark(&mut marked, mark);
        place = place + 1 + found.name + 1 + found.value;
    }
    Some(TagsEnd { end: place, apart })
}

// Where n tags end. The names of few are not marked.
fn seen_tags_end(s: &[u8], at: usize, n: usize) -> Option<TagsEnd>
    ensures { Ends s.now at n result }
{
    if names::MARKED <= n {
        return marked_tags_end(s, at, n);
    }
    let end = tags_end(s, at, n)?;
    Some(TagsEnd { end, apart: false })
}

// Where n tags end, no two of whose names are equal.
fn tags_apart(s: &[u8], at: usize, n: usize) -> Option<usize>
    ensures { result ≡ apart_of (end_of at (times n tag (drop at s.now))) (distinct_names s.now at n row.Tag) }
{
    let tags = seen_tags_end(s, at, n)?;
    if tags.apart {
        return Some(tags.end);
    }
    if names::distinct_names(s, at, n, Row::Tag) {
        return Some(tags.end);
    }
    None
}

// A tag table: its number of tags, the tags, and no two names equal.
fn table_end(s: &[u8], at: usize) -> Option<TablePlace>
    ensures { result ≡ table_end_of at (table (drop at s.now)) }
{
    if s.len() < 4 {
        return None;
    }
    if s.len() - 4 < at {
        return None;
    }
    let tags = number::read(s, at, 4) as usize;
    if Header::MOST_TAGS < tags {
        return None;
    }
    let end = tags_apart(s, at + 4, tags)?;
    Some(TablePlace { tags, end })
}

// The same; one that is refused is walked once more, for its first fault.
pub fn table(s: &[u8], at: usize) -> Result<TablePlace, Fault>
    ensures { result ≡ table_place_of at (table (drop at s.now)) }
{
    table_end(s, at).ok_or_else(|| Fault {
        place: faults::first_fault(s, at, Row::Tag, 0),
    })
}

// The number of tags of bytes that are exactly a legal table; or where the first fault is.
pub fn tags_of(bytes: &[u8]) -> Result<usize, Fault>
    ensures { result ≡ tags_of (exactly table bytes.now) }
{
    let TablePlace { tags, end } = table(bytes, 0)?;
    if end != bytes.len() {
        return Err(Fault { place: end });
    }
    Ok(tags)
}

// Where the name and the value of a tag stand, and their lengths.
#[derive(Clone, Copy, Debug, PartialEq, Eq)]
pub struct TagFound {
    pub name: usize,
    pub name_length: usize,
    pub value: usize,
    pub value_length: usize,
}

// Tag number i of the table at a place. The length bytes lead there; that the table is legal is for `table` to say.
pub fn tag_found(s: &[u8], at: usize, i: usize) -> Option<TagFound>
    ensures { result ≡ tag_found s.now at i }
{
    let count = number::read(s, at, 4) as usize;
    if count <= i {
        return None;
    }
    let place = rows::row_start(s, at + 4, i, Row::Tag)?;
    let found = tag(s, place)?;
    Some(TagFound {
        name: place + 1,
        name_length: found.name,
        value: place + 1 + found.name + 1,
        value_length: found.value,
    })
}
