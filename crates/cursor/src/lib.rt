// A cursor over a table in file form: the table is looked at once, and each tag is read behind the one before.
#![tactic(auto, using(crate::proofs::Laws::laws))]

ghost use Rattle.std.specs.Prelude.{◌+◌, ◌≡◌, Ok};
ghost use Rattle.layout.specs.Cursor.{stands_at, first_tag};
ghost use Rattle.cursor.specs.Cursors.{cursor_as, next_as};

use refusal::Refusal;
use tables::TagFound;

// A cursor at a tag: the places and lengths of its name and its value, and how many tags are left behind it.
#[derive(Clone, Copy, Debug, PartialEq, Eq)]
pub struct Cursor {
    pub tag: TagFound,
    pub left: usize,
}

// The cursor at a place with so many tags from there on; none at the end.
fn stands_at(table: &[u8], place: usize, count: usize) -> Option<Cursor>
    ensures { Ok result ≡ cursor_as (stands_at table.now place count) }
{
    if count == 0 {
        return None;
    }
    let tag = tables::tag(table, place)?;
    Some(Cursor {
        tag: TagFound {
            name: place + 1,
            name_length: tag.name,
            value: place + 1 + tag.name + 1,
            value_length: tag.value,
        },
        left: count - 1,
    })
}

// "Over bytes that are not exactly a legal table it is refused 7", at the first fault in them; else at the first tag, or at the end of a table
// that has none.
pub fn first_tag(table: &[u8]) -> Result<Option<Cursor>, Refusal>
    ensures { result ≡ cursor_as (first_tag table.now) }
{
    let tags = tables::tags_of(table).map_err(|fault| Refusal::UserTable(fault.place))?;
    Ok(stands_at(table, 4, tags))
}

// The cursor behind a value, wherever it is said to stand: past the table's end there is no tag.
fn behind(table: &[u8], value: usize, length: usize, left: usize) -> Option<Cursor>
    ensures { Ok result ≡ cursor_as (stands_at table.now (value + length) left) }
{
    if table.len() < value {
        return None;
    }
    if table.len() - value < length {
        return None;
    }
    stands_at(table, value + length, left)
}

// At the next tag, or at the end; at the end, and where it is refused, as it is. The table is not looked at again: a cursor of another table, or one
// with any numbers, is at what stands behind its value, or at the end.
pub fn next_tag(
    table: &[u8],
    cursor: Result<Option<Cursor>, Refusal>,
) -> Result<Option<Cursor>, Refusal>
    ensures { result ≡ next_as table.now cursor }
{
    let Some(at) = cursor? else {
        return Ok(None);
    };
    let tag = at.tag;
    Ok(behind(table, tag.value, tag.value_length, at.left))
}
