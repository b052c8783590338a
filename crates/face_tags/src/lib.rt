// The C face of look, commit, the converter and tags: answers are flat structs of numbers, each with `refused` and the refusal's `place` ahead. The crate `fstf` exports
// the calls, and include/fstf.h declares them.
#![tactic(auto, using(crate::proofs::Laws::laws))]

ghost use Rattle.std.specs.Prelude.{◌≡◌};
ghost use Rattle.refusal.specs.Refusal.{number_of, place_of};
ghost use Rattle.layout.specs.Browser.{browse, tag_named};
ghost use Rattle.layout.specs.Cursor.{first_tag};
ghost use Rattle.saving.specs.Answers.{look_of, commit_of};
ghost use Rattle.converting.specs.Answers.{convert_of};
ghost use Rattle.browser.specs.Browsing.{browsed_as};
ghost use Rattle.cursor.specs.Cursors.{cursor_as};
ghost use Rattle.face_tags.specs.Face.{looked_not, looked_flat, committed_flat, kept, outcome_flat, converted_flat, conversion_flat, tag_not, tag_flat, cursor_not, cursor_flat, cursor_asked, cursor_next};

use cursor::Cursor;
use refusal::Refusal;
use saving::Looked;
use tables::TagFound;

// ── To look and to commit ──

// The number of changes, and the set of those that conflict, the first one's bit lowest; refused, 0. The place counts from the start of the file for 3, 4
// and 7 and of the sheet for 10.
#[repr(C)]
#[derive(Clone, Copy)]
pub struct FstfLooked {
    pub refused: u64,
    pub place: u64,
    pub changes: u64,
    pub conflicts: u64,
}

impl From<Refusal> for FstfLooked {
    ghost from_gives = { λ refusal flat. flat ≡ looked_not refusal };

    fn from(refusal: Refusal) -> FstfLooked {
        FstfLooked {
            refused: refusal.number() as u64,
            place: refusal.place() as u64,
            changes: 0,
            conflicts: 0,
        }
    }
}

impl From<Result<Looked, Refusal>> for FstfLooked {
    ghost from_gives = { λ answer flat. flat ≡ looked_flat answer };

    fn from(answer: Result<Looked, Refusal>) -> FstfLooked {
        match answer {
            Ok(looked) => FstfLooked {
                refused: 0,
                place: 0,
                changes: looked.changes as u64,
                conflicts: looked.conflicts,
            },
            Err(refusal) => refusal.into(),
        }
    }
}

pub fn look(file: &[u8], sheet: &[u8]) -> FstfLooked
    ensures { result ≡ looked_flat (look_of file.now sheet.now) }
{
    saving::look(file, sheet).into()
}

// The length of the new user table, which stands at the start of the lent output; refused, 0. The places are look's; 11's is the number of the change.
#[repr(C)]
#[derive(Clone, Copy)]
pub struct FstfCommitted {
    pub refused: u64,
    pub place: u64,
    pub length: u64,
}

impl From<Result<usize, Refusal>> for FstfCommitted {
    ghost from_gives = { λ answer flat. flat ≡ committed_flat answer };

    fn from(answer: Result<usize, Refusal>) -> FstfCommitted {
        match answer {
            Ok(length) => FstfCommitted {
                refused: 0,
                place: 0,
                length: length as u64,
            },
            Err(refused) => FstfCommitted {
                refused: refused.number() as u64,
                place: refused.place() as u64,
                length: 0,
            },
        }
    }
}

pub fn commit(file: &[u8], sheet: &[u8], out: &mut [u8]) -> FstfCommitted
    ensures { kept result out.new ≡ outcome_flat (commit_of file.now sheet.now out.old) }
{
    saving::commit(file, sheet, out).into()
}

// ── To convert ──

// The length of the new sheet, which stands at the start of the lent output; refused, 0. The place counts from the start of the file for 3, 4 and 7 and of the
// old sheet for 10.
#[repr(C)]
#[derive(Clone, Copy)]
pub struct FstfConverted {
    pub refused: u64,
    pub place: u64,
    pub length: u64,
}

impl From<Result<usize, Refusal>> for FstfConverted {
    ghost from_gives = { λ answer flat. flat ≡ converted_flat answer };

    fn from(answer: Result<usize, Refusal>) -> FstfConverted {
        match answer {
            Ok(length) => FstfConverted {
                refused: 0,
                place: 0,
                length: length as u64,
            },
            Err(why) => FstfConverted {
                refused: why.number() as u64,
                place: why.place() as u64,
                length: 0,
            },
        }
    }
}

pub fn convert(file: &[u8], sheet: &[u8], out: &mut [u8]) -> FstfConverted
    ensures { kept result out.new ≡ conversion_flat (convert_of file.now sheet.now out.old) }
{
    converting::convert(file, sheet, out).into()
}

// ── Tags ──

// There is a tag.
const FOUND: u64 = 1;

// A tag of a table, by the places and lengths of its name and its value; `found` is 0 at the end, where there is no such tag, and where it is refused.
// 7's place counts from the start of the lent table.
#[repr(C)]
#[derive(Clone, Copy)]
pub struct FstfTag {
    pub refused: u64,
    pub place: u64,
    pub found: u64,
    pub name: u64,
    pub name_length: u64,
    pub value: u64,
    pub value_length: u64,
}

// No tag: at the end, or refused.
fn tag_not(number: u64, place: u64) -> FstfTag
    ensures { result ≡ tag_not number place }
{
    FstfTag {
        refused: number,
        place,
        found: 0,
        name: 0,
        name_length: 0,
        value: 0,
        value_length: 0,
    }
}

impl From<Result<Option<TagFound>, Refusal>> for FstfTag {
    ghost from_gives = { λ answer flat. flat ≡ tag_flat answer };

    fn from(answer: Result<Option<TagFound>, Refusal>) -> FstfTag {
        match answer {
            Ok(Some(tag)) => FstfTag {
                refused: 0,
                place: 0,
                found: FOUND,
                name: tag.name as u64,
                name_length: tag.name_length as u64,
                value: tag.value as u64,
                value_length: tag.value_length as u64,
            },
            Ok(None) => tag_not(0, 0),
            Err(refusal) => tag_not(refusal.number() as u64, refusal.place() as u64),
        }
    }
}

pub fn tag_at(table: &[u8], number: u64) -> FstfTag
    ensures { result ≡ tag_flat (browsed_as (browse table.now number)) }
{
    browser::tag_at(table, number).into()
}

pub fn tag_named(table: &[u8], name: &[u8]) -> FstfTag
    ensures { result ≡ tag_flat (browsed_as (tag_named table.now name.now)) }
{
    browser::tag_named(table, name).into()
}

// ── One tag after another ──

// The tag that a cursor stands at, by the places and lengths of its name and its value, and the tags left behind it; `found` is 0 at the end and where it
// is refused.
#[repr(C)]
#[derive(Clone, Copy)]
pub struct FstfCursor {
    pub refused: u64,
    pub place: u64,
    pub found: u64,
    pub name: u64,
    pub name_length: u64,
    pub value: u64,
    pub value_length: u64,
    pub left: u64,
}

// At no tag: at the end, or refused.
fn cursor_not(number: u64, place: u64) -> FstfCursor
    ensures { result ≡ cursor_not number place }
{
    FstfCursor {
        refused: number,
        place,
        found: 0,
        name: 0,
        name_length: 0,
        value: 0,
        value_length: 0,
        left: 0,
    }
}

impl From<Result<Option<Cursor>, Refusal>> for FstfCursor {
    ghost from_gives = { λ answer flat. flat ≡ cursor_flat answer };

    fn from(answer: Result<Option<Cursor>, Refusal>) -> FstfCursor {
        match answer {
            Ok(Some(at)) => FstfCursor {
                refused: 0,
                place: 0,
                found: FOUND,
                name: at.tag.name as u64,
                name_length: at.tag.name_length as u64,
                value: at.tag.value as u64,
                value_length: at.tag.value_length as u64,
                left: at.left as u64,
            },
            Ok(None) => cursor_not(0, 0),
            Err(refusal) => cursor_not(refusal.number() as u64, refusal.place() as u64),
        }
    }
}

// The numbers of a cursor at a tag, or any others.
impl From<FstfCursor> for Cursor {
    ghost from_gives = { λ at cursor. cursor ≡ cursor_asked at };

    fn from(at: FstfCursor) -> Cursor {
        Cursor {
            tag: TagFound {
                name: at.name as usize,
                name_length: at.name_length as usize,
                value: at.value as usize,
                value_length: at.value_length as usize,
            },
            left: at.left as usize,
        }
    }
}

pub fn first_tag(table: &[u8]) -> FstfCursor
    ensures { result ≡ cursor_flat (cursor_as (first_tag table.now)) }
{
    cursor::first_tag(table).into()
}

// The cursor behind the tag that one stands at. A refusal is passed through, and the end stays.
pub fn next_tag(table: &[u8], at: FstfCursor) -> FstfCursor
    ensures { result ≡ cursor_next table.now at }
{
    if at.refused != 0 {
        return cursor_not(at.refused, at.place);
    }
    if at.found == 0 {
        return cursor_not(0, 0);
    }
    cursor::next_tag(table, Ok(Some(at.into()))).into()
}
