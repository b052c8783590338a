// What a tag of the table, or a change of the sheet, adds to the new table.
#![tactic(auto, using(crate::proofs::Pieces::laws))]

ghost use Rattle.std.specs.Prelude.{◌≡◌};
ghost use Rattle.pieces.specs.Pieces.{changed_value, with_value, whole_at, changed_at, new_at, named_at, piece_at, Short};

use rows::Row;
use sheet::Value;

// Whose rows are walked: the table's tags, of which some are kept, or the sheet's changes, of which some are new.
#[derive(Clone, Copy, Debug, PartialEq, Eq)]
pub enum Side {
    Kept,
    New,
}

// The piece of a row: how many bytes from the row's own place on; the place and the number of bytes of a value of the sheet, which comes behind them; and
// where the row ends.
#[derive(Clone, Copy, Debug, PartialEq, Eq)]
pub struct Piece {
    pub first: usize,
    pub value: usize,
    pub second: usize,
    pub end: usize,
}

// The new value of the change at a place.
fn changed_value(sheet: &[u8], at: usize) -> Option<Value>
    ensures { result ≡ changed_value sheet.now at }
{
    let row = rows::row_at(sheet, at, Row::Change)?;
    sheet::new_value(sheet, at + 1 + row.name)
}

// A name of `len` bytes with a value of the sheet; or nothing.
fn with_value(len: usize, value: Option<Value>, end: usize) -> Piece
    requires { Short len value }
    ensures { result ≡ with_value len value end }
{
    let Some(value) = value else {
        return Piece {
            first: 0,
            value: 0,
            second: 0,
            end,
        };
    };
    Piece {
        first: 1 + len,
        value: value.place,
        second: 1 + value.length,
        end,
    }
}

// A tag that the sheet does not name: its whole row.
fn whole_piece(table: &[u8], place: usize) -> Option<Piece>
    ensures { result ≡ whole_at table.now place }
{
    let row = rows::row_at(table, place, Row::Tag)?;
    Some(Piece {
        first: row.end - place,
        value: 0,
        second: 0,
        end: row.end,
    })
}

// A tag that the sheet names, by the place of its change.
fn changed_piece(table: &[u8], place: usize, sheet: &[u8], change: usize) -> Option<Piece>
    ensures { result ≡ changed_at table.now place sheet.now change }
{
    let row = rows::row_at(table, place, Row::Tag)?;
    let value = changed_value(sheet, change);
    Some(with_value(row.name, value, row.end))
}

// A change of the sheet in the new table, by the place of its tag in the old one, or 0: "new ones come last in sheet order".
fn new_piece(sheet: &[u8], place: usize, tag: usize) -> Option<Piece>
    ensures { result ≡ new_at place sheet.now tag }
{
    let row = rows::row_at(sheet, place, Row::Change)?;
    if 0 < tag {
        return Some(Piece {
            first: 0,
            value: 0,
            second: 0,
            end: row.end,
        });
    }
    let value = sheet::new_value(sheet, place + 1 + row.name);
    Some(with_value(row.name, value, row.end))
}

// A tag that the sheet names, or a change: a row that is not just kept.
fn named_piece(side: Side, table: &[u8], place: usize, sheet: &[u8], other: usize) -> Option<Piece>
    ensures { result ≡ named_at side table.now place sheet.now other }
{
    match side {
        Side::Kept => changed_piece(table, place, sheet, other),
        Side::New => new_piece(sheet, place, other),
    }
}

// The piece of the row at a place, by the place of the row of its name on the other side, or 0: "Kept tags keep their order and a changed tag its place;
// removed tags vanish". Most rows are just kept: with `named_piece` called from two places, the compiler puts no more than that case into a loop.
pub fn piece_at(side: Side, table: &[u8], place: usize, sheet: &[u8], other: usize) -> Option<Piece>
    ensures { result ≡ piece_at side table.now place sheet.now other }
{
    let Side::Kept = side else {
        return named_piece(side, table, place, sheet, other);
    };
    if other == 0 {
        return whole_piece(table, place);
    }
    named_piece(side, table, place, sheet, other)
}
