// The new user table: what a sheet keeps of the old one, and what it adds.
#![tactic(auto, using(crate::proofs::Sizes::laws, crate::proofs::Stores::laws, crate::proofs::Applies::laws))]

ghost use Rattle.std.specs.Prelude.{◌≡◌, ◌+◌, ◌*◌, ◌<◌, ◌≤◌, length, take};
ghost use mathlib.Core.List.{◌++◌, flat_map};
ghost use Rattle.std.proofs.lemmas.List.Edits.{sets};
ghost use Rattle.number.specs.Number.{bytes_of};
ghost use Rattle.layout.specs.Recording.{tag_bytes};
ghost use Rattle.pieces.specs.Added.{added_by, tags_in, piece_bytes};
ghost use Rattle.pieces.specs.declared.Side.TheVariants as side;
ghost use Rattle.apply.specs.Applied.{applying, applied_to, kept_from, tags_by, size_of, Written, Room};
ghost use Rattle.apply.specs.Runs.{Leads, Keeps};

use header::Header;
use pieces::{Piece, Side};
use refusal::Refusal;

// The tags of a table, as the list of those that changes name leads through them: for how many changes it is, and how many words it takes; how many tags there
// are, which are whole, and where they end.
#[derive(Clone, Copy, Debug, PartialEq, Eq)]
pub struct Walk {
    pub changes: usize,
    pub words: usize,
    pub tags: usize,
    pub end: usize,
}

// The number of tags that are added to a table, and of their bytes.
#[derive(Clone, Copy, Debug, PartialEq, Eq)]
struct Size {
    tags: usize,
    bytes: usize,
}

// A piece is a tag, or it is empty.
fn tags_in(bytes: usize) -> usize
    ensures { (result ≡ tags_in bytes) × (result ≤ 1) }
{
    if 0 < bytes { 1 } else { 0 }
}

// What is kept at once: its piece, and how many tags that are.
#[derive(Clone, Copy, Debug, PartialEq, Eq)]
struct Part {
    piece: Piece,
    tags: usize,
}

// The tags from a place and a number on, up to the one that is listed next, which stay as they are; and what its change makes of that one. What stays of it
// stands right behind them. Table, walk, sheet and list stay apart here and below: of a slice in a struct no proof knows that each of its bytes is below 256.
fn part_at(
    table: &[u8],
    place: usize,
    passed: usize,
    walk: Walk,
    sheet: &[u8],
    list: &[usize],
    i: usize,
) -> Part
    requires { (i < length list.now) × Leads table.now place passed walk sheet.now list.now i }
    ensures { Keeps table.now place passed walk sheet.now list.now i result }
{
    let tag = list[i + 1];
    let found = pieces::piece_at(Side::Kept, table, tag, sheet, list[i + 2]);
    let Some(piece) = found else {
        return Part {
            piece: Piece {
                first: 0,
                value: 0,
                second: 0,
                end: tag,
            },
            tags: 0,
        };
    };
    Part {
        piece: Piece {
            first: tag - place + piece.first,
            value: piece.value,
            second: piece.second,
            end: piece.end,
        },
        tags: list[i] - passed + tags_in(piece.first + piece.second),
    }
}

// How much is kept: the tags between those that are listed are not looked at, their places and numbers tell all.
fn kept_size(table: &[u8], at: usize, walk: Walk, sheet: &[u8], list: &[usize]) -> Size
    requires { Leads table.now at 0 walk sheet.now list.now 0 }
    ensures { (result ≡ size_of (kept_from table.now at walk.tags sheet.now walk.changes)) × (result.tags ≤ 1000) × (result.bytes ≤ 512000) }
{
    let mut place = at;
    let mut passed = 0;
    let mut tags = 0;
    let mut bytes = 0;
    for k in 0..list.len() / 3 {
        let part = part_at(table, place, passed, walk, sheet, list, 3 * k);
        tags += part.tags;
        bytes += part.piece.first + part.piece.second;
        place = part.piece.end;
        passed = list[3 * k] + 1;
    }
    Size {
        tags: tags + (walk.tags - passed),
        bytes: bytes + (walk.end - place),
    }
}

// How much the changes add, as many as `places` has places.
fn new_size(sheet: &[u8], places: &[usize]) -> Size
    requires { length places.now ≤ 64 }
    ensures { (result ≡ size_of (added_by side.New sheet.now sheet.now 1 places.now)) × (result.tags ≤ length places.now) × (result.bytes ≤ 512 * length places.now) }
{
    let mut place = 1;
    let mut tags = 0;
    let mut bytes = 0;
    for tag in places {
        let Some(piece) = pieces::piece_at(Side::New, sheet, place, sheet, *tag) else {
            return Size { tags, bytes };
        };
        let more = piece.first + piece.second;
        tags += tags_in(more);
        bytes += more;
        place = piece.end;
    }
    Size { tags, bytes }
}

// Stores a piece, which is all there and has room; where it ends.
fn put_piece(
    from: &[u8],
    place: usize,
    sheet: &[u8],
    piece: Piece,
    out: &mut [u8],
    to: usize,
) -> usize
    requires { (place + piece.first ≤ length from.now) × (piece.value + piece.second ≤ length sheet.now) × (to + (piece.first + piece.second) ≤ length out.old) }
    ensures { (result ≡ to + (piece.first + piece.second)) × (out.new ≡ sets out.old to (piece_bytes from.now place sheet.now piece.first piece.value piece.second)) }
{
    parts::copy(from, place, out, to, piece.first);
    parts::copy(sheet, piece.value, out, to + piece.first, piece.second);
    to + (piece.first + piece.second)
}

// Writes what is kept; where that ends.
fn write_kept(
    table: &[u8],
    at: usize,
    walk: Walk,
    sheet: &[u8],
    list: &[usize],
    out: &mut [u8],
    start: usize,
) -> usize
    requires { Leads table.now at 0 walk sheet.now list.now 0 × (start + length (flat_map tag_bytes (kept_from table.now at walk.tags sheet.now walk.changes)) ≤ length out.old) }
    ensures { Written result out.old out.new start (flat_map tag_bytes (kept_from table.now at walk.tags sheet.now walk.changes)) }
{
    let mut place = at;
    let mut passed = 0;
    let mut to = start;
    for k in 0..list.len() / 3 {
        let part = part_at(table, place, passed, walk, sheet, list, 3 * k);
        to = put_piece(table, place, sheet, part.piece, out, to);
        place = part.piece.end;
        passed = list[3 * k] + 1;
    }
    let last = Piece {
        first: walk.end - place,
        value: 0,
        second: 0,
        end: walk.end,
    };
    put_piece(table, place, sheet, last, out, to)
}

// Writes what the changes add; where that ends.
fn write_new(sheet: &[u8], places: &[usize], out: &mut [u8], start: usize) -> usize
    requires { start + length (flat_map tag_bytes (added_by side.New sheet.now sheet.now 1 places.now)) ≤ length out.old }
    ensures { Written result out.old out.new start (flat_map tag_bytes (added_by side.New sheet.now sheet.now 1 places.now)) }
{
    let mut place = 1;
    let mut to = start;
    for tag in places {
        let Some(piece) = pieces::piece_at(Side::New, sheet, place, sheet, *tag) else {
            return to;
        };
        to = put_piece(sheet, place, sheet, piece, out, to);
        place = piece.end;
    }
    to
}

// Writes the new table: its number of tags, what is kept, what is new.
fn write_table(
    table: &[u8],
    at: usize,
    walk: Walk,
    sheet: &[u8],
    list: &[usize],
    places: &[usize],
    out: &mut [u8],
    tags: u64,
)
    requires { Leads table.now at 0 walk sheet.now list.now 0 × Room (kept_from table.now at walk.tags sheet.now walk.changes) (added_by side.New sheet.now sheet.now 1 places.now) out.old }
    ensures { out.new ≡ sets out.old 0 (bytes_of 4 tags ++ (flat_map tag_bytes (kept_from table.now at walk.tags sheet.now walk.changes) ++ flat_map tag_bytes (added_by side.New sheet.now sheet.now 1 places.now))) }
{
    number::write(out, 0, 4, tags);
    let end = write_kept(table, at, walk, sheet, list, out, 4);
    write_new(sheet, places, out, end);
}

// The new user table, where its tags are not too many and it has room; nothing is written before that is known.
fn apply_list(
    table: &[u8],
    at: usize,
    walk: Walk,
    sheet: &[u8],
    list: &[usize],
    places: &[usize],
    out: &mut [u8],
) -> Result<usize, Refusal>
    requires { (length places.now ≤ 64) × Leads table.now at 0 walk sheet.now list.now 0 }
    ensures { applying result out.new ≡ applied_to (tags_by table.now at walk sheet.now places.now) out.old }
{
    let kept = kept_size(table, at, walk, sheet, list);
    let new = new_size(sheet, places);
    let tags = kept.tags + new.tags;
    if Header::MOST_TAGS < tags {
        return Err(Refusal::TableFull);
    }
    let bytes = 4 + kept.bytes + new.bytes;
    if out.len() < bytes {
        return Err(Refusal::NoRoom);
    }
    write_table(table, at, walk, sheet, list, places, out, tags as u64);
    Ok(bytes)
}

// The length of the new user table. `list` has the tags that changes name, as a walk of the table from `at` on finds them; `places` has for each change where
// its tag stands in the table, or 0.
pub fn apply(
    table: &[u8],
    at: usize,
    walk: Walk,
    sheet: &[u8],
    list: &[usize],
    places: &[usize],
    out: &mut [u8],
) -> Result<usize, Refusal>
    requires { (length places.now ≤ 64) × (walk.words ≤ length list.now) × Leads table.now at 0 walk sheet.now (take walk.words list.now) 0 }
    ensures { applying result out.new ≡ applied_to (tags_by table.now at walk sheet.now places.now) out.old }
{
    let words = walk.words;
    apply_list(table, at, walk, sheet, &list[..words], places, out)
}
