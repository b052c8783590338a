// The converter of sheets from before "nobody looked" was withdrawn: "writes it with kind 0 or 1 filled in from that file, all other changes as they were".
#![tactic(auto, using(crate::proofs::Sizes::laws, crate::proofs::Stores::laws, crate::proofs::Answered::laws))]

ghost use Rattle.std.specs.Prelude.{◌≡◌, ◌+◌, ◌-◌, ◌≤◌, length};
ghost use Rattle.layout.specs.Saving.{entry_part_bytes};
ghost use Rattle.sheet.specs.Rows.{tag_entry};
ghost use Rattle.apply.specs.Applied.{applying, Written};
ghost use Rattle.saving.specs.Begun.{Legal, Begun};
ghost use Rattle.converting.specs.Filling.{row_filled, filled_from, sheet_filled, Old};
ghost use Rattle.converting.specs.Answers.{converted_in, convert_of};

use header::Header;
use refusal::Refusal;
use rows::{Row, RowPlace};
use saving::Asked;

// ── How long the new sheet is ──

// The number of bytes of an entry that the tag at a place holds: a kind and, where there is a tag, its value.
fn seen_size(table: &[u8], tag: usize) -> usize
    ensures { (result ≡ length (entry_part_bytes (tag_entry table.now tag))) × (result ≤ 257) }
{
    let Some(held) = sheet::held_value(table, tag) else {
        return 1;
    };
    2 + held.length
}

// The number of bytes of the change at a place, whose row was read.
fn row_size(table: &[u8], sheet: &[u8], place: usize, row: RowPlace, tag: usize) -> usize
    requires { (place + 1 + row.name + 1 ≤ row.end) × (row.end ≤ length sheet.now) × (length sheet.now ≤ 49281) }
    ensures { (result ≡ length (row_filled table.now sheet.now place row.name row.end tag)) × (result ≤ row.end - place + 256) }
{
    if sheet[place + 1 + row.name] == 2 {
        return row.end - place - 1 + seen_size(table, tag);
    }
    row.end - place
}

// The number of bytes of the new sheet. `places` has for each change where its tag stands in the table, or 0.
fn filled_size(table: &[u8], sheet: &[u8], places: &[usize]) -> usize
    requires { (1 ≤ length sheet.now) × (length sheet.now ≤ 49281) × (length places.now ≤ 64) }
    ensures { result ≡ length (sheet_filled table.now sheet.now places.now) }
{
    let mut bytes = 1;
    let mut place = 1;
    for tag in places {
        let Some(row) = rows::row_at(sheet, place, Row::Change) else {
            return bytes;
        };
        bytes += row_size(table, sheet, place, row, *tag);
        place = row.end;
    }
    bytes
}

// ── To write it ──

// Writes the entry that the tag at a place holds; where it ends.
fn put_seen(table: &[u8], tag: usize, out: &mut [u8], to: usize) -> usize
    requires { to + length (entry_part_bytes (tag_entry table.now tag)) ≤ length out.old }
    ensures { Written result out.old out.new to (entry_part_bytes (tag_entry table.now tag)) }
{
    let Some(held) = sheet::held_value(table, tag) else {
        number::write(out, to, 1, 0);
        return to + 1;
    };
    number::write(out, to, 1, 1);
    let length = 1 + held.length;
    parts::copy(table, held.place, out, to + 1, length);
    to + 1 + length
}

// Writes the change at a place, whose row was read; where it ends.
fn put_row(
    table: &[u8],
    sheet: &[u8],
    place: usize,
    row: RowPlace,
    tag: usize,
    out: &mut [u8],
    to: usize,
) -> usize
    requires { (place + 1 + row.name + 1 ≤ row.end) × (row.end ≤ length sheet.now) × (to + length (row_filled table.now sheet.now place row.name row.end tag) ≤ length out.old) }
    ensures { Written result out.old out.new to (row_filled table.now sheet.now place row.name row.end tag) }
{
    let seen = place + 1 + row.name;
    if sheet[seen] == 2 {
        parts::copy(sheet, place, out, to, 1 + row.name);
        let next = put_seen(table, tag, out, to + (1 + row.name));
        parts::copy(sheet, seen + 1, out, next, row.end - (seen + 1));
        return next + (row.end - (seen + 1));
    }
    parts::copy(sheet, place, out, to, row.end - place);
    to + (row.end - place)
}

// Writes the changes from a place of the output on; where they end.
fn write_changes(
    table: &[u8],
    sheet: &[u8],
    places: &[usize],
    out: &mut [u8],
    start: usize,
) -> usize
    requires { start + length (filled_from table.now sheet.now 1 places.now) ≤ length out.old }
    ensures { Written result out.old out.new start (filled_from table.now sheet.now 1 places.now) }
{
    let mut to = start;
    let mut place = 1;
    for tag in places {
        let Some(row) = rows::row_at(sheet, place, Row::Change) else {
            return to;
        };
        to = put_row(table, sheet, place, row, *tag, out, to);
        place = row.end;
    }
    to
}

// Writes the new sheet, its number of changes and the changes; where it ends.
fn write_sheet(table: &[u8], sheet: &[u8], places: &[usize], out: &mut [u8]) -> usize
    requires { (1 ≤ length sheet.now) × (length (sheet_filled table.now sheet.now places.now) ≤ length out.old) }
    ensures { Written result out.old out.new 0 (sheet_filled table.now sheet.now places.now) }
{
    parts::copy(sheet, 0, out, 0, 1);
    write_changes(table, sheet, places, out, 1)
}

// ── To convert ──

// The length of the new sheet, where it has room; nothing is written before that is known. `list` has room for the tags of all changes, `places` has a place for
// each change.
fn fill_changes(
    table: &[u8],
    at: usize,
    n: usize,
    sheet: &[u8],
    list: &mut [usize],
    places: &mut [usize],
    out: &mut [u8],
) -> Result<usize, Refusal>
    requires { Begun table.now at n sheet.now list.old places.old × Old sheet.now (length places.old) }
    ensures { applying result out.new ≡ converted_in table.now at n sheet.now out.old }
{
    places::place_tags(table, at, n, sheet, list, places);
    if out.len() < filled_size(table, sheet, places) {
        return Err(Refusal::NoRoom);
    }
    Ok(write_sheet(table, sheet, places, out))
}

// The same with places for the changes, and a list for their tags.
fn convert_changes(
    file: &[u8],
    asked: Asked,
    sheet: &[u8],
    out: &mut [u8],
) -> Result<usize, Refusal>
    requires { Legal file.now asked.at asked.tags sheet.now asked.changes × Old sheet.now asked.changes }
    ensures { applying result out.new ≡ converted_in file.now asked.at asked.tags sheet.now out.old }
{
    let mut list = [0; places::WORDS];
    let mut places = [0; Header::MOST_CHANGES];
    let lent = &mut places[..asked.changes];
    fill_changes(file, asked.at, asked.tags, sheet, &mut list, lent, out)
}

// "The converter tests 1 to 7, then 10 for any other fault, then 9." The answer is the sheet with what the file's user table has for each tag that nobody looked
// at: its length; the place of a refusal is in the file for 3, 4 and 7 and in the sheet for 10.
pub fn convert(file: &[u8], sheet: &[u8], out: &mut [u8]) -> Result<usize, Refusal>
    ensures { applying result out.new ≡ convert_of file.now sheet.now out.old }
{
    let asked = saving::asked_of(file, sheet, sheet::MOST_SEEN_BEFORE)?;
    convert_changes(file, asked, sheet, out)
}
