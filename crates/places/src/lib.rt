// Where the tags that a sheet names stand in a table, and where the changes that name a tag stand in the sheet.
#![tactic(auto, using(crate::proofs::Walks::laws, crate::proofs::Searches::laws))]

ghost use Rattle.std.specs.Prelude.{◌≡◌, [], ◌∷◌, map, ◌+◌, ◌≤◌, length, drop, set};
ghost use Rattle.std.proofs.lemmas.List.Edits.{sets};
ghost use Rattle.marks.specs.Marks.{mark_for};
ghost use Rattle.layout.specs.Recording.{among};
ghost use Rattle.rows.specs.Rows.{row_name};
ghost use Rattle.names.specs.Names.{names};
ghost use Rattle.places.specs.Places.{noted, walked_to, change_found, change_names_at, all_marked, changes_from, Marked, words_for, listed_to, placing, placed_by};

use header::Header;
use names::NameFound;
use rows::Row;

// How many words a list has room for, so that it holds the tags of as many changes as a sheet has.
pub const WORDS: usize = 192;

// A change of the sheet: the mark of its name, and where it starts.
#[derive(Clone, Copy)]
struct Change {
    mark: usize,
    place: usize,
}

// A sheet with its whole changes and the marks of their names: a tag whose name is not marked needs no search.
#[derive(Clone, Copy)]
struct Sheet<'a> {
    bytes: &'a [u8],
    filter: &'a [u64],
    changes: &'a [Change],
}

// Stores a word, where there is room for it.
fn store(list: &mut [usize], at: usize, word: usize)
    ensures { list.new ≡ set list.old at word }
{
    if at < list.len() {
        list[at] = word;
    }
}

// Lists a tag for which a change was found: its number, its place, and the place of the change. Where the list ends then.
fn list_tag(
    list: &mut [usize],
    at: usize,
    found: Option<NameFound>,
    number: usize,
    tag: usize,
) -> usize
    requires { at ≤ 192 }
    ensures { (result ≡ at + length (words_for found number tag)) × (list.new ≡ sets list.old at (words_for found number tag)) }
{
    let Some(change) = found else {
        return at;
    };
    store(list, at, number);
    store(list, at + 1, tag);
    store(list, at + 2, change.place);
    at + 3
}

// Notes for the change that was found where its tag stands: the first one.
fn note(places: &mut [usize], found: Option<NameFound>, tag: usize)
    ensures { places.new ≡ noted places.old found tag }
{
    let Some(change) = found else {
        return;
    };
    if places.len() <= change.number {
        return;
    }
    if places[change.number] == 0 {
        places[change.number] = tag;
    }
}

// Marks the names of the sheet, so that a tag whose name is not marked needs no search; for each change, stores the mark of its name and where it starts.
// How many of the changes are whole.
fn mark_names(sheet: &[u8], count: usize, filter: &mut [u64], changes: &mut [Change]) -> usize
    requires { count ≤ length changes.old }
    ensures { (result ≡ length (changes_from count sheet.now 1)) × (filter.new ≡ all_marked (change_names_at sheet.now count) filter.old) × (changes.new ≡ sets changes.old 0 (changes_from count sheet.now 1)) }
{
    let mut place = 1;
    for passed in 0..count {
        let Some(row) = rows::row_at(sheet, place, Row::Change) else {
            return passed;
        };
        let mark = marks::mark_of(sheet, place + 1, row.name);
        marks::mark(filter, mark);
        changes[passed] = Change { mark, place };
        place = row.end;
    }
    count
}

// Whether a change has a name. Names with other marks are not compared.
fn is_named(name: &[u8], mark: usize, sheet: &[u8], change: Change) -> bool
    requires { (mark ≡ mark_for name.now) × (map mark_for (names 1 (row_name Row.Change) (drop change.place sheet.now)) ≡ change.mark ∷ []) }
    ensures { result ≡ among name.now (names 1 (row_name Row.Change) (drop change.place sheet.now)) }
{
    if change.mark != mark {
        return false;
    }
    let found = names::find_name(name, 0, name.len(), sheet, change.place, 1, Row::Change);
    found.is_some()
}

// The change with a name, by the marks and the places of all changes: no row is read but to compare its name.
fn search_changes(name: &[u8], mark: usize, sheet: Sheet<'_>) -> Option<NameFound>
    requires { (mark ≡ mark_for name.now) × Marked sheet.bytes.now sheet.filter.now sheet.changes.now }
    ensures { result ≡ change_found sheet.entry.bytes.now (length sheet.entry.changes.now) name.now }
{
    for (number, change) in sheet.changes.iter().enumerate() {
        if is_named(name, mark, sheet.bytes, *change) {
            return Some(NameFound {
                number,
                place: change.place,
            });
        }
    }
    None
}

// The change with a name.
fn find_change(name: &[u8], sheet: Sheet<'_>) -> Option<NameFound>
    requires { Marked sheet.bytes.now sheet.filter.now sheet.changes.now }
    ensures { result ≡ change_found sheet.entry.bytes.now (length sheet.entry.changes.now) name.now }
{
    let mark = marks::mark_of(name, 0, name.len());
    if !marks::marked(sheet.filter, mark) {
        return None;
    }
    search_changes(name, mark, sheet)
}

// Walks the table once for all changes, until each has its tag: lists the tags that they name, and notes for each change where its tag stands. How many words
// are listed.
fn find_tags(
    table: &[u8],
    at: usize,
    n: usize,
    sheet: Sheet<'_>,
    list: &mut [usize],
    places: &mut [usize],
) -> usize
    requires { (length sheet.changes.now ≤ 64) × Marked sheet.bytes.now sheet.filter.now sheet.changes.now }
    ensures { (result ≡ length (listed_to (change_found sheet.entry.bytes.now (length sheet.entry.changes.now)) (length sheet.entry.changes.now) n table.now at 0)) × (list.new ≡ sets list.old 0 (listed_to (change_found sheet.entry.bytes.now (length sheet.entry.changes.now)) (length sheet.entry.changes.now) n table.now at 0)) × (places.new ≡ walked_to (change_found sheet.entry.bytes.now (length sheet.entry.changes.now)) (length sheet.entry.changes.now) n table.now at places.old) }
{
    let mut place = at;
    let mut words = 0;
    for passed in 0..n {
        if words == 3 * sheet.changes.len() {
            return words;
        }
        let Some(row) = rows::row_at(table, place, Row::Tag) else {
            return words;
        };
        let start = place + 1;
        let found = find_change(&table[start..start + row.name], sheet);
        words = list_tag(list, words, found, passed, place);
        note(places, found, place);
        place = row.end;
    }
    words
}

// Of n tags of the table, from `at` on, lists those that changes name, in the table's order, as far as `list` has room; for as many changes as `places` has,
// where the tag of each stands in the table; 0 for none. It ends with as many tags as there are changes: no two tags of a table have one name. How many words
// are listed. A list of words and places with 0 for none are what is lent: place 0 is no tag's, and an Option would take twice the memory.
pub fn place_tags(
    table: &[u8],
    at: usize,
    n: usize,
    sheet: &[u8],
    list: &mut [usize],
    places: &mut [usize],
) -> usize
    ensures { placing result list.new places.new ≡ placed_by table.now at n sheet.now list.old places.old }
{
    if Header::MOST_CHANGES < places.len() {
        return 0;
    }
    let mut filter = [0; marks::MARKS];
    let mut changes = [Change { mark: 0, place: 0 }; Header::MOST_CHANGES];
    let whole = mark_names(sheet, places.len(), &mut filter, &mut changes);
    let marked = Sheet {
        bytes: sheet,
        filter: &filter,
        changes: &changes[..whole],
    };
    find_tags(table, at, n, marked, list, places)
}
