// The look: whether the seen entries of a sheet agree with a table.
#![tactic(auto, using(crate::proofs::Looks::laws))]

ghost use Rattle.std.specs.Prelude.{◌≡◌, ◌+◌, ◌<◌, length, take, drop};
ghost use Rattle.layout.specs.Saving.{same_entry};
ghost use Rattle.sheet.specs.Rows.{change_with_name, tag_entry};
ghost use Rattle.sheet.specs.Values.{value_in, Stands};
ghost use Rattle.look.specs.Look.{differs, with_bit, compare_of};

use rows::Row;
use sheet::Value;

// Whether two values are the same, or both are absent.
fn same_value(a: &[u8], one: Option<Value>, b: &[u8], other: Option<Value>) -> bool
    requires { Stands a.now one × Stands b.now other }
    ensures { result ≡ same_entry (value_in a.now one) (value_in b.now other) }
{
    let Some(here) = one else {
        return other.is_none();
    };
    let Some(there) = other else {
        return false;
    };
    if here.length != there.length {
        return false;
    }
    parts::equal(a, here.place + 1, b, there.place + 1, here.length)
}

// Whether what a change saw is not what the tag at a place holds.
fn disagrees(sheet: &[u8], place: usize, len: usize, table: &[u8], tag: usize) -> bool
    requires { place + 1 + len < length sheet.now }
    ensures { result ≡ differs (tag_entry table.now tag) (change_with_name (take len (drop (place + 1) sheet.now)) (drop (place + 1 + len) sheet.now)) }
{
    let seen = sheet::entry_value(sheet, place + 1 + len);
    let held = sheet::held_value(table, tag);
    !same_value(sheet, seen, table, held)
}

// The set with the bit of a change, where that conflicts.
fn with_bit(set: u64, bit: u64, conflicts: bool) -> u64
    ensures { result ≡ with_bit set bit conflicts }
{
    if conflicts {
        return set.wrapping_add(bit);
    }
    set
}

// "All seen entries are compared with the table before the save." Which of them disagree: a set with a bit for each change, the first one's lowest, and none
// for those behind the 64th. `places` has for each change where its tag stands, or 0.
pub fn compare(table: &[u8], sheet: &[u8], places: &[usize]) -> u64
    ensures { result ≡ compare_of table.now sheet.now places.now }
{
    let mut set: u64 = 0;
    let mut bit: u64 = 1;
    let mut place = 1;
    for tag in places {
        let Some(row) = rows::row_at(sheet, place, Row::Change) else {
            return set;
        };
        let conflicts = disagrees(sheet, place, row.name, table, *tag);
        set = with_bit(set, bit, conflicts);
        bit = bit.wrapping_add(bit);
        place = row.end;
    }
    set
}
