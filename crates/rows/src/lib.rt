// Rows that begin with a name, over lent bytes, by their length bytes alone.
#![tactic(auto, using(crate::proofs::Laws::laws))]

ghost use Rattle.std.specs.Prelude.{◌≡◌, ◌≤◌, length, drop};
ghost use Rattle.layout.specs.Reading.{string, number, block, ◌then◌, times};
ghost use Rattle.parts.specs.Parts.{end_of};
ghost use Rattle.rows.specs.Rows.{entry, rest, row_name, row_of};

// What stands in rows that begin with a name.
#[derive(Clone, Copy, Debug, PartialEq, Eq)]
pub enum Row {
    Definition,
    SetUp,
    Tag,
    Change,
}

// A row: the number of bytes of its name, and where it ends.
#[derive(Clone, Copy, Debug, PartialEq, Eq)]
pub struct RowPlace {
    pub name: usize,
    pub end: usize,
}

fn block_end(s: &[u8], at: usize, n: usize) -> Option<usize>
    requires { at ≤ length s.now }
    ensures { result ≡ end_of at (block n (drop at s.now)) }
{
    if s.len() - at < n {
        return None;
    }
    Some(at + n)
}

fn string_end(s: &[u8], at: usize) -> Option<usize>
    ensures { result ≡ end_of at (string (drop at s.now)) }
{
    let n = strings::string(s, at)?;
    Some(at + 1 + n)
}

// A configuration in a set-up list: a UInt16 and that many bytes.
fn sized_end(s: &[u8], at: usize) -> Option<usize>
    requires { at ≤ length s.now }
    ensures { result ≡ end_of at ((number 2 then block) (drop at s.now)) }
{
    if s.len() - at < 2 {
        return None;
    }
    let n = number::read(s, at, 2);
    block_end(s, at + 2, n as usize)
}

// An entry of a change: its kind and, for kind 1, a value.
pub fn entry_end(s: &[u8], at: usize) -> Option<usize>
    ensures { result ≡ end_of at (entry (drop at s.now)) }
{
    if *s.get(at)? == 1 {
        return string_end(s, at + 1);
    }
    Some(at + 1)
}

// What was seen, and what is new.
fn entries_end(s: &[u8], at: usize) -> Option<usize>
    ensures { result ≡ end_of at ((entry then λ seen. entry) (drop at s.now)) }
{
    let next = entry_end(s, at)?;
    entry_end(s, next)
}

// What follows the name.
fn rest_end(s: &[u8], at: usize, row: Row) -> Option<usize>
    requires { at ≤ length s.now }
    ensures { result ≡ end_of at (rest row (drop at s.now)) }
{
    match row {
        Row::Definition => block_end(s, at, 8),
        Row::SetUp => sized_end(s, at),
        Row::Tag => string_end(s, at),
        Row::Change => entries_end(s, at),
    }
}

// A row by its length bytes, whatever its bytes.
pub fn row_at(s: &[u8], at: usize, row: Row) -> Option<RowPlace>
    ensures { result ≡ row_of at (row_name row (drop at s.now)) }
{
    let name = strings::string(s, at)?;
    let end = rest_end(s, at + 1 + name, row)?;
    Some(RowPlace { name, end })
}

// Where row number i starts, behind the rows ahead of it.
pub fn row_start(s: &[u8], at: usize, i: usize, row: Row) -> Option<usize>
    ensures { result ≡ end_of at (times i (row_name row) (drop at s.now)) }
{
    let mut place = at;
    for _ in 0..i {
        place = row_at(s, place, row)?.end;
    }
    Some(place)
}
