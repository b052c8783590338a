// The names of rows: the row that has one, and whether no two are equal.
#![tactic(auto, using(crate::proofs::Laws::laws, crate::proofs::Ordered::laws))]

ghost use Rattle.std.specs.Prelude.{◌≡◌, ◌+◌, ◌≤◌, length, take, drop};
ghost use Rattle.layout.specs.Recording.{same};
ghost use Rattle.names.specs.Names.{find_name, distinct_names};

use header::Header;
use rows::Row;

// From so many rows on their names are marked.
pub const MARKED: usize = 12;

// How many names are looked for in vain: of a thousand usual ones, on average, not one.
const MOST_SEARCHES: usize = 2;

// The first row with a name: its number and its place.
#[derive(Clone, Copy, Debug, PartialEq, Eq)]
pub struct NameFound {
    pub number: usize,
    pub place: usize,
}

// Whether two names that are there are equal: lengths first, then bytes.
fn same_name(a: &[u8], here: usize, len: usize, b: &[u8], there: usize, other: usize) -> bool
    requires { (here + len ≤ length a.now) × (there + other ≤ length b.now) }
    ensures { result ≡ same (take len (drop here a.now)) (take other (drop there b.now)) }
{
    if len != other {
        return false;
    }
    parts::equal(a, here, b, there, len)
}

// The first of n rows of `s` with the name of `len` bytes that stands in `a`.
pub fn find_name(
    a: &[u8],
    here: usize,
    len: usize,
    s: &[u8],
    at: usize,
    n: usize,
    row: Row,
) -> Option<NameFound>
    ensures { result ≡ find_name a.now here len s.now at n row }
{
    if a.len() < len {
        return None;
    }
    if a.len() - len < here {
        return None;
    }
    let mut place = at;
    for number in 0..n {
        let found = rows::row_at(s, place, row)?;
        if same_name(a, here, len, s, place + 1, found.name) {
            return Some(NameFound { number, place });
        }
        place = found.end;
    }
    None
}

// "no two are equal": each name is looked for among the later ones.
fn differ_by_search(s: &[u8], at: usize, n: usize, row: Row) -> bool
    ensures { result ≡ distinct_names s.now at n row }
{
    let mut place = at;
    for left in (0..n).rev() {
        let Some(found) = rows::row_at(s, place, row) else {
            return true;
        };
        let later = find_name(s, place + 1, found.name, s, found.end, left, row);
        if later.is_some() {
            return false;
        }
        place = found.end;
    }
    true
}

// The same answer in a time that no choice of names drives up: the places of the rows passed are kept in the order of their names, and the seat of each
// name among them is found by halves.
fn differ_by_order(s: &[u8], at: usize, n: usize, row: Row) -> bool
    ensures { result ≡ distinct_names s.now at n row }
{
    if Header::MOST_TAGS < n {
        return differ_by_search(s, at, n, row);
    }
    let mut places = [0; Header::MOST_TAGS];
    let mut place = at;
    for passed in 0..n {
        let Some(found) = rows::row_at(s, place, row) else {
            return true;
        };
        let Some(seat) = order::seek(s, &places, passed, place) else {
            return false;
        };
        order::insert(&mut places, passed, seat, place);
        place = found.end;
    }
    true
}

// The same answer as by search, in time that grows with the rows alone: each name is marked, and looked for only where its mark was set before. Names
// that differ seldom share a mark: where they do so again and again, they were chosen for that, and the order of names decides.
fn differ_by_marks(s: &[u8], at: usize, n: usize, row: Row) -> bool
    ensures { result ≡ distinct_names s.now at n row }
{
    let mut marked = [0; marks::MARKS];
    let mut place = at;
    let mut searches = 0;
    for passed in 0..n {
        let Some(found) = rows::row_at(s, place, row) else {
            return true;
        };
        let mark = marks::mark_of(s, place + 1, found.name);
        if marks::marked(&marked, mark) {
            if searches == MOST_SEARCHES {
                return differ_by_order(s, at, n, row);
            }
            searches += 1;
            let earlier = find_name(s, place + 1, found.name, s, at, passed, row);
            if earlier.is_some() {
                return false;
            }
        }
        marks::mark(&mut marked, mark);
        place = found.end;
    }
    true
}

// "no two are equal": for few rows a search costs less than clearing the marks.
pub fn distinct_names(s: &[u8], at: usize, n: usize, row: Row) -> bool
    ensures { result ≡ distinct_names s.now at n row }
{
    if n < MARKED {
        return differ_by_search(s, at, n, row);
    }
    differ_by_marks(s, at, n, row)
}
