// The first fault of rows that begin with a name: of a table's tags, a sheet's changes, a set-up list's sections or a file's definitions. Asked where
// they are refused: a second walk, front to back, which passes on the place where a short string broke.
#![tactic(auto, using(crate::proofs::Laws::laws, crate::proofs::Laws::offsets, crate::proofs::Laws::counts, crate::proofs::Kept::laws))]

ghost use Rattle.std.specs.Prelude.{◌≡◌, [], ◌+◌, ◌≤◌, length, drop};
ghost use Rattle.layout.specs.Opening.{offset_behind};
ghost use Rattle.layout.specs.Reading.{rows_fault, keeping, tag_value, ◌then◌};
ghost use Rattle.layout.specs.Recorder.{configured};
ghost use Rattle.layout.specs.Saving.{entry_part};
ghost use Rattle.rows.specs.Rows.{entry_up_to};
ghost use Rattle.faults.specs.Faults.{rule_of, entry_by, name_by, rest_by, rest_of, row_passed, count_of, first_fault};

use header::Header;
use parts::Fault;
use rows::Row;
use strings::Rule;

// The rule of the names of a kind of row.
fn name_rule(row: Row) -> Rule
    ensures { result ≡ rule_of row }
{
    match row {
        Row::Definition | Row::SetUp => Rule::SectionName,
        Row::Tag | Row::Change => Rule::TagName,
    }
}

// ── What follows a name ──

// Where it ends, and a number for the row behind it.
#[derive(Clone, Copy, Debug, PartialEq, Eq)]
struct Rest {
    end: usize,
    number: usize,
}

// The offset of a configuration, behind the one ahead of it.
fn offset_at(s: &[u8], at: usize, before: usize) -> Result<Rest, Fault>
    requires { at ≤ length s.now }
    ensures { result ≡ rest_of at (offset_behind before (drop at s.now)) }
{
    if s.len() - at < 8 {
        return Err(Fault { place: at });
    }
    let offset = number::read(s, at, 8) as usize;
    if offset < before {
        return Err(Fault { place: at });
    }
    if Header::LONGEST_CONFIGURATION < offset - before {
        return Err(Fault { place: at });
    }
    Ok(Rest {
        end: at + 8,
        number: offset,
    })
}

// A configuration in a set-up list: its length, and its bytes.
fn configuration_at(s: &[u8], at: usize, before: usize) -> Result<Rest, Fault>
    requires { at ≤ length s.now }
    ensures { result ≡ rest_of at (keeping configured before (drop at s.now)) }
{
    if s.len() - at < 2 {
        return Err(Fault { place: at });
    }
    let n = number::read(s, at, 2) as usize;
    let start = at + 2;
    if s.len() - start < n {
        return Err(Fault { place: start });
    }
    Ok(Rest {
        end: start + n,
        number: before,
    })
}

fn value_at(s: &[u8], at: usize, before: usize) -> Result<Rest, Fault>
    ensures { result ≡ rest_of at (keeping tag_value before (drop at s.now)) }
{
    let n = strings::read(s, at, Rule::TagValue)?;
    Ok(Rest {
        end: at + 1 + n,
        number: before,
    })
}

// An entry of a change: a kind up to `most` and, for kind 1, a value.
fn entry_at(s: &[u8], at: usize, most: usize, before: usize) -> Result<Rest, Fault>
    ensures { result ≡ rest_of at (entry_by most before (drop at s.now)) }
{
    let Some(first) = s.get(at) else {
        return Err(Fault { place: at });
    };
    let kind = *first as usize;
    if most < kind {
        return Err(Fault { place: at });
    }
    if kind == 1 {
        return value_at(s, at + 1, before);
    }
    Ok(Rest {
        end: at + 1,
        number: before,
    })
}

// What was seen, of which `most` is the greatest kind, and what is new.
fn entries_at(s: &[u8], at: usize, most: usize) -> Result<Rest, Fault>
    ensures { result ≡ rest_of at (keeping (entry_up_to most then λ seen. entry_part) most (drop at s.now)) }
{
    let seen = entry_at(s, at, most, most)?;
    entry_at(s, seen.end, 1, seen.number)
}

fn rest_at(s: &[u8], at: usize, row: Row, before: usize) -> Result<Rest, Fault>
    requires { at ≤ length s.now }
    ensures { result ≡ rest_of at (rest_by row before (drop at s.now)) }
{
    match row {
        Row::Definition => offset_at(s, at, before),
        Row::SetUp => configuration_at(s, at, before),
        Row::Tag => value_at(s, at, before),
        Row::Change => entries_at(s, at, before),
    }
}

// ── A row, behind others ──

// The row's seat among those ahead, where it ends, and a number for the row behind it.
#[derive(Clone, Copy, Debug, PartialEq, Eq)]
struct Passed {
    seat: usize,
    end: usize,
    number: usize,
}

// The name, then whether it is used twice: the places of the rows ahead stand in the order of their names, and then the rest.
fn row_passed(
    s: &[u8],
    places: &[usize],
    passed: usize,
    place: usize,
    row: Row,
    before: usize,
) -> Result<Passed, Fault>
    ensures { result ≡ row_passed s.now places.now passed place row before }
{
    let name = strings::read(s, place, name_rule(row))?;
    let Some(seat) = order::seek(s, places, passed, place) else {
        return Err(Fault { place });
    };
    let rest = rest_at(s, place + 1 + name, row, before)?;
    Ok(Passed {
        seat,
        end: rest.end,
        number: rest.number,
    })
}

// The first fault of n rows; behind them where there is none.
fn rows_fault(s: &[u8], at: usize, n: usize, row: Row, before: usize) -> usize
    requires { n ≤ 1000 }
    ensures { result ≡ at + rows_fault n (name_by row) (rest_by row) before [] (drop at s.now) }
{
    let mut places = [0; Header::MOST_TAGS];
    let mut place = at;
    let mut ahead = before;
    for passed in 0..n {
        match row_passed(s, &places, passed, place, row, ahead) {
            Ok(next) => {
                order::insert(&mut places, passed, next.seat, place);
                place = next.end;
                ahead = next.number;
            }
            Err(fault) => return fault.place,
        }
    }
    place
}

// ── Rows behind their number ──

// How the number of rows of a kind is written, and between which it lies.
#[derive(Clone, Copy, Debug, PartialEq, Eq)]
struct Count {
    width: usize,
    least: usize,
    most: usize,
}

fn count_of(row: Row) -> Count
    ensures { result ≡ count_of row }
{
    match row {
        Row::Definition | Row::SetUp => Count {
            width: 1,
            least: 1,
            most: Header::MOST_SECTIONS,
        },
        Row::Tag => Count {
            width: 4,
            least: 0,
            most: Header::MOST_TAGS,
        },
        Row::Change => Count {
            width: 1,
            least: 0,
            most: Header::MOST_CHANGES,
        },
    }
}

// Where the first fault is of rows that stand behind their number from a place on, and of nothing behind them. What follows a definition's name goes by
// `before`, the offset ahead of it; what follows a change's name, by the greatest kind of what was seen.
pub fn first_fault(s: &[u8], at: usize, row: Row, before: usize) -> usize
    ensures { result ≡ at + first_fault row before (drop at s.now) }
{
    let count = count_of(row);
    if s.len() <= at {
        return at;
    }
    if s.len() - at < count.width {
        return at;
    }
    let n = number::read(s, at, count.width) as usize;
    if n < count.least {
        return at;
    }
    if count.most < n {
        return at;
    }
    rows_fault(s, at + count.width, n, row, before)
}
