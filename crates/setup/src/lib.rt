// Set-up lists and system tables as a recording is begun with them: what is wrong with one.
#![tactic(auto, using(crate::proofs::SetUp::laws, crate::proofs::Stops::laws, crate::proofs::Refused::laws), unfolding(layout::specs::Opening::first_of, layout::specs::Recorder::begin_place, refusal::specs::Refusal::unless, crate::specs::SetUp::stop_of, crate::specs::SetUp::list_refusal, crate::specs::SetUp::list_refused, crate::specs::SetUp::system_refusal, crate::specs::SetUp::system_refused,))]

ghost use Rattle.std.specs.Prelude.{◌≡◌, false, drop};
ghost use Rattle.number.specs.Number.{read_at};
ghost use Rattle.layout.specs.Recording.{every, legal_section_name, section_names};
ghost use Rattle.layout.specs.Reading.{is_bad, exactly};
ghost use Rattle.layout.specs.Recorder.{set_up_section, set_up_list, sections_of, bad_set_up};
ghost use Rattle.setup.specs.SetUp.{rows, stop_of, section_at, list_refused, system_refused};

use header::Header;
use parts::Fault;
use refusal::Refusal;
use rows::Row;

// The number of sections that a set-up list says it has.
pub fn count_of(setup: &[u8]) -> usize
    ensures { result ≡ read_at setup.now 0 1 }
{
    number::read(setup, 0, 1) as usize
}

// 10: "a set-up list runs out of bytes or has bytes left over".
fn incomplete(setup: &[u8]) -> bool
    ensures { result ≡ is_bad (exactly set_up_list setup.now) }
{
    setup.is_empty() || rows::row_start(setup, 1, count_of(setup), Row::SetUp) != Some(setup.len())
}

// Where a section ends, whatever its name; or where its bytes run out. A name runs out where the list does; "outside a string it is the start of the
// field concerned".
fn section_at(setup: &[u8], at: usize) -> Result<usize, Fault>
    ensures { result ≡ section_at at (set_up_section (drop at setup.now)) }
{
    if setup.len() <= at {
        return Err(Fault { place: at });
    }
    let Some(n) = strings::string(setup, at) else {
        return Err(Fault { place: setup.len() });
    };
    let place = at + 1 + n;
    if setup.len() - place < 2 {
        return Err(Fault { place });
    }
    let size = number::read(setup, place, 2) as usize;
    let start = place + 2;
    if setup.len() - start < size {
        return Err(Fault { place: start });
    }
    Ok(start + size)
}

// 10's place: where a list runs out of bytes, or else "for bytes left over the first of them". Asked where the list is refused: a second walk.
fn list_stop(setup: &[u8]) -> usize
    ensures { result ≡ stop_of (set_up_list setup.now) }
{
    if setup.is_empty() {
        return 0;
    }
    let mut place = 1;
    for _ in 0..count_of(setup) {
        match section_at(setup, place) {
            Ok(end) => place = end,
            Err(fault) => return fault.place,
        }
    }
    place
}

// Whether the names of the first n sections of a set-up list are legal.
fn legal_names(setup: &[u8], n: usize) -> bool
    ensures { result ≡ every legal_section_name (section_names (rows n (drop 1 setup.now))) }
{
    let mut place = 1;
    for _ in 0..n {
        let Some(row) = rows::row_at(setup, place, Row::SetUp) else {
            return true;
        };
        if strings::section_name(setup, place).is_none() {
            return false;
        }
        place = row.end;
    }
    true
}

// 3: "In a complete set-up list, a count or name that breaks the definitions rule".
fn bad_set_up(setup: &[u8]) -> bool
    requires { is_bad (exactly set_up_list setup.now) ≡ false }
    ensures { result ≡ bad_set_up (sections_of setup.now) }
{
    let count = count_of(setup);
    !(1..=Header::MOST_SECTIONS).contains(&count)
        || !legal_names(setup, count)
        || !names::distinct_names(setup, 1, count, Row::SetUp)
}

// 4: the system table is exactly a table: "Nothing may follow either; after the table that is 4".
pub fn system_refusal(system: &[u8]) -> Result<(), Refusal>
    ensures { result ≡ system_refused system.now }
{
    if let Err(fault) = tables::tags_of(system) {
        return Err(Refusal::SystemTable(fault.place));
    }
    Ok(())
}

// 10, 3: what a set-up list is refused with.
pub fn list_refusal(setup: &[u8]) -> Result<(), Refusal>
    ensures { result ≡ list_refused setup.now }
{
    if incomplete(setup) {
        return Err(Refusal::Sheet(list_stop(setup)));
    }
    if bad_set_up(setup) {
        return Err(Refusal::Sections(faults::first_fault(setup, 0, Row::SetUp, 0)));
    }
    Ok(())
}
