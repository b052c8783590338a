// The first piece of a recording, which is everything up to its first frame.
#![tactic(auto, using(crate::proofs::Front::laws, crate::proofs::Pieces::laws), unfolding(layout::specs::Opening::first_of, layout::specs::Recorder::begin_place, refusal::specs::Refusal::unless, crate::specs::Pieces::piece_refused, crate::specs::Pieces::refusal_of,))]

ghost use Rattle.std.specs.Prelude.{◌≡◌, false, ◌+◌, ◌≤◌, length, take, drop, ◌++◌};
ghost use Rattle.std.proofs.lemmas.List.Edits.{sets};
ghost use Rattle.number.specs.Number.{bytes_of};
ghost use Rattle.layout.specs.Recording.{header_bytes, definition_list_bytes, definitions_end, configurations_bytes};
ghost use Rattle.layout.specs.Recorder.{sections_of, bad_set_up, first_piece};
ghost use Rattle.setup.specs.SetUp.{rows};
ghost use Rattle.beginning.specs.Front.{start_bytes, head_bytes, table_start, definitions_fit};
ghost use Rattle.beginning.specs.Pieces.{piece_refused, made, first_piece_of, refusal_of};

use header::Header;
use refusal::Refusal;
use rows::Row;

// Where the system table stands: a section has six bytes more in the file than in the set-up list.
fn system_place(setup: &[u8]) -> usize
    requires { bad_set_up (sections_of setup.now) ≡ false }
    ensures { result ≡ table_start (sections_of setup.now) }
{
    Header::LENGTH + setup.len() + 6 * setup::count_of(setup)
}

// Where the definitions of n sections end.
fn definitions_end(setup: &[u8], n: usize) -> usize
    requires { n ≤ 8 }
    ensures { result ≡ definitions_end (rows n (drop 1 setup.now)) }
{
    let mut end = Header::LENGTH + 1;
    let mut place = 1;
    for _ in 0..n {
        let Some(row) = rows::row_at(setup, place, Row::SetUp) else {
            return end;
        };
        end = end + 9 + row.name;
        place = row.end;
    }
    end
}

// The header as far as its count, which is zero.
fn write_start(out: &mut [u8])
    requires { 9 ≤ length out.old }
    ensures { out.new ≡ sets out.old 0 start_bytes }
{
    number::write(out, 0, 4, Header::FILE_MARK);
    number::write(out, Header::REVISION_PLACE, 1, Header::REVISION);
    number::write(out, Header::COUNT_PLACE, 4, 0);
}

// The header, with count, index offset and user offset zero.
fn write_header(out: &mut [u8], system: usize)
    requires { 33 ≤ length out.old }
    ensures { out.new ≡ sets out.old 0 (header_bytes 0 0 system 0) }
{
    write_start(out);
    number::write(out, Header::INDEX_PLACE, 8, 0);
    number::write(out, Header::SYSTEM_PLACE, 8, system as u64);
    number::write(out, Header::USER_PLACE, 8, 0);
}

// A name as it stands in the set-up list, and the offset of its configuration.
fn write_definition(
    setup: &[u8],
    place: usize,
    name: usize,
    offset: usize,
    out: &mut [u8],
    to: usize,
)
    requires { (place + 1 + name ≤ length setup.now) × (to + 1 + name + 8 ≤ length out.old) }
    ensures { out.new ≡ sets out.old to (take (1 + name) (drop place setup.now) ++ bytes_of 8 offset) }
{
    parts::copy(setup, place, out, to, 1 + name);
    number::write(out, to + 1 + name, 8, offset as u64);
}

// The definitions of n sections, the first configuration being at `first`.
fn write_definitions(setup: &[u8], n: usize, first: usize, out: &mut [u8])
    requires { definitions_fit (rows n (drop 1 setup.now)) first (length out.old) }
    ensures { out.new ≡ sets out.old 34 (definition_list_bytes first (rows n (drop 1 setup.now))) }
{
    let mut offset = first;
    let mut to = Header::LENGTH + 1;
    let mut place = 1;
    for _ in 0..n {
        let Some(row) = rows::row_at(setup, place, Row::SetUp) else {
            return;
        };
        write_definition(setup, place, row.name, offset, out, to);
        to = to + 1 + row.name + 8;
        offset += row.end - (place + 3 + row.name);
        place = row.end;
    }
}

// The configurations of n sections, one behind the other from `first` on.
fn write_configurations(setup: &[u8], n: usize, first: usize, out: &mut [u8])
    requires { first + length (configurations_bytes (rows n (drop 1 setup.now))) ≤ length out.old }
    ensures { out.new ≡ sets out.old first (configurations_bytes (rows n (drop 1 setup.now))) }
{
    let mut to = first;
    let mut place = 1;
    for _ in 0..n {
        let Some(row) = rows::row_at(setup, place, Row::SetUp) else {
            return;
        };
        let start = place + 3 + row.name;
        let size = row.end - start;
        parts::copy(setup, start, out, to, size);
        to += size;
        place = row.end;
    }
}

// The header and the definitions of n sections, the first configuration being at `first`.
fn write_head(setup: &[u8], n: usize, first: usize, system: usize, out: &mut [u8])
    requires { definitions_fit (rows n (drop 1 setup.now)) first (length out.old) }
    ensures { out.new ≡ sets out.old 0 (head_bytes system first n (rows n (drop 1 setup.now))) }
{
    write_header(out, system);
    number::write(out, Header::LENGTH, 1, n as u64);
    write_definitions(setup, n, first, out);
}

// "everything up to the first frame, with count, index offset and user offset zero"
fn write_front(setup: &[u8], system: &[u8], place: usize, out: &mut [u8])
    requires { (bad_set_up (sections_of setup.now) ≡ false) × (place ≡ table_start (sections_of setup.now)) × (place + length system.now ≤ length out.old) }
    ensures { out.new ≡ sets out.old 0 (first_piece setup.now system.now) }
{
    let count = setup::count_of(setup);
    let first = definitions_end(setup, count);
    write_head(setup, count, first, place, out);
    write_configurations(setup, count, first, out);
    parts::copy(system, 0, out, place, system.len());
}

// The first piece of a recording: how many sections it defines, and its length, which stands at the start of the lent output.
#[derive(Clone, Copy, Debug, PartialEq, Eq)]
pub struct FirstPiece {
    pub sections: usize,
    pub length: usize,
}

// 10, 3, 4, 9, the first three with their places. `notes` and `room` are the lengths of what is lent.
fn refusal_of(setup: &[u8], system: &[u8], notes: usize, room: usize) -> Result<(), Refusal>
    ensures { result ≡ piece_refused setup.now system.now notes room }
{
    setup::list_refusal(setup)?;
    match setup::system_refusal(system) {
        Ok(_) => {}
        Err(refusal) => return Err(refusal),
    }
    if room < system.len() {
        return Err(Refusal::NoRoom);
    }
    if room - system.len() < system_place(setup) {
        return Err(Refusal::NoRoom);
    }
    if notes < 4 {
        return Err(Refusal::NoRoom);
    }
    Ok(())
}

// What a begin call does behind its stage; `notes` is the number of bytes that are lent for notes.
pub fn first_piece(
    setup: &[u8],
    system: &[u8],
    notes: usize,
    out: &mut [u8],
) -> Result<FirstPiece, Refusal>
    ensures { made result out.new ≡ first_piece_of setup.now system.now notes out.old }
{
    refusal_of(setup, system, notes, out.len())?;
    let place = system_place(setup);
    let length = place + system.len();
    write_front(setup, system, place, out);
    Ok(FirstPiece {
        sections: setup::count_of(setup),
        length,
    })
}

// What a first piece is refused with.
pub fn piece_refusal(piece: Result<FirstPiece, Refusal>) -> Option<Refusal>
    ensures { result ≡ refusal_of piece }
{
    piece.err()
}
