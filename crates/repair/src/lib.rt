// Repair of a recording that was cut: its frames are walked, and the index and the empty user table that it lacks are written.
// Nothing is written before all is accepted.
#![tactic(auto, using(crate::proofs::Laws::laws))]

ghost use Rattle.std.specs.Prelude.{◌≡◌, true, [], Some, ◌+◌, ◌*◌, ◌^◌, ◌<◌, ◌≤◌, length};
ghost use Rattle.std.proofs.lemmas.List.Edits.{sets};
ghost use Rattle.number.specs.Number.{read_at};
ghost use Rattle.layout.specs.Recording.{entry_bytes, table_bytes};
ghost use Rattle.layout.specs.Repair.{whole};
ghost use Rattle.frames.specs.Frames.{frame_end};
ghost use Rattle.repair.specs.Repaired.{end_in, next_by, step_of, common_with, noted, frames_in, alike_in, listed_in, walked_in, Lengths, entries_in, index_in, tailed, made, frames_repaired, repair_of};

use header::Header;
use refusal::Refusal;

// The kept length, the three header fields, and the length of the tail, which stands at the start of the lent output.
#[derive(Clone, Copy, Debug, PartialEq, Eq)]
pub struct Repaired {
    pub kept: usize,
    pub count: usize,
    pub index: usize,
    pub user: usize,
    pub tail: usize,
}

// Of how many frames the lengths are kept from the walk for the writing.
const KEPT_LENGTHS: usize = 10_000;

// A step of the walk: where a whole frame ends, and its time, which follows the last one.
#[derive(Clone, Copy, Debug, PartialEq, Eq)]
struct Step {
    next: usize,
    time: u64,
}

// What the walk found: how many frames there are, where the last one ends and the length that they have in common, if they do.
#[derive(Clone, Copy, Debug, PartialEq, Eq)]
struct Walked {
    count: usize,
    end: usize,
    common: Option<usize>,
}

// The step from a place on, where a whole frame stands there; refused where its time breaks its rule.
fn frame_step(
    file: &[u8],
    sections: usize,
    first: u64,
    last: u64,
    place: usize,
) -> Result<Option<Step>, Refusal>
    ensures { result ≡ step_of file.now sections first last place }
{
    let Some(next) = frames::frame_end(file, place, sections) else {
        return Ok(None);
    };
    let time = number::read(file, place + 4, 8);
    if times::follows_last(first, last, time) {
        Ok(Some(Step { next, time }))
    } else {
        Err(Refusal::Clock)
    }
}

// The length that `count` frames and one more have in common; none where they differ.
fn common_length(count: usize, common: Option<usize>, size: usize) -> Option<usize>
    ensures { result ≡ common_with count common size }
{
    if (count == 0) | (common == Some(size)) {
        Some(size)
    } else {
        None
    }
}

// Keeps the length of a frame, where there is a place for it.
fn note_length(lengths: &mut [u32], number: usize, size: usize)
    requires { size < 2 ^ 32 }
    ensures { lengths.new ≡ noted lengths.old number size }
{
    if lengths.len() <= number {
        return;
    }
    lengths[number] = size as u32;
}

// "The walk takes whole frames one behind the other and stops at the first place without one, or after 1,000,000."
// A time that breaks its rule settles the answer, so the walk goes no further then. It keeps the lengths of as many frames as there are places for.
fn walk(file: &[u8], sections: usize, start: usize, lengths: &mut [u32]) -> Result<Walked, Refusal>
    requires { (sections ≤ 8) × (start ≤ length file.now) }
    ensures { (result ≡ walked_in file.now sections start) × Lengths file.now sections start result lengths.old lengths.new }
{
    // the first frame's time stands behind its mark
    let first = number::read(file, start + 4, 8);
    let mut end = start;
    let mut last = first;
    let mut common = None;
    for count in 0..Header::MOST_FRAMES {
        let Some(step) = frame_step(file, sections, first, last, end)? else {
            return Ok(Walked { count, end, common });
        };
        common = common_length(count, common, step.next - end);
        note_length(lengths, count, step.next - end);
        end = step.next;
        last = step.time;
    }
    Ok(Walked {
        count: Header::MOST_FRAMES,
        end,
        common,
    })
}

// A frame's time, where the frame is known to be whole: in a part of just its bytes it is read with no test.
fn known_time(file: &[u8], at: usize) -> u64
    requires { at + 8 ≤ length file.now }
    ensures { result ≡ read_at file.now at 8 }
{
    let end = at + 8;
    number::read(&file[at..end], 0, 8)
}

// Where a frame that is known to be whole ends. Frames that have a length in common, or whose lengths were kept, need no size read: the place of one does
// not wait for the bytes of the one ahead of it.
fn next_place(
    file: &[u8],
    place: usize,
    sections: usize,
    common: Option<usize>,
    lengths: &[u32],
    number: usize,
) -> usize
    requires { frame_end file.now place sections ≡ Some (next_by file.now place sections common lengths.now number) }
    ensures { result ≡ end_in (frame_end file.now place sections) }
{
    if let Some(size) = common {
        return place + size;
    }
    if number < lengths.len() {
        return place + lengths[number] as usize;
    }
    frames::frame_end(file, place, sections).unwrap_or(place)
}

// An index entry in its sixteen bytes, all of which there is room for: time since the first frame, offset, length.
fn fill_entry(entry: &mut [u8], first: u64, time: u64, offset: usize, size: usize)
    requires { length entry.old ≡ 16 }
    ensures { entry.new ≡ entry_bytes first time offset size }
{
    number::write(entry, 0, 4, times::since(first, time));
    number::write(entry, 4, 8, offset as u64);
    number::write(entry, 12, 4, size as u64);
}

// That entry at a place of the output.
fn write_entry(out: &mut [u8], at: usize, first: u64, time: u64, offset: usize, size: usize)
    requires { at + 16 ≤ length out.old }
    ensures { out.new ≡ sets out.old at (entry_bytes first time offset size) }
{
    let end = at + Header::INDEX_ENTRY;
    fill_entry(&mut out[at..end], first, time, offset, size);
}

// The entries of the first `count` frames, behind the index's number of frames. The walk has found these frames whole.
fn write_entries(
    file: &[u8],
    sections: usize,
    start: usize,
    first: u64,
    count: usize,
    common: Option<usize>,
    lengths: &[u32],
    out: &mut [u8],
)
    requires { (4 + 16 * count ≤ length out.old) × (frames_in file.now sections count start ≡ count) × (alike_in file.now sections common count start ≡ true) × (listed_in file.now sections lengths.now 0 count start ≡ true) }
    ensures { out.new ≡ sets out.old 4 (entries_in file.now sections first count start) }
{
    let mut place = start;
    let mut entry = 4;
    for passed in 0..count {
        let next = next_place(file, place, sections, common, lengths, passed);
        let time = known_time(file, place + 4);
        write_entry(out, entry, first, time, place, next - place);
        place = next;
        entry += Header::INDEX_ENTRY;
    }
}

// The index of the first `count` frames, at the output's start.
fn write_index(
    file: &[u8],
    sections: usize,
    start: usize,
    count: usize,
    common: Option<usize>,
    lengths: &[u32],
    out: &mut [u8],
)
    requires { (start ≤ length file.now) × (4 + 16 * count ≤ length out.old) × (frames_in file.now sections count start ≡ count) × (alike_in file.now sections common count start ≡ true) × (listed_in file.now sections lengths.now 0 count start ≡ true) }
    ensures { out.new ≡ sets out.old 0 (index_in file.now sections start count) }
{
    let first = number::read(file, start + 4, 8);
    number::write(out, 0, 4, count as u64);
    write_entries(file, sections, start, first, count, common, lengths, out);
}

// "The user table is always written empty": its number of tags, and none.
fn write_empty_table(out: &mut [u8], at: usize)
    requires { at + 4 ≤ length out.old }
    ensures { out.new ≡ sets out.old at (table_bytes []) }
{
    number::write(out, at, 4, 0);
}

// "a tail: the index of the walked frames and an empty user table"
fn write_tail(
    file: &[u8],
    sections: usize,
    start: usize,
    count: usize,
    common: Option<usize>,
    lengths: &[u32],
    out: &mut [u8],
)
    requires { (start ≤ length file.now) × (4 + 16 * count + 4 ≤ length out.old) × (frames_in file.now sections count start ≡ count) × (alike_in file.now sections common count start ≡ true) × (listed_in file.now sections lengths.now 0 count start ≡ true) }
    ensures { out.new ≡ tailed file.now sections start count out.old }
{
    write_index(file, sections, start, count, common, lengths, out);
    write_empty_table(out, 4 + Header::INDEX_ENTRY * count);
}

// 13, 15, 9 of a file whose frames start there; and the tail, where none of them is given.
fn repair_frames(
    file: &[u8],
    sections: usize,
    start: usize,
    lengths: &mut [u32],
    out: &mut [u8],
) -> Result<Repaired, Refusal>
    requires { (sections ≤ 8) × (start ≤ length file.now) }
    ensures { made result out.new ≡ frames_repaired file.now sections start out.old }
{
    let walked = walk(file, sections, start, lengths)?;
    let count = walked.count;
    let end = walked.end;
    // the end alone is compared first, so that no sum passes a usize
    if Header::LARGEST_USER_OFFSET < end {
        return Err(Refusal::Full);
    }
    let index_length = 4 + Header::INDEX_ENTRY * count;
    let user = end + index_length;
    if Header::LARGEST_USER_OFFSET < user {
        return Err(Refusal::Full);
    }
    let tail = index_length + 4;
    if out.len() < tail {
        return Err(Refusal::NoRoom);
    }
    write_tail(file, sections, start, count, walked.common, lengths, out);
    Ok(Repaired {
        kept: end,
        count,
        index: end,
        user,
        tail,
    })
}

// The same with places for the lengths of as many frames as a recording of 1 GiB may well have. A short file is read from end to end while these are
// cleared: it does without.
fn repair_walked(
    file: &[u8],
    sections: usize,
    start: usize,
    out: &mut [u8],
) -> Result<Repaired, Refusal>
    requires { (sections ≤ 8) × (start ≤ length file.now) }
    ensures { made result out.new ≡ frames_repaired file.now sections start out.old }
{
    if file.len() < 0x10_0000 {
        let mut few = [0; 1];
        return repair_frames(file, sections, start, &mut few, out);
    }
    let mut lengths = [0; KEPT_LENGTHS];
    repair_frames(file, sections, start, &mut lengths, out)
}

// "Repair: 1 to 4, 16, 13, 15, 9." The output is the tail, from its start; refused, it stays as it is.
pub fn repair(file: &[u8], out: &mut [u8]) -> Result<Repaired, Refusal>
    ensures { made result out.new ≡ repair_of file.now out.old }
{
    let held = front::open_front(file)?;
    if opening::open(file).is_ok() {
        return Err(Refusal::Whole);
    }
    repair_walked(file, held.sections, held.start, out)
}
