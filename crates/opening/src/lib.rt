// Opening any bytes as a file: the lines of refusal 1 to 7 in their order, and the numbers of a recording that opens.
// It looks at each frame's head and sizes, at its index entry and at the tables, and at no pixel.
#![tactic(auto, using(crate::proofs::Index::laws, crate::proofs::Lines::laws))]

ghost use Rattle.std.specs.Prelude.{◌≡◌, ◌+◌, ◌*◌, ◌^◌, ◌<◌, ◌≤◌, length};
ghost use Rattle.opening.specs.Opened.{not_closed_by, other_entry, noted_length, noted_frame, other_frames, bad_index_by, open_of, open_refusal};

use header::Header;
use refusal::Refusal;

// ── The index ──

// Whether an index entry is not the one that a frame must have: time since the first frame, offset, length. Its numbers are read from a part of
// sixteen bytes, in which they are all there.
fn other_entry(file: &[u8], entry: usize, since: u64, offset: usize, size: usize) -> bool
    requires { (entry + 16 ≤ length file.now) × (since < 2 ^ 32) × (size < 2 ^ 32) }
    ensures { result ≡ other_entry file.now entry since offset size }
{
    let behind = entry + Header::INDEX_ENTRY;
    let held = &file[entry..behind];
    if number::read(held, 0, 4) != since {
        return true;
    }
    if number::read(held, 4, 8) != offset as u64 {
        return true;
    }
    number::read(held, 12, 4) != size as u64
}

// The length that an entry says.
fn noted_length(file: &[u8], entry: usize) -> usize
    requires { entry + 16 ≤ length file.now }
    ensures { result ≡ noted_length file.now entry }
{
    let behind = entry + Header::INDEX_ENTRY;
    number::read(&file[entry..behind], 12, 4) as usize
}

// A frame held against its entry: its time; nothing where no whole frame stands there, it is late, or not the one of the entry.
fn noted_frame(
    file: &[u8],
    sections: usize,
    first: u64,
    place: usize,
    entry: usize,
    last: u64,
) -> Option<u64>
    requires { (sections ≤ 8) × (entry + 16 ≤ length file.now) }
    ensures { result ≡ noted_frame file.now sections first place entry last }
{
    let next = frames::frame_end(file, place, sections)?;
    let time = number::read(file, place + 4, 8);
    if !times::follows_last(first, last, time) {
        return None;
    }
    if other_entry(file, entry, times::since(first, time), place, next - place) {
        return None;
    }
    Some(time)
}

// Whether the frames from a place on are fewer than the entries, end elsewhere than at the index, break the time rule, or are not those of the
// entries. One pass: each frame is held against its entry as it is found. The lengths of the entries lead from frame to frame, and not the sizes in the
// frames, to which they are held: so no place waits for the bytes of the frame ahead of it.
fn other_frames(
    file: &[u8],
    sections: usize,
    start: usize,
    count: usize,
    index: usize,
    first: u64,
) -> bool
    requires { (sections ≤ 8) × (index + 4 + 16 * count ≤ length file.now) }
    ensures { result ≡ other_frames file.now sections index first count start (index + 4) first }
{
    let mut place = start;
    let mut entry = index + 4;
    let mut last = first;
    for _ in 0..count {
        let length = noted_length(file, entry);
        let Some(time) = noted_frame(file, sections, first, place, entry, last) else {
            return true;
        };
        place += length;
        entry += Header::INDEX_ENTRY;
        last = time;
    }
    place != index
}

// 5: "index or user offset is zero, past the file's length, or user offset over its limit"
fn not_closed(file: &[u8], header: Header) -> bool
    ensures { result ≡ not_closed_by file.now header }
{
    header.index == 0
        || header.user == 0
        || file.len() < header.index
        || file.len() < header.user
        || Header::LARGEST_USER_OFFSET < header.user
}

// 6: "header count over 1,000,000; or fewer whole frames than that from the start of the walk; or their end is not the index offset; or the times
// break their rule; or the bytes from index offset to user offset are not exactly those frames' index"
fn bad_index(file: &[u8], header: Header, sections: usize, start: usize) -> bool
    requires { (sections ≤ 8) × (start ≤ length file.now) × (header.user ≤ length file.now) }
    ensures { result ≡ bad_index_by file.now header sections start }
{
    let count = header.count;
    let index = header.index;
    let user = header.user;
    if Header::MOST_FRAMES < count {
        return true;
    }
    if user < index {
        return true;
    }
    if user - index != 4 + Header::INDEX_ENTRY * count {
        return true;
    }
    if number::read(file, index, 4) != count as u64 {
        return true;
    }
    let first = number::read(file, start + 4, 8);
    other_frames(file, sections, start, count, index, first)
}

// ── Opening ──

// What a file that opens holds, in numbers, and where its parts stand.
#[derive(Clone, Copy, Debug, PartialEq, Eq)]
pub struct Held {
    pub frames: usize,
    pub sections: usize,
    pub system_tags: usize,
    pub user_tags: usize,
    pub system: usize,
    pub start: usize,
    pub index: usize,
    pub user: usize,
}

// "opening tests 1 to 7 in number order"
pub fn open(file: &[u8]) -> Result<Held, Refusal>
    ensures { result ≡ open_of file.now }
{
    let front = front::open_front(file)?;
    let header = Header::parse(file);
    if not_closed(file, header) {
        return Err(Refusal::NotClosed);
    }
    if bad_index(file, header, front.sections, front.start) {
        return Err(Refusal::Index);
    }
    let table = tables::table(file, header.user).map_err(|fault| Refusal::UserTable(fault.place))?;
    if table.end != file.len() {
        return Err(Refusal::UserTable(table.end));
    }
    Ok(Held {
        frames: header.count,
        sections: front.sections,
        system_tags: front.system_tags,
        user_tags: table.tags,
        system: front.system,
        start: front.start,
        index: header.index,
        user: header.user,
    })
}

// What an opening is refused with.
pub fn open_refusal(opening: Result<Held, Refusal>) -> Option<Refusal>
    ensures { result ≡ open_refusal opening }
{
    opening.err()
}
