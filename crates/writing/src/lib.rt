// What a frame call writes into what is lent: the frame, and its index entry.
#![tactic(auto, using(crate::proofs::Laws::laws), unfolding(crate::specs::Writing::framed, crate::specs::Writing::noted_in, crate::specs::Writing::frame_added))]

ghost use Rattle.std.specs.Prelude.{◌≡◌};
ghost use Rattle.writing.specs.Writing.{framed, noted_in, lent, frame_added};

use header::Header;

// A frame at the start of the output: its head, and the sections as they are given; nothing where there is no room for it.
fn write_frame(time: u64, exposure: u32, sections: &[u8], out: &mut [u8])
    ensures { out.new ≡ framed out.old time exposure sections.now }
{
    if out.len() < Header::FRAME_HEAD {
        return;
    }
    if out.len() - Header::FRAME_HEAD < sections.len() {
        return;
    }
    number::write(out, 0, 4, Header::FRAME_MARK);
    number::write(out, 4, 8, time);
    number::write(out, 12, 4, exposure as u64);
    parts::copy(sections, 0, out, Header::FRAME_HEAD, sections.len());
}

// "n into the first four bytes of lent notes and the new entry at 16·n − 12"; nothing where there is no frame n, or no room for its entry.
fn note_frame(notes: &mut [u8], n: u64, since: u64, place: u64, size: u64)
    ensures { notes.new ≡ noted_in notes.old n since place size }
{
    if n < 1 {
        return;
    }
    if (Header::MOST_FRAMES as u64) < n {
        return;
    }
    if notes.len() < 4 + Header::INDEX_ENTRY * (n as usize) {
        return;
    }
    let entry = Header::INDEX_ENTRY * (n as usize) - 12;
    number::write(notes, 0, 4, n);
    number::write(notes, entry, 4, since);
    number::write(notes, entry + 4, 8, place);
    number::write(notes, entry + 12, 4, size);
}

// A frame into the output and its entry into the notes, n being the count with it: what has no room stays as it is.
pub fn add_frame(
    n: u64,
    first: u64,
    time: u64,
    exposure: u32,
    place: u64,
    sections: &[u8],
    notes: &mut [u8],
    out: &mut [u8],
)
    ensures { lent notes.new out.new ≡ frame_added n first time exposure place sections.now notes.old out.old }
{
    write_frame(time, exposure, sections, out);
    let size = Header::FRAME_HEAD + sections.len();
    note_frame(notes, n, times::since(first, time), place, size as u64);
}
