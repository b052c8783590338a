// Frames over lent bytes: where a whole one ends, and its numbers.
#![tactic(auto, using(crate::proofs::Laws::laws), unfolding(parts::specs::Parts::end_of, crate::specs::Frames::sized_at))]

ghost use Rattle.std.specs.Prelude.{◌≡◌};
ghost use Rattle.frames.specs.Frames.{sized_at, sections_at, frame_end, frame_at};

use header::Header;

// A section in a frame: a size within its limit, and that many bytes.
pub fn sized(file: &[u8], at: usize) -> Option<usize>
    ensures { result ≡ sized_at file.now at }
{
    if file.len() < 4 {
        return None;
    }
    if file.len() - 4 < at {
        return None;
    }
    let size = number::read(file, at, 4) as usize;
    if Header::LONGEST_SECTION < size {
        return None;
    }
    let body = at + 4;
    if file.len() - body < size {
        return None;
    }
    Some(body + size)
}

// As many sections one behind the other: only their sizes are read.
pub fn sized_sections(file: &[u8], at: usize, sections: usize) -> Option<usize>
    ensures { result ≡ sections_at file.now at sections }
{
    let mut place = at;
    for _ in 0..sections {
        place = sized(file, place)?;
    }
    Some(place)
}

// One step of the walk: where the whole frame that stands at a place ends, and the next one may start. "all its bytes by the rule are there, whatever
// its time". Opening, repair and the writing of entries go by it, and ask no more of a frame than this and its time.
pub fn frame_end(file: &[u8], at: usize, sections: usize) -> Option<usize>
    ensures { result ≡ frame_end file.now at sections }
{
    if file.len() < Header::FRAME_HEAD {
        return None;
    }
    if file.len() - Header::FRAME_HEAD < at {
        return None;
    }
    if number::read(file, at, 4) != Header::FRAME_MARK {
        return None;
    }
    sized_sections(file, at + Header::FRAME_HEAD, sections)
}

// A whole frame: where the next one may start, and its two numbers. The time is the pattern of its Int64.
#[derive(Clone, Copy, Debug, PartialEq, Eq)]
pub struct FrameAt {
    pub next: usize,
    pub time: u64,
    pub exposure: u64,
}

// The whole frame that stands at a place.
pub fn frame_at(file: &[u8], at: usize, sections: usize) -> Option<FrameAt>
    ensures { result ≡ frame_at file.now at sections }
{
    let next = frame_end(file, at, sections)?;
    Some(FrameAt {
        next,
        time: number::read(file, at + 4, 8),
        exposure: number::read(file, at + 12, 4),
    })
}
