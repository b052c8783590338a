// The rule of frames' times. Times are patterns of Int64.
#![tactic(auto, using(crate::proofs::Laws::laws))]

ghost use Rattle.std.specs.Prelude.{◌≡◌};
ghost use Rattle.layout.specs.Recording.{follows};
ghost use Rattle.times.specs.Times.{since_first};

use header::Header;

// How long after the first frame a time is; 0 where it is before it. Times are patterns of Int64.
pub fn since(first: u64, time: u64) -> u64
    ensures { result ≡ since_first first time }
{
    let start = number::rank_of(first);
    let here = number::rank_of(time);
    here.saturating_sub(start)
}

// "A frame's time is never before the frame ahead of it, and at most 4,294,967,295 ms after the first."
pub fn follows_last(first: u64, last: u64, time: u64) -> bool
    ensures { result ≡ follows first last time }
{
    number::rank_of(last) <= number::rank_of(time) && since(first, time) <= Header::LONGEST_SPAN
}
