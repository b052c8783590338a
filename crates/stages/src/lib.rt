// The recorder's stages, its limits and its closing pieces, over numbers.
#![tactic(auto, unfolding(layout::specs::Recorder::piece_number, layout::specs::Recorder::takes_close, layout::specs::Recorder::is_running, layout::specs::Recorder::is_fresh, layout::specs::Recorder::stage_after, layout::specs::Recorder::too_long, layout::specs::Recorder::broken_state, crate::specs::Stages::stage_of, crate::specs::Stages::to_stage, crate::specs::Stages::full_with, crate::specs::Stages::closing_number, crate::specs::Stages::closing_length,))]

ghost use Rattle.std.specs.Prelude.{◌≡◌};
ghost use Rattle.layout.specs.Recorder.{too_long, broken_state, piece_number, takes_close, is_running, is_fresh, stage_after};
ghost use Rattle.stages.specs.Stages.{stage_of, to_stage, state_with, full_with, closing_number, closing_length};

use header::Header;

// "fresh, running, closing at piece 0 to 4, closed": the piece named is the next one.
#[derive(Clone, Copy, Debug, PartialEq, Eq)]
pub enum Stage {
    Fresh,
    Running,
    Closing(u8),
    Closed,
}

// 15: "end + index + 512,004, with every frame kept or added, would pass 2^40". Each is compared before it is added.
fn too_long(end: u64, frames: u64) -> bool
    ensures { result ≡ too_long end frames }
{
    let most = Header::LARGEST_USER_OFFSET as u64;
    most < end || most < frames || most < end + 4 + Header::INDEX_ENTRY as u64 * frames
}

// The piece that a close call hands out next: it takes running as piece 0.
pub fn piece_of(stage: Stage) -> u8
    ensures { result ≡ piece_number (stage_of stage) }
{
    match stage {
        Stage::Closing(piece) => piece,
        _ => 0,
    }
}

// "running a frame or a close call, closing a close call"
pub fn takes_close(stage: Stage) -> bool
    ensures { result ≡ takes_close (stage_of stage) }
{
    match stage {
        Stage::Running => true,
        Stage::Closing(piece) => piece <= 4,
        _ => false,
    }
}

pub fn is_running(stage: Stage) -> bool
    ensures { result ≡ is_running (stage_of stage) }
{
    matches!(stage, Stage::Running)
}

pub fn is_fresh(stage: Stage) -> bool
    ensures { result ≡ is_fresh (stage_of stage) }
{
    matches!(stage, Stage::Fresh)
}

pub fn stage_after(piece: u8) -> Stage
    ensures { result ≡ to_stage (stage_after piece) }
{
    if piece < 4 {
        return Stage::Closing(piece + 1);
    }
    Stage::Closed
}

// 12: "past fresh, the state's numbers break a limit". The times are patterns of Int64; the last is held against the first whatever the frame count.
// The numbers come one by one: `limits` has the struct of them, with what the calls refuse, and no crate below it needs one.
pub fn broken(stage: Stage, sections: u64, frames: u64, first: u64, last: u64, end: u64) -> bool
    ensures { result ≡ broken_state (state_with stage sections frames first last end) }
{
    sections < 1
        || (Header::MOST_SECTIONS as u64) < sections
        || (Header::MOST_FRAMES as u64) < frames
        || 4 < piece_of(stage)
        || !times::follows_last(first, first, last)
        || too_long(end, frames)
}

// 15, a frame of so many bytes being added: each number is compared before it is added.
pub fn full(end: u64, frames: u64, length: u64) -> bool
    ensures { result ≡ full_with end frames length }
{
    let most = Header::LARGEST_USER_OFFSET as u64;
    Header::MOST_FRAMES as u64 <= frames
        || most < end
        || most < length
        || too_long(end + length, frames + 1)
}

// A closing piece that is one number.
#[derive(Clone, Copy, Debug, PartialEq, Eq)]
pub struct Number {
    pub place: u64,
    pub width: usize,
    pub value: u64,
}

// "an empty user table (four zeros), the count at 5, the user offset at 25, the index offset at 9": pieces 1 to 4.
pub fn closing_number(piece: u8, frames: u64, index: u64, user: u64) -> Number
    ensures { result ≡ closing_number piece frames index user }
{
    match piece {
        1 => Number {
            place: user,
            width: 4,
            value: 0,
        },
        2 => Number {
            place: Header::COUNT_PLACE as u64,
            width: 4,
            value: frames,
        },
        3 => Number {
            place: Header::USER_PLACE as u64,
            width: 8,
            value: user,
        },
        _ => Number {
            place: Header::INDEX_PLACE as u64,
            width: 8,
            value: index,
        },
    }
}

// The number of bytes of a closing piece, the index having so many.
pub fn closing_length(piece: u8, index: usize) -> usize
    ensures { result ≡ closing_length piece index }
{
    match piece {
        0 => index,
        1 | 2 => 4,
        _ => 8,
    }
}
