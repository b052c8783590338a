// The C face of recording: a flat state goes in and out, and answers are flat structs of numbers, with `refused` and the refusal's `place` ahead. The
// crate `fstf` exports the calls, and include/fstf.h declares them.
#![tactic(auto, using(crate::proofs::Laws::laws), unfolding(crate::specs::Face::closing_at, crate::specs::Face::stage_asked, crate::specs::Face::recorder_asked, crate::specs::Face::recorder_flat, crate::specs::Face::taken_flat,))]

ghost use Rattle.std.specs.Prelude.{◌≡◌};
ghost use Rattle.recorder.specs.Recorded.{fresh_recorder, begin_of, add_of, close_of};
ghost use Rattle.refusal.specs.Refusal.{number_of, place_of};
ghost use Rattle.face_recording.specs.Face.{closing_at, stage_asked, recorder_asked, stage_number, piece_number, recorder_flat, taken_not, taken_flat, recorded, recorded_flat};

use recorder::{Recorder, Taken};
use refusal::Refusal;
use stages::Stage;

// The recorder's state in numbers. Stage: 0 fresh, 1 running, 2 closing at `piece`, 3 closed.
#[repr(C)]
#[derive(Clone, Copy)]
pub struct FstfRecorder {
    pub stage: u64,
    pub piece: u64,
    pub sections: u64,
    pub frames: u64,
    pub first: i64,
    pub last: i64,
    pub end: u64,
}

// What a call of the recorder hands back: where the piece goes in the file and its length, which stands at the start of the lent output; and the state
// to pass to the next call.
#[repr(C)]
#[derive(Clone, Copy)]
pub struct FstfTaken {
    pub refused: u64,
    pub place: u64,
    pub start: u64,
    pub length: u64,
    pub recorder: FstfRecorder,
}

// The pieces are 0 to 4; a state that names another takes no call, as one that is closed.
fn closing_at(piece: u64) -> Stage
    ensures { result ≡ closing_at piece }
{
    if 4 < piece {
        return Stage::Closed;
    }
    Stage::Closing(piece as u8)
}

// C hands a stage over as a number. One that names no stage takes no call, as 3.
fn stage_asked(stage: u64, piece: u64) -> Stage
    ensures { result ≡ stage_asked stage piece }
{
    match stage {
        0 => Stage::Fresh,
        1 => Stage::Running,
        2 => closing_at(piece),
        _ => Stage::Closed,
    }
}

impl From<FstfRecorder> for Recorder {
    ghost from_gives = { λ flat r. r ≡ recorder_asked flat };

    fn from(flat: FstfRecorder) -> Recorder {
        Recorder {
            stage: stage_asked(flat.stage, flat.piece),
            sections: flat.sections,
            frames: flat.frames,
            first: flat.first,
            last: flat.last,
            end: flat.end,
        }
    }
}

fn stage_number(stage: Stage) -> u64
    ensures { result ≡ stage_number stage }
{
    match stage {
        Stage::Fresh => 0,
        Stage::Running => 1,
        Stage::Closing(_) => 2,
        Stage::Closed => 3,
    }
}

fn piece_number(stage: Stage) -> u64
    ensures { result ≡ piece_number stage }
{
    match stage {
        Stage::Closing(piece) => piece as u64,
        _ => 0,
    }
}

impl From<Recorder> for FstfRecorder {
    ghost from_gives = { λ recorder flat. flat ≡ recorder_flat recorder };

    fn from(recorder: Recorder) -> FstfRecorder {
        FstfRecorder {
            stage: stage_number(recorder.stage),
            piece: piece_number(recorder.stage),
            sections: recorder.sections,
            frames: recorder.frames,
            first: recorder.first,
            last: recorder.last,
            end: recorder.end,
        }
    }
}

// The states of an answer are written out by their fields: a choice between two whole ones would go through memory.

// Refused, the state is handed back as it was given, also where it is none.
fn taken_not(given: FstfRecorder, refusal: Refusal) -> FstfTaken
    ensures { result ≡ taken_not given (number_of refusal) (place_of refusal) }
{
    FstfTaken {
        refused: refusal.number() as u64,
        place: refusal.place() as u64,
        start: 0,
        length: 0,
        recorder: FstfRecorder {
            stage: given.stage,
            piece: given.piece,
            sections: given.sections,
            frames: given.frames,
            first: given.first,
            last: given.last,
            end: given.end,
        },
    }
}

fn taken_flat(given: FstfRecorder, taken: Taken) -> FstfTaken
    ensures { result ≡ taken_flat given taken }
{
    let next = FstfRecorder::from(taken.state);
    match taken.piece {
        Ok(piece) => FstfTaken {
            refused: 0,
            place: 0,
            start: piece.place,
            length: piece.length as u64,
            recorder: FstfRecorder {
                stage: next.stage,
                piece: next.piece,
                sections: next.sections,
                frames: next.frames,
                first: next.first,
                last: next.last,
                end: next.end,
            },
        },
        Err(refusal) => taken_not(given, refusal),
    }
}

pub fn new() -> FstfRecorder
    ensures { result ≡ recorder_flat fresh_recorder }
{
    FstfRecorder::from(Recorder::new())
}

pub fn begin(
    recorder: FstfRecorder,
    setup: &[u8],
    system: &[u8],
    notes: &mut [u8],
    out: &mut [u8],
) -> FstfTaken
    ensures { recorded result notes.new out.new ≡ recorded_flat recorder (begin_of (recorder_asked recorder) setup.now system.now notes.old out.old) }
{
    taken_flat(
        recorder,
        Recorder::from(recorder).begin(setup, system, notes, out),
    )
}

pub fn add(
    recorder: FstfRecorder,
    time: i64,
    exposure: u32,
    sections: &[u8],
    notes: &mut [u8],
    out: &mut [u8],
) -> FstfTaken
    ensures { recorded result notes.new out.new ≡ recorded_flat recorder (add_of (recorder_asked recorder) time exposure sections.now notes.old out.old) }
{
    taken_flat(
        recorder,
        Recorder::from(recorder).add(time, exposure, sections, notes, out),
    )
}

pub fn close(recorder: FstfRecorder, notes: &[u8], out: &mut [u8]) -> FstfTaken
    ensures { recorded result notes.now out.new ≡ recorded_flat recorder (close_of (recorder_asked recorder) notes.now out.old) }
{
    taken_flat(recorder, Recorder::from(recorder).close(notes, out))
}
