// Recording: the recorder's state is passed in by value and handed back by each call, with its stage inside.
#![tactic(auto, using(crate::proofs::Laws::laws), unfolding(layout::specs::Recorder::first_after, limits::specs::Limits::state_in, crate::specs::Recorded::numbers_of, crate::specs::Recorded::state_of, crate::specs::Recorded::fresh_recorder,))]

ghost use Rattle.std.specs.Prelude.{◌≡◌};
ghost use Rattle.layout.specs.Recorder.{first_after};
ghost use Rattle.recorder.specs.Recorded.{numbers_of, state_of, fresh_recorder, refused_with, made, close_of, add_of, begin_of};

use header::Header;
use limits::Numbers;
use refusal::Refusal;
use stages::Stage;

// The state: numbers and the stage only. `end` is where the next frame goes.
#[derive(Clone, Copy, Debug, PartialEq, Eq)]
pub struct Recorder {
    pub stage: Stage,
    pub sections: u64,
    pub frames: u64,
    pub first: i64,
    pub last: i64,
    pub end: u64,
}

// A piece to store: its place in the file and its number of bytes, which stand at the start of the lent output.
#[derive(Clone, Copy, Debug, PartialEq, Eq)]
pub struct Piece {
    pub place: u64,
    pub length: usize,
}

// What a call hands back: refused, the same state.
#[derive(Clone, Copy, Debug, PartialEq, Eq)]
pub struct Taken {
    pub state: Recorder,
    pub piece: Result<Piece, Refusal>,
}

// The state's numbers, its times as patterns.
impl From<Recorder> for Numbers {
    ghost from_gives = { λ recorder numbers. numbers ≡ numbers_of recorder };

    fn from(recorder: Recorder) -> Numbers {
        Numbers {
            stage: recorder.stage,
            sections: recorder.sections,
            frames: recorder.frames,
            first: number::pattern_of(recorder.first),
            last: number::pattern_of(recorder.last),
            end: recorder.end,
        }
    }
}

impl Recorder {
    pub fn new() -> Self
        ensures { result ≡ fresh_recorder }
    {
        Self {
            stage: Stage::Fresh,
            sections: 0,
            frames: 0,
            first: 0,
            last: 0,
            end: 0,
        }
    }

    // To begin: 12, 10, 3, 4, 9; the places of 10 and 3 count from the start of the set-up list, that of 4 from the start of the table. "Beginning
    // writes four zeros at the start of the lent notes."
    pub fn begin(self, list: &[u8], system: &[u8], notes: &mut [u8], out: &mut [u8]) -> Taken
        ensures { made result notes.new out.new ≡ begin_of self list.now system.now notes.old out.old }
    {
        if !stages::is_fresh(self.stage) {
            return self.refused(Refusal::Stage);
        }
        match beginning::first_piece(list, system, notes.len(), out) {
            Ok(first) => {
                number::write(notes, 0, 4, 0);
                Taken {
                    state: Recorder {
                        stage: Stage::Running,
                        sections: first.sections as u64,
                        frames: 0,
                        first: 0,
                        last: 0,
                        end: first.length as u64,
                    },
                    piece: Ok(Piece {
                        place: 0,
                        length: first.length,
                    }),
                }
            }
            Err(refusal) => self.refused(refusal),
        }
    }

    // Refused, the state is handed back as it was.
    fn refused(self, refusal: Refusal) -> Taken
        ensures { result ≡ refused_with self refusal }
    {
        Taken {
            state: self,
            piece: Err(refusal),
        }
    }

    // The first frame's time: that of the frame added, where it is the first.
    fn first_after(self, time: u64) -> u64
        ensures { result ≡ first_after (state_of self) time }
    {
        if self.frames == 0 {
            return time;
        }
        number::pattern_of(self.first)
    }

    // To add a frame: 12, 14, 15, 13, 9. The sections are copied once, and 20 bytes of the notes are touched.
    pub fn add(
        self,
        time: i64,
        exposure: u32,
        sections: &[u8],
        notes: &mut [u8],
        out: &mut [u8],
    ) -> Taken
        ensures { made result notes.new out.new ≡ add_of self time exposure sections.now notes.old out.old }
    {
        let pattern = number::pattern_of(time);
        let asked = Numbers::from(self).add_refusal(pattern, sections, notes.len(), out.len());
        if let Err(refusal) = asked {
            return self.refused(refusal);
        }
        let length = Header::FRAME_HEAD + sections.len();
        let frames = self.frames + 1;
        let first = self.first_after(pattern);
        writing::add_frame(
            frames, first, pattern, exposure, self.end, sections, notes, out,
        );
        Taken {
            state: Recorder {
                stage: Stage::Running,
                sections: self.sections,
                frames,
                first: number::time_of(first),
                last: time,
                end: self.end + length as u64,
            },
            piece: Ok(Piece {
                place: self.end,
                length,
            }),
        }
    }

    // To close: 12, 9.
    pub fn close(self, notes: &[u8], out: &mut [u8]) -> Taken
        ensures { made result notes.now out.new ≡ close_of self notes.now out.old }
    {
        if let Err(refusal) = Numbers::from(self).close_refusal(notes, out.len()) {
            return self.refused(refusal);
        }
        let piece = stages::piece_of(self.stage);
        let state = Recorder {
            stage: stages::stage_after(piece),
            ..self
        };
        let index = limits::index_length(self.frames);
        if piece == 0 {
            parts::copy(notes, 0, out, 0, index);
            return Taken {
                state,
                piece: Ok(Piece {
                    place: self.end,
                    length: index,
                }),
            };
        }
        let number = stages::closing_number(piece, self.frames, self.end, self.end + index as u64);
        number::write(out, 0, number.width, number.value);
        Taken {
            state,
            piece: Ok(Piece {
                place: number.place,
                length: number.width,
            }),
        }
    }
}
