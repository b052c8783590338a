// What the recorder's calls refuse, over the numbers of its state.
#![tactic(auto, using(crate::proofs::Laws::laws), unfolding(layout::specs::Opening::first_of, layout::specs::Recorder::bad_clock, layout::specs::Recorder::close_lines, refusal::specs::Refusal::unless, crate::specs::Limits::state_in, crate::specs::Limits::index_within, crate::specs::Limits::add_refusal,))]

ghost use Rattle.std.specs.Prelude.{◌≡◌};
ghost use Rattle.refusal.specs.Refusal.{unless};
ghost use Rattle.layout.specs.Opening.{first_of};
ghost use Rattle.layout.specs.Recorder.{broken_state, close_lines, bad_shape, bad_clock};
ghost use Rattle.limits.specs.Limits.{state_in, add_refusal, index_within};

use header::Header;
use refusal::Refusal;
use stages::Stage;

// The state's numbers, its times as patterns.
#[derive(Clone, Copy, Debug, PartialEq, Eq)]
pub struct Numbers {
    pub stage: Stage,
    pub sections: u64,
    pub frames: u64,
    pub first: u64,
    pub last: u64,
    pub end: u64,
}

// The bytes of the index of so many frames; 0 where they are more than a recording may have.
// No Option for that 0: it is asked of a sound state, which has no more, and its callers would get a branch that nothing reaches.
pub fn index_length(frames: u64) -> usize
    ensures { result ≡ index_within frames }
{
    if (Header::MOST_FRAMES as u64) < frames {
        return 0;
    }
    4 + Header::INDEX_ENTRY * (frames as usize)
}

impl Numbers {
    // 12: "past fresh, the state's numbers break a limit".
    fn broken(self) -> bool
        ensures { result ≡ broken_state (state_in self) }
    {
        stages::broken(
            self.stage,
            self.sections,
            self.frames,
            self.first,
            self.last,
            self.end,
        )
    }

    // 14: "the sections given are not exactly the recorder's number of sizes and bytes, or a size is over its limit".
    fn bad_shape(self, sections: &[u8]) -> bool
        ensures { result ≡ bad_shape (state_in self) sections.now }
    {
        frames::sized_sections(sections, 0, self.sections as usize) != Some(sections.len())
    }

    // 13: "a frame's time breaks its rule"; the first frame takes any.
    fn bad_clock(self, time: u64) -> bool
        ensures { result ≡ bad_clock (state_in self) time }
    {
        self.frames != 0 && !times::follows_last(self.first, self.last, time)
    }

    // To add a frame: 12, 14, 15, 13, 9.
    pub fn add_refusal(
        self,
        time: u64,
        sections: &[u8],
        notes: usize,
        room: usize,
    ) -> Result<(), Refusal>
        ensures { result ≡ unless (add_refusal (state_in self) time sections.now notes room) 0 tt }
    {
        if !stages::is_running(self.stage) || self.broken() {
            return Err(Refusal::Stage);
        }
        if self.bad_shape(sections) {
            return Err(Refusal::FrameShape);
        }
        let length = Header::FRAME_HEAD + sections.len();
        if stages::full(self.end, self.frames, length as u64) {
            return Err(Refusal::Full);
        }
        if self.bad_clock(time) {
            return Err(Refusal::Clock);
        }
        if room < length || notes < 4 + Header::INDEX_ENTRY * (self.frames as usize + 1) {
            return Err(Refusal::NoRoom);
        }
        Ok(())
    }

    // To close: 12, 9.
    pub fn close_refusal(self, notes: &[u8], room: usize) -> Result<(), Refusal>
        ensures { result ≡ unless (first_of (close_lines (state_in self) notes.now room)) 0 tt }
    {
        if !stages::takes_close(self.stage) || self.broken() {
            return Err(Refusal::Stage);
        }
        let piece = stages::piece_of(self.stage);
        let index = index_length(self.frames);
        if room < stages::closing_length(piece, index) || piece == 0 && notes.len() < index {
            return Err(Refusal::NoRoom);
        }
        Ok(())
    }
}
