// The C face of opening: the answer is a flat struct of numbers, with `refused` and the refusal's `place` ahead. The crate `fstf` exports the call, and
// include/fstf.h declares it.
#![tactic(auto)]

ghost use Rattle.std.specs.Prelude.{◌≡◌};
ghost use Rattle.refusal.specs.Refusal.{number_of, place_of};
ghost use Rattle.opening.specs.Opened.{open_of};
ghost use Rattle.face_opening.specs.Face.{opened_not, opened_flat};

use opening::Held;
use refusal::Refusal;

// What a file holds, in numbers, and where its system table, its frames, its index and its user table start; refused, all else is 0.
#[repr(C)]
#[derive(Clone, Copy)]
pub struct FstfOpened {
    pub refused: u64,
    pub place: u64,
    pub frames: u64,
    pub sections: u64,
    pub system_tags: u64,
    pub user_tags: u64,
    pub system: u64,
    pub start: u64,
    pub index: u64,
    pub user: u64,
}

impl From<Refusal> for FstfOpened {
    ghost from_gives = { λ refusal made. made ≡ opened_not (number_of refusal) (place_of refusal) };

    fn from(refusal: Refusal) -> FstfOpened {
        FstfOpened {
            refused: refusal.number() as u64,
            place: refusal.place() as u64,
            frames: 0,
            sections: 0,
            system_tags: 0,
            user_tags: 0,
            system: 0,
            start: 0,
            index: 0,
            user: 0,
        }
    }
}

impl From<Result<Held, Refusal>> for FstfOpened {
    ghost from_gives = { λ answer made. made ≡ opened_flat answer };

    fn from(answer: Result<Held, Refusal>) -> FstfOpened {
        match answer {
            Ok(held) => FstfOpened {
                refused: 0,
                place: 0,
                frames: held.frames as u64,
                sections: held.sections as u64,
                system_tags: held.system_tags as u64,
                user_tags: held.user_tags as u64,
                system: held.system as u64,
                start: held.start as u64,
                index: held.index as u64,
                user: held.user as u64,
            },
            Err(refusal) => refusal.into(),
        }
    }
}

pub fn open(file: &[u8]) -> FstfOpened
    ensures { result ≡ opened_flat (open_of file.now) }
{
    opening::open(file).into()
}
