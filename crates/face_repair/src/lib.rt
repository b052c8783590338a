// The C face of repair: the answer is a flat struct of numbers, with `refused` and the refusal's `place` ahead. The crate `fstf` exports the call, and
// include/fstf.h declares it.
#![tactic(auto, using(crate::proofs::Laws::laws))]

ghost use Rattle.std.specs.Prelude.{◌≡◌};
ghost use Rattle.repair.specs.Repaired.{repair_of};
ghost use Rattle.face_repair.specs.Face.{repaired_not, repaired_flat, repaired, made_flat};

use refusal::Refusal;
use repair::Repaired;

// The kept length, the three header fields and the length of the tail, which stands at the start of the lent output; refused, all else is 0.
#[repr(C)]
#[derive(Clone, Copy)]
pub struct FstfRepaired {
    pub refused: u64,
    pub place: u64,
    pub kept: u64,
    pub count: u64,
    pub index: u64,
    pub user: u64,
    pub tail: u64,
}

impl From<Refusal> for FstfRepaired {
    ghost from_gives = { λ refusal flat. flat ≡ repaired_not refusal };

    fn from(refusal: Refusal) -> FstfRepaired {
        FstfRepaired {
            refused: refusal.number() as u64,
            place: refusal.place() as u64,
            kept: 0,
            count: 0,
            index: 0,
            user: 0,
            tail: 0,
        }
    }
}

impl From<Result<Repaired, Refusal>> for FstfRepaired {
    ghost from_gives = { λ answer flat. flat ≡ repaired_flat answer };

    fn from(answer: Result<Repaired, Refusal>) -> FstfRepaired {
        match answer {
            Ok(repaired) => FstfRepaired {
                refused: 0,
                place: 0,
                kept: repaired.kept as u64,
                count: repaired.count as u64,
                index: repaired.index as u64,
                user: repaired.user as u64,
                tail: repaired.tail as u64,
            },
            Err(refusal) => refusal.into(),
        }
    }
}

pub fn repair(file: &[u8], out: &mut [u8]) -> FstfRepaired
    ensures { repaired result out.new ≡ made_flat (repair_of file.now out.old) }
{
    repair::repair(file, out).into()
}
