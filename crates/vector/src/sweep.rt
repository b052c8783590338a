// A sweep: one call over the same bytes again and again, cut short or with another byte at one of their places. At each place it has 32 turns: the bytes
// cut there, and then with each of up to 31 values there; a turn without a value leaves them as they are.
ghost use Rattle.std.specs.Prelude.{◌≡◌, ◌≤◌, length};
ghost use Rattle.vector.specs.Check.{number_told, place_told};
ghost use Rattle.vector.specs.Sweep.{tallied, turns_of, turn_length, turn_bytes};

use crate::check;
use crate::print::{with, with_sum};
use refusal::Refusal;
use std::io;

// The turns of a place.
const TURNS: usize = 32;

// What is swept has no more bytes.
const SPACE: usize = 1024;

// How many turns a sweep of so many bytes has.
pub fn turns(bytes: usize) -> usize
    ensures { result ≡ turns_of bytes }
{
    if SPACE < bytes {
        return 0;
    }
    TURNS * bytes
}

// How many bytes a turn of a sweep of so many bytes has.
pub fn turn_length(bytes: usize, turn: usize) -> usize
    ensures { (result ≡ turn_length bytes turn) × (result ≤ 1024) }
{
    if SPACE < bytes {
        return 0;
    }
    if 0 < turn % TURNS {
        return bytes;
    }
    if bytes < turn / TURNS {
        return bytes;
    }
    turn / TURNS
}

// The bytes of a turn, at the start of the space.
pub fn turn_bytes(base: &[u8], values: &[u8], turn: usize) -> [u8; 1024]
    ensures { (result ≡ turn_bytes base.now values.now turn) × (1024 ≡ length result) }
{
    let mut bytes = [0; SPACE];
    parts::copy(base, 0, &mut bytes, 0, base.len());
    let place = turn / TURNS;
    let value = turn % TURNS;
    if value < 1 {
        return bytes;
    }
    if values.len() < value {
        return bytes;
    }
    if SPACE <= place {
        return bytes;
    }
    bytes[place] = values[value - 1];
    bytes
}

// How many inputs were tried, how many of them were refused, and the check over what each was answered.
#[derive(Clone, Copy, Debug, PartialEq, Eq)]
pub struct Tally {
    pub inputs: u64,
    pub refused: u64,
    pub sum: u64,
}

impl Tally {
    pub const NONE: Tally = Tally {
        inputs: 0,
        refused: 0,
        sum: check::START,
    };
}

// A tally with one input more that was refused, or not.
pub fn tried(before: Tally, refused: Option<Refusal>) -> Tally
    ensures { result ≡ tallied before (number_told refused) (place_told refused) }
{
    Tally {
        inputs: before.inputs.wrapping_add(1),
        refused: if check::number_of(refused) == 0 {
            before.refused
        } else {
            before.refused.wrapping_add(1)
        },
        sum: check::answer(before.sum, refused),
    }
}

// A tally with one input more that was answered a number: it goes into the check where a refusal's place would.
pub fn answered(before: Tally, number: u64) -> Tally
    ensures { result ≡ tallied before 0 number }
{
    Tally {
        inputs: before.inputs.wrapping_add(1),
        refused: before.refused,
        sum: check::told(before.sum, 0, number),
    }
}

// The line of a sweep.
pub fn line(rt: &impl Print, tally: Tally) -> io::Result<()> {
    with(rt, b"sweep inputs ", tally.inputs)?;
    with(rt, b" refused ", tally.refused)?;
    with_sum(rt, b" check ", tally.sum)
}

// Each turn of a sweep, whose step is told the turn's bytes and the tally so far; and its line.
pub fn sweep<F: FnMut(&[u8], Tally) -> Tally>(
    rt: &impl Print,
    base: &[u8],
    values: &[u8],
    mut step: F,
) -> io::Result<()>
    requires { F.IsAlwaysCallable step }
{
    let mut tally = Tally::NONE;
    for turn in 0..turns(base.len()) {
        let bytes = turn_bytes(base, values, turn);
        tally = step(&bytes[..turn_length(base.len(), turn)], tally);
    }
    line(rt, tally)
}

// What a sweep tries at each turn: it is told the turn's bytes and the tally so far.
pub trait Step {
    fn tried(&self, bytes: &[u8], before: Tally) -> Tally;
}

// The same, by a step, which a caller need show nothing of.
pub fn sweep_by(rt: &impl Print, base: &[u8], values: &[u8], step: &impl Step) -> io::Result<()> {
    sweep(rt, base, values, |bytes, before| step.tried(bytes, before))
}

#[cfg(test)]
mod tests {
    use super::*;

    // Three places of 32 turns each: the bytes cut there, each value there, and the bytes as they are for the 29 turns without a value.
    #[test]
    fn each_turn_by_a_closure(rt: HostRuntime) -> io::Result<()> {
        let mut turns: u64 = 0;
        let mut bytes_told: usize = 0;
        let mut with_first_value: usize = 0;
        let mut out_of_turn: usize = 0;
        sweep(&rt, b"abc", b"xy", |bytes, before| {
            if before.inputs != turns {
                out_of_turn = out_of_turn.wrapping_add(1);
            }
            if bytes.contains(&b'x') {
                with_first_value = with_first_value.wrapping_add(1);
            }
            turns = turns.wrapping_add(1);
            bytes_told = bytes_told.wrapping_add(bytes.len());
            answered(before, 0)
        })?;
        assert_eq!(rt; turns, 96);
        assert_eq!(rt; bytes_told, 282);
        assert_eq!(rt; with_first_value, 3);
        assert_eq!(rt; out_of_turn, 0);
        Ok(())
    }
}
