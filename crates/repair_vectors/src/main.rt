// The vectors of repair: runs those that its arguments name, and prints a line for each.
// tests/VECTORS.md says what a vector holds and how its line reads.
#![tactic(auto)]

use refusal::Refusal;
use repair::Repaired;
use std::io;
use vector::lend::lent;
use vector::print::{no_vector, refused, with, with_check};
use vector::sweep::{Step, Tally, sweep_by};
use vector::{Program, counted};

const REPAIR: u8 = b'r';

const SWEEP: u8 = b'R';

fn kept(rt: &impl Print, answer: Result<Repaired, Refusal>) -> io::Result<()> {
    match answer {
        Ok(repaired) => {
            with(rt, b"repaired kept ", repaired.kept as u64)?;
            with(rt, b" count ", repaired.count as u64)?;
            with(rt, b" index ", repaired.index as u64)?;
            with(rt, b" user ", repaired.user as u64)?;
            with(rt, b" tail ", repaired.tail as u64)
        }
        Err(refusal) => refused(rt, refusal),
    }
}

fn repaired(rt: &impl Print, file: &[u8], out: &mut [u8]) -> io::Result<()> {
    kept(rt, repair::repair(file, out))?;
    with_check(rt, b" out ", out)
}

fn repair(rt: &impl Print, fields: &[u8]) -> io::Result<()> {
    let Some((room, file)) = fields.split_at_checked(2) else {
        return no_vector(rt);
    };
    let mut space = lent(0x5A);
    match space.get_mut(..number::read(room, 0, 2) as usize) {
        Some(out) => repaired(rt, file, out),
        None => Ok(()),
    }
}

struct Repairing;

impl Step for Repairing {
    fn tried(&self, file: &[u8], before: Tally) -> Tally {
        let mut out = [0; 512];
        vector::sweep::tried(before, repair::repair(file, &mut out).err())
    }
}

// The values of a sweep, and behind them the file.
fn swept(rt: &impl Print, fields: &[u8]) -> io::Result<()> {
    let Some((values, base)) = counted(fields, 1) else {
        return no_vector(rt);
    };
    sweep_by(rt, base, values, &Repairing)
}

// The call that a vector holds is told by its first byte.
struct Vectors;

impl Program for Vectors {
    fn answer(rt: &impl Print, vector: &[u8]) -> io::Result<()> {
        match vector.split_first() {
            Some((&REPAIR, fields)) => repair(rt, fields),
            Some((&SWEEP, fields)) => swept(rt, fields),
            _ => no_vector(rt),
        }
    }
}

fn main(rt: HostRuntime) -> io::Result<()> {
    vector::each_by::<Vectors, HostRuntime>(&rt)
}
