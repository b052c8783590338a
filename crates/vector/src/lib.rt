// What the programs that run vectors share: the vector that an argument names, the check over bytes, the bytes lent to a call, the turns and the tally of a
// sweep, and the words of a line.
#![tactic(auto, using(crate::proofs::Laws::laws))]

pub mod check;
pub mod lend;
pub mod print;
pub mod sweep;

ghost use Rattle.std.specs.Prelude.{◌≡◌, ◌≤◌, IfOk, length, take};
ghost use Rattle.vector.specs.Fields.{shown, counted_of};

use print::say;
use std::env::FillError;
use std::io::Read;
use std::rt::{Env, Files};
use std::{fs, io, str};

// A longer name of a file is none.
const LONGEST_NAME: usize = 4096;

// How many arguments there are, the program's name among them.
pub fn arguments(rt: &impl Env) -> usize {
    let mut name = [0; LONGEST_NAME];
    for i in 0..usize::MAX {
        if let Err(FillError::NotPresent) = rt.arg(i, &mut name) {
            return i;
        }
    }
    usize::MAX
}

// Reads until the space is full, the input ends or a read fails, and answers how many bytes it put at the start of the space.
pub fn read_full<F: Read>(input: &mut F, space: &mut [u8]) -> usize
    ensures { (result ≤ length space.new) × (result ≡ length (take result space.new)) }
{
    let mut done = 0;
    while done < space.len() {
        let Ok(n) = input.read(&mut space[done..]) else {
            return done;
        };
        if n == 0 {
            return done;
        }
        done += n;
    }
    done
}

fn no_file(rt: &impl Print) -> io::Result<usize>
    ensures { IfOk result (λ n. n ≡ 0) }
{
    say(rt, b"no file, ")?;
    Ok(0)
}

// The bytes behind a length of so many bytes, in two: as many as it says, and the rest.
pub fn counted(fields: &[u8], width: usize) -> Option<(&[u8], &[u8])>
    ensures { shown result ≡ counted_of fields.now width }
{
    let (_length, given) = fields.split_at_checked(width)?;
    given.split_at_checked(number::read(fields, 0, width) as usize)
}

// Begins the line of the vector that an argument names, and reads its file: so many bytes of the space hold it.
pub fn read<R: Env + Files + Print>(rt: &R, argument: usize, space: &mut [u8]) -> io::Result<usize>
    ensures { IfOk result (λ n. (n ≤ length space.new) × (n ≡ length (take n space.new))) }
{
    let mut path = [0; LONGEST_NAME];
    let n = match rt.arg(argument, &mut path) {
        Ok(n) => n,
        Err(_) => 0,
    };
    let name = &path[..n];
    say(rt, name)?;
    say(rt, b": ")?;
    let Ok(text) = str::from_utf8(name) else {
        return no_file(rt);
    };
    let Ok(mut file) = fs::open(rt, text) else {
        return no_file(rt);
    };
    Ok(read_full(&mut file, space))
}

// Answers each vector that the arguments name: a line for each.
pub fn each<R: Env + Files + Print, F: FnMut(&[u8]) -> io::Result<()>>(
    rt: &R,
    mut answer: F,
) -> io::Result<()>
    requires { F.IsAlwaysCallable answer }
{
    for argument in 1..arguments(rt) {
        let mut space = lend::lent(0);
        let n = read(rt, argument, &mut space)?;
        answer(&space[..n])?;
        say(rt, b"\n")?;
    }
    Ok(())
}

// A program that runs vectors. By a trait, and by no closure: of a closure a caller has to show that it may be called.
pub trait Program {
    // The call that a vector holds, and what the line says of it.
    fn answer(rt: &impl Print, vector: &[u8]) -> io::Result<()>;
}

// The same, by a program, which a caller need show nothing of.
pub fn each_by<P: Program, R: Env + Files + Print>(rt: &R) -> io::Result<()> {
    each(rt, |vector| P::answer(rt, vector))
}

#[cfg(test)]
mod tests {
    use super::*;

    // A closure may count, which a program cannot; and its error comes out. A test is run with an argument, which names no file.
    #[test]
    fn each_argument_by_a_closure(rt: HostRuntime) -> io::Result<()> {
        let mut vectors: usize = 0;
        each(&rt, |_vector| {
            vectors = vectors.wrapping_add(1);
            Ok(())
        })?;
        assert_ne!(rt; vectors, 0);
        assert_eq!(rt; vectors.wrapping_add(1), arguments(&rt));
        let broken = each(&rt, |_vector| Err(io::Error::from(io::ErrorKind::Other)));
        assert!(rt; broken.is_err());
        Ok(())
    }
}
