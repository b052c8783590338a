// What the lines are made of. Each call answers whether what it wrote was taken.
use refusal::Refusal;
use std::io;

pub fn say(rt: &impl Print, text: &[u8]) -> io::Result<()> {
    rt.write_all(text)
}

pub fn no_vector(rt: &impl Print) -> io::Result<()> {
    say(rt, b"no vector")
}

// A word and a number behind it.
pub fn with(rt: &impl Print, word: &[u8], n: u64) -> io::Result<()> {
    say(rt, word)?;
    rt.print(n)
}

// The same with an Int64.
pub fn with_time(rt: &impl Print, word: &[u8], time: i64) -> io::Result<()> {
    say(rt, word)?;
    rt.print(time)
}

// A refusal's number, and its place where it carries one.
pub fn refused(rt: &impl Print, refusal: Refusal) -> io::Result<()> {
    rt.print(refusal)
}

pub fn hex(rt: &impl Print, bytes: &[u8]) -> io::Result<()> {
    for b in bytes {
        print!(rt; "{b:02x}")?;
    }
    Ok(())
}

// A word and a check, sixteen digits.
pub fn with_sum(rt: &impl Print, word: &[u8], sum: u64) -> io::Result<()> {
    say(rt, word)?;
    print!(rt; "{sum:016x}")
}

// The same with the check of bytes.
pub fn with_check(rt: &impl Print, word: &[u8], bytes: &[u8]) -> io::Result<()> {
    with_sum(rt, word, crate::check::bytes(crate::check::START, bytes))
}
