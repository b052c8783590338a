// The listing program: it reads the first 65,536 bytes at most from standard input, treats them as the file, and prints its frames.
#![tactic(auto)]

use items::FrameRead;
use opening::Held;
use refusal::Refusal;
use std::io;

fn print_refused(rt: &impl Print, refusal: Refusal) -> io::Result<()> {
    println!(rt; "refused {}", refusal.number())
}

fn print_frame(rt: &impl Print, i: usize, frame: FrameRead) -> io::Result<()> {
    println!(rt;
        "{i} at {} length {} time {} exposure {}",
        frame.place, frame.length, frame.time, frame.exposure
    )
}

// The file was opened once; each frame is read by its numbers.
fn print_frames(rt: &impl Print, file: &[u8], held: Held) -> io::Result<()> {
    for i in 0..held.frames {
        match items::frame_of(file, held, i as u64) {
            Ok(frame) => print_frame(rt, i, frame)?,
            Err(refusal) => print_refused(rt, refusal)?,
        }
    }
    Ok(())
}

fn list(rt: &impl Print, file: &[u8]) -> io::Result<()> {
    match opening::open(file) {
        Ok(held) => {
            println!(rt; "frames {} sections {}", held.frames, held.sections)?;
            print_frames(rt, file, held)
        }
        Err(refusal) => print_refused(rt, refusal),
    }
}

fn main(rt: HostRuntime) -> io::Result<()> {
    let mut buffer = [0; 65536];
    let n = vector::read_full(&mut rt.stdin(), &mut buffer);
    list(&rt, &buffer[..n])
}
