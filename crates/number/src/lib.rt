// Little-endian numbers of any width up to eight bytes, and Int64 by its 64-bit pattern.
#![tactic(auto, using(crate::proofs::Laws::laws))]

ghost use Rattle.std.specs.Prelude.{◌≡◌, ◌+◌, ◌<◌, ◌≤◌, length, take, drop, get_or};
ghost use Rattle.std.specs.Int.{w64};
ghost use Rattle.std.proofs.Common.{of_z, to_z};
ghost use Rattle.number.specs.Number.{read_at, write_at, rank};

// The byte `i` of a number of `w` bytes that are there; 0 behind its last one.
fn byte(s: &[u8], at: usize, w: usize, i: usize) -> u64
    requires { at + w ≤ length s.now }
    ensures { (result ≡ get_or (take w (drop at s.now)) i 0) × (result < 256) }
{
    if w <= i {
        return 0;
    }
    s[at + i] as u64
}

// The number of `w` bytes at a place, the low byte first; 0 where they are not all there, or more than eight.
pub fn read(s: &[u8], at: usize, w: usize) -> u64
    ensures { result ≡ read_at s.now at w }
{
    if 8 < w {
        return 0;
    }
    if s.len() < w {
        return 0;
    }
    if s.len() - w < at {
        return 0;
    }
    byte(s, at, w, 0)
        + byte(s, at, w, 1) * 0x100
        + byte(s, at, w, 2) * 0x1_0000
        + byte(s, at, w, 3) * 0x100_0000
        + byte(s, at, w, 4) * 0x1_0000_0000
        + byte(s, at, w, 5) * 0x100_0000_0000
        + byte(s, at, w, 6) * 0x1_0000_0000_0000
        + byte(s, at, w, 7) * 0x100_0000_0000_0000
}

// Stores the low `w` bytes of `n` at a place, where there is room for them.
pub fn write(out: &mut [u8], at: usize, w: usize, n: u64)
    ensures { out.new ≡ write_at out.old at w n }
{
    if out.len() < w {
        return;
    }
    if out.len() - w < at {
        return;
    }
    let mut rest = n;
    for i in 0..w {
        out[at + i] = (rest % 256) as u8;
        rest /= 256;
    }
}

// The 64-bit pattern of an Int64.
pub fn pattern_of(time: i64) -> u64
    ensures { result ≡ of_z w64 time }
{
    time.cast_unsigned()
}

// The Int64 of a 64-bit pattern.
pub fn time_of(pattern: u64) -> i64
    ensures { result ≡ to_z w64 pattern }
{
    pattern.cast_signed()
}

// How far a time stands from the least Int64: times are compared and subtracted as these.
pub fn rank_of(pattern: u64) -> u64
    ensures { result ≡ rank pattern }
{
    pattern.wrapping_add(0x8000_0000_0000_0000)
}
