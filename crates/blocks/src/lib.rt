// Frames on card blocks: what the system tag FRAME-ALIGN says, the space up to the next block, and where a frame may start behind it.
#![tactic(auto, using(crate::proofs::Laws::laws), unfolding(number::specs::Number::has, layout::specs::Recording::same, crate::specs::Blocks::legal_align, crate::specs::Blocks::gap, crate::specs::Blocks::gap_by, crate::specs::Blocks::zeros_at, crate::specs::Blocks::start_at, crate::specs::Blocks::start_behind, crate::specs::Blocks::is_align_name,))]

ghost use Rattle.std.specs.Prelude.{◌≡◌, ◌<◌, cond, eqb, Some, None};
ghost use Rattle.blocks.specs.Blocks.{legal_align, gap, gap_by, zeros_at, start_at, is_align_name, block_at};

use header::Header;

// Whether there is such an alignment: 1, where frames stand close together, 512 or 4,096.
pub fn is_legal(align: u64) -> bool
    ensures { result ≡ legal_align align }
{
    align == 1 || align == Header::SMALL_BLOCK as u64 || align == Header::LARGE_BLOCK as u64
}

// The bytes from a place to the next multiple of a block, which is a constant, so that no division is left.
fn to_multiple<const BLOCK: usize>(at: usize) -> usize
    requires { 0 < BLOCK }
    ensures { result ≡ gap BLOCK at }
{
    (BLOCK - at % BLOCK) % BLOCK
}

// The bytes from a place to the next multiple; none for an alignment that there is not.
pub fn gap(align: usize, at: usize) -> usize
    ensures { result ≡ gap_by align at }
{
    match align {
        Header::SMALL_BLOCK => to_multiple::<{ Header::SMALL_BLOCK }>(at),
        Header::LARGE_BLOCK => to_multiple::<{ Header::LARGE_BLOCK }>(at),
        _ => 0,
    }
}

// Whether n bytes stand at a place and all are zeros: the first is, and each is as the one ahead of it. So they are compared in blocks, which a chain over
// single bytes would not be.
pub fn are_zeros(s: &[u8], at: usize, n: usize) -> bool
    ensures { result ≡ zeros_at s.now at n }
{
    if s.len() < n {
        return false;
    }
    if s.len() - n < at {
        return false;
    }
    if n == 0 {
        return true;
    }
    if s[at] != 0 {
        return false;
    }
    parts::equal(s, at, s, at + 1, n - 1)
}

// Where the frame behind a place may start: at the next multiple; at the end of the bytes, where no frame stands, if a byte skipped is not zero.
pub fn start(file: &[u8], at: usize, align: usize) -> usize
    ensures { result ≡ start_at file.now at align }
{
    let skipped = gap(align, at);
    if skipped == 0 {
        return at;
    }
    if are_zeros(file, at, skipped) {
        return at + skipped;
    }
    file.len()
}

// Whether n bytes stand at a place and are the name FRAME-ALIGN.
pub fn is_name(s: &[u8], at: usize, n: usize) -> bool
    ensures { result ≡ is_align_name s.now at n }
{
    if n != 11 {
        return false;
    }
    if s.len() < 11 {
        return false;
    }
    if s.len() - 11 < at {
        return false;
    }
    number::read(s, at, 8) == Header::ALIGN_NAME
        && number::read(s, at + 8, 3) == Header::ALIGN_NAME_END
}

// A block, where the number of a value is the number that says it.
fn said(value: u64, says: u64, block: usize) -> Option<usize>
    ensures { result ≡ cond (eqb value says) (Some block) None }
{
    (value == says).then_some(block)
}

// The block that a value of n bytes at a place says, 512 or 4,096; none where it says another, or is not all there.
pub fn block(s: &[u8], at: usize, n: usize) -> Option<usize>
    ensures { result ≡ block_at s.now at n }
{
    match n {
        3 => said(
            number::read(s, at, 3),
            Header::SMALL_BLOCK_SAID,
            Header::SMALL_BLOCK,
        ),
        4 => said(
            number::read(s, at, 4),
            Header::LARGE_BLOCK_SAID,
            Header::LARGE_BLOCK,
        ),
        _ => None,
    }
}
