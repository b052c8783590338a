// Parts of lent bytes: where a part ends, whether two are equal, copying.
#![tactic(auto, using(crate::proofs::Laws::laws))]

ghost use Rattle.std.specs.Prelude.{◌≡◌, ◌+◌, ◌*◌, ◌≤◌, length, take, drop};
ghost use Rattle.layout.specs.Recording.{same};
ghost use Rattle.parts.specs.Parts.{same_part, copied};

// Eight bytes that are there at two places, as numbers: a machine compares them at once.
fn same_eight(a: &[u8], here: usize, b: &[u8], there: usize) -> bool
    requires { (here + 8 ≤ length a.now) × (there + 8 ≤ length b.now) }
    ensures { result ≡ same (take 8 (drop here a.now)) (take 8 (drop there b.now)) }
{
    let end = here + 8;
    let other = there + 8;
    number::read(&a[here..end], 0, 8) == number::read(&b[there..other], 0, 8)
}

fn same_sixteen(a: &[u8], here: usize, b: &[u8], there: usize) -> bool
    requires { (here + 16 ≤ length a.now) × (there + 16 ≤ length b.now) }
    ensures { result ≡ same (take 16 (drop here a.now)) (take 16 (drop there b.now)) }
{
    same_eight(a, here, b, there) & same_eight(a, here + 8, b, there + 8)
}

// So many blocks of sixteen bytes, which are there.
fn same_blocks(a: &[u8], here: usize, b: &[u8], there: usize, blocks: usize) -> bool
    requires { (here + 16 * blocks ≤ length a.now) × (there + 16 * blocks ≤ length b.now) }
    ensures { result ≡ same (take (16 * blocks) (drop here a.now)) (take (16 * blocks) (drop there b.now)) }
{
    let mut i = here;
    let mut j = there;
    for block in 0..blocks {
        if !same_sixteen(a, i, b, j) {
            return false;
        }
        i += 16;
        j += 16;
    }
    true
}

// So many bytes, which are there, one after another.
fn same_bytes(a: &[u8], here: usize, b: &[u8], there: usize, n: usize) -> bool
    requires { (here + n ≤ length a.now) × (there + n ≤ length b.now) }
    ensures { result ≡ same (take n (drop here a.now)) (take n (drop there b.now)) }
{
    a[here..here + n] == b[there..there + n]
}

// Whether the n bytes at two places are the same; false where either part is not all there.
pub fn equal(a: &[u8], here: usize, b: &[u8], there: usize, n: usize) -> bool
    ensures { result ≡ same_part a.now here b.now there n }
{
    if a.len() < n {
        return false;
    }
    if a.len() - n < here {
        return false;
    }
    if b.len() < n {
        return false;
    }
    if b.len() - n < there {
        return false;
    }
    let blocks = n / 16;
    if !same_blocks(a, here, b, there, blocks) {
        return false;
    }
    let done = 16 * blocks;
    same_bytes(a, here + done, b, there + done, n - done)
}

// Copies n bytes; nothing where either part is not all there.
pub fn copy(from: &[u8], start: usize, to: &mut [u8], at: usize, n: usize)
    ensures { to.new ≡ copied from.now start to.old at n }
{
    if from.len() < n {
        return;
    }
    if from.len() - n < start {
        return;
    }
    if to.len() < n {
        return;
    }
    if to.len() - n < at {
        return;
    }
    // by a loop: the toolchain's own copy would have the library ask for one more function of C's
    for i in 0..n {
        to[at + i] = from[start + i];
    }
}

// Where bytes break their rule.
#[derive(Clone, Copy, Debug, PartialEq, Eq)]
pub struct Fault {
    pub place: usize,
}
