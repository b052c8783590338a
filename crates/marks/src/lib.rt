// Marks of names. Equal names have equal marks, so a name whose mark is not set is none of those that were marked, and needs no search.
#![tactic(auto, using(crate::proofs::Laws::laws))]

ghost use Rattle.std.specs.Prelude.{◌≡◌, ◌+◌, ◌*◌, ◌^◌, ◌<◌, ◌≤◌, length, take, drop};
ghost use Rattle.number.specs.Number.{number_of};
ghost use Rattle.marks.specs.Marks.{mix, mix_words, mix_bytes, mark_of, has_bit, with_bits, with_mark, has_bits, is_marked};

// How many words hold marks.
pub const MARKS: usize = 512;

// The marks that there are.
const ALL: usize = 0x100_0000_0000;

// One more word or byte mixed in: names that differ in few places rarely share a mark.
fn mix(mark: usize, word: usize) -> usize
    requires { (mark < 2 ^ 40) × (word < 2 ^ 32) }
    ensures { (result ≡ mix mark word) × (result < 2 ^ 40) }
{
    (mark * 11400715 + word) % ALL
}

// Four bytes that are there, as a number: a machine reads them at once.
fn word(s: &[u8], at: usize) -> usize
    requires { at + 4 ≤ length s.now }
    ensures { (result ≡ number_of (take 4 (drop at s.now))) × (result < 2 ^ 32) }
{
    let high = s[at + 2] as usize + 256 * s[at + 3] as usize;
    s[at] as usize + 256 * (s[at + 1] as usize + 256 * high)
}

// So many words of four bytes, which are there.
fn mix_words(s: &[u8], at: usize, words: usize) -> usize
    requires { at + 4 * words ≤ length s.now }
    ensures { (result ≡ mix_words words 0 (drop at s.now)) × (result < 2 ^ 40) }
{
    let mut mark = 0;
    for k in 0..words {
        mark = mix(mark, word(s, at + 4 * k));
    }
    mark
}

// So many bytes, which are there.
fn mix_bytes(s: &[u8], at: usize, n: usize) -> usize
    requires { at + n ≤ length s.now }
    ensures { (result ≡ mix_bytes 0 (take n (drop at s.now))) × (result < 2 ^ 40) }
{
    let mut mark = 0;
    for b in &s[at..at + n] {
        mark = mix(mark, *b as usize);
    }
    mark
}

// The mark of n bytes at a place; 0 where they are not all there.
pub fn mark_of(s: &[u8], at: usize, n: usize) -> usize
    ensures { result ≡ mark_of s.now at n }
{
    if s.len() < n {
        return 0;
    }
    if s.len() - n < at {
        return 0;
    }
    if n < 4 {
        return mix(mix(mix_bytes(s, at, n), n % 256), 0);
    }
    let words = mix_words(s, at, n / 4);
    let all = mix(words, word(s, at + (n - 4)));
    mix(mix(all, n % 256), 0)
}

fn bit(k: usize) -> u64
    requires { k < 64 }
    ensures { result ≡ 2 ^ k }
{
    1 << k
}

fn has_bit(word: u64, k: usize) -> bool
    requires { k < 64 }
    ensures { result ≡ has_bit word k }
{
    (word >> k) % 2 == 1
}

// A word with the bits of a mark.
fn with_bits(word: u64, m: usize) -> u64
    ensures { result ≡ with_bits word m }
{
    word | bit(m / 0x200_0000 % 64) | bit(m / 0x8_0000 % 64) | bit(m / 0x2000 % 64)
}

fn has_bits(word: u64, m: usize) -> bool
    ensures { result ≡ has_bits word m }
{
    if !has_bit(word, m / 0x200_0000 % 64) {
        return false;
    }
    if !has_bit(word, m / 0x8_0000 % 64) {
        return false;
    }
    has_bit(word, m / 0x2000 % 64)
}

// Sets a mark; nothing where there are no words for it.
pub fn mark(marks: &mut [u64], m: usize)
    ensures { marks.new ≡ with_mark marks.old m }
{
    if marks.len() < MARKS {
        return;
    }
    if ALL <= m {
        return;
    }
    let at = m / 0x8000_0000;
    marks[at] = with_bits(marks[at], m);
}

// Whether a mark may have been set: false only where it was not.
pub fn marked(marks: &[u64], m: usize) -> bool
    ensures { result ≡ is_marked marks.now m }
{
    if marks.len() < MARKS {
        return true;
    }
    if ALL <= m {
        return true;
    }
    has_bits(marks[m / 0x8000_0000], m)
}
