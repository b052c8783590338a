// Short strings over lent bytes, and the classes of bytes that names and values have.
#![tactic(auto, using(crate::proofs::Laws::laws, crate::proofs::Blocks::laws, crate::proofs::Faults::laws))]

ghost use Rattle.std.specs.Prelude.{◌≡◌, ◌+◌, ◌*◌, ◌<◌, ◌≤◌, length, take, drop};
ghost use Rattle.layout.specs.Recording.{is_name_byte, is_tag_byte, every};
ghost use Rattle.layout.specs.Reading.{string, outside, string_fault, section_name, tag_name, tag_value};
ghost use Rattle.strings.specs.Strings.{in_class, text_by, text_of, short_of, read_by};

use parts::Fault;

// Which bytes a short string may have.
#[derive(Clone, Copy, Debug, PartialEq, Eq)]
enum Class {
    Name,
    Tag,
}

// "each a digit, a capital or a small letter"
fn is_name_byte(b: u8) -> bool
    ensures { result ≡ is_name_byte b }
{
    match b {
        48..=57 => true,
        65..=90 => true,
        97..=122 => true,
        _ => false,
    }
}

// "Bytes 32 to 126 only"
fn is_tag_byte(b: u8) -> bool
    ensures { result ≡ is_tag_byte b }
{
    match b {
        32..=126 => true,
        _ => false,
    }
}

fn in_class(b: u8, class: Class) -> bool
    ensures { result ≡ in_class class b }
{
    match class {
        Class::Name => is_name_byte(b),
        Class::Tag => is_tag_byte(b),
    }
}

// "A short string is one length byte and that many bytes." The bytes start behind the length byte.
pub fn string(s: &[u8], at: usize) -> Option<usize>
    ensures { result ≡ text_of (string (drop at s.now)) }
{
    let n = *s.get(at)? as usize;
    if s.len() - at <= n {
        return None;
    }
    Some(n)
}

// Whether n bytes, which are there, are all of a class: one after another.
fn bytes_in_class(s: &[u8], at: usize, n: usize, class: Class) -> bool
    requires { at + n ≤ length s.now }
    ensures { result ≡ every (in_class class) (take n (drop at s.now)) }
{
    s[at..at + n].iter().all(|b| in_class(*b, class))
}

// Blocks of bytes that a tag may have are tested with no early exit: so a machine tests the bytes of one at once.
fn tag_block<const N: usize>(s: &[u8], at: usize) -> bool
    requires { at + N ≤ length s.now }
    ensures { result ≡ every is_tag_byte (take N (drop at s.now)) }
{
    let mut all = true;
    for b in &s[at..at + N] {
        all &= is_tag_byte(*b);
    }
    all
}

// Up to three bytes, which are there: the first, the middle one and the last are all.
fn few_tag_bytes(s: &[u8], at: usize, n: usize) -> bool
    requires { (n < 4) × (at + n ≤ length s.now) }
    ensures { result ≡ every is_tag_byte (take n (drop at s.now)) }
{
    if n == 0 {
        return true;
    }
    is_tag_byte(s[at]) & is_tag_byte(s[at + n / 2]) & is_tag_byte(s[at + (n - 1)])
}

// So many blocks of sixteen bytes, which are there.
fn blocks_of_tag_bytes(s: &[u8], at: usize, blocks: usize) -> bool
    requires { at + 16 * blocks ≤ length s.now }
    ensures { result ≡ every is_tag_byte (take (16 * blocks) (drop at s.now)) }
{
    for block in 0..blocks {
        if !tag_block::<16>(s, at + 16 * block) {
            return false;
        }
    }
    true
}

// Whether n bytes, which are there, are all bytes that a tag may have. The last block ends with them, over the one ahead of it: so no byte is tested
// alone.
fn tag_bytes(s: &[u8], at: usize, n: usize) -> bool
    requires { at + n ≤ length s.now }
    ensures { result ≡ every is_tag_byte (take n (drop at s.now)) }
{
    if n < 4 {
        return few_tag_bytes(s, at, n);
    }
    if n < 8 {
        return tag_block::<4>(s, at) & tag_block::<4>(s, at + (n - 4));
    }
    if n < 16 {
        return tag_block::<8>(s, at) & tag_block::<8>(s, at + (n - 8));
    }
    blocks_of_tag_bytes(s, at, n / 16) & tag_block::<16>(s, at + (n - 16))
}

// Whether n bytes, which are there, are all of a class. Section names are at most eight, and tested byte by byte.
fn all_in_class(s: &[u8], at: usize, n: usize, class: Class) -> bool
    requires { at + n ≤ length s.now }
    ensures { result ≡ every (in_class class) (take n (drop at s.now)) }
{
    match class {
        Class::Name => bytes_in_class(s, at, n, class),
        Class::Tag => tag_bytes(s, at, n),
    }
}

// How many bytes the short string of a class at a place has, where there is one with at least so many bytes, all of that class.
fn text_length(s: &[u8], at: usize, least: usize, class: Class) -> Option<usize>
    ensures { result ≡ text_of (text_by least class (drop at s.now)) }
{
    let n = string(s, at)?;
    if n < least {
        return None;
    }
    if all_in_class(s, at + 1, n, class) {
        Some(n)
    } else {
        None
    }
}

pub fn section_name(s: &[u8], at: usize) -> Option<usize>
    ensures { result ≡ text_of (section_name (drop at s.now)) }
{
    text_length(s, at, 1, Class::Name)
}

pub fn tag_name(s: &[u8], at: usize) -> Option<usize>
    ensures { result ≡ text_of (tag_name (drop at s.now)) }
{
    text_length(s, at, 1, Class::Tag)
}

pub fn tag_value(s: &[u8], at: usize) -> Option<usize>
    ensures { result ≡ text_of (tag_value (drop at s.now)) }
{
    text_length(s, at, 0, Class::Tag)
}

// ── Where a short string broke ──

// The place of the first of n bytes, which are there, that is of no such class; behind them where there is none.
fn first_outside(s: &[u8], at: usize, n: usize, class: Class) -> usize
    requires { at + n ≤ length s.now }
    ensures { result ≡ at + outside (in_class class) (take n (drop at s.now)) }
{
    let first = s[at..at + n].iter().position(|b| !in_class(*b, class));
    at + first.unwrap_or(n)
}

// "the position in the lent bytes [..] of the first byte that breaks its rule, or their length if bytes ran out". Asked of a string that is refused.
fn text_fault(s: &[u8], at: usize, least: usize, class: Class) -> usize
    ensures { result ≡ at + string_fault least (in_class class) (drop at s.now) }
{
    let Some(first) = s.get(at) else {
        return at;
    };
    let n = *first as usize;
    if n < least {
        return at;
    }
    let there = s.len() - at - 1;
    if there < n {
        return first_outside(s, at + 1, there, class);
    }
    first_outside(s, at + 1, n, class)
}

fn text_or_fault(s: &[u8], at: usize, least: usize, class: Class) -> Result<usize, Fault>
    ensures { result ≡ short_of at (text_by least class (drop at s.now)) }
{
    text_length(s, at, least, class).ok_or_else(|| Fault {
        place: text_fault(s, at, least, class),
    })
}

// Which short string is read.
#[derive(Clone, Copy, Debug, PartialEq, Eq)]
pub enum Rule {
    SectionName,
    TagName,
    TagValue,
}

// A short string by its rule: its number of bytes; or the place where it broke.
pub fn read(s: &[u8], at: usize, rule: Rule) -> Result<usize, Fault>
    ensures { result ≡ short_of at (read_by rule (drop at s.now)) }
{
    match rule {
        Rule::SectionName => text_or_fault(s, at, 1, Class::Name),
        Rule::TagName => text_or_fault(s, at, 1, Class::Tag),
        Rule::TagValue => text_or_fault(s, at, 0, Class::Tag),
    }
}
