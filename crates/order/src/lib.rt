// Names in order: the seat of one among places that are kept in the order of their names, and a place put there. Names are compared as numbers.
#![tactic(auto, using(crate::proofs::Laws::laws))]

ghost use Rattle.std.specs.Prelude.{◌≡◌, ◌+◌, ◌<◌, ◌≤◌, length, take, drop};
ghost use Rattle.number.specs.Number.{number_of};
ghost use Rattle.order.specs.Order.{key, name_at, turn_of, seek, inserted};

use std::cmp::Ordering;

// Eight bytes that are there, as a number: a machine reads them at once.
fn word(s: &[u8], at: usize) -> u64
    requires { at + 8 ≤ length s.now }
    ensures { result ≡ number_of (take 8 (drop at s.now)) }
{
    let end = at + 8;
    number::read(&s[at..end], 0, 8)
}

// Two names of n bytes that are there, from the last byte on: it weighs most.
fn by_bytes(s: &[u8], here: usize, there: usize, n: usize) -> Ordering
    requires { (here + n ≤ length s.now) × (there + n ≤ length s.now) }
    ensures { result ≡ turn_of (key (take n (drop here s.now))) (key (take n (drop there s.now))) }
{
    for left in (0..n).rev() {
        let x = s[here + left];
        let y = s[there + left];
        if x != y {
            return x.cmp(&y);
        }
    }
    Ordering::Equal
}

// The same by words of eight bytes: long names that begin alike cost little.
fn by_words(s: &[u8], here: usize, there: usize, n: usize) -> Ordering
    requires { (here + n ≤ length s.now) × (there + n ≤ length s.now) }
    ensures { result ≡ turn_of (key (take n (drop here s.now))) (key (take n (drop there s.now))) }
{
    for passed in 0..n / 8 {
        let left = n - 8 * passed - 8;
        let x = word(s, here + left);
        let y = word(s, there + left);
        if x != y {
            return x.cmp(&y);
        }
    }
    by_bytes(s, here, there, n % 8)
}

// How many bytes the name at a place has; none where it is not all there.
fn long(s: &[u8], at: usize) -> usize
    ensures { result ≡ length (name_at s.now at) }
{
    strings::string(s, at).unwrap_or(0)
}

// How the name at one place stands to the name at another: a shorter one comes first.
fn compare(s: &[u8], here: usize, there: usize) -> Ordering
    ensures { result ≡ turn_of (key (name_at s.now here)) (key (name_at s.now there)) }
{
    let n = long(s, here);
    let m = long(s, there);
    if n != m {
        return n.cmp(&m);
    }
    if n == 0 {
        return Ordering::Equal;
    }
    by_words(s, here + 1, there + 1, n)
}

// The seat of the name at a place among the names at the first `count` of these places, which stand in the order of their names; nothing where one of
// those names equals it, or there are not so many.
pub fn seek(s: &[u8], places: &[usize], count: usize, place: usize) -> Option<usize>
    ensures { result ≡ seek s.now places.now count place }
{
    if places.len() < count {
        return None;
    }
    let mut low = 0;
    let mut high = count;
    while low < high {
        let middle = low + (high - low) / 2;
        match compare(s, place, places[middle]) {
            Ordering::Less => high = middle,
            Ordering::Greater => low = middle + 1,
            Ordering::Equal => return None,
        }
    }
    Some(low)
}

// Puts a place at its seat among the first `count`: those from there on move up by one. Nothing where there is no room, or no such seat.
pub fn insert(places: &mut [usize], count: usize, seat: usize, place: usize)
    ensures { places.new ≡ inserted places.old count seat place }
{
    if places.len() <= count {
        return;
    }
    if count < seat {
        return;
    }
    // by a loop: the toolchain's own copy would have the library ask for one more function of C's
    for i in (seat..count).rev() {
        places[i + 1] = places[i];
    }
    places[seat] = place;
}
