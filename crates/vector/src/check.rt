// FNV-1a over bytes, to hold many of them in one number.
ghost use Rattle.std.specs.Prelude.{◌≡◌, ◌*◌, ◌%◌, ◌^◌};
ghost use Rattle.vector.specs.Check.{number_told, place_told, with_answer, with_byte, with_bytes};

use refusal::Refusal;

pub const START: u64 = 14695981039346656037;

// 2^40 + 435
const PRIME: u64 = 1099511628211;

// A check with one byte behind it.
pub fn byte(h: u64, b: u8) -> u64
    ensures { result ≡ with_byte h b }
{
    (h ^ b as u64).wrapping_mul(PRIME)
}

// A check with bytes behind it.
pub fn bytes(h: u64, s: &[u8]) -> u64
    ensures { result ≡ with_bytes h s.now }
{
    let mut sum = h;
    for b in s {
        sum = byte(sum, *b);
    }
    sum
}

// A check with a number in one byte behind it, and another in eight.
pub fn told(h: u64, number: u8, place: u64) -> u64
    ensures { result ≡ with_answer h number place }
{
    let mut eight = [0; 8];
    number::write(&mut eight, 0, 8, place);
    bytes(byte(h, number), &eight)
}

// The number of a refusal, 0 for none.
pub(crate) fn number_of(refused: Option<Refusal>) -> u8
    ensures { result ≡ number_told refused }
{
    match refused {
        Some(refusal) => refusal.number(),
        None => 0,
    }
}

// A check with an answer behind it: the number of a refusal, 0 for none, and the place that it carries.
pub fn answer(h: u64, refused: Option<Refusal>) -> u64
    ensures { result ≡ with_answer h (number_told refused) (place_told refused) }
{
    match refused {
        Some(refusal) => told(h, refusal.number(), refusal.place() as u64),
        None => told(h, 0, 0),
    }
}
