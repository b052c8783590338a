// What is lent to a call: bytes that are all alike before it.
ghost use Rattle.std.specs.Prelude.{◌≡◌, length, replicate};

// The length stands beside the bytes: lending the array as a slice asks for it.
pub fn lent(byte: u8) -> [u8; 65536]
    ensures { (result ≡ replicate 65536 byte) × (65536 ≡ length result) }
{
    [byte; 65536]
}
