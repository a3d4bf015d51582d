// The bytes of a frame, and what they add to.

ghost use Rattle.std.specs.Prelude.{◌≡◌, ◌%◌, sum};

use arrayvec::ArrayVec;

// At most 32 bytes: a line has at most 64 characters.
pub(crate) type FrameBytes = ArrayVec<u8, 32>;

// What the bytes add to, modulo 256.
pub(crate) fn byte_sum(bytes: &[u8]) -> u8
    ensures { result ≡ sum bytes.now % 256 }
{
    bytes
        .iter()
        .fold(0, |total: u8, byte| total.wrapping_add(*byte))
}
