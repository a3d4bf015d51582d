// A line read as a call.

ghost use Rattle.std.specs.Prelude.{◌≡◌, ◌%◌, ◌<◌, sum, MatchResult};
ghost use Rattle.frames.specs.Spelling.{DigitRead};
ghost use Rattle.frames.specs.Reading.{LineRefused, Spells, FrameReads, LineRead};

use crate::bytes::{FrameBytes, byte_sum};
use crate::call::Call;
use crate::decode::decode;
use crate::digits::digit;
use crate::fault::{FrameFault, LineFault};

// The value of the digit that stands in a column.
fn digit_in(column: usize, byte: u8) -> Result<u8, LineFault>
    requires { column < 256 }
    ensures { DigitRead column byte result }
{
    digit(byte as char).ok_or(LineFault::NoDigit(column as u8))
}

// The bytes whose digits the line is.
fn bytes_of(line: &[u8]) -> Result<FrameBytes, LineFault>
    ensures { MatchResult result (λ b. Spells line.now b.items) (λ f. LineRefused line.now f) }
{
    let n = line.len();
    if n == 0 || n % 2 == 1 || n > 64 {
        return Err(LineFault::Length(n.min(64) as u8));
    }
    let mut bytes = FrameBytes::new();
    let (pairs, _) = line.as_chunks::<2>();
    for (i, [high, low]) in pairs.iter().enumerate() {
        let high = digit_in(2 * i, *high)?;
        let low = digit_in(2 * i + 1, *low)?;
        bytes.push(16 * high + low);
    }
    Ok(bytes)
}

// The call of a frame whose bytes add to 0.
fn frame_call(frame: &[u8]) -> Result<Call, FrameFault>
    requires { sum frame.now % 256 ≡ 0 }
    ensures { FrameReads frame.now result }
{
    let [code, fields @ .., _] = frame else {
        return Err(FrameFault::Kind);
    };
    decode(*code, fields).ok_or(FrameFault::Kind)
}

// The call that a line makes, or why it makes none: the first rule that it breaks.
pub fn read_call(line: &[u8]) -> Result<Call, FrameFault>
    ensures { LineRead line.now result }
{
    let bytes = bytes_of(line)?;
    let frame = bytes.as_slice();
    if byte_sum(frame) != 0 {
        return Err(FrameFault::Sum(frame.len() as u8 - 1));
    }
    frame_call(frame)
}
