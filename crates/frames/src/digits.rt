// The digits of a line: 0 to 9 and A to F, two to a byte.

ghost use Rattle.std.specs.Prelude.{◌≡◌};
ghost use Rattle.frames.specs.Digits.{digit_of};

// The value of a digit: `char::to_digit` would take small letters too.
pub fn digit(c: char) -> Option<u8>
    ensures { result ≡ digit_of c }
{
    match c {
        '0'..='9' => Some(c as u8 - b'0'),
        'A'..='F' => Some(c as u8 - b'A' + 10),
        _ => None,
    }
}
