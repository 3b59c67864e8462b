// One byte of a line's digits.
ghost use Rattle.std.specs.Prelude.{◌≡◌, true};
ghost use Rattle.lines.specs.Reading.{one_more, with_digit, digit_step};

use crate::Line;

// A byte after a minus, or with none before it.
pub(crate) fn digit_taken(line: Line, byte: u8) -> Line
    ensures { result ≡ digit_step line byte }
{
    if one_more(line, byte) {
        with_digit(line, byte)
    } else {
        Line {
            begun: true,
            other: true,
            ..line
        }
    }
}

// Whether a byte is one more digit.
fn one_more(line: Line, byte: u8) -> bool
    ensures { result ≡ one_more line byte }
{
    !line.other && byte.is_ascii_digit() && line.digits < 8 && line.value < 10000000
}

// The line with one more digit.
fn with_digit(line: Line, byte: u8) -> Line
    requires { one_more line byte ≡ true }
    ensures { result ≡ with_digit line byte }
{
    Line {
        begun: true,
        digits: line.digits + 1,
        value: line.value * 10 + u32::from(byte - b'0'),
        other: false,
        ..line
    }
}
