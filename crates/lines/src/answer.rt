// A line's answer put into a room, and what one byte of input does.
ghost use Rattle.std.specs.Prelude.{◌≡◌, not, ◌+◌, ◌≤◌, length};
ghost use Rattle.code.specs.Meaning.{largest};
ghost use Rattle.lines.specs.Reading.{answer_of, known, sound};
ghost use Rattle.lines.specs.Meaning.{enough};
ghost use Rattle.lines.specs.Running.{next_line, says, waits};
ghost use Rattle.lines.specs.Texts.{Put};

use crate::text::{put_number, put_text};
use crate::{ENOUGH, Line, fresh_line, with_byte};
use code::LARGEST;

// What a line that is refused prints.
const REFUSED: &[u8; 10] = b"refused 8\n";

// What is known after a byte: a newline begins a fresh line.
pub(crate) fn next_line(line: Line, byte: u8) -> Line
    ensures { result ≡ next_line line byte }
{
    if byte == b'\n' {
        fresh_line()
    } else {
        with_byte(line, byte)
    }
}

// Whether a byte may be taken now: a newline whose answer might not fit may not.
pub(crate) fn may_go(byte: u8, put: usize, size: usize) -> bool
    requires { put ≤ size }
    ensures { result ≡ not (waits size put byte) }
{
    byte != b'\n' || ENOUGH <= size - put
}

// Puts what a byte prints.
pub(crate) fn put_said(room: &mut [u8], at: usize, line: Line, byte: u8) -> usize
    requires { (at ≤ length room.old) × (byte ≡ 10 → at + enough ≤ length room.old) }
    ensures { Put room.old at (says line byte) result room.new }
{
    if byte == b'\n' {
        put_line(room, at, line)
    } else {
        at
    }
}

// Puts a line's answer.
pub(crate) fn put_line(room: &mut [u8], at: usize, line: Line) -> usize
    requires { at + enough ≤ length room.old }
    ensures { Put room.old at (answer_of line) result room.new }
{
    if is_sound(line) {
        put_number(room, at, number_of(line))
    } else {
        put_text(room, at, REFUSED)
    }
}

// Whether a line is known to be good.
fn is_sound(line: Line) -> bool
    ensures { result ≡ sound line }
{
    !line.other && 0 < line.digits && line.value <= LARGEST
}

// The number that is known of a line.
fn number_of(line: Line) -> i32
    requires { line.value ≤ largest }
    ensures { result ≡ known line }
{
    if line.minus {
        -(line.value as i32)
    } else {
        line.value as i32
    }
}
