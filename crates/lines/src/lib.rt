// The code program's lines, on bytes: taken apart as they come, in pieces of any length, and answered.
#![tactic(auto)]

mod answer;
mod byte;
mod text;

ghost use Rattle.lines.specs.Promise.{AnswerPromise, FreshPromise, HeaderPromise, RunPromise, WithBytePromise};

use answer::{may_go, next_line, put_line, put_said};
use byte::digit_taken;
use text::put_text;

// The room that any line's answer fits.
pub const ENOUGH: usize = 80;

// The program's header.
const HEADER: &[u8; 18] = b"value drop0 drop3\n";

// What is known of an unfinished line: whether it has any bytes, begins with a minus, how many digits it has and what they
// mean, and whether it is any other line.
#[derive(Clone, Copy)]
pub struct Line {
    pub begun: bool,
    pub minus: bool,
    pub digits: u8,
    pub value: u32,
    pub other: bool,
}

// A line that has no bytes yet.
pub fn fresh_line() -> Line
    ensures { FreshPromise result }
{
    Line {
        begun: false,
        minus: false,
        digits: 0,
        value: 0,
        other: false,
    }
}

// One byte more of a line.
pub fn with_byte(line: Line, byte: u8) -> Line
    ensures { WithBytePromise line byte result }
{
    if !line.begun && byte == b'-' {
        Line {
            begun: true,
            minus: true,
            ..line
        }
    } else {
        digit_taken(line, byte)
    }
}

// The header, put at the front of a room of ENOUGH bytes or more; how many bytes were put.
pub fn put_header(room: &mut [u8]) -> usize
    ensures { HeaderPromise room.old result room.new }
{
    if room.len() < ENOUGH {
        0
    } else {
        put_text(room, 0, HEADER)
    }
}

// A line's answer, put at the front of a room of ENOUGH bytes or more; how many bytes were put.
pub fn put_answer(line: Line, room: &mut [u8]) -> usize
    ensures { AnswerPromise line room.old result room.new }
{
    if room.len() < ENOUGH {
        0
    } else {
        put_line(room, 0, line)
    }
}

// What a run over bytes answers: what is known of the line that it ends in, the bytes used and the bytes put.
#[derive(Clone, Copy)]
pub struct Ran {
    pub line: Line,
    pub used: usize,
    pub put: usize,
}

// Bytes of input one after the other, from an unfinished line on: the answer of each line that ends is put into the room. It
// ends before a newline whose answer might not fit.
pub fn run(line: Line, input: &[u8], room: &mut [u8]) -> Ran
    ensures { RunPromise line input.now room.old result room.new }
{
    let mut current = line;
    let mut put = 0;
    for (used, byte) in input.iter().enumerate() {
        if !may_go(*byte, put, room.len()) {
            return Ran {
                line: current,
                used,
                put,
            };
        }
        put = put_said(room, put, current, *byte);
        current = next_line(current, *byte);
    }
    Ran {
        line: current,
        used: input.len(),
        put,
    }
}
