// Packed codes read: bits to a shape and to a number, at any bit position of lent bytes, with drop 0 or 3.
#![tactic(auto)]

mod cursor;
mod read;

ghost use Rattle.std.specs.Prelude.{◌≡◌, ◌≤◌};
ghost use Rattle.code.specs.Meaning.{signed, largest, past_end};
ghost use Rattle.code.specs.Promise.{ShapePromise, UnpackPromise};

use code::{Refusal, Shape, Unpacked};
use cursor::Cursor;

// The code at a bit position of bytes: its sign, its decoded magnitude, its error and the position after it.
pub fn shape(bytes: &[u8], at: u64, drop: u8) -> Result<Shape, Refusal>
    ensures { ShapePromise bytes.now at drop result }
{
    if code::drop_known(drop) {
        let end = code::end_of(bytes);
        if past_end(end, at) {
            return read::ran_out(0);
        }
        read::code(Cursor {
            bytes,
            at,
            end,
            drop,
        })
    } else {
        Err(Refusal::OutsideRule)
    }
}

// The code at a bit position of bytes: its number and the position after it.
pub fn unpack(bytes: &[u8], at: u64, drop: u8) -> Result<Unpacked, Refusal>
    ensures { UnpackPromise bytes.now at drop result }
{
    let read = shape(bytes, at, drop)?;
    Ok(Unpacked {
        value: with_sign(read.sign, read.magnitude),
        next: read.next,
    })
}

// Whether a position lies past the end of so many bits; every position from 2^63 on does.
fn past_end(end: u64, at: u64) -> bool
    ensures { result ≡ past_end end at }
{
    end < at || 9223372036854775808 <= at
}

// A magnitude, negated back where the sign is 1.
fn with_sign(sign: u32, magnitude: u32) -> i32
    requires { magnitude ≤ largest }
    ensures { result ≡ signed sign magnitude }
{
    if sign == 0 {
        magnitude as i32
    } else {
        -(magnitude as i32)
    }
}
