// Reading a code part by part: each function answers for what follows one part of the code.
ghost use Rattle.std.specs.Prelude.{◌≡◌, ◌+◌, ◌^◌, ◌<◌, ◌≤◌, eqb};
ghost use Rattle.ground.specs.Choice.{pick};
ghost use Rattle.ground.specs.Paper.{refused_with};
ghost use Rattle.code.specs.Meaning.{filled, greatest_place, longest_run, width as width_under};
ghost use Rattle.code.specs.Missing.{behind_run};
ghost use Rattle.code.specs.Shapes.{Drop};
ghost use Rattle.code.specs.Answers.{shape_paper};
ghost use Rattle.unpack.specs.Cursors.{bits_left};
ghost use Rattle.unpack.specs.Steps.{code_answer, sign_answer, run_answer, led_answer, zero_answer};

use crate::cursor::Cursor;
use code::{GREATEST_PLACE, LONGEST_RUN, Refusal, Shape};

// Stays, for a sign below 2: what may not change: `Shape.sign` is a number (`ShapePromise`).

// The code at a place; at the end itself no bit is left.
pub(crate) fn code(here: Cursor) -> Result<Shape, Refusal>
    ensures { shape_paper result ≡ code_answer here.entry.drop here.entry.end (bits_left here.entry) }
{
    if here.left() == 0 {
        return ran_out(1);
    }
    if here.bit() == 0 {
        return Ok(Shape {
            sign: 0,
            magnitude: 0,
            error: where_dropped(here.drop, 3),
            next: here.at + 1,
        });
    }
    let signed = here.behind(1);
    if signed.left() == 0 {
        return ran_out(6 - code::wide(here.drop));
    }
    after_sign(signed.behind(1), signed.bit())
}

// Bits ran out: the refusal, with the least number of bits that are missing.
pub(crate) fn ran_out(missing: u32) -> Result<Shape, Refusal>
    requires { missing ≤ 15 }
    ensures { shape_paper result ≡ refused_with 9 missing }
{
    Err(Refusal::RanOut {
        missing: missing as u8,
    })
}

// The bits behind a run of ones and its zero: a field, and from two ones on a parity before it.
fn behind_run(drop: u8, ones: u32) -> u32
    requires { Drop drop × (ones ≤ longest_run greatest_place) }
    ensures { (result ≡ behind_run drop ones) × (result ≤ 14) }
{
    let left = code::wide(drop);
    if ones == 0 {
        return 4 - left;
    }
    if ones == 1 {
        return 3 - left;
    }
    ones + 2 - left
}

// The error of a code under 16: none with drop 0.
fn where_dropped(drop: u8, error: u32) -> u32
    ensures { result ≡ pick (eqb drop 0) 0 error }
{
    if drop == 0 { 0 } else { error }
}

// What follows the sign: a run of ones and its zero, then the rest.
fn after_sign(here: Cursor, sign: u32) -> Result<Shape, Refusal>
    requires { sign < 2 }
    ensures { shape_paper result ≡ sign_answer here.entry.drop here.entry.end sign 0 (bits_left here.entry) }
{
    for ones in 0..=LONGEST_RUN {
        let passed = here.behind(ones);
        if passed.left() == 0 {
            return ran_out(1 + behind_run(here.drop, ones));
        }
        if passed.bit() == 0 {
            return after_run(passed.behind(1), sign, ones);
        }
    }
    Err(Refusal::RunTooLong)
}

// What follows a run of ones and its zero.
fn after_run(here: Cursor, sign: u32, ones: u32) -> Result<Shape, Refusal>
    requires { (sign < 2) × (ones ≤ longest_run greatest_place) }
    ensures { shape_paper result ≡ run_answer here.entry.drop here.entry.end sign ones (bits_left here.entry) }
{
    if ones == 0 {
        return small(here, sign);
    }
    if ones == 1 {
        return led(here, sign, 4, 3 - code::wide(here.drop));
    }
    if here.left() == 0 {
        return ran_out(behind_run(here.drop, ones));
    }
    let place = 2 * ones + 1 + here.bit();
    if GREATEST_PLACE < place {
        return Err(Refusal::RunTooLong);
    }
    let width = ones + 1 - code::wide(here.drop);
    led(here.behind(1), sign, place, width)
}

// A magnitude under 16: its field, drop 0's redundant zero and drop 3's 5.
fn small(here: Cursor, sign: u32) -> Result<Shape, Refusal>
    requires { sign < 2 }
    ensures { shape_paper result ≡ run_answer here.entry.drop here.entry.end sign 0 (bits_left here.entry) }
{
    let left = code::wide(here.drop);
    let width = 4 - left;
    let there = here.left();
    if there < u64::from(width) {
        return ran_out(width - there as u32);
    }
    let x = here.field(width);
    let next = here.at + u64::from(width);
    if x == 0 {
        return small_zero(here.drop, sign, next);
    }
    Ok(Shape {
        sign,
        magnitude: fill(x, left),
        error: where_dropped(here.drop, 4),
        next,
    })
}

// A small field of zeros.
fn small_zero(drop: u8, sign: u32, next: u64) -> Result<Shape, Refusal>
    ensures { shape_paper result ≡ zero_answer drop sign next }
{
    if drop == 0 {
        return Err(Refusal::RedundantZero);
    }
    Ok(Shape {
        sign,
        magnitude: 5,
        error: 4,
        next,
    })
}

// A magnitude with its leading one at a place: the field below it, of so many bits, and what is left out filled in.
fn led(here: Cursor, sign: u32, place: u32, width: u32) -> Result<Shape, Refusal>
    requires { (sign < 2) × (4 ≤ place) × (place ≤ greatest_place) × (width ≡ width_under here.drop place) }
    ensures { shape_paper result ≡ led_answer here.entry.drop here.entry.end sign place (bits_left here.entry) }
{
    let there = here.left();
    if there < u64::from(width) {
        return ran_out(width - there as u32);
    }
    let x = here.field(width);
    let left = place - width;
    Ok(Shape {
        sign,
        magnitude: code::power(place) + fill(x, left),
        error: code::power(left - 1),
        next: here.at + u64::from(width),
    })
}

// A field with 0 for the first bit left out and 1 for the rest.
fn fill(x: u32, left: u32) -> u32
    requires { (left < 32) × (filled left x < 2 ^ 31) }
    ensures { result ≡ filled left x }
{
    if left == 0 {
        x
    } else {
        (x << left) + ((1 << (left - 1)) - 1)
    }
}
