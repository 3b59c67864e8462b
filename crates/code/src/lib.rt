// Packed codes: the answers of writing and reading them, and the small questions that both ask; `pack` writes, `unpack` reads.
#![tactic(auto)]

ghost use Rattle.std.specs.Prelude.{◌≡◌, ◌&&◌, leb, nat_abs, length};
ghost use Rattle.code.specs.Meaning.{bits_that_count, drop_known, largest};
ghost use Rattle.code.specs.Answers.{not_packed, not_read, reason_of};
ghost use Rattle.code.specs.Promise.{SignPromise, PowerPromise, BitPromise};

use ground::Numbered;

// The greatest place of a leading one: the one number from which the limits follow.
pub const GREATEST_PLACE: u32 = 25;

// The largest magnitude that is packed.
pub const LARGEST: u32 = (1 << (GREATEST_PLACE + 1)) - 1;

// The longest run of ones that is taken.
pub const LONGEST_RUN: u32 = (GREATEST_PLACE - 1) / 2;

// Why nothing was written: a drop or a number outside the rule, or a buffer too short for the code.
#[derive(Clone, Copy, Debug, PartialEq, Eq)]
pub enum NotPacked {
    OutsideRule,
    TooShort,
}

impl Numbered for NotPacked {
    ghost refusals = { not_packed };

    fn number(&self) -> u8 {
        match self {
            NotPacked::OutsideRule => 8,
            NotPacked::TooShort => 3,
        }
    }
}

// Why a code is not read: a drop or a number outside the rule, bits that ran out, with the least number that is missing, a redundant zero, a run of
// ones too long.
#[derive(Clone, Copy, Debug, PartialEq, Eq)]
pub enum Refusal {
    OutsideRule,
    RanOut { missing: u8 },
    RedundantZero,
    RunTooLong,
}

impl Numbered for Refusal {
    ghost refusals = { not_read };

    fn number(&self) -> u8 {
        match self {
            Refusal::OutsideRule => 8,
            Refusal::RanOut { missing: _ } => 9,
            Refusal::RedundantZero => 10,
            Refusal::RunTooLong => 11,
        }
    }
}

// A code's shape: its sign bit, its decoded magnitude, its error and the next bit position.
#[derive(Clone, Copy)]
pub struct Shape {
    pub sign: u32,
    pub magnitude: u32,
    pub error: u32,
    pub next: u64,
}

// A code's number and the next bit position.
#[derive(Clone, Copy)]
pub struct Unpacked {
    pub value: i32,
    pub next: u64,
}

// Why nothing was read; of what was read nothing is asked.
// Stays: a rule of the project: document 01 names `let .. else` for a rate (docs/DECISIONS.md, "The forms that document 01 names"), which needs the refusal.
pub fn reason<T: Copy>(answer: Result<T, Refusal>) -> Refusal
    ensures { result ≡ reason_of answer }
{
    match answer {
        Ok(_) => Refusal::OutsideRule,
        Err(why) => why,
    }
}

// The magnitude of a number, at every i32.
// Stays: what may not change, `magnitude_one` and the page CONTRACTS name it; its body is the library's call.
pub fn magnitude(v: i32) -> u32
    ensures { result ≡ nat_abs v }
{
    v.unsigned_abs()
}

// The sign bit of a number.
// Stays: what may not change, `sign_one` and the page CONTRACTS name it.
pub fn sign(v: i32) -> u32
    ensures { SignPromise v result }
{
    u32::from(v < 0)
}

// Whether a drop is known: only 0 and 3 are.
pub fn drop_known(drop: u8) -> bool
    ensures { result ≡ drop_known drop }
{
    drop == 0 || drop == 3
}

// A magnitude and a drop inside the rule.
pub fn in_rule(m: u32, drop: u8) -> bool
    ensures { result ≡ (drop_known drop && leb m largest) }
{
    drop_known(drop) && m <= LARGEST
}

// A drop as the number that widths are made of.
// Stays: what may not change, `wide_one` and the page CONTRACTS name it; its body is the library's call.
pub fn wide(drop: u8) -> u32
    ensures { result ≡ drop }
{
    u32::from(drop)
}

// How many bits count: eight a byte, and none from position 2^63 on.
pub fn end_of(bytes: &[u8]) -> u64
    ensures { result ≡ length (bits_that_count bytes.now) }
{
    (bytes.len() as u64).min(1 << 60) * 8
}

// A power of two; 0 where 32 bits do not hold it.
pub fn power(k: u32) -> u32
    ensures { PowerPromise k result }
{
    if k < 32 { 1 << k } else { 0 }
}

// A bit of a byte, the most significant first; the last bit at every place from 8 on.
pub fn bit_of(byte: u8, place: u8) -> u8
    ensures { BitPromise byte place result }
{
    if place < 8 {
        (byte >> (7 - place)) % 2
    } else {
        byte % 2
    }
}
