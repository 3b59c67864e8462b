// The one-hour cadence: how long each level lasts, and which level begins and which ends in a second of the hour.
#![tactic(auto)]

ghost use Rattle.std.specs.Prelude.{◌≡◌, ◌<◌, ◌≤◌, MatchResult};
ghost use Rattle.cadence.specs.Meaning.{Highest};
ghost use Rattle.cadence.specs.Answers.{no_level, out_of_range};
ghost use Rattle.cadence.specs.Promise.{SecondsPromise, BeginningPromise, EndingPromise};

use ground::Numbered;

// The seconds of the hour: a second's number is below it.
const HOUR: u16 = 3600;

// A level over 7.
#[derive(Clone, Copy, Debug, PartialEq, Eq)]
pub struct NoLevel;

impl Numbered for NoLevel {
    ghost refusals = { no_level };

    fn number(&self) -> u8 {
        19
    }
}

// A second over 3,599: the number of a level over 7.
#[derive(Clone, Copy, Debug, PartialEq, Eq)]
pub struct OutOfRange;

impl Numbered for OutOfRange {
    ghost refusals = { out_of_range };

    fn number(&self) -> u8 {
        NoLevel.number()
    }
}

// How many seconds a level lasts: 1, 5, 10, 30, 60, 300, 600 or 3600.
pub fn level_seconds(level: u8) -> Result<u16, NoLevel>
    ensures { SecondsPromise level result }
{
    match level {
        0 => Ok(1),
        1 => Ok(5),
        2 => Ok(10),
        3 => Ok(30),
        4 => Ok(60),
        5 => Ok(300),
        6 => Ok(600),
        7 => Ok(3600),
        _ => Err(NoLevel),
    }
}

// The highest level that begins in a second of the hour.
pub fn second_beginning(second: u16) -> Result<u8, OutOfRange>
    ensures { BeginningPromise second result }
{
    let elapsed = in_hour(second)?;
    Ok(highest(elapsed))
}

// The highest level that ends with a second of the hour.
pub fn second_ending(second: u16) -> Result<u8, OutOfRange>
    ensures { EndingPromise second result }
{
    let elapsed = in_hour(second)? + 1;
    Ok(highest(elapsed))
}

// The second, where the hour has it.
fn in_hour(second: u16) -> Result<u16, OutOfRange>
    ensures { MatchResult result (λ s. (s ≡ second) × (second ≤ 3599)) (λ e. 3599 < second) }
{
    if HOUR <= second {
        return Err(OutOfRange);
    }
    Ok(second)
}

// The highest level whose length divides a number of seconds.
fn highest(t: u16) -> u8
    ensures { Highest t result }
{
    if t % 3600 == 0 {
        return 7;
    }
    if t % 600 == 0 {
        return 6;
    }
    if t % 300 == 0 {
        return 5;
    }
    if t % 60 == 0 {
        return 4;
    }
    if t % 30 == 0 {
        return 3;
    }
    if t % 10 == 0 {
        return 2;
    }
    if t % 5 == 0 {
        return 1;
    }
    0
}
