// Readings and rates: a packed count is read as a band of counts, and a rate is formed from the band's edges.
#![tactic(auto)]

mod band;
pub mod record;

ghost use Rattle.std.specs.Prelude.{◌≡◌};
ghost use Rattle.rate.specs.declared.NotFormed.TheVariants.{Refused, OutOfRange};
ghost use Rattle.rate.specs.Answers.{not_formed};
ghost use Rattle.rate.specs.Promise.{ReadingPromise, RatePromise};

use cadence::NoLevel;
use code::Refusal;
use ground::Numbered;
use record::{Rate, Reading};

// The counts that a code means, and the next bit position.
#[derive(Clone, Copy)]
pub struct Counts {
    pub reading: Reading,
    pub next: u64,
}

// The rate of a code, and the next bit position.
#[derive(Clone, Copy)]
pub struct Formed {
    pub rate: Rate,
    pub next: u64,
}

// Why no rate is formed: there is no reading, or no such level.
#[derive(Clone, Copy, Debug, PartialEq, Eq)]
pub enum NotFormed {
    Refused(Refusal),
    OutOfRange,
}

impl Numbered for NotFormed {
    ghost refusals = { not_formed };

    fn number(&self) -> u8 {
        match self {
            NotFormed::Refused(why) => why.number(),
            NotFormed::OutOfRange => 19,
        }
    }
}

impl From<Refusal> for NotFormed {
    ghost from_gives = { λ why result. result ≡ Refused why };

    fn from(why: Refusal) -> NotFormed {
        Self::Refused(why)
    }
}

impl From<NoLevel> for NotFormed {
    ghost from_gives = { λ why result. result ≡ OutOfRange };

    fn from(_why: NoLevel) -> NotFormed {
        Self::OutOfRange
    }
}

// The counts that the code at a bit position means, and the position after it.
pub fn reading(bytes: &[u8], at: u64, drop: u8) -> Result<Counts, Refusal>
    ensures { ReadingPromise bytes.now at drop result }
{
    // Stays: a rule of the project: document 01 names `let .. else` here (docs/DECISIONS.md, "The forms that document 01 names").
    let answer = unpack::shape(bytes, at, drop);
    let Ok(read) = answer else {
        return Err(code::reason(answer));
    };
    if read.sign == 1 {
        return Err(Refusal::OutsideRule);
    }
    Ok(Counts {
        reading: band::counts(read.magnitude, read.error),
        next: read.next,
    })
}

// The rate of the code at a bit position, over the seconds of a cadence level, and the position after the code.
pub fn rate(bytes: &[u8], at: u64, drop: u8, level: u8) -> Result<Formed, NotFormed>
    ensures { RatePromise bytes.now at drop level result }
{
    // Stays: the same rule.
    let answer = reading(bytes, at, drop);
    let Ok(counts) = answer else {
        return Err(NotFormed::from(code::reason(answer)));
    };
    let seconds = cadence::level_seconds(level)?;
    Ok(Formed {
        rate: band::divided(counts.reading, seconds),
        next: counts.next,
    })
}
