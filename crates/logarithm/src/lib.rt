// The logarithm byte of a count, and the counts that give a byte (request 2026-01).
#![tactic(auto)]

ghost use Rattle.std.specs.Prelude.{◌≡◌};
ghost use Rattle.logarithm.specs.Answers.{too_large};
ghost use Rattle.logarithm.specs.Promise.{Log8CodePromise, Log8CountsPromise};

use ground::Numbered;

mod steps;

// A count too large for a logarithm byte.
#[derive(Clone, Copy, Debug, PartialEq, Eq)]
pub struct TooLarge;

impl Numbered for TooLarge {
    ghost refusals = { too_large };

    fn number(&self) -> u8 {
        12
    }
}

// The last count that a logarithm byte is given for.
const LAST_LOG8: u64 = 2147483647;

// The logarithm byte of a count: eight times the logarithm to base 2, and eight, rounded down; 0 of count 0.
pub fn log8_code(count: u64) -> Result<u8, TooLarge>
    ensures { Log8CodePromise count result }
{
    if LAST_LOG8 < count {
        return Err(TooLarge);
    }
    if count == 0 {
        return Ok(0);
    }
    let bits = steps::bits(count);
    let eighths = steps::eighths(steps::raised(count, bits));
    let code = bits * 8 + eighths;
    Ok(code as u8)
}

// The smallest and the largest count that give a logarithm byte, or none where no count does.
pub fn log8_counts(code: u8) -> Option<(u64, u64)>
    ensures { Log8CountsPromise code result }
{
    let byte = u64::from(code);
    if byte == 0 {
        return Some((0, 0));
    }
    let low = steps::first(byte);
    let next = steps::first(byte + 1);
    if next <= low {
        return None;
    }
    Some((low, next - 1))
}
