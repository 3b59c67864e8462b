// The plain count formats: a 16-bit float, an 8-bit float and a 24-bit integer, from count to code and back.
#![tactic(auto)]

ghost use Rattle.std.specs.Prelude.{◌≡◌, ◌/◌, ◌^◌, ◌<◌, ◌≤◌};
ghost use Rattle.ground.specs.Refusals.{on_paper};
ghost use Rattle.format.specs.Meaning.{Takes, float_value};
ghost use Rattle.format.specs.Answers.{code_too_large, too_large};
ghost use Rattle.format.specs.Promise.{Float16CodePromise, Float16CountPromise, Float8CodePromise, Float8CountPromise};
ghost use Rattle.format.specs.Promise.{Int24CodePromise, Int24CountPromise};

use ground::Numbered;

// A count too large for its format.
#[derive(Clone, Copy, Debug, PartialEq, Eq)]
pub struct TooLarge;

impl Numbered for TooLarge {
    ghost refusals = { too_large };

    fn number(&self) -> u8 {
        12
    }
}

// A code above the largest 24-bit integer: the number of a count too large.
#[derive(Clone, Copy, Debug, PartialEq, Eq)]
pub struct CodeTooLarge;

impl Numbered for CodeTooLarge {
    ghost refusals = { code_too_large };

    fn number(&self) -> u8 {
        TooLarge.number()
    }
}

// The first count that a 16-bit float is too small for.
const LIMIT16: u64 = 134217728;

// The first count that an 8-bit float is too small for.
const LIMIT8: u64 = 17179869184;

// The largest 24-bit integer.
const LAST24: u32 = 16777215;

// The 16-bit float of a count: the largest whose value is not above the count.
pub fn float16_code(count: u64) -> Result<u16, TooLarge>
    ensures { Float16CodePromise count result }
{
    Ok(float_code::<12, { LIMIT16 }>(count)? as u16)
}

// The count that a 16-bit float means.
pub fn float16_count(code: u16) -> u64
    ensures { Float16CountPromise code result }
{
    float_count::<12>(u64::from(code))
}

// The 8-bit float of a count: the largest whose value is not above the count.
pub fn float8_code(count: u64) -> Result<u8, TooLarge>
    ensures { Float8CodePromise count result }
{
    Ok(float_code::<3, { LIMIT8 }>(count)? as u8)
}

// The count that an 8-bit float means.
pub fn float8_count(code: u8) -> u64
    ensures { Float8CountPromise code result }
{
    float_count::<3>(u64::from(code))
}

// The 24-bit integer of a count: the count itself.
pub fn int24_code(count: u64) -> Result<u32, TooLarge>
    ensures { Int24CodePromise count result }
{
    match u32::try_from(count) {
        Ok(integer) => {
            if LAST24 < integer {
                return Err(TooLarge);
            }
            Ok(integer)
        }
        Err(_) => Err(TooLarge),
    }
}

// The count that a 24-bit integer means: the code itself.
pub fn int24_count(code: u32) -> Result<u32, CodeTooLarge>
    ensures { Int24CountPromise code result }
{
    if LAST24 < code {
        return Err(CodeTooLarge);
    }
    Ok(code)
}

// The float of a count, with so many mantissa bits, below the format's limit: halved until mantissa and leading one hold it.
fn float_code<const BITS: u64, const LIMIT: u64>(count: u64) -> Result<u64, TooLarge>
    requires { (BITS ≤ 16) × (LIMIT ≤ 2 ^ 40) }
    ensures { Takes (float_value BITS) LIMIT count (on_paper too_large result) }
{
    if LIMIT <= count {
        return Err(TooLarge);
    }
    let halvings = (63 - BITS).saturating_sub(u64::from(count.leading_zeros()));
    Ok((halvings << BITS) + (count >> halvings))
}

// The count that a float with so many mantissa bits means: the mantissa, or with its leading one doubled as often as the exponent says.
fn float_count<const BITS: u64>(code: u64) -> u64
    requires { (BITS ≤ 16) × (code / 2 ^ BITS < 32) }
    ensures { result ≡ float_value BITS code }
{
    let exponent = code >> BITS;
    let mantissa = code % (1 << BITS);
    if exponent == 0 {
        return mantissa;
    }
    (mantissa + (1 << BITS)) << (exponent - 1)
}
