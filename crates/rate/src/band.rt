// The band of a decoded magnitude, and its edges as counts a second.
ghost use Rattle.std.specs.Prelude.{◌≡◌, ◌+◌, ◌-◌, ◌^◌, ◌<◌, ◌≤◌, min};
ghost use Rattle.rate.specs.Meaning.{reading_of, rate_of};

use crate::record::{Rate, Reading};

// The reading of a decoded magnitude and its error.
pub(crate) fn counts(m: u32, error: u32) -> Reading
    requires { m + error < 2 ^ 32 }
    ensures { result ≡ reading_of m error }
{
    if error == 0 {
        return Reading::Exact(f64::from(m));
    }
    Reading::Between(f64::from(less(m, error)), f64::from(m + error))
}

// A rate: each edge is divided once by the seconds.
pub(crate) fn divided(reading: Reading, length: u16) -> Rate
    ensures { result ≡ rate_of reading length }
{
    let seconds = f64::from(length);
    match reading {
        Reading::Exact(count) => {
            let quotient = count / seconds;
            Rate {
                low: quotient,
                high: quotient,
                seconds,
            }
        }
        Reading::Between(low, high) => Rate {
            low: low / seconds,
            high: high / seconds,
            seconds,
        },
    }
}

// A magnitude less an error, not under 0.
fn less(m: u32, error: u32) -> u32
    ensures { (result ≡ m - error) × (result ≤ m) }
{
    m - m.min(error)
}
