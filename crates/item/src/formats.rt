// The four formats that a result is sent in, each put at a bit position.
ghost use Rattle.std.specs.Prelude.{◌≤◌};
ghost use Rattle.ground.specs.Bits.{to_bits};
ghost use Rattle.item.specs.Steps.{FormatPromise, PlacePromise};

use crate::NotSent;

// A result in the format of a comp: the 16-bit float, the logarithm byte, the 24-bit integer, or the packed code with drop 0.
pub(crate) fn send_as(buffer: &mut [u8], at: u64, comp: u64, res: u64) -> Result<u64, NotSent>
    ensures { FormatPromise buffer.old at comp res result buffer.new }
{
    match comp {
        0 => put(buffer, at, u32::from(format::float16_code(res)?), 16),
        1 => put(buffer, at, u32::from(logarithm::log8_code(res)?), 8),
        2 => put(buffer, at, format::int24_code(res)?, 24),
        _ => Ok(pack::pack_count(buffer, at, res)?),
    }
}

// So many bits of a number put at a bit position.
fn put(buffer: &mut [u8], at: u64, number: u32, width: u32) -> Result<u64, NotSent>
    requires { width ≤ 32 }
    ensures { PlacePromise buffer.old at (to_bits width number) result buffer.new }
{
    Ok(pack::field(buffer, at, number, width)?)
}
