// Packed codes written: a number to bits, at any bit position of a lent buffer, with drop 0 or 3; and fields, so many bits of a number.
#![tactic(auto)]

mod held;
mod write;

ghost use Rattle.std.specs.Prelude.{pos};
ghost use Rattle.code.specs.Promise.{PackPromise};
ghost use Rattle.pack.specs.Promise.{FieldPromise};

use code::NotPacked;
use held::Held;

// A number put into a buffer as a code, from a bit position on.
pub fn pack(buffer: &mut [u8], at: u64, v: i32, drop: u8) -> Result<u64, NotPacked>
    ensures { PackPromise buffer.old at v drop result buffer.new }
{
    let m = code::magnitude(v);
    if code::in_rule(m, drop) {
        let code = write::code(drop, code::sign(v), m);
        write::place(buffer, at, code)
    } else {
        Err(NotPacked::OutsideRule)
    }
}

// A count put into a buffer as a code with drop 0, from a bit position on.
pub fn pack_count(buffer: &mut [u8], at: u64, count: u64) -> Result<u64, NotPacked>
    ensures { PackPromise buffer.old at (pos count) 0 result buffer.new }
{
    if count <= u64::from(code::LARGEST) {
        let code = write::code(0, 0, count as u32);
        write::place(buffer, at, code)
    } else {
        Err(NotPacked::OutsideRule)
    }
}

// The last bits of a number, at most 32 of them, put into a buffer from a bit position on.
pub fn field(buffer: &mut [u8], at: u64, number: u32, width: u32) -> Result<u64, NotPacked>
    ensures { FieldPromise buffer.old at number width result buffer.new }
{
    if width <= 32 {
        let bits = Held::last(u64::from(number), width);
        write::place(buffer, at, bits)
    } else {
        Err(NotPacked::OutsideRule)
    }
}
