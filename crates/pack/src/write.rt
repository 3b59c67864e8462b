// Writing a code: its bits as a number, put byte by byte at a position.
ghost use Rattle.std.specs.Prelude.{◌≡◌, ◌+◌, ◌-◌, ◌*◌, ◌/◌, ◌%◌, ◌^◌, ◌<◌, ◌≤◌, length, take, ◌++◌};
ghost use Rattle.ground.specs.Bits.{to_bits, bits_of};
ghost use Rattle.ground.specs.Putting.{put as put_over};
ghost use Rattle.code.specs.Meaning.{least_coded, leading as leading_place, shape_of, bits, coded as coded_bits, led_of, left_out, bits_that_count, to_byte_end, largest, greatest_place};
ghost use Rattle.code.specs.Shapes.{Drop};
ghost use Rattle.pack.specs.Steps.{PlacePromise, byte_bits};

use crate::held::Held;
use code::NotPacked;

// Stays, for drop, sign and magnitude together: the new form is no plainer: three calls hand them on, each takes them apart, and a sign is a number by
// `sign_one`.

// The code of a sign and a magnitude inside the rule.
pub(crate) fn code(drop: u8, sign: u32, m: u32) -> Held
    requires { Drop drop × (sign < 2) × (m ≤ largest) }
    ensures { (result ≡ bits drop (shape_of drop sign m)) × (length result ≤ 33) }
{
    if m < least_coded(drop) {
        return Held::zeros(1);
    }
    if m < 16 {
        return small(drop, sign, m);
    }
    led(drop, sign, m)
}

// The least magnitude that has a code of its own.
fn least_coded(drop: u8) -> u32
    ensures { result ≡ least_coded drop }
{
    if drop == 0 { 1 } else { 4 }
}

// The code of a magnitude under 16 that has one of its own.
fn small(drop: u8, sign: u32, m: u32) -> Held
    requires { Drop drop × (sign < 2) × (m < 16) }
    ensures { (result ≡ coded_bits sign 0 (to_bits (4 - drop) (m / 2 ^ drop))) × (length result ≤ 33) }
{
    let left = code::wide(drop);
    coded(sign, 0, Held::of(u64::from(m >> left), 4 - left))
}

// The code of a magnitude from 16 on.
fn led(drop: u8, sign: u32, m: u32) -> Held
    requires { Drop drop × (sign < 2) × (16 ≤ m) × (m ≤ largest) }
    ensures { (result ≡ bits drop (led_of drop sign (leading_place m) m)) × (length result ≤ 33) }
{
    let k = leading(m);
    let left = left_out(k, drop);
    let field = Held::of(u64::from(below(m, k, left)), k - left);
    if k == 4 {
        return coded(sign, 1, field);
    }
    let parity = (k - 1) % 2;
    coded(
        sign,
        (k - 1) / 2,
        Held::of(u64::from(parity), 1).then(field),
    )
}

// The place of the leading one of a magnitude from 16 on.
fn leading(m: u32) -> u32
    requires { (16 ≤ m) × (m ≤ largest) }
    ensures { (result ≡ leading_place m) × (4 ≤ result) × (result ≤ greatest_place) }
{
    31 - m.leading_zeros()
}

// How many bits below the leading one the code of a magnitude leaves out, by the place of its leading one.
fn left_out(place: u32, drop: u8) -> u32
    ensures { result ≡ left_out drop place }
{
    if place == 4 {
        1 + code::wide(drop)
    } else {
        place / 2 + code::wide(drop)
    }
}

// The bits below a place, without so many at the end.
fn below(m: u32, k: u32, left: u32) -> u32
    requires { (k < 32) × (left < 32) }
    ensures { result ≡ m % 2 ^ k / 2 ^ left }
{
    (m % code::power(k)) >> left
}

// `1 s`, so many ones, `0`, then a field.
fn coded(sign: u32, ones: u32, field: Held) -> Held
    requires { (sign < 2) × (ones + length field ≤ 30) }
    ensures { (result ≡ coded_bits sign ones field) × (length result ≤ 33) }
{
    Held::of(u64::from(2 + sign), 2)
        .then(Held::ones(ones))
        .then(Held::zeros(1).then(field))
}

// Bits put at a position, the rest of their last byte set to 0; or nothing, where they do not fit.
pub(crate) fn place(buffer: &mut [u8], at: u64, bits: Held) -> Result<u64, NotPacked>
    requires { length bits ≤ 33 }
    ensures { PlacePromise buffer.old at bits result buffer.new }
{
    let end = code::end_of(buffer);
    let count = u64::from(bits.len());
    if end < at || end - at < count {
        return Err(NotPacked::TooShort);
    }
    let next = at + count;
    put(buffer, at, bits.then(Held::zeros(to_byte_end(next))));
    Ok(next)
}

// How many bits there are from a position to the end of its byte.
fn to_byte_end(at: u64) -> u32
    ensures { (result ≡ to_byte_end at) × (result < 8) }
{
    ((8 - at % 8) % 8) as u32
}

// Bits that end where a byte ends: as many as the first byte has room for, then whole bytes.
fn put(buffer: &mut [u8], at: u64, bits: Held)
    requires { (at + length bits ≤ length (bits_that_count buffer.old)) × ((at + length bits) % 8 ≡ 0) }
    ensures { bits_of buffer.new ≡ put_over (bits_of buffer.old) at bits }
{
    if 0 < bits.count {
        let left = bits.count - room_at(at);
        put_part(buffer, at, bits.number >> left);
        put_bytes(buffer, (at / 8) as usize + 1, bits.number, left);
    }
}

// Bits put as whole bytes, from a byte on.
fn put_bytes(buffer: &mut [u8], first: usize, number: u64, count: u32)
    requires { (8 * first + count ≤ length (bits_that_count buffer.old)) × (count ≤ 40) × (count % 8 ≡ 0) }
    ensures { bits_of buffer.new ≡ put_over (bits_of buffer.old) (8 * first) (to_bits count number) }
{
    let mut left = count;
    let mut i = first;
    // Stays: tried, and it misses a bar of speed. A `for` over the bytes takes a quarter longer for small numbers (bench/run "pack 1,000").
    while 0 < left {
        left -= left.min(8);
        put_byte(buffer, i, number >> left);
        i += 1;
    }
}

// The last eight bits of a number put as a byte.
fn put_byte(buffer: &mut [u8], i: usize, number: u64)
    requires { i < length buffer.old }
    ensures { bits_of buffer.new ≡ put_over (bits_of buffer.old) (8 * i) (to_bits 8 number) }
{
    buffer[i] = (number % 256) as u8;
}

// How many bits of its byte there are from a position on.
fn room_at(at: u64) -> u32
    ensures { (result ≡ 8 - at % 8) × (0 < result) × (result ≤ 8) }
{
    (8 - at % 8) as u32
}

// Bits put at a position, as many as its byte has room for.
fn put_part(buffer: &mut [u8], at: u64, number: u64)
    requires { (at < length (bits_that_count buffer.old)) × (number < 2 ^ (8 - at % 8)) }
    ensures { bits_of buffer.new ≡ put_over (bits_of buffer.old) at (to_bits (8 - at % 8) number) }
{
    let i = (at / 8) as usize;
    let byte = filled(u64::from(buffer[i]), room_at(at), number);
    buffer[i] = byte as u8;
}

// A byte whose last bits are those of a number.
fn filled(byte: u64, room: u32, number: u64) -> u64
    requires { (byte < 256) × (room ≤ 8) × (number < 2 ^ room) }
    ensures { (byte_bits result ≡ take (8 - room) (byte_bits byte) ++ to_bits room number) × (result < 256) }
{
    kept(byte, room) + number
}

// A byte without its last bits.
fn kept(byte: u64, room: u32) -> u64
    requires { (byte < 256) × (room ≤ 8) }
    ensures { (result ≡ byte / 2 ^ room * 2 ^ room) × (result < 256) }
{
    (byte >> room) << room
}
