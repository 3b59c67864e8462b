// Text put into a room at a place: bytes, and a number's line: the value in shortest decimal, and both codes in digits 0 and 1.
ghost use Rattle.std.specs.Prelude.{◌≡◌, ◌∷◌, [], map, ◌+◌, ◌/◌, ◌-◌, ◌%◌, ◌≤◌, ◌<◌, nat_abs, length, take};
ghost use Rattle.ground.specs.Bits.{bits_of};
ghost use Rattle.code.specs.Meaning.{greatest_place, largest, longest_code};
ghost use Rattle.code.specs.Shapes.{Drop};
ghost use Rattle.lines.specs.Meaning.{enough, shortest, code_text, value_text, number_text};
ghost use Rattle.lines.specs.Texts.{Put};

// Stays, for room, place and number together, and for the number's range: the new form is no plainer: `put_line` alone makes the number, and what
// each call here asks of `pack`, `code` and `io` wants it plain, and the room's part by itself.

// Puts the line of a number in range: the value and both codes.
pub(crate) fn put_number(room: &mut [u8], at: usize, v: i32) -> usize
    requires { (at + enough ≤ length room.old) × (nat_abs v ≤ largest) }
    ensures { Put room.old at (number_text v) result room.new }
{
    let value = put_value(room, at, v);
    let first = put_spaced(room, value, v, 0);
    let second = put_spaced(room, first, v, 3);
    put_byte(room, second, b'\n')
}

// Puts a value in shortest decimal, with its minus.
fn put_value(room: &mut [u8], at: usize, v: i32) -> usize
    requires { (at + 21 ≤ length room.old) × (nat_abs v ≤ largest) }
    ensures { (Put room.old at (value_text v) result room.new) × (result ≤ at + 9) }
{
    if code::sign(v) == 1 {
        let after = put_byte(room, at, b'-');
        put_decimal(room, after, code::magnitude(v))
    } else {
        put_decimal(room, at, code::magnitude(v))
    }
}

// Puts a space and a code.
fn put_spaced(room: &mut [u8], at: usize, v: i32, drop: u8) -> usize
    requires { (at + 33 ≤ length room.old) × (nat_abs v ≤ largest) × Drop drop }
    ensures { (Put room.old at (32 ∷ code_text drop v) result room.new) × (result ≤ at + 1 + longest_code greatest_place) }
{
    let after = put_byte(room, at, b' ');
    put_code(room, after, v, drop)
}

// Puts one byte.
fn put_byte(room: &mut [u8], at: usize, byte: u8) -> usize
    requires { at < length room.old }
    ensures { (Put room.old at (byte ∷ []) result room.new) × (result ≡ at + 1) }
{
    room[at] = byte;
    at + 1
}

// Puts text that fits, and answers the place after it.
pub(crate) fn put_text(room: &mut [u8], at: usize, text: &[u8]) -> usize
    requires { at + length text.now ≤ length room.old }
    ensures { Put room.old at text.now result room.new }
{
    let end = at + text.len();
    room[at..end].copy_from_slice(text);
    end
}

// Puts a number of at most eight digits in shortest decimal.
fn put_decimal(room: &mut [u8], at: usize, n: u32) -> usize
    requires { (at + 20 ≤ length room.old) × (n < 100000000) }
    ensures { Put room.old at (shortest 8 n) result room.new }
{
    let mut text = [0u8; 20];
    let count = io::decimal(u64::from(n), &mut text);
    put_text(room, at, &text[..count])
}

// Puts the code of a number in digits 0 and 1.
fn put_code(room: &mut [u8], at: usize, v: i32, drop: u8) -> usize
    requires { (at + 32 ≤ length room.old) × (nat_abs v ≤ largest) × Drop drop }
    ensures { Put room.old at (code_text drop v) result room.new }
{
    let mut bytes = [0u8; 4];
    let count = pack::pack(&mut bytes, 0, v, drop).unwrap();
    put_bits(room, at, &bytes, count)
}

// Puts the first bits of bytes in digits 0 and 1.
fn put_bits(room: &mut [u8], at: usize, bytes: &[u8], count: u64) -> usize
    requires { (at + count ≤ length room.old) × (count ≤ 32) × (length bytes.now ≡ 4) }
    ensures { Put room.old at (map (λ b. 48 + b) (take count (bits_of bytes.now))) result room.new }
{
    let count = count as usize;
    for i in 0..count {
        room[at + i] = b'0' + code::bit_of(bytes[i / 8], (i % 8) as u8);
    }
    at + count
}
