// The parts of a message: its tests one by one, and its fields read from bytes and put into a buffer.
ghost use Rattle.std.specs.Prelude.{◌≡◌, ◌+◌, ◌≤◌, ◌<◌, length, take, drop};
ghost use Rattle.ground.specs.Words.{bytes_of, number};
ghost use Rattle.ground.specs.Putting.{put};
ghost use Rattle.message.specs.Meaning.{data_size, sayable};

// How many data bytes a size tag stands for.
pub(crate) fn data_size(tag: u8) -> usize
    ensures { (result ≡ data_size tag) × (result ≤ 8) }
{
    match tag {
        0 => 0,
        1 => 2,
        2 => 4,
        _ => 8,
    }
}

// Whether an address, a tag and a value are within the rule.
pub(crate) fn sayable_as(address: u16, tag: u8, value: u64) -> bool
    ensures { result ≡ sayable address tag value }
{
    if 0x3FFF < address {
        return false;
    }
    match tag {
        0 => value < 1,
        1 => value < 65536,
        2 => value < 4294967296,
        3 => true,
        _ => false,
    }
}

// The number that up to eight bytes mean.
pub(crate) fn number_in(bytes: &[u8]) -> u64
    requires { length bytes.now ≤ 8 }
    ensures { result ≡ number bytes.now }
{
    let mut value = 0;
    for byte in bytes {
        value = value * 256 + *byte as u64;
    }
    value
}

// Puts the bytes of a value at a place, the last of them first.
// Stays a loop: tried, and it misses a bar of speed: bytes that are copied from an array, by `copy_from_slice` or by a `for`, take half as long again.
pub(crate) fn put_number(buffer: &mut [u8], at: usize, count: usize, value: u64)
    requires { at + count ≤ length buffer.old }
    ensures { buffer.new ≡ put buffer.old at (bytes_of count value) }
{
    let mut left = count;
    let mut rest = value;
    while 0 < left {
        left -= 1;
        buffer[at + left] = (rest % 256) as u8;
        rest /= 256;
    }
}
