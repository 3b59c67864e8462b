// Packed codes, exported: written and read, the counts that a code means, and the rate over a cadence level. A lent double is lent by its
// bits.
ghost use Rattle.plavotesk.specs.Promise.{CodePackPromise, CodeUnpackPromise, ReadingPromise, RatePromise};

// Puts a number into the buffer as a code from a bit position on, and the next position; 8, 3.
#[unsafe(no_mangle)]
pub extern "C" fn plv_code_pack(
    buffer: &mut [u8],
    at: u64,
    value: i32,
    drop: u8,
    next: &mut u64,
) -> u8
    ensures { CodePackPromise buffer.old at value drop next.old ((result, next.new), buffer.new) }
{
    plavotesk::codes::plv_code_pack(buffer, at, value, drop, next)
}

// The number of the code at a bit position, and the next position; 8 to 11, the bits missing with 9.
#[unsafe(no_mangle)]
pub extern "C" fn plv_code_unpack(
    bytes: &[u8],
    at: u64,
    drop: u8,
    value: &mut i32,
    next: &mut u64,
    missing: &mut u8,
) -> u8
    ensures { CodeUnpackPromise bytes.now at drop (record { value = value.old; next = next.old }) missing.old ((result, record { value = value.new; next = next.new }), missing.new) }
{
    plavotesk::codes::plv_code_unpack(bytes, at, drop, value, next, missing)
}

// The low and high count of the code at a bit position, 1 where they are one exact count, and the next position; 8 to 11, the bits
// missing with 9.
#[unsafe(no_mangle)]
pub extern "C" fn plv_reading(
    bytes: &[u8],
    at: u64,
    drop: u8,
    low: &mut u64,
    high: &mut u64,
    exact: &mut u8,
    next: &mut u64,
    missing: &mut u8,
) -> u8
    ensures { ReadingPromise bytes.now at drop (record { low = low.old; high = high.old; exact = exact.old; next = next.old }) missing.old ((result, record { low = low.new; high = high.new; exact = exact.new; next = next.new }), missing.new) }
{
    plavotesk::codes::plv_reading(bytes, at, drop, low, high, exact, next, missing)
}

// The low and high rate of the code at a bit position over a cadence level, the seconds, and the next position; 8 to 11, the bits missing
// with 9, 19.
#[unsafe(no_mangle)]
pub extern "C" fn plv_rate(
    bytes: &[u8],
    at: u64,
    drop: u8,
    level: u8,
    low: &mut u64,
    high: &mut u64,
    seconds: &mut u64,
    next: &mut u64,
    missing: &mut u8,
) -> u8
    ensures { RatePromise bytes.now at drop level (record { low = low.old; high = high.old; seconds = seconds.old; next = next.old }) missing.old ((result, record { low = low.new; high = high.new; seconds = seconds.new; next = next.new }), missing.new) }
{
    plavotesk::codes::plv_rate(bytes, at, drop, level, low, high, seconds, next, missing)
}
