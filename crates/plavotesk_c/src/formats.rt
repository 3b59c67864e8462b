// The plain count formats, exported: from count to code and back.
ghost use Rattle.format.specs.Promise.{Float16CountPromise, Float8CountPromise};
ghost use Rattle.plavotesk.specs.Promise.{Float16CodePromise, Float8CodePromise, Int24Promise, Log8CodePromise, Log8CountsPromise};

// The 16-bit float of a count; 12.
#[unsafe(no_mangle)]
pub extern "C" fn plv_float16_code(count: u64, code: &mut u16) -> u8
    ensures { Float16CodePromise count code.old (result, code.new) }
{
    plavotesk::formats::plv_float16_code(count, code)
}

// The count that a 16-bit float means.
#[unsafe(no_mangle)]
pub extern "C" fn plv_float16_count(code: u16) -> u64
    ensures { Float16CountPromise code result }
{
    plavotesk::formats::plv_float16_count(code)
}

// The 8-bit float of a count; 12.
#[unsafe(no_mangle)]
pub extern "C" fn plv_float8_code(count: u64, code: &mut u8) -> u8
    ensures { Float8CodePromise count code.old (result, code.new) }
{
    plavotesk::formats::plv_float8_code(count, code)
}

// The count that an 8-bit float means.
#[unsafe(no_mangle)]
pub extern "C" fn plv_float8_count(code: u8) -> u64
    ensures { Float8CountPromise code result }
{
    plavotesk::formats::plv_float8_count(code)
}

// The 24-bit integer of a count; 12.
#[unsafe(no_mangle)]
pub extern "C" fn plv_int24_code(count: u64, code: &mut u32) -> u8
    ensures { Int24Promise count code.old (result, code.new) }
{
    plavotesk::formats::plv_int24_code(count, code)
}

// The count that a 24-bit integer means; 12.
#[unsafe(no_mangle)]
pub extern "C" fn plv_int24_count(code: u32, count: &mut u32) -> u8
    ensures { Int24Promise code count.old (result, count.new) }
{
    plavotesk::formats::plv_int24_count(code, count)
}

// The logarithm byte of a count; 12.
#[unsafe(no_mangle)]
pub extern "C" fn plv_log8_code(count: u64, code: &mut u8) -> u8
    ensures { Log8CodePromise count code.old (result, code.new) }
{
    plavotesk::formats::plv_log8_code(count, code)
}

// The smallest and the largest count that give a logarithm byte, with 1 in `some`; all three 0 where no count does.
#[unsafe(no_mangle)]
pub extern "C" fn plv_log8_counts(code: u8, low: &mut u64, high: &mut u64, some: &mut u8)
    ensures { Log8CountsPromise code record { low = low.new; high = high.new; some = some.new } }
{
    plavotesk::formats::plv_log8_counts(code, low, high, some);
}
