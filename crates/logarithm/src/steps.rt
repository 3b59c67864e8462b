// The parts of the logarithm byte: how often a count doubles, and how many eighths of a doubling are left.
ghost use Rattle.std.specs.Prelude.{◌≡◌, ◌+◌, ◌-◌, ◌*◌, ◌^◌, ◌<◌, ◌≤◌, leb};
ghost use Rattle.ground.specs.Choice.{pick};
ghost use Rattle.logarithm.specs.Meaning.{twice_to_eighth};
ghost use Rattle.logarithm.specs.Eighths.{Bits, Eighths, First};

// How many bits a count has.
pub(crate) fn bits(count: u64) -> u64
    requires { (0 < count) × (count ≤ 2147483647) }
    ensures { Bits count result }
{
    64 - u64::from(count.leading_zeros())
}

// A count doubled until its leading one stands at bit 31.
pub(crate) fn raised(count: u64, bits: u64) -> u64
    requires { Bits count bits }
    ensures { result ≡ count * 2 ^ (32 - bits) }
{
    count << (32 - bits)
}

// How many eighths of a doubling a count lies above 2^31, rounded down.
pub(crate) fn eighths(count: u64) -> u64
    requires { (2147483648 ≤ count) × (count < 4294967296) }
    ensures { Eighths 8 count result }
{
    let mut reached = 0;
    for eighth in 1..8 {
        if root(eighth) <= count {
            reached += 1;
        }
    }
    reached
}

// The first count that reaches a byte; of the byte past the last, the first count past the range.
pub(crate) fn first(code: u64) -> u64
    requires { code ≤ 256 }
    ensures { First code result }
{
    let before = root(code % 8) - 1;
    (before >> (32 - code / 8)) + 1
}

// The first count that lies so many eighths of a doubling above 2^31: 2^(31 + eighth/8), rounded up.
fn root(eighth: u64) -> u64
    requires { eighth < 8 }
    ensures { First (256 + eighth) result }
{
    match eighth {
        0 => 2147483648,
        1 => 2341847524,
        2 => 2553802834,
        3 => 2784941738,
        4 => 3037000500,
        5 => 3311872530,
        6 => 3611622603,
        _ => 3938502376,
    }
}
