// Where a part of a code is read.
ghost use Rattle.std.specs.Prelude.{◌≡◌, ◌+◌, ◌-◌, ◌^◌, ◌<◌, ◌≤◌, true, length, get_or, take, drop as dropped};
ghost use Rattle.code.specs.Meaning.{bits_that_count, drop_known, from_bits};

// A place in bytes: a bit position that is not past the end of the bits that count, and the drop that is read with, 0 or 3.
#[derive(Clone, Copy)]
pub(crate) struct Cursor<'a> {
    pub(crate) bytes: &'a [u8],
    pub(crate) at: u64,
    pub(crate) end: u64,
    pub(crate) drop: u8,
    ghost end_is: { end ≡ length (bits_that_count bytes.now) },
    ghost inside: { at ≤ end },
    ghost known: { drop_known drop ≡ true },
}

impl<'a> Cursor<'a> {
    // How many bits are left.
    pub(crate) fn left(self) -> u64
        ensures { result ≡ self.entry.end - self.entry.at }
    {
        self.end - self.at
    }

    // The bit that comes next.
    pub(crate) fn bit(self) -> u32
        requires { self.at < self.end }
        ensures { (result ≡ get_or (bits_that_count self.entry.bytes.now) self.entry.at 0) × (result < 2) }
    {
        let i = (self.at / 8) as usize;
        u32::from(code::bit_of(self.bytes[i], (self.at % 8) as u8))
    }

    // The place behind so many bits.
    pub(crate) fn behind(self, bits: u32) -> Cursor<'a>
        requires { self.at + bits ≤ self.end }
        ensures { (result.bytes ≡ self.entry.bytes) × (result.at ≡ self.entry.at + bits) × (result.end ≡ self.entry.end) × (result.drop ≡ self.entry.drop) }
    {
        Cursor {
            bytes: self.bytes,
            at: self.at + u64::from(bits),
            end: self.end,
            drop: self.drop,
        }
    }

    // The number of a field of so many bits.
    pub(crate) fn field(self, width: u32) -> u32
        requires { (self.at + width ≤ self.end) × (width ≤ 16) }
        ensures { (result ≡ from_bits (take width (dropped self.entry.at (bits_that_count self.entry.bytes.now)))) × (result < 2 ^ width) }
    {
        let mut x = 0;
        for i in 0..width {
            x = x * 2 + self.behind(i).bit();
        }
        x
    }
}
