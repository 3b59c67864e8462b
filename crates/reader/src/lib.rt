// The reader of packed codes: lent bytes and a bit position, asked code by code.
#![tactic(auto)]

ghost use Rattle.code.specs.Promise.{UnpackPromise};
ghost use Rattle.reader.specs.Promise.{ReaderPromise};

use code::{Refusal, Unpacked};

// A reader: the lent bytes and a bit position.
#[derive(Clone, Copy)]
pub struct Reader<'a> {
    pub bytes: &'a [u8],
    pub at: u64,
}

// A reader of bytes at a bit position.
// Stays a function, as `moved_to` and `next_code` do: what may not change, the page CONTRACTS names them.
pub fn reader_at<'a>(bytes: &'a [u8], at: u64) -> Reader<'a>
    ensures { ReaderPromise bytes.entry at result }
{
    Reader { bytes, at }
}

// The code at a reader's position.
pub fn next_code<'a>(r: Reader<'a>, drop: u8) -> Result<Unpacked, Refusal>
    ensures { UnpackPromise r.entry.bytes.now r.entry.at drop result }
{
    unpack::unpack(r.bytes, r.at, drop)
}

// The reader moved to a bit position: to the next that was answered, where a run of codes is read.
pub fn moved_to<'a>(r: Reader<'a>, at: u64) -> Reader<'a>
    ensures { ReaderPromise r.entry.bytes at result }
{
    Reader { bytes: r.bytes, at }
}

// A reader made at a position, moved to another and asked there: whoever calls this holds no reader.
pub fn read_moved(bytes: &[u8], from: u64, to: u64, drop: u8) -> Result<Unpacked, Refusal>
    ensures { UnpackPromise bytes.now to drop result }
{
    next_code(moved_to(reader_at(bytes, from), to), drop)
}

// The code at a position, asked of a reader that stands there.
pub fn read_at(bytes: &[u8], at: u64, drop: u8) -> Result<Unpacked, Refusal>
    ensures { UnpackPromise bytes.now at drop result }
{
    read_moved(bytes, at, at, drop)
}
