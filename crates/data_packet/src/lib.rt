// The board's data packet: a table of items run over a page in order, and the packet built of what they send.
#![tactic(auto)]

ghost use Rattle.std.specs.Prelude.{◌≡◌, ◌*◌, ◌≤◌, length};
ghost use Rattle.ground.specs.Bits.{to_bits};
ghost use Rattle.data_packet.specs.Answers.{inputs_of, not_built, taken_not};
ghost use Rattle.data_packet.specs.Meaning.{apid_of, most_items};
ghost use Rattle.data_packet.specs.Promise.{BuildPromise};
ghost use Rattle.data_packet.specs.Steps.{RunPromise, WrittenPromise, most_data};
ghost use Rattle.data_packet.specs.declared.NotBuilt.TheVariants.{OutOfRange as Range};

use cadence::OutOfRange;
use ground::Numbered;
use pages::{NotTaken, Pass};
use settle::settle;
use trial::{leading, trial};

mod settle;
mod table;
mod trial;

// How many items a table may have.
pub const MOST_ITEMS: usize = 64;

// How many bytes of data there may be: the first one, and 64 items of 29 bits.
pub const MOST_DATA: usize = 233;

// What a packet is asked for: the low byte of its APID, its table of items, two flags, an initial level, and a second of the hour.
#[derive(Clone, Copy)]
pub struct Inputs<'a> {
    pub low: u8,
    pub items: &'a [u64],
    pub flags: u8,
    pub initial: u8,
    pub second: u16,
}

// A packet that was built: the bytes written, and the total of the clearing items' own sums.
#[derive(Clone, Copy, Debug, PartialEq, Eq)]
pub struct Packet {
    pub written: u64,
    pub total: u64,
}

// Why no packet is built.
#[derive(Clone, Copy, Debug, PartialEq, Eq)]
pub enum NotBuilt {
    BufferTooShort,
    TooLarge,
    WrongCell,
    AboveFull,
    OutOfRange,
    ForbiddenItem,
    TooManyItems,
}

impl Numbered for NotBuilt {
    ghost refusals = { not_built };

    fn number(&self) -> u8 {
        match self {
            NotBuilt::BufferTooShort => 3,
            NotBuilt::TooLarge => 12,
            NotBuilt::WrongCell => 14,
            NotBuilt::AboveFull => 16,
            NotBuilt::OutOfRange => 19,
            NotBuilt::ForbiddenItem => 22,
            NotBuilt::TooManyItems => 23,
        }
    }
}

// A second out of range is one of the numbers of the first byte.
impl From<OutOfRange> for NotBuilt {
    ghost from_gives = { λ _ e. e ≡ Range };

    fn from(_why: OutOfRange) -> NotBuilt {
        NotBuilt::OutOfRange
    }
}

// An item whose window is not taken.
impl From<NotTaken> for NotBuilt {
    ghost from_gives = { λ why e. e ≡ taken_not why };

    fn from(why: NotTaken) -> NotBuilt {
        match why {
            NotTaken::WrongCell => NotBuilt::WrongCell,
            NotTaken::AboveFull => NotBuilt::AboveFull,
        }
    }
}

// What a trial of items found: the last result, the total of the clearing items' own sums, the bit position after what was sent, and whether all fits.
// Stays: a flag beside the position, since a Result in its place was tried, and misses a bar of speed: 64 small items took 2.5 microseconds in place of 2.2.
#[derive(Clone, Copy)]
pub struct Found {
    pub previous: u64,
    pub total: u64,
    pub at: u64,
    pub fits: bool,
}

// Runs a table of items over a page, and writes the packet of what they send at the front of the buffer.
pub fn build(
    memory: &mut [u32],
    page: bool,
    inputs: Inputs,
    buffer: &mut [u8],
) -> Result<Packet, NotBuilt>
    ensures { BuildPromise memory.old page (inputs_of inputs.entry) buffer.old result memory.new buffer.new }
{
    if MOST_ITEMS < inputs.items.len() {
        return Err(NotBuilt::TooManyItems);
    }
    if !inputs.allowed() {
        return Err(NotBuilt::ForbiddenItem);
    }
    let first = inputs.first_byte()?;
    run(memory, page, inputs, first, buffer)
}

// Runs the items, and writes the packet of a first byte and what they send; refused, the memory is as it was.
fn run(
    memory: &mut [u32],
    page: bool,
    inputs: Inputs,
    first: u8,
    buffer: &mut [u8],
) -> Result<Packet, NotBuilt>
    requires { length inputs.items.now ≤ most_items }
    ensures { RunPromise memory.old page (inputs_of inputs.entry) (to_bits 8 first) buffer.old result memory.new buffer.new }
{
    let mut bytes = [0; MOST_DATA];
    bytes[0] = first;
    let (good, next) = leading(memory, page, inputs.items);
    let items = &inputs.items[..good];
    let found = trial(memory, page, items, &mut bytes);
    let answer = written(found, next, inputs.apid(), &bytes, buffer);
    let pass = if answer.is_ok() {
        Pass::Zero
    } else {
        Pass::Unmark
    };
    settle(memory, page, pass, items);
    answer
}

// Writes the packet of what a trial found; refused where a result does not fit, the next item may not be taken, or the buffer is too short.
fn written(
    found: Found,
    next: Result<(), NotTaken>,
    apid: u16,
    bytes: &[u8],
    buffer: &mut [u8],
) -> Result<Packet, NotBuilt>
    requires { (found.at ≤ 8 * most_data) × (length bytes.now ≡ most_data) }
    ensures { WrittenPromise found next apid bytes.now buffer.old result buffer.new }
{
    if !found.fits {
        return Err(NotBuilt::TooLarge);
    }
    next?;
    let end = ((found.at + 7) / 8) as usize;
    let Ok(count) = packet::write(buffer, apid, &bytes[..end]) else {
        return Err(NotBuilt::BufferTooShort);
    };
    Ok(Packet {
        written: count as u64,
        total: found.total,
    })
}
