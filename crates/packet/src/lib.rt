// Packets in a capture: found, taken apart, written (document 01, "Packets and messages"; 000, 3.1). A packet is a packet
// when mark, length and checksum agree.
#![tactic(auto)]

mod parts;

ghost use Rattle.std.specs.Prelude.{◌≡◌, ◌+◌};
ghost use Rattle.packet.specs.Answers.{not_found, no_header, not_written};
ghost use Rattle.packet.specs.Promise.{FindPromise, HeaderPromise, PayloadPromise, WritePromise};

use ground::{Numbered, word_at};
use parts::{copied, data_length, put_header, stands_at};

// A packet that was found: its place, and the bytes skipped before it.
#[derive(Clone, Copy, Debug, PartialEq, Eq)]
pub struct Found {
    pub place: usize,
    pub skipped: usize,
}

// Why no packet is found: none stands in the capture, with all its bytes skipped; the capture is longer than 65,536 bytes.
#[derive(Clone, Copy, Debug, PartialEq, Eq)]
pub enum NotFound {
    Nothing { skipped: usize },
    TooLong,
}

impl Numbered for NotFound {
    ghost refusals = { not_found };

    fn number(&self) -> u8 {
        match *self {
            NotFound::Nothing { skipped: _ } => 20,
            NotFound::TooLong => 1,
        }
    }
}

// What a packet's header says: its APID, and the bytes of data.
#[derive(Clone, Copy, Debug, PartialEq, Eq)]
pub struct Headed {
    pub apid: u16,
    pub length: u16,
}

// Why there is no header: no packet stands there; the capture is too long.
#[derive(Clone, Copy, Debug, PartialEq, Eq)]
pub enum NoHeader {
    NoPacket,
    TooLong,
}

impl Numbered for NoHeader {
    ghost refusals = { no_header };

    fn number(&self) -> u8 {
        match *self {
            NoHeader::NoPacket => 20,
            NoHeader::TooLong => 1,
        }
    }
}

// Why no packet is written: more than 8,187 bytes of data; a buffer that is too short.
#[derive(Clone, Copy, Debug, PartialEq, Eq)]
pub enum NotWritten {
    TooMuchData,
    BufferTooShort,
}

impl Numbered for NotWritten {
    ghost refusals = { not_written };

    fn number(&self) -> u8 {
        match *self {
            NotWritten::TooMuchData => 2,
            NotWritten::BufferTooShort => 3,
        }
    }
}

// The first place of the capture where a packet stands, and the bytes skipped before it.
pub fn find(capture: &[u8]) -> Result<Found, NotFound>
    ensures { FindPromise capture.now result }
{
    if 65536 < capture.len() {
        return Err(NotFound::TooLong);
    }
    for place in 0..capture.len() {
        if stands_at(capture, place) {
            return Ok(Found {
                place,
                skipped: place,
            });
        }
    }
    Err(NotFound::Nothing {
        skipped: capture.len(),
    })
}

// The APID and the number of data bytes of the packet at a place.
pub fn header(capture: &[u8], place: usize) -> Result<Headed, NoHeader>
    ensures { HeaderPromise capture.now place result }
{
    if 65536 < capture.len() {
        return Err(NoHeader::TooLong);
    }
    if stands_at(capture, place) {
        let length = data_length(capture, place);
        let apid = word_at(capture, place + 6);
        Ok(Headed { apid, length })
    } else {
        Err(NoHeader::NoPacket)
    }
}

// The data of the packet at a place, as a part of the capture; an empty part where no packet stands.
pub fn payload<'a>(capture: &'a [u8], place: usize) -> &'a [u8]
    ensures { PayloadPromise capture.entry place result }
{
    if 65536 < capture.len() {
        return &capture[..0];
    }
    if stands_at(capture, place) {
        let length = data_length(capture, place) as usize;
        let start = place + 8;
        &capture[start..start + length]
    } else {
        &capture[..0]
    }
}

// Writes the packet of an APID and data at the front of the buffer, and answers its bytes.
pub fn write(buffer: &mut [u8], apid: u16, payload: &[u8]) -> Result<usize, NotWritten>
    ensures { WritePromise buffer.old apid payload.now result buffer.new }
{
    let n = payload.len();
    if 8187 < n {
        return Err(NotWritten::TooMuchData);
    }
    if buffer.len() < n + 10 {
        return Err(NotWritten::BufferTooShort);
    }
    put_header(buffer, (n + 4) as u16, apid);
    let end = n + 8;
    copied(&mut buffer[8..end], payload);
    crc::seal(buffer, end);
    Ok(n + 10)
}
