// Command messages, read and written (document 01, "Packets and messages"; 000, 2.4.1).
#![tactic(auto)]

mod parts;

ghost use Rattle.message.specs.Answers.{not_read, not_written};
ghost use Rattle.message.specs.Promise.{ReadPromise, WritePromise};

use ground::{Numbered, put_word, word_at};
use parts::{data_size, number_in, put_number, sayable_as};

// A message that was read: its address, its size tag, its value and the bytes that it used.
#[derive(Clone, Copy, Debug, PartialEq, Eq)]
pub struct Message {
    pub address: u16,
    // Stays: what may not change: a tag is one number for `read` and `write` (`message_reads_back`), and `write` refuses one over 3 by 7 (`write_means`).
    pub tag: u8,
    pub value: u64,
    pub used: usize,
}

// Why no message is read: a wrong mark; a message that is cut short; a wrong checksum.
#[derive(Clone, Copy, Debug, PartialEq, Eq)]
pub enum NotRead {
    WrongMark,
    CutShort,
    WrongChecksum,
}

impl Numbered for NotRead {
    ghost refusals = { not_read };

    fn number(&self) -> u8 {
        match *self {
            NotRead::WrongMark => 4,
            NotRead::CutShort => 5,
            NotRead::WrongChecksum => 6,
        }
    }
}

// Why no message is written: an address, a tag or bits outside the rule; a buffer that is too short.
#[derive(Clone, Copy, Debug, PartialEq, Eq)]
pub enum NotWritten {
    OutsideRule,
    BufferTooShort,
}

impl Numbered for NotWritten {
    ghost refusals = { not_written };

    fn number(&self) -> u8 {
        match *self {
            NotWritten::OutsideRule => 7,
            NotWritten::BufferTooShort => 3,
        }
    }
}

// The message at the front of the bytes; what follows it is ignored.
pub fn read(bytes: &[u8]) -> Result<Message, NotRead>
    ensures { ReadPromise bytes.now result }
{
    if bytes.len() < 4 {
        return Err(NotRead::CutShort);
    }
    if bytes[0] != 0x3C {
        return Err(NotRead::WrongMark);
    }
    if bytes[1] != 0x3D {
        return Err(NotRead::WrongMark);
    }
    let word = word_at(bytes, 2);
    let tag = (word / 16384) as u8;
    let size = data_size(tag);
    if bytes.len() < size + 6 {
        return Err(NotRead::CutShort);
    }
    if !crc::sealed(bytes, 0, size + 4) {
        return Err(NotRead::WrongChecksum);
    }
    Ok(Message {
        address: word % 16384,
        tag,
        value: number_in(&bytes[4..size + 4]),
        used: size + 6,
    })
}

// Writes the message of an address, a size tag and a value at the front of the buffer, and answers its bytes.
pub fn write(buffer: &mut [u8], address: u16, tag: u8, value: u64) -> Result<usize, NotWritten>
    ensures { WritePromise buffer.old address tag value result buffer.new }
{
    if !sayable_as(address, tag, value) {
        return Err(NotWritten::OutsideRule);
    }
    let size = data_size(tag);
    if buffer.len() < size + 6 {
        return Err(NotWritten::BufferTooShort);
    }
    put_word(buffer, 0, 0x3C3D);
    put_word(buffer, 2, (tag as u16) * 16384 + address);
    put_number(buffer, 4, size, value);
    crc::seal(buffer, size + 4);
    Ok(size + 6)
}
