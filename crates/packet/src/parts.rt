// The parts of a packet: its tests one by one, and its fields put into a buffer.
ghost use Rattle.std.specs.Prelude.{◌≡◌, true, ◌++◌, ◌+◌, ◌≤◌, length, drop};
ghost use Rattle.packet.specs.Putting.{head_of};
ghost use Rattle.packet.specs.Meaning.{marked, data_length, stands};

use ground::{lies_in, put_word, word_at};

// Whether a packet stands at a place.
pub(crate) fn stands_at(capture: &[u8], place: usize) -> bool
    ensures { result ≡ stands capture.now place }
{
    if !lies_in(capture, place, 10) {
        return false;
    }
    if !marked_at(capture, place) {
        return false;
    }
    let word = word_at(capture, place + 4) as usize;
    if word < 4 {
        return false;
    }
    if 8192 <= word {
        return false;
    }
    crc::sealed(capture, place, word + 4)
}

// The number of data bytes of the packet that stands at a place.
pub(crate) fn data_length(capture: &[u8], place: usize) -> u16
    requires { stands capture.now place ≡ true }
    ensures { (result ≡ data_length capture.now place) × (place + (result + 10) ≤ length capture.now) }
{
    word_at(capture, place + 4) - 4
}

// Whether the mark stands at a place.
fn marked_at(capture: &[u8], place: usize) -> bool
    requires { place + 4 ≤ length capture.now }
    ensures { result ≡ marked capture.now place }
{
    capture[place] == 0xBE
        && capture[place + 1] == 0xBA
        && capture[place + 2] == 0xCA
        && capture[place + 3] == 0xFE
}

// Puts a packet's header at the front: the mark, the length word and the APID.
pub(crate) fn put_header(buffer: &mut [u8], word: u16, apid: u16)
    requires { 8 ≤ length buffer.old }
    ensures { buffer.new ≡ head_of word apid ++ drop 8 buffer.old }
{
    put_word(buffer, 0, 0xBEBA);
    put_word(buffer, 2, 0xCAFE);
    put_word(buffer, 4, word);
    put_word(buffer, 6, apid);
}

// Copies data over a part that is as long.
// Stays a loop: what may not change: with `copy_from_slice` the archive for C needs `memmove` from outside, which it did not before.
pub(crate) fn copied(part: &mut [u8], payload: &[u8])
    requires { length part.old ≡ length payload.now }
    ensures { part.new ≡ payload.now }
{
    for (i, byte) in payload.iter().enumerate() {
        part[i] = *byte;
    }
}
