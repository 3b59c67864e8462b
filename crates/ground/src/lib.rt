// What every layer says: definitions and laws, in specs/, and 16-bit words in bytes, read and put (document 01, "Numbers are big
// endian").
#![tactic(auto)]

ghost use Rattle.std.specs.Prelude.{◌≡◌, ◌<◌};
ghost use Rattle.ground.specs.Paper.{number_of};
ghost use Rattle.ground.specs.Refusals.{Refusals, on_paper};
ghost use Rattle.ground.specs.Promise.{LiesPromise, PutPromise, WordPromise};

// Why a call refuses: a refusal with its number in document 01.
pub trait Numbered {
    ghost refusals: { Refusals Self };

    fn number(&self) -> u8
        ensures { result ≡ refusals.number self.now };
}

// Document 01's number of what a call answered, 0 where it is accepted.
pub fn number_of<T: Copy, E: Numbered + Copy>(answer: Result<T, E>) -> u8
    ensures { result ≡ number_of (on_paper E.refusals answer) }
{
    match answer {
        Ok(_) => 0,
        Err(why) => why.number(),
    }
}

// Whether so many bytes from a place on lie in the bytes.
// Stays: what may not change: `LiesPromise` and docs/CONTRACTS.md have place and size; they are what is asked about, and no buffer's bounds.
pub fn lies_in(bytes: &[u8], at: usize, size: usize) -> bool
    ensures { LiesPromise bytes.now at size result }
{
    if bytes.len() < at {
        return false;
    }
    size <= bytes.len() - at
}

// The word at a place; 0 where it does not lie in the bytes.
pub fn word_at(bytes: &[u8], at: usize) -> u16
    ensures { WordPromise bytes.now at result }
{
    if lies_in(bytes, at, 2) {
        u16::from_be_bytes([bytes[at], bytes[at + 1]])
    } else {
        0
    }
}

// Puts a word at a place; nothing where it does not lie in the buffer.
pub fn put_word(buffer: &mut [u8], at: usize, word: u16)
    ensures { PutPromise buffer.old at word buffer.new }
{
    if lies_in(buffer, at, 2) {
        buffer[at..at + 2].copy_from_slice(&word.to_be_bytes());
    }
}
