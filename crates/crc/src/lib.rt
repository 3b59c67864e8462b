// The checksum of packets and messages (document 01, "Packets and messages"; 000, 2.4.1).
#![tactic(auto)]

ghost use Rattle.std.specs.Prelude.{◌≡◌, ◌+◌, ◌*◌, ◌/◌, ◌%◌, ◌^◌, ◌<◌, ◌≤◌, length, drop};
ghost use Rattle.std.specs.Int.Bits.{bit_xor};
ghost use Rattle.crc.specs.Meaning.{step, run};
ghost use Rattle.crc.specs.Promise.{ChecksumPromise, SealedPromise, SealPromise};
ghost use Rattle.crc.specs.Folding.{sixteen, carry_of, spread_of, after_word, register_of, Pair, Word};

use ground::{lies_in, put_word, word_at};

// Sixteen bytes that stand for all bytes so far: they take the register from 0 to where those take it.
#[derive(Clone, Copy)]
struct Fold {
    first: u32,
    second: u32,
    third: u32,
    fourth: u32,
}

// The checksum of bytes: every slice has one, and the empty slice has 0xffff.
pub fn checksum(bytes: &[u8]) -> u16
    ensures { ChecksumPromise bytes.now result }
{
    if bytes.len() < 16 {
        return rest(bytes, 0xffff);
    }
    long(bytes)
}

// Whether n bytes stand at a place with their checksum behind them; not where they do not lie in the bytes.
pub fn sealed(bytes: &[u8], at: usize, n: usize) -> bool
    ensures { SealedPromise bytes.now at n result }
{
    if !lies_in(bytes, at, n) {
        return false;
    }
    let end = at + n;
    if !lies_in(bytes, end, 2) {
        return false;
    }
    checksum(&bytes[at..end]) == word_at(bytes, end)
}

// Puts the checksum of the first n bytes behind them; nothing where it does not lie in the buffer.
pub fn seal(buffer: &mut [u8], n: usize)
    ensures { SealPromise buffer.old n buffer.new }
{
    if lies_in(buffer, n, 2) {
        let sum = checksum(&buffer[..n]);
        put_word(buffer, n, sum);
    }
}

// The register after sixteen bytes and more, four bytes at a time.
fn long(bytes: &[u8]) -> u16
    requires { 16 ≤ length bytes.now }
    ensures { result ≡ run 0xffff bytes.now }
{
    let mut fold = opened(bytes);
    let (words, tail) = bytes[16..].as_chunks::<4>();
    for word in words {
        fold = folded(fold, u32::from_be_bytes(*word));
    }
    rest(tail, closed(fold))
}

// The register after further bytes, two at a time and then a last one.
fn rest(bytes: &[u8], register: u16) -> u16
    ensures { result ≡ run register bytes.now }
{
    let mut kept = register;
    let (pairs, tail) = bytes.as_chunks::<2>();
    for pair in pairs {
        kept = joined(kept, u16::from_be_bytes(*pair));
    }
    last(tail, kept)
}

// The register after two bytes more, by their number.
fn joined(register: u16, two: u16) -> u16
    ensures { result ≡ sixteen (bit_xor register two) }
{
    shifted(register ^ two)
}

// The register after a last byte, where there is one.
fn last(bytes: &[u8], register: u16) -> u16
    requires { length bytes.now ≤ 1 }
    ensures { result ≡ run register bytes.now }
{
    match bytes.first() {
        Some(byte) => stepped(register, *byte),
        None => register,
    }
}

// The fold of the first sixteen bytes, the register's start added to the first two.
fn opened(bytes: &[u8]) -> Fold
    requires { 16 ≤ length bytes.now }
    ensures { run (register_of result) (drop 16 bytes.now) ≡ run 0xffff bytes.now }
{
    Fold {
        first: started(word(bytes, 0)),
        second: word(bytes, 4),
        third: word(bytes, 8),
        fourth: word(bytes, 12),
    }
}

// The first word with the register's start.
fn started(word: u32) -> u32
    ensures { after_word 0 result ≡ after_word 0xffff word }
{
    word ^ 0xffff0000
}

// The fold one word further: its first word moves to the places that the polynomial's eighth power names.
fn folded(fold: Fold, word: u32) -> Fold
    ensures { register_of result ≡ after_word (register_of fold) word }
{
    Fold {
        first: fold.second ^ fold.first,
        second: fold.third ^ top(fold.first),
        third: fold.fourth ^ below_top(fold.first),
        fourth: word ^ fold.first,
    }
}

// The first byte of a word.
fn top(word: u32) -> u32
    ensures { result ≡ word / 2 ^ 24 }
{
    word / 0x1000000
}

// The other three bytes of a word, moved up by one byte.
fn below_top(word: u32) -> u32
    ensures { result ≡ word % 2 ^ 24 * 2 ^ 8 }
{
    word % 0x1000000 * 256
}

// The register after the bytes that a fold stands for.
fn closed(fold: Fold) -> u16
    ensures { result ≡ register_of fold }
{
    let first = through(0, fold.first);
    let second = through(first, fold.second);
    let third = through(second, fold.third);
    through(third, fold.fourth)
}

// The register after the four bytes of a word.
fn through(register: u16, word: u32) -> u16
    ensures { result ≡ after_word register word }
{
    let half = shifted(register ^ high(word));
    shifted(half ^ low(word))
}

// The first two bytes of a word.
fn high(word: u32) -> u16
    ensures { result ≡ word / 2 ^ 16 }
{
    (word / 65536) as u16
}

// The last two bytes of a word.
fn low(word: u32) -> u16
    ensures { result ≡ word % 2 ^ 16 }
{
    (word % 65536) as u16
}

// The word of four bytes at a place.
fn word(bytes: &[u8], at: usize) -> u32
    requires { at + 4 ≤ length bytes.now }
    ensures { Word bytes.now at result }
{
    u32::from_be_bytes([bytes[at], bytes[at + 1], bytes[at + 2], bytes[at + 3]])
}

// The register after one byte more.
fn stepped(register: u16, byte: u8) -> u16
    ensures { result ≡ step register byte }
{
    let half = upper(register);
    shifted(half ^ (byte as u16)) ^ (register % 256 * 256)
}

// The upper half of the register.
fn upper(register: u16) -> u16
    ensures { (result ≡ register / 2 ^ 8) × (result < 256) }
{
    register / 256
}

// The register after sixteen bits. Turn by turn: with all that falls out at once the compiler uses vectors, and is slower.
fn shifted(register: u16) -> u16
    ensures { result ≡ sixteen register }
{
    let first = carry(register);
    let second = carry(first);
    let third = carry(second);
    spread(register ^ first ^ second ^ third)
}

// What falls out of the register where the polynomial's terms are added, each at its place.
fn carry(register: u16) -> u16
    ensures { result ≡ carry_of register }
{
    (register / 16) ^ (register / 2048)
}

// What stays in the register where the polynomial's terms are added.
fn spread(register: u16) -> u16
    ensures { result ≡ spread_of register }
{
    (register % 16 * 4096) ^ (register % 2048 * 32) ^ register
}
