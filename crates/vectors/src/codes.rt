// Packed codes, asked of a reader.
use crate::say;
use code::{Refusal, Unpacked};

// The code at a position.
pub fn read(bytes: &[u8], at: u64, drop: u8) {
    told(reader::read_at(bytes, at, drop), at);
}

// A run of codes from a position on, up to the first that is refused: a reader that stood at a code is moved to the next.
pub fn run(bytes: &[u8], at: u64, drop: u8) {
    let mut from = at;
    let mut to = told(reader::read_at(bytes, at, drop), at);
    for _ in 0..u64::MAX {
        if to <= from {
            return;
        }
        let next = told(reader::read_moved(bytes, from, to, drop), to);
        from = to;
        to = next;
    }
}

// The line of a code: 0, the number and the next position, which it answers; or the refusal, and where it was asked for.
fn told(answer: Result<Unpacked, Refusal>, at: u64) -> u64 {
    say::first(u64::from(ground::number_of(answer)));
    let mut next = at;
    match answer {
        Ok(code) => {
            say::signed(code.value);
            say::more(code.next);
            next = code.next;
        }
        Err(Refusal::RanOut { missing }) => say::more(u64::from(missing)),
        Err(_) => (),
    }
    say::end();
    next
}
