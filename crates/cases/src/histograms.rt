// Histogram memory: document 01's case, and a memory's last counter at the smallest and the largest N.
ghost use Rattle.std.specs.Prelude.{◌≡◌, length};

use crate::STANDARD_OUTPUT;
use ground::Numbered;
use histogram::STATE_WORDS;
use window_ask::{Answered, NotAsked, Window};

// All the lines of histogram memory.
pub fn run() {
    let mut memory = largest();
    let mut state = [0; STATE_WORDS];
    all(&mut memory, &mut state);
}

// The largest memory.
fn largest() -> [u32; 524288]
    ensures { 524288 ≡ length result }
{
    zeros()
}

// So many words, each 0.
fn zeros<const N: usize>() -> [u32; N]
    ensures { N ≡ length result }
{
    [0; N]
}

// Each case in turn.
fn all(memory: &mut [u32], state: &mut [u64]) {
    lend_three(memory, state, 4);
    lend_last(memory, state, 2, 0);
    lend_last(memory, state, 524288, 262143);
}

// Lends so many words to document 01's case.
fn lend_three(memory: &mut [u32], state: &mut [u64], words: usize) {
    if words <= memory.len() {
        three(&mut memory[..words], state);
    }
}

// Lends so many words to the case of the last counter.
fn lend_last(memory: &mut [u32], state: &mut [u64], words: usize, last: u32) {
    if words <= memory.len() {
        last_counter(&mut memory[..words], state, last);
    }
}

// Document 01's case: three increments at 0, a flip, and asks on cells 0 and 1.
fn three(memory: &mut [u32], state: &mut [u64]) {
    open(memory, state);
    increments(memory, state);
    flip(memory, state);
    asks(memory, state, clearing(0, 1));
}

// Three increments at 0.
fn increments(memory: &mut [u32], state: &[u64]) {
    for _ in 0..3 {
        increment(memory, state, 0);
    }
}

// The asks 1, 1 again, 2 and 4.
fn asks(memory: &mut [u32], state: &mut [u64], window: Window) {
    for number in [1, 1, 2, 4] {
        ask(memory, state, number, window);
    }
}

// One increment at the last address, a flip, an ask of it, and an increment past it.
fn last_counter(memory: &mut [u32], state: &mut [u64], last: u32) {
    open(memory, state);
    increment(memory, state, last);
    flip(memory, state);
    ask(memory, state, 1, clearing(last, 0));
    if last < 262144 {
        increment(memory, state, last + 1);
    }
}

// A clearing window of one row.
fn clearing(address: u32, xsize: u8) -> Window {
    Window {
        address,
        xsize,
        ysize: 0,
        ystride: 0,
        clear: true,
    }
}

// Opening; a line where it is refused.
fn open(memory: &mut [u32], state: &mut [u64]) {
    refusal(b"open", histogram::open(memory, state));
}

// An increment; a line where it is refused.
fn increment(memory: &mut [u32], state: &[u64], address: u32) {
    refusal(b"increment", histogram::increment(memory, state, address));
}

// A flip; a line where it is refused.
fn flip(memory: &[u32], state: &mut [u64]) {
    refusal(b"flip", histogram::flip(memory, state));
}

// An ask, and its line.
fn ask(memory: &mut [u32], state: &mut [u64], number: u16, window: Window) {
    let answer = window_ask::ask(memory, state, number, window);
    word(b"ask ");
    decimal(u64::from(number));
    asked(answer);
}

// How an ask's line ends.
fn asked(answer: Result<Answered, NotAsked>) {
    match answer {
        Ok(Answered::New { sum }) => summed(b" new ", sum),
        Ok(Answered::Again { sum }) => summed(b" again ", sum),
        Err(why) => refused(why),
    }
}

// The end of an accepted ask's line.
fn summed(how: &[u8], sum: u64) {
    word(how);
    decimal(sum);
    word(b"\n");
}

// The line of a call that is refused.
fn refusal<E: Numbered + Copy>(call: &[u8], answer: Result<(), E>) {
    if let Err(why) = answer {
        word(call);
        refused(why);
    }
}

// The end of a refused call's line.
fn refused<E: Numbered + Copy>(why: E) {
    word(b" refused ");
    decimal(u64::from(why.number()));
    word(b"\n");
}

// A word of a line.
fn word(text: &[u8]) {
    io::write_all(STANDARD_OUTPUT, text);
}

// A number of a line, in decimal.
fn decimal(n: u64) {
    io::print_decimal(STANDARD_OUTPUT, n);
}
