// What a histogram's state says in its lent words: which memory is its own, whose turn an ask is, and which number comes next.
#![tactic(auto)]

mod lent;

ghost use Rattle.std.specs.Prelude.{◌≡◌, ◌≤◌, eqb, get_or, length};
ghost use Rattle.state.specs.Words.{Asked, asked_in, last_in, number_at, page_in, state_words, sum_at, window_in};
ghost use Rattle.state.specs.Turns.{next_of, same_asked, same_of, turn_told};
ghost use Rattle.state.specs.Meaning.{fitting_of, next_after_last, repeats_in, turn_by, turn_in};
ghost use Rattle.state.specs.Answers.{next_paper, no_next, no_turn, wrong_memory};
ghost use Rattle.state.specs.Promise.{NextPromise};

use ground::Numbered;
pub use lent::Lent;
use pages::{Window, sized};

// How many items the table of a kept packet has at most, and how many bytes the packet.
pub const MOST_ITEMS: usize = 64;

pub const MOST_BYTES: usize = 243;

// What is kept, by its word: a window's ask, a packet's.
// Stays: what may not change: a state is lent words, and what each says is `asked_in`, `kept_in` of specs/Words; so of the places below.
pub const WINDOW_ASK: u64 = 1;

pub const PACKET_ASK: u64 = 2;

// Where each stands: the memory's words (2N); whether the second page is active; what is kept; its number, its window, its sum or total.
pub const WORDS: usize = 0;

pub const SECOND: usize = 1;

pub const KEPT: usize = 2;

pub const NUMBER: usize = 3;

pub const ADDRESS: usize = 4;

pub const XSIZE: usize = 5;

pub const YSIZE: usize = 6;

pub const YSTRIDE: usize = 7;

pub const CLEAR: usize = 8;

pub const SUM: usize = 9;

// Then a kept packet's inputs; how many items its table has, and the items; how many bytes the packet has, and the bytes, one a word.
pub const LOW: usize = 10;

pub const FLAGS: usize = 11;

pub const INITIAL: usize = 12;

pub const SECOND_OF_HOUR: usize = 13;

pub const ITEM_COUNT: usize = 14;

pub const ITEMS: usize = 15;

pub const BYTE_COUNT: usize = ITEMS + MOST_ITEMS;

pub const BYTES: usize = BYTE_COUNT + 1;

// How many words a state takes.
pub const STATE_WORDS: usize = BYTES + MOST_BYTES;

// An ask whose turn it is: a new one, or the last one repeated, with its kept sum or total.
#[derive(Clone, Copy, Debug, PartialEq, Eq)]
pub enum Turn {
    NewAsk,
    LastAsk(u64),
}

// An ask whose turn it is not: the last number with another ask, or a number out of turn.
#[derive(Clone, Copy, Debug, PartialEq, Eq)]
pub enum NoTurn {
    OtherAsk,
    OutOfTurn,
}

// A memory that is not the state's own, or a state of too few words.
#[derive(Clone, Copy, Debug, PartialEq, Eq)]
pub struct WrongMemory;

// A state that no next number follows: of too few words, or one that no call leaves.
#[derive(Clone, Copy, Debug, PartialEq, Eq)]
pub struct NoNext;

impl Numbered for NoTurn {
    ghost refusals = { no_turn };

    fn number(&self) -> u8 {
        match self {
            NoTurn::OtherAsk => 18,
            NoTurn::OutOfTurn => 17,
        }
    }
}

impl Numbered for WrongMemory {
    ghost refusals = { wrong_memory };

    fn number(&self) -> u8 {
        13
    }
}

impl Numbered for NoNext {
    ghost refusals = { no_next };

    fn number(&self) -> u8 {
        WrongMemory.number()
    }
}

// Whether a memory of so many words is one that the state belongs to.
pub fn fitting(words: usize, state: &[u64]) -> bool
    ensures { result ≡ fitting_of words state.now }
{
    STATE_WORDS <= state.len() && sized(words) && words as u64 == state[WORDS]
}

// Whether the second page is the active one; no words say that the first is.
pub fn second_active(state: &[u64]) -> bool
    ensures { result ≡ page_in state.now }
{
    state.get(SECOND).is_some_and(|word| *word != 0)
}

// What an ask's number and window make it, beside what is kept.
pub fn turn_of(state: &[u64], number: u16, window: Window) -> Result<Turn, NoTurn>
    ensures { result ≡ turn_in state.now number (Asked.window window) }
{
    turn_by(state, number, repeats(state, number, window))
}

// What an ask's number makes it, beside what is kept, told whether it asks for the same as the kept one.
pub fn turn_by(state: &[u64], number: u16, same: bool) -> Result<Turn, NoTurn>
    ensures { result ≡ turn_by state.now number same }
{
    let lent = Lent::of(state).ok_or(NoTurn::OutOfTurn)?;
    if lent.words[KEPT] != 0 {
        return lent.turn_after(number, same);
    }
    if number == 1 {
        Ok(Turn::NewAsk)
    } else {
        Err(NoTurn::OutOfTurn)
    }
}

// The number that the next new ask bears.
#[tactic(auto, unfolding(crate::specs::Meaning::next_means))]
pub fn next(state: &[u64]) -> Result<u16, NoNext>
    ensures { NextPromise state.now result }
{
    let lent = Lent::of(state).ok_or(NoNext)?;
    if lent.words[KEPT] == 0 {
        return Ok(1);
    }
    following(lent.words[NUMBER])
}

// Whether an ask of a window bears the last number and asks for the same as the kept one.
fn repeats(state: &[u64], number: u16, window: Window) -> bool
    ensures { result ≡ repeats_in state.now number (Asked.window window) }
{
    match Lent::of(state) {
        Some(lent) => lent.is_last(number) && lent.same_ask(window),
        None => false,
    }
}

// Whether a number is the one after another.
pub(crate) fn follows(number: u16, last: u64) -> bool
    ensures { result ≡ eqb number (next_of last) }
{
    match following(last) {
        Ok(next) => number == next,
        Err(NoNext) => false,
    }
}

// The number after the last accepted one: 0 after 65535; none after a number that no ask bears.
fn following(last: u64) -> Result<u16, NoNext>
    ensures { next_paper result ≡ next_after_last last }
{
    let last = u16::try_from(last).map_err(|_| NoNext)?;
    Ok(last.wrapping_add(1))
}
