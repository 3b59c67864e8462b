// Two pages of counters in lent words: where a word lies, counting, and windows of cells checked, summed, cleared, and marked on trial.
#![tactic(auto)]

mod layout;
mod passes;
mod walk;

ghost use Rattle.pages.specs.Answers.{not_counted, not_taken, wrong_cell};
ghost use Rattle.pages.specs.Promise.{SizedPromise, ClearPromise, CountPromise, CheckPromise, TakePromise, PassPromise};

use ground::Numbered;
use layout::place;
use passes::flags_of;
use walk::{last_cell, sound_rows, walk_window};

// A window of counters: cells in rows, and whether an ask of it clears them.
#[derive(Clone, Copy)]
pub struct Window {
    pub address: u32,
    pub xsize: u8,
    pub ysize: u8,
    pub ystride: u16,
    pub clear: bool,
}

// Why a particle is not counted.
#[derive(Clone, Copy, Debug, PartialEq, Eq)]
pub enum NotCounted {
    WrongAddress,
    Full,
    AboveFull,
}

// Why a window is not taken.
#[derive(Clone, Copy, Debug, PartialEq, Eq)]
pub enum NotTaken {
    WrongCell,
    AboveFull,
}

// A window whose last cell lies past the page.
#[derive(Clone, Copy, Debug, PartialEq, Eq)]
pub struct WrongCell;

impl Numbered for NotCounted {
    ghost refusals = { not_counted };

    fn number(&self) -> u8 {
        match self {
            NotCounted::WrongAddress => 14,
            NotCounted::Full => 15,
            NotCounted::AboveFull => 16,
        }
    }
}

impl Numbered for NotTaken {
    ghost refusals = { not_taken };

    fn number(&self) -> u8 {
        match self {
            NotTaken::WrongCell => 14,
            NotTaken::AboveFull => 16,
        }
    }
}

impl Numbered for WrongCell {
    ghost refusals = { wrong_cell };

    fn number(&self) -> u8 {
        14
    }
}

// What is done to each word of a window: kept or set to 0; on trial looked at, marked, or a mark taken away, or a marked word set to 0.
#[derive(Clone, Copy)]
pub enum Pass {
    Keep,
    Clear,
    Look,
    Mark,
    Unmark,
    Zero,
}

// A pass as three flags: whether marked words are not seen, whether words are cleared (on trial by a mark), and whether marks are settled.
// Stays: tried, and it misses a bar of speed: an enum of the pass made an ask of 4 cells 1.5 ns slower (docs/DECISIONS.md, `pages`); specs/Flags has their laws.
#[derive(Clone, Copy)]
struct Flags {
    trial: bool,
    clear: bool,
    settle: bool,
}

// The count at which a word is full and stays.
pub const FULL: u32 = 67108863;

// The mark of a word that was cleared on trial: bit 31, which no count has.
pub const MARK: u32 = 2147483648;

// Whether a memory may have so many words.
pub fn sized(words: usize) -> bool
    ensures { SizedPromise words result }
{
    words.is_multiple_of(2) && (2..=524288).contains(&words)
}

// Sets every word to 0.
// Stays a loop: what may not change: `every_other_word_left` is refused for its meaning only where a loop stands here with its invariant.
pub fn clear(memory: &mut [u32])
    ensures { ClearPromise memory.old memory.new }
{
    for i in 0..memory.len() {
        memory[i] = 0;
    }
}

// Adds 1 to the word at an address of a page.
#[tactic(auto, unfolding(crate::specs::Meaning::count_means))]
pub fn count(memory: &mut [u32], second: bool, address: u32) -> Result<(), NotCounted>
    ensures { CountPromise memory.old second address result memory.new }
{
    let words = memory.len();
    if words / 2 <= address as usize {
        return Err(NotCounted::WrongAddress);
    }
    let at = place(words, second, address as usize);
    let word = memory[at];
    if FULL < word {
        return Err(NotCounted::AboveFull);
    }
    if word == FULL {
        return Err(NotCounted::Full);
    }
    memory[at] = word + 1;
    Ok(())
}

// Sums the cells of a window of a page in order, each set to 0 at once where the window clears.
#[tactic(auto, using(crate::proofs::Walking::inside, crate::specs::Passes::window_walk_lem), unfolding(crate::specs::Meaning::take_means))]
pub fn take(memory: &mut [u32], second: bool, window: Window) -> Result<u64, NotTaken>
    ensures { TakePromise memory.old second window result memory.new }
{
    check(memory, second, window)?;
    Ok(walk_window(memory, second, false, window.clear, false, window))
}

// Whether a window of a page may be taken: its last cell inside the page, and none of its words above full.
#[tactic(auto, unfolding(crate::specs::Meaning::check_means))]
pub fn check(memory: &[u32], second: bool, window: Window) -> Result<(), NotTaken>
    ensures { CheckPromise memory.now second window result }
{
    if memory.len() / 2 <= last_cell(window) {
        return Err(NotTaken::WrongCell);
    }
    if !sound_rows(memory, second, window) {
        return Err(NotTaken::AboveFull);
    }
    Ok(())
}

// Goes over the cells of a window of a page in order, does to each what the pass says, and answers the sum of what was seen.
#[tactic(auto, unfolding(crate::specs::Passes::pass_means))]
pub fn go_over(
    memory: &mut [u32],
    second: bool,
    rule: Pass,
    window: Window,
) -> Result<u64, WrongCell>
    ensures { PassPromise memory.old second rule window result memory.new }
{
    let words = memory.len();
    if words / 2 <= last_cell(window) {
        return Err(WrongCell);
    }
    let flags = flags_of(rule);
    Ok(walk_window(
        memory,
        second,
        flags.trial,
        flags.clear,
        flags.settle,
        window,
    ))
}
