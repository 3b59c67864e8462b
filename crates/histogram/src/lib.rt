// Histogram memory: counters in two pages of lent words, and a state in lent words; opened, counted in, and its pages exchanged.
#![tactic(auto)]

ghost use Rattle.std.specs.Prelude.{◌≡◌, ◌≤◌, length};
ghost use Rattle.ground.specs.Outcome.{accept};
ghost use Rattle.state.specs.Words.{fresh_in, state_words};
ghost use Rattle.histogram.specs.Meaning.{feed_of};
ghost use Rattle.histogram.specs.Answers.{fed_of, not_incremented};
ghost use Rattle.histogram.specs.Promise.{AdmitPromise, OpenPromise, IncrementPromise, IncrementsPromise, FlipPromise};
ghost use Rattle.histogram.specs.declared.NotIncremented.TheVariants as why_not;

use ground::Numbered;
pub use pages::FULL;
use pages::{NotCounted, clear, count, sized};
pub use state::STATE_WORDS;
use state::{SECOND, WORDS, WrongMemory, fitting, second_active};

// Why an increment is refused: its memory is not the state's own, or its particle is not counted.
#[derive(Clone, Copy, Debug, PartialEq, Eq)]
pub enum NotIncremented {
    Memory(WrongMemory),
    Count(NotCounted),
}

// How far a run of increments went: how many were counted, and why the next one was not, where it ended early.
#[derive(Clone, Copy, Debug, PartialEq, Eq)]
pub struct Fed {
    pub count: u64,
    pub ended: Option<NotCounted>,
}

impl Numbered for NotIncremented {
    ghost refusals = { not_incremented };

    fn number(&self) -> u8 {
        match self {
            NotIncremented::Memory(why) => why.number(),
            NotIncremented::Count(why) => why.number(),
        }
    }
}

impl From<WrongMemory> for NotIncremented {
    ghost from_gives = { λ why e. e ≡ why_not.Memory why };

    fn from(why: WrongMemory) -> NotIncremented {
        NotIncremented::Memory(why)
    }
}

impl From<NotCounted> for NotIncremented {
    ghost from_gives = { λ why e. e ≡ why_not.Count why };

    fn from(why: NotCounted) -> NotIncremented {
        NotIncremented::Count(why)
    }
}

// Takes 2N words, sets them all to 0, and makes the state: the first page active, nothing kept.
#[tactic(auto, unfolding(crate::specs::Meaning::open_means))]
pub fn open(memory: &mut [u32], state: &mut [u64]) -> Result<(), WrongMemory>
    ensures { OpenPromise memory.old state.old result memory.new state.new }
{
    let words = memory.len();
    if state.len() < STATE_WORDS || !sized(words) {
        return Err(WrongMemory);
    }
    clear(memory);
    fresh(state, words as u64);
    Ok(())
}

// Whether a call on memory and state may go on: the memory is the state's own.
#[tactic(auto, unfolding(crate::specs::Meaning::admission))]
pub fn admit(memory: &[u32], state: &[u64]) -> Result<(), WrongMemory>
    ensures { AdmitPromise memory.now state.now result }
{
    if fitting(memory.len(), state) {
        Ok(())
    } else {
        Err(WrongMemory)
    }
}

// Adds 1 to the word at an address of the active page.
#[tactic(auto, unfolding(crate::specs::Meaning::increment_means, crate::specs::Meaning::admission))]
pub fn increment(memory: &mut [u32], state: &[u64], address: u32) -> Result<(), NotIncremented>
    ensures { IncrementPromise memory.old state.now address result memory.new }
{
    admit(memory, state)?;
    count(memory, second_active(state), address)?;
    Ok(())
}

// Increments at one address after the other, up to the first that would be refused.
#[tactic(auto, unfolding(crate::specs::Meaning::increments_means, crate::specs::Meaning::admission))]
pub fn increments(memory: &mut [u32], state: &[u64], addresses: &[u32]) -> Result<Fed, WrongMemory>
    ensures { IncrementsPromise memory.old state.now addresses.now result memory.new }
{
    admit(memory, state)?;
    Ok(feed(memory, second_active(state), addresses))
}

// Exchanges the active page and the idle one.
#[tactic(auto, unfolding(crate::specs::Meaning::flip_means, crate::specs::Meaning::admission))]
pub fn flip(memory: &[u32], state: &mut [u64]) -> Result<(), WrongMemory>
    ensures { FlipPromise memory.now state.old result state.new }
{
    admit(memory, state)?;
    state[SECOND] = u64::from(!second_active(state));
    Ok(())
}

// Makes the state of an opened memory of so many words: the first page active, nothing kept.
// Stays: the new form is no plainer: words to be written, in a type as `state::Lent`, are taken out of it again before each store.
fn fresh(state: &mut [u64], words: u64)
    requires { state_words ≤ length state.old }
    ensures { state.new ≡ fresh_in state.old words }
{
    state[..STATE_WORDS].fill(0);
    state[WORDS] = words;
}

// Increments on a page, one address after the other, up to the first that would be refused.
fn feed(memory: &mut [u32], second: bool, addresses: &[u32]) -> Fed
    ensures { accept (fed_of result) memory.new ≡ feed_of 0 memory.old second addresses.now }
{
    for (done, address) in addresses.iter().enumerate() {
        if let Err(why) = count(memory, second, *address) {
            return Fed {
                count: done as u64,
                ended: Some(why),
            };
        }
    }
    Fed {
        count: addresses.len() as u64,
        ended: None,
    }
}
