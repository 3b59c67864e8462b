// Sums of windows asked for by number: a window of the idle page taken once for each number, and the kept sum answered again.
#![tactic(auto)]

ghost use Rattle.std.specs.Prelude.{◌≡◌, ◌≤◌, length};
ghost use Rattle.state.specs.Words.{keep_in, state_words};
ghost use Rattle.window_ask.specs.Answers.{not_asked};
ghost use Rattle.window_ask.specs.Promise.{AskPromise};
ghost use Rattle.window_ask.specs.declared.NotAsked.TheVariants as why_not;

use ground::Numbered;
use histogram::admit;
pub use pages::Window;
use pages::{NotTaken, take};
use state::{
    ADDRESS, CLEAR, KEPT, NUMBER, NoTurn, SUM, Turn, WINDOW_ASK, WrongMemory, XSIZE, YSIZE,
    YSTRIDE, second_active, turn_of,
};

// What an accepted ask answers: its sum, new, or the kept one again.
#[derive(Clone, Copy, Debug, PartialEq, Eq)]
pub enum Answered {
    New { sum: u64 },
    Again { sum: u64 },
}

// Why an ask is refused: its memory is not the state's own, it is not its turn, or its window is not taken.
#[derive(Clone, Copy, Debug, PartialEq, Eq)]
pub enum NotAsked {
    Memory(WrongMemory),
    Turn(NoTurn),
    Window(NotTaken),
}

impl Numbered for NotAsked {
    ghost refusals = { not_asked };

    fn number(&self) -> u8 {
        match self {
            NotAsked::Memory(why) => why.number(),
            NotAsked::Turn(why) => why.number(),
            NotAsked::Window(why) => why.number(),
        }
    }
}

impl From<WrongMemory> for NotAsked {
    ghost from_gives = { λ why e. e ≡ why_not.Memory why };

    fn from(why: WrongMemory) -> NotAsked {
        NotAsked::Memory(why)
    }
}

impl From<NoTurn> for NotAsked {
    ghost from_gives = { λ why e. e ≡ why_not.Turn why };

    fn from(why: NoTurn) -> NotAsked {
        NotAsked::Turn(why)
    }
}

impl From<NotTaken> for NotAsked {
    ghost from_gives = { λ why e. e ≡ why_not.Window why };

    fn from(why: NotTaken) -> NotAsked {
        NotAsked::Window(why)
    }
}

// Sums a window of the idle page, once for each number: the same number and window again answers the sum that was kept.
#[tactic(auto, unfolding(crate::specs::Meaning::ask_means, crate::specs::Meaning::new_means))]
pub fn ask(
    memory: &mut [u32],
    state: &mut [u64],
    number: u16,
    window: Window,
) -> Result<Answered, NotAsked>
    ensures { AskPromise memory.old state.old number window result memory.new state.new }
{
    admit(memory, state)?;
    match turn_of(state, number, window)? {
        Turn::NewAsk => {
            let sum = take(memory, !second_active(state), window)?;
            keep(state, number, window, sum);
            Ok(Answered::New { sum })
        }
        Turn::LastAsk(sum) => Ok(Answered::Again { sum }),
    }
}

// Keeps a new ask and its sum.
// Stays: the new form is no plainer: words to be written, in a type as `state::Lent`, are taken out of it again before each store.
fn keep(state: &mut [u64], number: u16, window: Window, sum: u64)
    requires { state_words ≤ length state.old }
    ensures { state.new ≡ keep_in state.old number window sum }
{
    state[KEPT] = WINDOW_ASK;
    state[NUMBER] = u64::from(number);
    state[ADDRESS] = u64::from(window.address);
    state[XSIZE] = u64::from(window.xsize);
    state[YSIZE] = u64::from(window.ysize);
    state[YSTRIDE] = u64::from(window.ystride);
    state[CLEAR] = u64::from(window.clear);
    state[SUM] = sum;
}
