// A state's words as they are lent to be read: at least as many as a state takes.
ghost use Rattle.std.specs.Prelude.{MatchOption, ◌≡◌, ◌≤◌, ◌<◌, eqb, get_or, length};
ghost use Rattle.state.specs.Words.{Asked, asked_in, last_in, number_at, state_words, window_in};
ghost use Rattle.state.specs.Turns.{same_asked, same_of, turn_told};

use crate::{
    ADDRESS, CLEAR, KEPT, NUMBER, NoTurn, PACKET_ASK, STATE_WORDS, SUM, Turn, XSIZE, YSIZE,
    YSTRIDE, follows,
};
use pages::Window;

// The words of a state.
#[derive(Clone, Copy)]
pub struct Lent<'a> {
    pub words: &'a [u64],
    ghost long: { state_words ≤ length words.now },
}

impl<'a> Lent<'a> {
    // The state that words are; nothing where they are too few.
    pub fn of(words: &'a [u64]) -> Option<Lent<'a>>
        ensures { MatchOption result (length words.now < state_words) (λ lent. lent.words.now ≡ words.now) }
    {
        if words.len() < STATE_WORDS {
            None
        } else {
            Some(Lent { words })
        }
    }

    // What an ask's number makes it after an accepted ask, told whether it asks for the same.
    pub(crate) fn turn_after(&self, number: u16, same: bool) -> Result<Turn, NoTurn>
        ensures { result ≡ turn_told (last_in self.now.words.now) number same }
    {
        if self.is_last(number) {
            if same {
                Ok(Turn::LastAsk(self.words[SUM]))
            } else {
                Err(NoTurn::OtherAsk)
            }
        } else if follows(number, self.words[NUMBER]) {
            Ok(Turn::NewAsk)
        } else {
            Err(NoTurn::OutOfTurn)
        }
    }

    // Whether a number is that of the kept ask.
    pub fn is_last(&self, number: u16) -> bool
        ensures { result ≡ eqb number (get_or self.now.words.now number_at 0) }
    {
        u64::from(number) == self.words[NUMBER]
    }

    // Whether the kept ask is one of this window; a packet's is not.
    pub(crate) fn same_ask(&self, window: Window) -> bool
        ensures { result ≡ same_asked (asked_in self.now.words.now) (Asked.window window) }
    {
        self.words[KEPT] != PACKET_ASK && self.same_window(window)
    }

    // Whether the kept window is this one, clear or keep included.
    fn same_window(&self, window: Window) -> bool
        ensures { result ≡ same_of (window_in self.now.words.now) window }
    {
        self.words[ADDRESS] == u64::from(window.address)
            && self.words[XSIZE] == u64::from(window.xsize)
            && self.words[YSIZE] == u64::from(window.ysize)
            && self.words[YSTRIDE] == u64::from(window.ystride)
            && (self.words[CLEAR] != 0) == window.clear
    }
}
