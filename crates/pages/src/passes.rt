// A pass as three flags, and what they see of a word and leave of it.
ghost use Rattle.std.specs.Prelude.{◌≡◌, true};
ghost use Rattle.ground.specs.Choice.{pick};
ghost use Rattle.pages.specs.Flags.{flags_of, left_by};
ghost use Rattle.pages.specs.Passes.{seen};

use crate::{Flags, MARK, Pass};

// The flags of a pass.
pub(crate) fn flags_of(rule: Pass) -> Flags
    ensures { result ≡ flags_of rule }
{
    match rule {
        Pass::Keep => Flags {
            trial: false,
            clear: false,
            settle: false,
        },
        Pass::Clear => Flags {
            trial: false,
            clear: true,
            settle: false,
        },
        Pass::Look => Flags {
            trial: true,
            clear: false,
            settle: false,
        },
        Pass::Mark => Flags {
            trial: true,
            clear: true,
            settle: false,
        },
        Pass::Unmark => Flags {
            trial: true,
            clear: false,
            settle: true,
        },
        Pass::Zero => Flags {
            trial: true,
            clear: true,
            settle: true,
        },
    }
}

// What a pass leaves of a word.
pub(crate) fn left(flags: Flags, word: u32) -> u32
    ensures { result ≡ left_by flags.trial flags.clear flags.settle word }
{
    if flags.trial {
        tried(flags, word)
    } else if flags.clear {
        0
    } else {
        word
    }
}

// What a pass on trial leaves of a word: marked, settled, or as it was.
fn tried(flags: Flags, word: u32) -> u32
    ensures { result ≡ left_by true flags.clear flags.settle word }
{
    match (flags.settle, flags.clear) {
        (true, true) => unless_marked(word),
        (true, false) => word % MARK,
        (false, true) => word % MARK + MARK,
        (false, false) => word,
    }
}

// What a pass sees of a word: on trial nothing of a marked one.
pub(crate) fn value(flags: Flags, word: u32) -> u32
    ensures { result ≡ pick flags.trial (seen word) word }
{
    if flags.trial {
        unless_marked(word)
    } else {
        word
    }
}

// A word, or 0 where it is marked.
fn unless_marked(word: u32) -> u32
    ensures { result ≡ seen word }
{
    if word < MARK { word } else { 0 }
}
