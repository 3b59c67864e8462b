// The cells of a window: whether an ask may visit them, and the visits themselves, row after row.
ghost use Rattle.std.specs.Prelude.{◌≡◌, ◌+◌, ◌*◌, ◌/◌, ◌≤◌, ◌<◌, length, get_or, set};
ghost use Rattle.pages.specs.Meaning.{cells_of, last_of, row_of, row_start, sound_of, walk_at};
ghost use Rattle.pages.specs.Flags.{pass_by};
ghost use Rattle.pages.specs.Passes.{left_of, pass_of, value_of, window_pass};

use crate::layout::place;
use crate::passes::{left, value};
use crate::{FULL, Flags, Window};

// The address of a window's last cell.
pub(crate) fn last_cell(window: Window) -> usize
    ensures { result ≡ last_of window }
{
    row_start(window, usize::from(window.ysize)) + usize::from(window.xsize)
}

// Whether every word of a window is at most full.
// Stays beside `walk_window`: the new form is no plainer: one walk for a memory that is read and one that is written needs a trait, two types and their laws.
pub(crate) fn sound_rows(memory: &[u32], page: bool, window: Window) -> bool
    requires { last_of window < length memory.now / 2 }
    ensures { result ≡ sound_of memory.now page (cells_of window) }
{
    let width = usize::from(window.xsize) + 1;
    let mut ok = true;
    for row in 0..usize::from(window.ysize) + 1 {
        ok &= sound_row(memory, page, row_start(window, row), width);
    }
    ok
}

// Stays with three flags by value: tried, and the struct misses a bar of speed (a fourth more instructions for a packet of small windows: it is not inlined).
// Goes over a window once: each visit adds what it sees of the word then, and leaves there at once what the pass leaves.
pub(crate) fn walk_window(
    memory: &mut [u32],
    page: bool,
    trial: bool,
    clear: bool,
    settle: bool,
    window: Window,
) -> u64
    requires { last_of window < length memory.old / 2 }
    ensures result_after { walk_at memory.new result ≡ window_pass memory.old page (pass_by trial clear settle) window }
    ensures upper_bound { result ≤ 281474976710656 }
{
    let flags = Flags {
        trial,
        clear,
        settle,
    };
    let width = usize::from(window.xsize) + 1;
    let mut sum = 0;
    for row in 0..usize::from(window.ysize) + 1 {
        sum = walk_row(memory, page, flags, row_start(window, row), width, sum);
    }
    sum
}

// The address of a row's first cell.
fn row_start(window: Window, row: usize) -> usize
    requires { row < 256 }
    ensures { (result ≡ row_start window row) × (result < 8589934592) }
{
    window.address as usize + row * row_step(window)
}

// How far a row's first cell lies past the first cell of the row before: ystride past that row's last.
fn row_step(window: Window) -> usize
    ensures { (result ≡ window.xsize + window.ystride) × (result < 65792) }
{
    usize::from(window.xsize) + usize::from(window.ystride)
}

// Whether every word of a row is at most full.
fn sound_row(memory: &[u32], page: bool, start: usize, width: usize) -> bool
    requires { start + width ≤ length memory.now / 2 }
    ensures { result ≡ sound_of memory.now page (row_of start width) }
{
    let mut ok = true;
    for column in 0..width {
        ok &= memory[place(memory.len(), page, start + column)] <= FULL;
    }
    ok
}

// Goes over every cell of a row in order, and answers the sum so far with what was seen added.
fn walk_row(
    memory: &mut [u32],
    page: bool,
    flags: Flags,
    start: usize,
    width: usize,
    sum: u64,
) -> u64
    requires { (start + width ≤ length memory.old / 2) × (width ≤ 256) × (sum ≤ 281474976710656) }
    ensures result_after { walk_at memory.new result
        ≡ pass_of (pass_by flags.trial flags.clear flags.settle) (length memory.old) page (walk_at memory.old sum) (row_of start width) }
    ensures upper_bound { result ≤ sum + width * 4294967296 }
{
    let mut total = sum;
    for column in 0..width {
        let at = place(memory.len(), page, start + column);
        total += visit(memory, at, flags);
    }
    total
}

// Answers what a pass sees of the word at a place, and leaves there what it leaves.
fn visit(memory: &mut [u32], at: usize, flags: Flags) -> u64
    requires { at < length memory.old }
    ensures value { (result ≡ value_of (pass_by flags.trial flags.clear flags.settle) (get_or memory.old at 0)) × (result < 4294967296) }
    ensures memory_after { memory.new
        ≡ set memory.old at (left_of (pass_by flags.trial flags.clear flags.settle) (get_or memory.old at 0)) }
{
    let word = memory[at];
    memory[at] = left(flags, word);
    u64::from(value(flags, word))
}
