// The trial of items: how many lead with windows that may be taken, and their run on words that are marked instead of cleared.
ghost use Rattle.std.specs.Prelude.{◌≡◌, ◌+◌, ◌/◌, ◌≤◌, ◌<◌, length, take};
ghost use Rattle.ground.specs.Bits.{bits_of};
ghost use Rattle.ground.specs.Choice.{pick};
ghost use Rattle.pages.specs.Meaning.{cells_of, last_of, walk_at};
ghost use Rattle.pages.specs.Passes.{pass_of};
ghost use Rattle.item.specs.Answers.{sent_paper};
ghost use Rattle.item.specs.Filling.{Filled};
ghost use Rattle.item.specs.Meaning.{window_of};
ghost use Rattle.data_packet.specs.Meaning.{most_items, result_of};
ghost use Rattle.data_packet.specs.Running.{Inside};
ghost use Rattle.data_packet.specs.Settling.{trial_pass};
ghost use Rattle.data_packet.specs.Steps.{LeadingPromise, TrialPromise, TryPromise, found_after, most_data, most_sum, most_sums};

use crate::Found;
use item::{NotSent, adds, send, window_of};
use pages::{NotTaken, Pass, Window, check, go_over};

// How many items lead whose windows may be taken, and why the next one's may not.
pub(crate) fn leading(memory: &[u32], page: bool, items: &[u64]) -> (usize, Result<(), NotTaken>)
    ensures { LeadingPromise memory.now page items.now result.0 result.1 }
{
    for (i, item) in items.iter().enumerate() {
        let checked = check(memory, page, window_of(*item));
        if checked.is_err() {
            return (i, checked);
        }
    }
    (items.len(), Ok(()))
}

// Tries items in order: marks what they clear, and puts what they send behind the data's first byte.
pub(crate) fn trial(memory: &mut [u32], page: bool, items: &[u64], bytes: &mut [u8]) -> Found
    requires good { (length items.now ≤ most_items) × Inside (length memory.old) items.now (length items.now) }
    requires room { (length bytes.old ≡ most_data) × Filled bytes.old (take 8 (bits_of bytes.old)) }
    ensures { TrialPromise memory.old page items.now (take 8 (bits_of bytes.old)) result memory.new bytes.new }
{
    let mut found = Found {
        previous: 0,
        total: 0,
        at: 8,
        fits: true,
    };
    for item in items {
        found = try_item(memory, page, *item, found, bytes);
    }
    found
}

// Tries one item after what was found before it.
fn try_item(memory: &mut [u32], page: bool, item: u64, found: Found, bytes: &mut [u8]) -> Found
    requires { (last_of (window_of item) < length memory.old / 2) × (found.previous ≤ most_sums) × (found.total ≤ most_sums) }
    ensures { TryPromise memory.old page item found bytes.old result memory.new bytes.new }
{
    let window = window_of(item);
    let own = pass_window(memory, page, trial_pass(window.clear), window);
    let previous = result_of(item, found.previous, own);
    let total = total_of(found.total, window.clear, own);
    let sent = send(bytes, found.at, item, previous);
    found_after(found, previous, total, sent)
}

// What was found with one item more: its result, the total with it, and where it was sent.
fn found_after(found: Found, previous: u64, total: u64, sent: Result<u64, NotSent>) -> Found
    ensures { result ≡ found_after found previous total (sent_paper sent) }
{
    Found {
        previous,
        total,
        at: sent.unwrap_or(found.at),
        fits: found.fits && sent.is_ok(),
    }
}

// An item's result: its own sum, and the previous item's result where it adds.
fn result_of(item: u64, previous: u64, own: u64) -> u64
    requires { (previous ≤ most_sums) × (own ≤ most_sum) }
    ensures { result ≡ result_of item previous own }
{
    if adds(item) { own + previous } else { own }
}

// The total with a clearing item's own sum.
fn total_of(total: u64, clear: bool, own: u64) -> u64
    requires { (total ≤ most_sums) × (own ≤ most_sum) }
    ensures { result ≡ total + pick clear own 0 }
{
    if clear { total + own } else { total }
}

// How a trial passes over a window that clears, or does not.
fn trial_pass(clear: bool) -> Pass
    ensures { result ≡ trial_pass clear }
{
    if clear { Pass::Mark } else { Pass::Look }
}

// Passes over a window whose last cell is inside the page.
pub(crate) fn pass_window(memory: &mut [u32], page: bool, pass: Pass, window: Window) -> u64
    requires { last_of window < length memory.old / 2 }
    ensures { (walk_at memory.new result ≡ pass_of pass (length memory.old) page (walk_at memory.old 0) (cells_of window)) × (result ≤ most_sum) }
{
    go_over(memory, page, pass, window).unwrap()
}
