// Histogram memory and numbered asks; the state is words that the caller lends and keeps.
ghost use Rattle.histogram.specs.Meaning.{lent};
ghost use Rattle.plavotesk.specs.Meaning.{window_of};
ghost use Rattle.plavotesk.specs.Promise.{HistogramOpenPromise, HistogramIncrementPromise, HistogramFlipPromise, HistogramAskPromise, HistogramIncrementsPromise, HistogramNextPromise, HistogramPacketPromise};

use crate::told::told;
use ground::{Numbered, number_of};
use packet_ask::Inputs;
use window_ask::Window;

// Takes 2N words, sets them all to 0, and makes the state of an opened memory in lent words; 13.
pub fn plv_histogram_open(memory: &mut [u32], state: &mut [u64]) -> u8
    ensures { HistogramOpenPromise memory.old state.old (record { number = result; memory = memory.new; state = state.new }) }
{
    number_of(histogram::open(memory, state))
}

// Adds 1 to the word at an address of the active page; 13, 14, 16, 15.
pub fn plv_histogram_increment(memory: &mut [u32], state: &[u64], address: u32) -> u8
    ensures { HistogramIncrementPromise memory.old state.now address (record { number = result; memory = memory.new; state = state.now }) }
{
    number_of(histogram::increment(memory, state, address))
}

// Adds 1 for each address, one after the other, up to the first that would be refused: how many, and by which number it ended; 13.
#[tactic(auto, unfolding(crate::specs::Meaning::told_as))]
pub fn plv_histogram_increments(
    memory: &mut [u32],
    state: &[u64],
    addresses: &[u32],
    count: &mut u64,
    ended: &mut u8,
) -> u8
    ensures { HistogramIncrementsPromise memory.old state.now addresses.now (record { count = count.old; ended = ended.old }) ((result, record { count = count.new; ended = ended.new }), lent memory.new state.now) }
{
    match histogram::increments(memory, state, addresses) {
        Ok(fed) => {
            *count = fed.count;
            *ended = match fed.ended {
                Some(why) => why.number(),
                None => 0,
            };
            0
        }
        Err(why) => why.number(),
    }
}

// The number that the next new ask bears; 13.
pub fn plv_histogram_next(state: &[u64], number: &mut u16) -> u8
    ensures { HistogramNextPromise state.now number.old (result, number.new) }
{
    told(state::next(state), number)
}

// Exchanges the active page and the idle one; 13.
pub fn plv_histogram_flip(memory: &[u32], state: &mut [u64]) -> u8
    ensures { HistogramFlipPromise memory.now state.old (record { number = result; memory = memory.now; state = state.new }) }
{
    number_of(histogram::flip(memory, state))
}

// Sums a window of the idle page, once for each number; clear 0 keeps, any other number clears, and again is 1 for a repeat, 0 for a new ask; 13, 18, 17, 14, 16.
pub fn plv_histogram_ask(
    memory: &mut [u32],
    state: &mut [u64],
    number: u16,
    address: u32,
    xsize: u8,
    ysize: u8,
    ystride: u16,
    clear: u8,
    sum: &mut u64,
    again: &mut u8,
) -> u8
    ensures { HistogramAskPromise memory.old state.old number (window_of address xsize ysize ystride clear) (record { sum = sum.old; again = again.old }) (record { number = result; memory = memory.new; state = state.new }, record { sum = sum.new; again = again.new }) }
{
    let window = Window {
        address,
        xsize,
        ysize,
        ystride,
        clear: clear != 0,
    };
    match window_ask::ask(memory, state, number, window) {
        Ok(window_ask::Answered::New { sum: total }) => {
            *sum = total;
            *again = 0;
            0
        }
        Ok(window_ask::Answered::Again { sum: total }) => {
            *sum = total;
            *again = 1;
            0
        }
        Err(why) => why.number(),
    }
}

// Builds the data packet of a table of items on the idle page, once for each number, and writes it at the buffer's front: the bytes written, and the total of the clearing items' own sums; again is 1 for a repeat, which writes the same bytes, 0 for a new ask; 13, 18, 17, 23, 22, 19, then 14, 16, 12 an item, then 3.
pub fn plv_histogram_packet(
    memory: &mut [u32],
    state: &mut [u64],
    number: u16,
    low: u8,
    items: &[u64],
    flags: u8,
    initial: u8,
    second: u16,
    buffer: &mut [u8],
    written: &mut u64,
    total: &mut u64,
    again: &mut u8,
) -> u8
    ensures { HistogramPacketPromise memory.old state.old buffer.old number (record { low = low; items = items.now; flags = flags; initial = initial; second = second }) (record { written = written.old; total = total.old; again = again.old }) (record { number = result; memory = memory.new; state = state.new; buffer = buffer.new }, record { written = written.new; total = total.new; again = again.new }) }
{
    let inputs = Inputs {
        low,
        items,
        flags,
        initial,
        second,
    };
    match packet_ask::ask_packet(memory, state, number, inputs, buffer) {
        Ok(packet_ask::Answered::New(packet)) => {
            *written = packet.written;
            *total = packet.total;
            *again = 0;
            0
        }
        Ok(packet_ask::Answered::Again(packet)) => {
            *written = packet.written;
            *total = packet.total;
            *again = 1;
            0
        }
        Err(why) => why.number(),
    }
}
