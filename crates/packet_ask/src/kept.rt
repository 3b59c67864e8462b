// The kept packet: whether an ask repeats it, its bytes handed out again, and a new one kept.
ghost use Rattle.std.specs.Prelude.{◌≡◌, ◌≤◌, map, min, length};
ghost use Rattle.ground.specs.Outcome.{outcome_of};
ghost use Rattle.data_packet.specs.Answers.{inputs_of};
ghost use Rattle.state.specs.Meaning.{repeats_in, turn_in};
ghost use Rattle.state.specs.Turns.{same_asked, same_items};
ghost use Rattle.state.specs.Words.{Asked, asked_in, byte_of, inputs_in, keep_inputs, keep_packet_in, most_bytes, most_items, state_words};
ghost use Rattle.packet_ask.specs.Answers.{rewritten_paper};
ghost use Rattle.packet_ask.specs.Meaning.{again_means};

use data_packet::Inputs;
use state::{
    BYTE_COUNT, BYTES, FLAGS, INITIAL, ITEM_COUNT, ITEMS, KEPT, LOW, Lent, MOST_BYTES, MOST_ITEMS,
    NUMBER, NoTurn, PACKET_ASK, SECOND_OF_HOUR, SUM, Turn, turn_by,
};

// What a packet ask's number and inputs make it, beside what is kept.
pub(crate) fn packet_turn(state: &[u64], number: u16, inputs: Inputs) -> Result<Turn, NoTurn>
    ensures { result ≡ turn_in state.now number (Asked.packet (inputs_of inputs.entry)) }
{
    turn_by(state, number, repeats(state, number, inputs))
}

// Whether an ask for a packet bears the last number and asks for the same as the kept one.
fn repeats(state: &[u64], number: u16, inputs: Inputs) -> bool
    ensures { result ≡ repeats_in state.now number (Asked.packet (inputs_of inputs.entry)) }
{
    match Lent::of(state) {
        Some(lent) => lent.is_last(number) && same_inputs(lent, inputs),
        None => false,
    }
}

// Whether the kept ask is one for a packet of these inputs; a window's is not.
fn same_inputs(lent: Lent, inputs: Inputs) -> bool
    ensures { result ≡ same_asked (asked_in lent.entry.words.now) (Asked.packet (inputs_of inputs.entry)) }
{
    lent.words[KEPT] == PACKET_ASK
        && lent.words[LOW] == u64::from(inputs.low)
        && lent.words[FLAGS] == u64::from(inputs.flags)
        && lent.words[INITIAL] == u64::from(inputs.initial)
        && lent.words[SECOND_OF_HOUR] == u64::from(inputs.second)
        && same_table(lent, inputs.items)
}

// Whether the kept table is this one: as many items, and each the same.
// Stays: tried, and `==` of two slices misses a bar of speed: it stops at the first difference, and a repeat of 64 items takes half as long again.
fn same_table(lent: Lent, items: &[u64]) -> bool
    ensures { result ≡ same_items (inputs_in lent.entry.words.now).items items.now }
{
    if at_most(lent.words[ITEM_COUNT], MOST_ITEMS) != items.len() {
        return false;
    }
    let mut same = true;
    for (i, item) in items.iter().enumerate() {
        same &= lent.words[ITEMS + i] == *item;
    }
    same
}

// What a word says, and no more than the most.
fn at_most(said: u64, most: usize) -> usize
    ensures { result ≡ min said most }
{
    said.min(most as u64) as usize
}

// Hands out the bytes of the kept packet again, at the buffer's front; nothing where they do not fit.
#[tactic(auto, using(crate::proofs::Copying::bytes_long))]
pub(crate) fn bytes_again(lent: Lent, buffer: &mut [u8]) -> Option<u64>
    ensures { outcome_of (rewritten_paper result) buffer.new ≡ again_means lent.entry.words.now buffer.old }
{
    let count = at_most(lent.words[BYTE_COUNT], MOST_BYTES);
    if buffer.len() < count {
        return None;
    }
    hand_out(&lent.words[BYTES..BYTES + count], &mut buffer[..count]);
    Some(count as u64)
}

// Copies kept bytes out of their words.
fn hand_out(words: &[u64], bytes: &mut [u8])
    requires { length words.now ≡ length bytes.old }
    ensures { bytes.new ≡ map byte_of words.now }
{
    for (i, word) in words.iter().enumerate() {
        bytes[i] = (*word % 256) as u8;
    }
}

// Keeps a packet's ask: its number, its inputs, its total and its bytes.
// Stays, for state, number and inputs too: the new form is no plainer: `data_packet::build` takes inputs without a number. Words to be written, in a type as `state::Lent`, are taken out of it again before each store.
pub(crate) fn keep_packet(state: &mut [u64], number: u16, inputs: Inputs, total: u64, bytes: &[u8])
    requires { (state_words ≤ length state.old) × (length inputs.items.now ≤ most_items) × (length bytes.now ≤ most_bytes) }
    ensures { state.new ≡ keep_packet_in state.old number (inputs_of inputs.entry) total bytes.now }
{
    keep_inputs(state, number, inputs, total);
    keep_items(&mut state[ITEMS..ITEMS + inputs.items.len()], inputs.items);
    state[BYTE_COUNT] = bytes.len() as u64;
    keep_bytes(&mut state[BYTES..BYTES + bytes.len()], bytes);
}

// Keeps that a packet was asked for, its number and total, and its inputs but for the items.
fn keep_inputs(state: &mut [u64], number: u16, inputs: Inputs, total: u64)
    requires { state_words ≤ length state.old }
    ensures { state.new ≡ keep_inputs state.old number (inputs_of inputs.entry) total }
{
    state[KEPT] = PACKET_ASK;
    state[NUMBER] = u64::from(number);
    state[SUM] = total;
    state[LOW] = u64::from(inputs.low);
    state[FLAGS] = u64::from(inputs.flags);
    state[INITIAL] = u64::from(inputs.initial);
    state[SECOND_OF_HOUR] = u64::from(inputs.second);
    state[ITEM_COUNT] = inputs.items.len() as u64;
}

// Keeps items, one a word.
// Stays a loop, beside that of the bytes: what may not change: with `copy_from_slice` the archive for C needs `memmove` from outside.
fn keep_items(words: &mut [u64], items: &[u64])
    requires { length items.now ≡ length words.old }
    ensures { words.new ≡ items.now }
{
    for (i, item) in items.iter().enumerate() {
        words[i] = *item;
    }
}

// Keeps bytes, one a word.
fn keep_bytes(words: &mut [u64], bytes: &[u8])
    requires { length bytes.now ≡ length words.old }
    ensures { words.new ≡ bytes.now }
{
    for (i, byte) in bytes.iter().enumerate() {
        words[i] = u64::from(*byte);
    }
}
