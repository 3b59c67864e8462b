// Packets asked for by number: built once for each number, and the kept bytes handed out again for a repeat.
#![tactic(auto)]

mod kept;

ghost use Rattle.std.specs.Prelude.{◌≡◌, ◌≤◌, length};
ghost use Rattle.state.specs.Words.{state_words};
ghost use Rattle.data_packet.specs.Answers.{inputs_of};
ghost use Rattle.packet_ask.specs.Answers.{not_asked};
ghost use Rattle.packet_ask.specs.Promise.{AgainPromise, PacketPromise};
ghost use Rattle.packet_ask.specs.declared.NotAsked.TheVariants as why_not;

pub use data_packet::Inputs;
use data_packet::{NotBuilt, Packet, build};
use ground::Numbered;
use histogram::admit;
use kept::{bytes_again, keep_packet, packet_turn};
use state::{Lent, NoTurn, Turn, WrongMemory, second_active};

// What an accepted packet ask answers: its packet, new, or the kept one again.
#[derive(Clone, Copy, Debug, PartialEq, Eq)]
pub enum Answered {
    New(Packet),
    Again(Packet),
}

// Why a packet ask is refused: its memory is not the state's own, it is not its turn, or its packet is not built, or not handed out.
#[derive(Clone, Copy, Debug, PartialEq, Eq)]
pub enum NotAsked {
    Memory(WrongMemory),
    Turn(NoTurn),
    Packet(NotBuilt),
}

impl Numbered for NotAsked {
    ghost refusals = { not_asked };

    fn number(&self) -> u8 {
        match self {
            NotAsked::Memory(why) => why.number(),
            NotAsked::Turn(why) => why.number(),
            NotAsked::Packet(why) => why.number(),
        }
    }
}

impl From<WrongMemory> for NotAsked {
    ghost from_gives = { λ why e. e ≡ why_not.Memory why };

    fn from(why: WrongMemory) -> NotAsked {
        NotAsked::Memory(why)
    }
}

impl From<NoTurn> for NotAsked {
    ghost from_gives = { λ why e. e ≡ why_not.Turn why };

    fn from(why: NoTurn) -> NotAsked {
        NotAsked::Turn(why)
    }
}

impl From<NotBuilt> for NotAsked {
    ghost from_gives = { λ why e. e ≡ why_not.Packet why };

    fn from(why: NotBuilt) -> NotAsked {
        NotAsked::Packet(why)
    }
}

// Builds a packet of the idle page and keeps it, once for each number: the same number and inputs again answers the bytes and the total that were kept.
#[tactic(auto, unfolding(crate::specs::Meaning::packet_means, crate::specs::Meaning::new_packet_means))]
pub fn ask_packet(
    memory: &mut [u32],
    state: &mut [u64],
    number: u16,
    inputs: Inputs,
    buffer: &mut [u8],
) -> Result<Answered, NotAsked>
    ensures { PacketPromise memory.old state.old buffer.old number (inputs_of inputs.entry) result memory.new state.new buffer.new }
{
    admit(memory, state)?;
    match packet_turn(state, number, inputs)? {
        Turn::NewAsk => {
            let packet = build(memory, !second_active(state), inputs, buffer)?;
            let bytes = &buffer[..packet.written as usize];
            keep_packet(state, number, inputs, packet.total, bytes);
            Ok(Answered::New(packet))
        }
        Turn::LastAsk(total) => again(Lent { words: state }, buffer, total),
    }
}

// A repeat: the kept bytes handed out with the kept total.
fn again(lent: Lent, buffer: &mut [u8], total: u64) -> Result<Answered, NotAsked>
    ensures { AgainPromise lent.entry.words.now buffer.old total result buffer.new }
{
    let written = bytes_again(lent, buffer).ok_or(NotBuilt::BufferTooShort)?;
    Ok(Answered::Again(Packet { written, total }))
}
