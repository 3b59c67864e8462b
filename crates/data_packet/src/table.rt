// What a packet may be asked for: the items of its table, and the numbers of its first byte.
ghost use Rattle.std.specs.Prelude.{true, false, not, ◌&&◌, ◌≡◌};
ghost use Rattle.ground.specs.Choice.{pick};
ghost use Rattle.data_packet.specs.Answers.{inputs_of};
ghost use Rattle.data_packet.specs.Meaning.{allowed_from, allowed_item, apid_of};
ghost use Rattle.data_packet.specs.Steps.{FirstPromise};

use crate::Inputs;
use cadence::{OutOfRange, second_ending};
use item::{adds, plain, sends};

impl<'a> Inputs<'a> {
    // The APID of the packet: 0x03, and the low byte.
    pub(crate) fn apid(&self) -> u16
        ensures { result ≡ apid_of self.now.low }
    {
        768 + u16::from(self.low)
    }

    // Whether no item of the table is forbidden.
    pub(crate) fn allowed(&self) -> bool
        ensures { result ≡ allowed_from false self.now.items.now }
    {
        let mut follows = false;
        for item in self.items {
            if !allowed_item(follows, *item) {
                return false;
            }
            follows = !sends(*item);
        }
        true
    }

    // The first byte of the data: the flags, the initial level, and the level that ends with the second; each is out of range as a second is.
    pub(crate) fn first_byte(&self) -> Result<u8, OutOfRange>
        ensures { FirstPromise (inputs_of self.now) result }
    {
        if 3 < self.flags || 7 < self.initial {
            return Err(OutOfRange);
        }
        Ok(self.flags * 64 + self.initial * 8 + second_ending(self.second)?)
    }
}

// Whether an item is not forbidden, where it follows one that is not sent, or not.
fn allowed_item(follows: bool, item: u64) -> bool
    ensures { result ≡ allowed_item follows item }
{
    plain(item) && (follows || !adds(item))
}
