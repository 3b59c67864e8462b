// The items of a packet's table: the fields of an item's word, and the bits that its result is sent in.
#![tactic(auto)]

ghost use Rattle.std.specs.Prelude.{◌≡◌, ◌<◌, ◌≤◌, ◌^◌};
ghost use Rattle.item.specs.Meaning.{field_of, flag_of, window_of, plain_of, adds_of, sends_of};
ghost use Rattle.item.specs.Answers.{not_sent, unsent};
ghost use Rattle.item.specs.Promise.{SendPromise};
ghost use Rattle.item.specs.declared.NotSent.TheVariants.{TooLarge as Large};

use code::NotPacked;
use format::TooLarge;
use ground::Numbered;
use pages::Window;

mod formats;

// Why an item's result was not sent: too large for its format, or a buffer too short for its bits.
#[derive(Clone, Copy, Debug, PartialEq, Eq)]
pub enum NotSent {
    TooLarge,
    TooShort,
}

impl Numbered for NotSent {
    ghost refusals = { not_sent };

    fn number(&self) -> u8 {
        match self {
            NotSent::TooLarge => 12,
            NotSent::TooShort => 3,
        }
    }
}

// A result too large for its format is not sent.
impl From<TooLarge> for NotSent {
    ghost from_gives = { λ _ e. e ≡ Large };

    fn from(_why: TooLarge) -> NotSent {
        NotSent::TooLarge
    }
}

// Nor is one too large for a logarithm byte.
impl From<logarithm::TooLarge> for NotSent {
    ghost from_gives = { λ _ e. e ≡ Large };

    fn from(_why: logarithm::TooLarge) -> NotSent {
        NotSent::TooLarge
    }
}

// Nor is one whose bits were not written: outside the rule of packing is too large for the format.
impl From<NotPacked> for NotSent {
    ghost from_gives = { λ why e. e ≡ unsent why };

    fn from(why: NotPacked) -> NotSent {
        match why {
            NotPacked::OutsideRule => NotSent::TooLarge,
            NotPacked::TooShort => NotSent::TooShort,
        }
    }
}

// The window that an item sums.
#[tactic(auto, unfolding(crate::specs::Meaning::window_of))]
pub fn window_of(item: u64) -> Window
    ensures { result ≡ window_of item }
{
    Window {
        address: field(item, 0, 18) as u32,
        xsize: field(item, 32, 8) as u8,
        ysize: field(item, 40, 8) as u8,
        ystride: field(item, 48, 16) as u16,
        clear: flag(item, 22),
    }
}

// Whether sum, res and enc are 0, without which no item is taken.
#[tactic(auto, unfolding(crate::specs::Meaning::plain_of))]
pub fn plain(item: u64) -> bool
    ensures { result ≡ plain_of item }
{
    let sum = field(item, 23, 3);
    let res = field(item, 29, 3);
    let enc = field(item, 26, 3);
    (sum == 0) & ((res == 0) & (enc == 0))
}

// Whether an item adds the previous item's result.
#[tactic(auto, unfolding(crate::specs::Meaning::adds_of))]
pub fn adds(item: u64) -> bool
    ensures { result ≡ adds_of item }
{
    flag(item, 20)
}

// Whether an item is sent.
#[tactic(auto, unfolding(crate::specs::Meaning::sends_of))]
pub fn sends(item: u64) -> bool
    ensures { result ≡ sends_of item }
{
    flag(item, 21)
}

// An item's result put into a buffer from a bit position on, in the item's format, where it is sent.
#[tactic(auto, unfolding(crate::specs::Meaning::send_means, crate::specs::Meaning::comp_of))]
pub fn send(buffer: &mut [u8], at: u64, item: u64, res: u64) -> Result<u64, NotSent>
    ensures { SendPromise buffer.old at item res result buffer.new }
{
    if sends(item) {
        formats::send_as(buffer, at, field(item, 18, 2), res)
    } else {
        Ok(at)
    }
}

// So many bits of an item's word, above so many.
fn field(item: u64, low: u32, width: u32) -> u64
    requires { (low < 64) × (width ≤ 32) }
    ensures { (result ≡ field_of item low width) × (result < 2 ^ width) }
{
    (item >> low) % (1 << width)
}

// Whether a bit of an item's word is set.
fn flag(item: u64, low: u32) -> bool
    requires { low < 64 }
    ensures { result ≡ flag_of item low }
{
    field(item, low, 1) == 1
}
