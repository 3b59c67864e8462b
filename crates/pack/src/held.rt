// Bits held in a number.
ghost use Rattle.std.specs.Prelude.{◌≡◌, ℕ, ◌+◌, ◌%◌, ◌^◌, ◌<◌, ◌≤◌, List, ◌++◌, length, replicate};
ghost use Rattle.std.proofs.Common.{ap₂};
ghost use Rattle.ground.specs.Bits.{to_bits};
ghost use Rattle.code.specs.Meaning.{from_bits};
ghost use Rattle.code.specs.BitLists.{length-to_bits};
ghost use Rattle.pack.specs.Held.{number_back};

use std::marker::Model;

// Bits held in a number, the first counting most: at most 40 of them.
#[derive(Clone, Copy)]
pub(crate) struct Held {
    pub(crate) number: u64,
    pub(crate) count: u32,
}

// Clauses see the bits.
impl Model for Held {
    ghost Value = { List ℕ };

    ghost view = { λ held. to_bits held.count held.number };

    ghost invariant = { λ held. (held.number < 2 ^ held.count) × (held.count ≤ 40) };

    ghost inverse = { λ bits. record { number = from_bits bits; count = length bits } };

    ghost inverse_ok = { λ held fits. ap₂ (λ (n c : ℕ). record { number = n; count = c })
        (number_back held.count held.number fits.0) (length-to_bits held.count held.number) };
}

// Stays, for the count that its makers ask: the new form is no plainer: they make the value whose invariant it is.
impl Held {
    // A number that so many bits hold.
    pub(crate) fn of(number: u64, count: u32) -> Held
        requires { (number < 2 ^ count) × (count ≤ 40) }
        ensures { result ≡ to_bits count number }
    {
        Held { number, count }
    }

    // The last bits of a number.
    pub(crate) fn last(number: u64, count: u32) -> Held
        requires { count ≤ 40 }
        ensures { result ≡ to_bits count number }
    {
        Held::of(number % (1 << count), count)
    }

    // So many ones.
    pub(crate) fn ones(count: u32) -> Held
        requires { count ≤ 30 }
        ensures { result ≡ replicate count 1 }
    {
        Held::of((1 << count) - 1, count)
    }

    // So many zeros.
    pub(crate) fn zeros(count: u32) -> Held
        requires { count ≤ 40 }
        ensures { result ≡ replicate count 0 }
    {
        Held::of(0, count)
    }

    // These bits, and more after them.
    pub(crate) fn then(self, more: Held) -> Held
        requires { length self + length more ≤ 40 }
        ensures { result ≡ self ++ more }
    {
        Held::of(
            (self.number << more.count) + more.number,
            self.count + more.count,
        )
    }

    // How many bits there are.
    pub(crate) fn len(&self) -> u32
        ensures { result ≡ length self.now }
    {
        self.count
    }
}
