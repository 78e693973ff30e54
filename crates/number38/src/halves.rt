//! A word of 128 bits as a number keeps it.

ghost use Rattle.std.specs.Prelude.{◌≡◌};

use std::marker::Model;

/// How many words of 64 bits there are.
const WORDS: u128 = 0x1_0000_0000_0000_0000;

/// A word of 128 bits in two halves. A `u128` stands only at every sixteenth byte, and so does all that has one in it: in halves a
/// value of any kind takes 32 bytes, and would else take 64.
#[derive(Clone, Copy, Debug)]
pub(crate) struct Halves {
    high: u64,
    low: u64,
}

impl Model for Halves {
    ghost use Rattle.std.specs.Prelude.{ℕ};
    ghost use Rattle.number38.specs.Halves.{joined, AreWords, halves_of};
    ghost use Rattle.number38.specs.HalvesLaws.{halves-joined};

    ghost Value = { ℕ };

    ghost view = { joined };

    ghost invariant = { AreWords };

    ghost inverse = { halves_of };

    ghost inverse_ok = { halves-joined };
}

impl Halves {
    /// The halves of a word.
    pub(crate) fn of(word: u128) -> Halves
        ensures { result ≡ word }
    {
        Halves {
            high: (word / WORDS) as u64,
            low: (word % WORDS) as u64,
        }
    }

    /// The word.
    pub(crate) fn word(self) -> u128
        ensures { result ≡ self }
    {
        u128::from(self.high) * WORDS + u128::from(self.low)
    }
}
