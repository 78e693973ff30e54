ghost use Rattle.std.specs.Prelude.{◌≡◌};
ghost use Rattle.txn_core.specs.Stamps.{earlier, later};

/// The place of a transaction in the order of transactions: the moment at which it was begun, in
/// microseconds, then its number. A single write has the number 0. Stamps are ordered by moment,
/// then number.
#[derive(Clone, Copy, PartialEq, Eq, PartialOrd, Ord, Debug, Drop)]
pub struct Stamp {
    /// Microseconds since 1970-01-01T00:00:00Z.
    pub moment: u64,
    /// The transaction's number, from 1, or 0 for a single write.
    pub number: u64,
}

impl Stamp {
    /// Whether it comes before the other.
    pub fn is_earlier(self, other: Stamp) -> bool
        ensures { result ≡ earlier self other }
    {
        self.moment < other.moment || (self.moment == other.moment && self.number < other.number)
    }

    /// The later of both.
    pub fn later(self, other: Stamp) -> Stamp
        ensures { result ≡ later self other }
    {
        if self.is_earlier(other) { other } else { self }
    }
}
