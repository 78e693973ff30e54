ghost use Rattle.std.specs.Prelude.{◌≡◌};
ghost use Rattle.case_rules.specs.Actions.{has_come};

/// An order or a payment, and also what an index has of it.
#[derive(Clone, Copy, Drop)]
pub struct Item {
    /// Whose it is, where that is known.
    pub customer: Option<u64>,
    /// How much.
    pub amount: u64,
    /// The moment from which it is expired, in microseconds since 1970-01-01T00:00:00Z; none, where
    /// it never is.
    pub expires: Option<u64>,
}

impl Item {
    /// Whether it is expired at a moment.
    pub(crate) fn is_expired(&self, moment: u64) -> bool
        ensures { result ≡ has_come self.now.expires moment }
    {
        match self.expires {
            None => false,
            Some(expires) => expires <= moment,
        }
    }
}
