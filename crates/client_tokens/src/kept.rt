ghost use Rattle.std.specs.Prelude.{◌≡◌};
ghost use Rattle.client_tokens.specs.Kept.{has_expired, due};

/// How long a token lives after its completed moment, in microseconds: 600 seconds.
const TOKEN_LIFE: u64 = 600_000_000;

/// What a token is kept with.
#[derive(Debug, PartialEq)]
pub struct Kept<A> {
    /// The number of the transaction that the token began.
    pub number: u64,
    /// The actions of that transaction, by which a repeat of the call is told from another call.
    pub actions: A,
    /// When the transaction was completed, in microseconds, if it was.
    pub completed: Option<u64>,
}

// By hand, so that no crate above proves it again.
impl<A: Drop> Drop for Kept<A> {
    fn drop(self) {
        let Kept {
            number: _,
            actions: _,
            completed: _,
        } = self;
    }
}

impl<A> Kept<A> {
    /// Whether the token's life is over at `moment`: never before its completed moment, nor where there is none.
    pub fn has_expired(&self, moment: u64) -> bool
        ensures { result ≡ has_expired self.now moment }
    {
        match self.completed {
            Some(completed) => completed <= moment && moment - completed >= TOKEN_LIFE,
            None => false,
        }
    }

    /// The completed moment, or where there is none a number past every moment.
    pub(crate) fn due(&self) -> u128
        ensures { result ≡ due self.now }
    {
        match self.completed {
            Some(completed) => u128::from(completed),
            None => 1 << 64,
        }
    }
}
