ghost use Rattle.std.specs.Prelude.{◌≡◌, ℕ, ◌<◌, ◌≤◌, Option, IfOk, IfSome, IfNone, OnErr};
ghost use Rattle.ddb_outside.specs.Causes.{HasCause, Rose};
ghost use Rattle.ddb_outside.specs.Listeners.{Connections, KeepsConnections, Shares, AcceptsOne, AcceptsNone, HangsUp, Absorbs, HasOut, HasLent};

use crate::failed::Failed;
use crate::sink::Sink;
use crate::source::Source;

/// A connection: where its client's bytes come from, and where the replies go.
#[derive(Drop)]
pub struct Joined<S, K> {
    pub source: S,
    pub sink: K,
}

/// Where connections come from.
pub trait Listener: Sized {
    type S: Source + Send;

    type K: Sink + Send;

    // What it tells of its connections, where it does.
    ghost connections: { Self → Option Connections };
    // How often a call has failed.
    ghost faults: { Self → ℕ };
    // How often `accept` has answered None.
    ghost ends: { Self → ℕ };

    /// Begins to listen at a port. [`Failed`] comes only where the listener counted a fault in this call, as of each call here.
    fn bind(&mut self, port: u16) -> Result<(), Failed>
        ensures connections { KeepsConnections (connections self.old) (connections self.new) }
        ensures cause { HasCause (faults self.old) (faults self.new) result }
        ensures ends { ends self.old ≤ ends self.new };

    /// A share of the listener, for a thread of its own.
    fn share(&mut self) -> Result<Self, Failed>
        ensures shared { IfOk result (λ share. Shares (connections self.old) (connections self.new) (connections share)) }
        ensures failed { OnErr result (KeepsConnections (connections self.old) (connections self.new)) }
        ensures fresh { IfOk result (λ share. (faults share ≡ 0) × (ends share ≡ 0)) }
        ensures cause { HasCause (faults self.old) (faults self.new) result }
        ensures ends { ends self.old ≤ ends self.new };

    /// Waits for the next connection. None comes where no connection will come any more.
    fn accept(&mut self) -> Result<Option<Joined<Self::S, Self::K>>, Failed>
        ensures one { IfOk result (λ o. IfSome o (λ j.
            AcceptsOne (connections self.old) (connections self.new) (Self.S.left j.source) (Self.K.written j.sink))) }
        ensures none { IfOk result (λ o. IfNone o (AcceptsNone (connections self.old) (connections self.new))) }
        ensures failed { OnErr result (KeepsConnections (connections self.old) (connections self.new)) }
        ensures cause { HasCause (faults self.old) (faults self.new) result }
        ensures end { IfOk result (λ o. IfNone o (Rose (ends self.old) (ends self.new))) }
        ensures ends { ends self.old ≤ ends self.new };

    /// Takes back a connection whose session has ended.
    fn hang_up(&mut self, joined: Joined<Self::S, Self::K>)
        requires out { HasOut (connections self.old) }
        ensures hung { HangsUp (connections self.old) (connections self.new) (Self.K.written joined.sink) }
        ensures faults { faults self.old ≤ faults self.new }
        ensures ends { ends self.old ≤ ends self.new };

    /// Takes a share back. Its counts are handed on: each rises where the share's is above 0.
    fn absorb(&mut self, share: Self)
        requires lent { HasLent (connections self.old) (connections share) }
        ensures absorbs { Absorbs (connections self.old) (connections self.new) (connections share) }
        ensures faults { faults self.old ≤ faults self.new }
        ensures ends { ends self.old ≤ ends self.new }
        ensures share_faults { 0 < faults share → Rose (faults self.old) (faults self.new) }
        ensures share_ends { 0 < ends share → Rose (ends self.old) (ends self.new) };
}
