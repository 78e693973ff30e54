ghost use Rattle.std.specs.Prelude.{◌≡◌, ◌+◌, ◌<◌, ◌≤◌, ℕ, max, [], ◌∷◌, IfOk, IfErr};
ghost use Rattle.turnstile.specs.Histories.{own, IsTimely};
ghost use Rattle.turnstile.specs.Passes.{most_units, IsFree};

use crate::board::Place;
use crate::world::World;
use std::alloc::AllocError as NoMemory;
use std::marker::Model;

/// How many units a pass has at first: 2^40.
pub(crate) const MOST_UNITS: u64 = 1 << 40;

/// The budget of a pass is used up.
#[derive(Clone, Copy, Debug, PartialEq, Eq)]
pub struct Spent;

/// Why the turns of all cells were not taken.
#[derive(Clone, Copy, Debug, PartialEq, Eq)]
pub enum TurnEnd {
    /// The budget of the pass is used up.
    Spent,
    /// There was no memory.
    NoMemory,
}

impl From<NoMemory> for TurnEnd {
    ghost use Rattle.turnstile.specs.declared.pass.TurnEnd.TheVariants as end;

    ghost from_gives = { λ _ why. why ≡ end.NoMemory };

    fn from(_: NoMemory) -> TurnEnd {
        TurnEnd::NoMemory
    }
}

/// What a thread counts with: a number of its own, a moment, a budget of units, and a front, which is the longest
/// history that it has seen.
pub struct Pass<W: World> {
    pub(crate) seat: Place<W>,
    pub(crate) number: u32,
    pub(crate) moment: u64,
    pub(crate) used: u64,
}

impl<W: World> Model for Pass<W> {
    ghost use Rattle.turnstile.specs.Passes.{PassView, IsSound};

    ghost Value = { PassView W.Entry };

    ghost view = { λ p. record { turnstile = p.seat.table_id; passes = p.seat.me.0.made; number = p.number; moment = p.moment; used = p.used; front = p.seat.me.0.front; turns = p.seat.me.0.held } };

    ghost invariant = { λ p. IsSound W.by W.moment W.legal p.seat.table_id p.seat.me p.number p.moment p.used };
}

impl<W: World> Pass<W> {
    /// The number of its entries, below the number of passes.
    pub fn number(&self) -> u32
        ensures { result ≡ self.now.number }
    {
        self.number
    }

    /// The moment of its next entry.
    pub fn moment(&self) -> u64
        ensures { result ≡ self.now.moment }
    {
        self.moment
    }

    /// Raises the moment to `now`, where that is later.
    pub fn tick(&mut self, now: u64)
        ensures { self.new ≡ record self.old { moment = max self.old.moment now } }
    {
        self.moment = self.moment.max(now);
    }

    /// Uses one unit. An error comes exactly where none is left.
    pub fn spend(&mut self) -> Result<(), Spent>
        ensures ok { IfOk result (λ _. (self.old.used < most_units) × (self.new ≡ record self.old { used = self.old.used + 1 })) }
        ensures err { IfErr result (λ _. (self.old.used ≡ most_units) × (self.new ≡ self.old)) }
    {
        if self.used == MOST_UNITS {
            return Err(Spent);
        }
        self.used += 1;
        Ok(())
    }

    /// How many units are left.
    pub fn left(&self) -> u64
        ensures { result + self.now.used ≡ most_units }
    {
        MOST_UNITS - self.used
    }

    /// Does nothing. What holds of every pass is told to a caller's proof: its front is legal, has no entry of a pass
    /// that was not made, and no own entry later than the pass.
    pub fn facts(&self)
        ensures lawful { W.legal self.now.turnstile.slots self.now.front }
        ensures strangers { (p : ℕ) → self.now.passes ≤ p → own W.by p self.now.front ≡ [] }
        ensures timely { IsTimely W.by W.moment self.now.number self.now.moment self.now.front }
        ensures budget { self.now.used ≤ most_units }
    {
        let _ = &self.used;
    }
}

impl<W: World> Pass<W> {
    pub(crate) fn into_seat(self) -> Place<W>
        ensures seat { (result.table_id ≡ self.turnstile) × (result.me.0.front ≡ self.front) × (result.me.0.numbers ≡ self.number ∷ []) }
        ensures free { self.turns ≡ [] → IsFree result.me }
    {
        let Self {
            seat,
            number: _,
            moment: _,
            used: _,
        } = self;
        seat
    }
}

impl<W: World> Drop for Pass<W> {
    fn drop(self) {
        let Self {
            seat: _,
            number: _,
            moment: _,
            used: _,
        } = self;
    }
}
