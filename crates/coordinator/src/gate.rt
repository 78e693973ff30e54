//! What may stop who drives a transaction, between two of its steps.

ghost use Rattle.std.specs.Prelude.{◌≡◌, ◌≢◌, ℕ, ◌≤◌};
ghost use Rattle.coordinator.specs.declared.gate.Pace.{Pace};
ghost use Rattle.coordinator.specs.declared.gate.Point.{Point};
ghost use Rattle.ddb_outside.specs.Causes.{Rose};

use base_types::Seq;

/// A point on the way of a transaction. A number is the place of an action in the transaction, from 0.
#[derive(Clone, Copy, PartialEq)]
pub enum Point {
    /// Its Begin has drawn a number.
    AfterBegin,
    /// This action was prepared.
    AfterPrepare(u32),
    /// It was decided.
    AfterDecide,
    /// This action was applied or released.
    AfterFinish(u32),
    /// Its Done was sent.
    AfterDone,
}

/// Whether to go on.
#[derive(Clone, Copy, PartialEq)]
pub enum Pace {
    /// Go on.
    Go,
    /// Leave off here, in the middle.
    Stop,
}

/// What may stop who drives a transaction, between two steps: tests of what is left in the middle.
pub trait Gate: Sized {
    // How often it has answered Stop.
    ghost stops: { Self → ℕ };
    // Asked at this point it may answer so, and then it is the second gate.
    ghost passes: { Self → Point → Pace → Self → Type 0 };

    /// Whether to go on at a point. [`Pace::Stop`] comes only where the gate counted a stop in this call, and always where it did.
    fn pass_point(&mut self, point: Point) -> Pace
        ensures passes { passes self.old point result self.new }
        ensures later { stops self.old ≤ stops self.new }
        ensures cause { result ≡ Pace.Stop → Rose (stops self.old) (stops self.new) }
        ensures told { result ≢ Pace.Stop → stops self.new ≡ stops self.old };
}

/// A gate that never stops: it counts none.
#[derive(Clone, Copy)]
pub struct GoGate;

impl Gate for GoGate {
    ghost stops = { λ g. 0 };

    ghost passes = { λ old point pace new. pace ≡ Pace.Go };

    fn pass_point(&mut self, _point: Point) -> Pace {
        Pace::Go
    }
}

/// A gate that stops at each point of a list.
#[derive(Drop)]
pub struct ScriptGate {
    stops_at: Seq<Point>,
    stops: u64,
}

impl ScriptGate {
    ghost use Rattle.coordinator.specs.Gates.{points_of};

    /// A gate that stops at each of these points, each time that it is passed.
    pub fn make(stops_at: Seq<Point>) -> ScriptGate
        ensures stops { ⟦<ScriptGate as Gate>⟧.stops result ≡ 0 }
        ensures points { points_of result ≡ stops_at }
    {
        ScriptGate { stops_at, stops: 0 }
    }
}

impl Gate for ScriptGate {
    ghost use Rattle.coordinator.specs.Gates.{points_of, Scripted};

    ghost stops = { λ g. g.stops };

    ghost passes = { Scripted };

    fn pass_point(&mut self, point: Point) -> Pace
        ensures passes { Scripted self.old point result self.new }
        ensures later { self.old.stops ≤ self.new.stops }
        ensures cause { result ≡ Pace.Stop → Rose self.old.stops self.new.stops }
        ensures told { result ≢ Pace.Stop → self.new.stops ≡ self.old.stops }
    {
        if self.stops_at.as_slice().contains(&point) {
            self.stops = self.stops.saturating_add(1);
            return Pace::Stop;
        }
        Pace::Go
    }
}
