//! The gate of a load, which each client has one like of.

ghost use Rattle.std.specs.Prelude.{◌≡◌, ◌≢◌, ◌≤◌};
ghost use Rattle.coordinator.specs.declared.gate.Pace.{Pace};
ghost use Rattle.ddb_outside.specs.Causes.{Rose};
ghost use Rattle.table_load.specs.Gates.{StopsAtPoint};

use coordinator::{Gate, Pace, Point};

/// A gate that stops each time that it is passed at one point, or never.
#[derive(Clone, Copy)]
pub struct PointGate {
    point: Option<Point>,
    stops: u64,
}

impl PointGate {
    /// A gate that never stops.
    pub fn open() -> PointGate
        ensures stops { ⟦<PointGate as Gate>⟧.stops result ≡ 0 }
    {
        PointGate {
            point: None,
            stops: 0,
        }
    }

    /// A gate that stops at this point.
    pub fn at(point: Point) -> PointGate
        ensures stops { ⟦<PointGate as Gate>⟧.stops result ≡ 0 }
    {
        PointGate {
            point: Some(point),
            stops: 0,
        }
    }
}

impl Gate for PointGate {
    ghost use Rattle.table_load.specs.Gates.{StopsAtPoint};

    ghost stops = { λ g. g.stops };

    ghost passes = { StopsAtPoint };

    fn pass_point(&mut self, point: Point) -> Pace
        ensures passes { StopsAtPoint self.old point result self.new }
        ensures later { self.old.stops ≤ self.new.stops }
        ensures cause { result ≡ Pace.Stop → Rose self.old.stops self.new.stops }
        ensures told { result ≢ Pace.Stop → self.new.stops ≡ self.old.stops }
    {
        let Some(own) = self.point else {
            return Pace::Go;
        };
        if own == point {
            self.stops = self.stops.saturating_add(1);
            return Pace::Stop;
        }
        Pace::Go
    }
}
