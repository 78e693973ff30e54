//! Equality and order of numbers, which are those of their whole numbers.

ghost use Rattle.std.specs.Prelude.{◌≡◌, ◌*◌, ◌^◌, ◌<◌};
ghost use Rattle.std.proofs.Common.{rules};
ghost use Rattle.std.specs.Ordering.{nat_cmp, int_cmp, as_partial_cmp};
ghost use Rattle.std.specs.Cmp.{partial_order_from_own_ties};
ghost use Rattle.std.specs.Cmp.Rules.{comparing};
ghost use Rattle.number38.specs.Scaled.{magnitude};

use crate::number::Number;
use crate::scaled::{Scaled, widened};
use std::cmp::Ordering;

/// The order of two whole numbers without their signs.
///
/// The coefficient of the greater power is widened to the smaller power, where it stays below twice the limit of
/// a coefficient. Where it does not, it is above every coefficient.
fn magnitude_order(a: Scaled, b: Scaled) -> Ordering
    requires a_digits { a.coefficient < 10 ^ 38 }
    requires b_digits { b.coefficient < 10 ^ 38 }
    ensures { result ≡ nat_cmp (magnitude a) (magnitude b) }
{
    if a.power < b.power {
        return match widened(b.coefficient, (b.power - a.power) as u64) {
            Some(wide) => a.coefficient.cmp(&wide),
            None => Ordering::Less,
        };
    }
    match widened(a.coefficient, (a.power - b.power) as u64) {
        Some(wide) => wide.cmp(&b.coefficient),
        None => Ordering::Greater,
    }
}

impl PartialOrd for Number {
    ghost partial_cmp = { as_partial_cmp int_cmp };

    ghost laws = { partial_order_from_own_ties (Prim.search (comparing, rules)) (Prim.search (comparing, rules)) };

    fn partial_cmp(&self, other: &Number) -> Option<Ordering> {
        Some(self.cmp(other))
    }
}

impl Ord for Number {
    ghost cmp = { int_cmp };

    ghost total = { Prim.search (comparing, rules) };

    ghost matches_partial_cmp = { Prim.search (comparing, rules) };

    ghost matches_eq = { Prim.search (comparing, rules) };

    fn cmp(&self, other: &Number) -> Ordering {
        let a = self.scaled();
        let b = other.scaled();
        match (a.negative, b.negative) {
            (false, false) => magnitude_order(a, b),
            (false, true) => Ordering::Greater,
            (true, false) => Ordering::Less,
            (true, true) => magnitude_order(b, a),
        }
    }
}
