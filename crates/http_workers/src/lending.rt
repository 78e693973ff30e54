//! The shares of a listener that it lends to its workers: they are made, and come back.

ghost use Rattle.std.specs.Prelude.{◌≡◌, ◌≤◌, [], length, map, vec_capacity, OnOk};
ghost use Rattle.ddb_outside.specs.Causes.{HasCause, Rose};
ghost use Rattle.http_workers.specs.Steps.{MakesShares, AbsorbsShares, HasLentAll, IsCounted};

use ddb_outside::{Failed, Listener};
use std::collections::VecDeque;

/// Makes so many shares of a listener. [`Failed`] comes where one was refused, and then those before it stand in `shares`.
pub fn make_shares<L: Listener + Drop>(
    listener: &mut L,
    shares: &mut Vec<L>,
    count: usize,
) -> Result<(), Failed>
    requires empty { shares.old.items ≡ [] }
    requires room { count ≤ vec_capacity shares.old }
    ensures made { MakesShares L.connections (L.connections listener.old) (L.connections listener.new) shares.new.items }
    ensures all { OnOk result (length shares.new.items ≡ count) }
    ensures few { length shares.new.items ≤ count }
    ensures cause { HasCause (L.faults listener.old) (L.faults listener.new) result }
    ensures ends { L.ends listener.old ≤ L.ends listener.new }
{
    for _ in 0..count {
        let share = listener.share()?;
        let Ok(()) = shares.push(share) else {
            unreachable!()
        };
    }
    Ok(())
}

/// Takes shares back, in order.
pub fn take_back<L: Listener + Drop>(listener: &mut L, shares: Vec<L>)
    requires { HasLentAll (L.connections listener.old) (map L.connections shares.items) }
    ensures absorbed { AbsorbsShares L.connections (L.connections listener.old) (L.connections listener.new) shares.items }
    ensures faults { L.faults listener.old ≤ L.faults listener.new }
    ensures ends { L.ends listener.old ≤ L.ends listener.new }
    ensures share_faults { IsCounted L.faults shares.items → Rose (L.faults listener.old) (L.faults listener.new) }
    ensures share_ends { IsCounted L.ends shares.items → Rose (L.ends listener.old) (L.ends listener.new) }
{
    let mut left = VecDeque::from(shares);
    while let Some(share) = left.pop_front() {
        listener.absorb(share);
    }
}
