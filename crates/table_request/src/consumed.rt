//! The capacity that a request used.

ghost use Rattle.std.specs.Prelude.{◌≡◌, [], map, IfOk, OnOk};
ghost use Rattle.table_request.specs.Usage.{with_use, consumed_of};

use base_types::{Seq, Text};
use std::alloc::{AllocError as NoMemory, Global};
use std::collections::BTreeMap;
use std::marker::Model;

/// What a request used of a table's capacity (API Reference: ConsumedCapacity).
pub struct Consumed {
    pub table: Text,
    /// Capacity units, in halves.
    pub halves: u64,
}

// By hand, so that no crate above proves it again.
impl Drop for Consumed {
    fn drop(self) {
        let Consumed {
            table: _,
            halves: _,
        } = self;
    }
}

/// What a request used of each table, added up by the tables' names, in halves of a unit.
///
/// Contracts see the names in the order of their bytes, each with its halves.
#[derive(Drop)]
pub struct Usage {
    halves: BTreeMap<Text, u64>,
}

impl Model for Usage {
    ghost use Rattle.std.specs.Prelude.{ℕ, List};

    ghost Value = { List (List ℕ × ℕ) };

    ghost view = { λ usage. usage.halves.entries };
}

impl Usage {
    /// Nothing was used.
    pub fn new(alloc: Global) -> Usage
        ensures { result ≡ [] }
    {
        Usage {
            halves: BTreeMap::new(alloc),
        }
    }

    /// Adds what was used of a table. A sum past the last `u64` counts as that.
    pub fn add(&mut self, table: &Text, halves: u64) -> Result<(), NoMemory>
        ensures { OnOk result (self.new ≡ with_use self.old (record { table = table.now; halves = halves })) }
    {
        let before = self.halves.get(table).copied().unwrap_or(0);
        let sum = before.saturating_add(halves);
        self.halves.insert(table.try_clone()?, sum)?;
        Ok(())
    }

    /// What was used, one for each table.
    pub fn into_consumed(self, alloc: Global) -> Result<Seq<Consumed>, NoMemory>
        ensures { IfOk result (λ consumed. consumed ≡ map consumed_of self) }
    {
        let mut consumed = Seq::with_capacity(alloc, self.halves.len())?;
        for (table, halves) in self.halves {
            consumed.push(Consumed { table, halves })?;
        }
        Ok(consumed)
    }
}
