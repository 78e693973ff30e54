ghost use Rattle.std.specs.Prelude.{◌≡◌};
ghost use Rattle.std.specs.Option.{option_copied};
ghost use Rattle.case_rules.specs.Actions.{meets, fitted, taken, done, act, removal};

use crate::catalog::{Catalog, index_of};
use crate::item::Item;
use crate::key::Key;
use txn_core::Outcome;

/// What has to hold of an item before an action on it.
#[derive(Clone, Copy, Drop)]
pub enum Condition {
    /// Nothing.
    Always,
    /// The item isn't there.
    Absent,
    /// The item is there, with this amount.
    Holds {
        /// How much.
        amount: u64,
    },
}

/// What is done to an item.
#[derive(Clone, Copy, Drop)]
pub enum Deed {
    /// It is this item from now on.
    Put {
        /// The item afterwards.
        item: Item,
    },
    /// So much is taken away from its amount.
    Take {
        /// How much.
        amount: u64,
    },
    /// It goes.
    Delete,
    /// It stays as it is.
    Check,
}

/// Why an action can't be evaluated on its item.
#[derive(Clone, Copy, Drop)]
pub enum Fault {
    /// There is no item from which to take.
    NoItem,
    /// More is taken away than there is.
    TooLittle,
    /// The customer 0, in a table with an index by customer.
    IndexKey,
}

/// An action on one item.
#[derive(Clone, Copy, Drop)]
pub struct Action {
    /// Which item.
    pub key: Key,
    /// What has to hold before.
    pub condition: Condition,
    /// What is done where it holds.
    pub deed: Deed,
}

impl Condition {
    fn holds(self, old: Option<Item>) -> bool
        ensures { result ≡ meets self old }
    {
        match (self, old) {
            (Condition::Always, _) => true,
            (Condition::Absent, None) => true,
            (Condition::Absent, Some(_)) => false,
            (Condition::Holds { .. }, None) => false,
            (Condition::Holds { amount }, Some(item)) => item.amount == amount,
        }
    }
}

impl Item {
    /// The item as a new one, where the table's index doesn't refuse its customer.
    fn fitted(self, is_indexed: bool) -> Outcome<Item, Fault>
        ensures { result ≡ fitted is_indexed self }
    {
        if is_indexed && self.customer == Some(0) {
            Outcome::Fails {
                fault: Fault::IndexKey,
            }
        } else {
            Outcome::New { item: Some(self) }
        }
    }

    /// The item with so much less, where there is as much.
    fn taken(self, amount: u64) -> Outcome<Item, Fault>
        ensures { result ≡ taken amount self }
    {
        if amount <= self.amount {
            let left = Item {
                customer: self.customer,
                amount: self.amount - amount,
                expires: self.expires,
            };
            Outcome::New { item: Some(left) }
        } else {
            Outcome::Fails {
                fault: Fault::TooLittle,
            }
        }
    }
}

impl Deed {
    fn done(self, is_indexed: bool, old: Option<Item>) -> Outcome<Item, Fault>
        ensures { result ≡ done is_indexed self old }
    {
        match (self, old) {
            (Deed::Put { item }, _) => item.fitted(is_indexed),
            (Deed::Take { .. }, None) => Outcome::Fails {
                fault: Fault::NoItem,
            },
            (Deed::Take { amount }, Some(item)) => item.taken(amount),
            (Deed::Delete, _) => Outcome::New { item: None },
            (Deed::Check, _) => Outcome::New { item: old },
        }
    }
}

impl Action {
    /// The one that removes an item, whatever it is.
    pub(crate) fn removal(key: &Key) -> Action
        ensures { result ≡ removal key.now }
    {
        Action {
            key: *key,
            condition: Condition::Always,
            deed: Deed::Delete,
        }
    }

    /// What it makes of an item, or of none.
    pub(crate) fn act(&self, catalog: &Catalog, old: Option<&Item>) -> Outcome<Item, Fault>
        ensures { result ≡ act catalog.now self.now (option_copied old.entry) }
    {
        let old = old.copied();
        if self.condition.holds(old) {
            let index = index_of(catalog.table(self.key.name));
            self.deed.done(index.is_some(), old)
        } else {
            Outcome::Unmet
        }
    }
}
