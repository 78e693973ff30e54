//! What is chosen by a number that looks random.

ghost use Rattle.std.specs.Prelude.{◌≤◌, ◌<◌};

use case_rules::{Action, Command, Condition, Deed, Item, Key, Name, Question};
use rand_core::utils::NextWord;
use rand_pcg::Pcg32;

/// A number below this one.
pub(crate) fn below(random: &mut Pcg32, many: u32) -> u32
    requires { 1 ≤ many }
    ensures { result < many }
{
    random.next_word() % many
}

/// One of six numbers.
fn number(random: &mut Pcg32) -> u64
    ensures { result < 6 }
{
    u64::from(below(random, 6))
}

/// An order, or with less chance a payment of a table that may be there.
pub(crate) fn key(random: &mut Pcg32) -> Key {
    let (name, table) = if below(random, 4) == 0 {
        (Name::Payments, 3 + u64::from(below(random, 3)))
    } else {
        (Name::Orders, 1)
    };
    Key {
        name,
        table,
        customer: None,
        number: number(random),
    }
}

/// An item of a customer from 0 to 3, or of nobody.
fn item(random: &mut Pcg32) -> Item {
    let customer = match below(random, 8) {
        0 => None,
        1 => Some(0),
        more => Some(u64::from(more % 3) + 1),
    };
    Item {
        customer,
        amount: number(random) + 2,
        expires: expires(random),
    }
}

/// Never, or at a second of the first thousand.
fn expires(random: &mut Pcg32) -> Option<u64> {
    match below(random, 4) {
        0 => None,
        _ => Some(u64::from(below(random, 1_000)) * 1_000_000),
    }
}

fn deed(random: &mut Pcg32) -> Deed {
    match below(random, 8) {
        0 => Deed::Delete,
        1 => Deed::Check,
        2 | 3 => Deed::Take {
            amount: number(random),
        },
        _ => Deed::Put { item: item(random) },
    }
}

fn condition(random: &mut Pcg32) -> Condition {
    match below(random, 10) {
        0 => Condition::Absent,
        1 => Condition::Holds {
            amount: number(random) + 2,
        },
        _ => Condition::Always,
    }
}

pub(crate) fn action(random: &mut Pcg32) -> Action {
    Action {
        key: key(random),
        condition: condition(random),
        deed: deed(random),
    }
}

/// What removes an item, or with less chance another action.
pub(crate) fn expiration(random: &mut Pcg32) -> Action {
    match below(random, 8) {
        0 => action(random),
        _ => Action {
            key: key(random),
            condition: Condition::Always,
            deed: Deed::Delete,
        },
    }
}

/// An action on another item of the same table.
fn another(random: &mut Pcg32, action: Action) -> Action {
    let number = action.key.number ^ (1 + u64::from(below(random, 7)));
    Action {
        key: Key {
            number,
            ..action.key
        },
        condition: condition(random),
        deed: deed(random),
    }
}

pub(crate) fn page(random: &mut Pcg32) -> Question {
    let key = key(random);
    let index = match below(random, 8) {
        0 | 1 | 2 => None,
        more => Some(u64::from(more) - 1),
    };
    Question::Page {
        name: key.name,
        table: key.table,
        index,
        place: key.number,
    }
}

/// An order of this number.
fn order(number: u64) -> Key {
    Key {
        name: Name::Orders,
        table: 1,
        customer: None,
        number,
    }
}

/// Puts an order of the customer 1.
fn put(number: u64, amount: u64) -> Action {
    let item = Item {
        customer: Some(1),
        amount,
        expires: None,
    };
    Action {
        key: order(number),
        condition: Condition::Always,
        deed: Deed::Put { item },
    }
}

/// Mostly the same actions, for a token that is used again.
fn known_actions(random: &mut Pcg32) -> (Action, Action) {
    (put(0, 5), put(1, u64::from(below(random, 4) / 3)))
}

fn any_actions(random: &mut Pcg32) -> (Action, Action) {
    let first = action(random);
    (first, another(random, first))
}

/// A token of two, or none, and the two actions that are begun under it.
pub(crate) fn beginning(random: &mut Pcg32) -> (Option<&'static str>, (Action, Action)) {
    match below(random, 4) {
        0 => (Some("one"), known_actions(random)),
        1 => (Some("two"), known_actions(random)),
        _ => (None, any_actions(random)),
    }
}

pub(crate) fn name(random: &mut Pcg32) -> Name {
    match below(random, 2) {
        0 => Name::Orders,
        _ => Name::Payments,
    }
}

/// A command that leaves the table of orders there.
pub(crate) fn command(random: &mut Pcg32) -> Command {
    match below(random, 4) {
        0 => Command::Create {
            name: name(random),
            first: Some(item(random)),
        },
        1 => Command::AddIndex { name: name(random) },
        2 => Command::Create {
            name: Name::Payments,
            first: None,
        },
        _ => Command::Drop {
            name: Name::Payments,
        },
    }
}
