//! Orders and payments that are read two at a time, at one point.

use crate::acts::{Act, Became};
use crate::steps::go_right;
use case_rules::Name;
use std::test::*;

/// What is done, and what becomes of it.
static STEPS: [(Act, Became); 11] = [
    (Act::Create(Name::Orders), Became::Done),
    (Act::Create(Name::Payments), Became::Done),
    (Act::Put((Name::Orders, 4), 40), Became::Done),
    (Act::Put((Name::Payments, 7), 70), Became::Done),
    (
        Act::Read((Name::Payments, 7), (Name::Orders, 4)),
        Became::Amounts(Some(70), Some(40)),
    ),
    (
        Act::Read((Name::Orders, 4), (Name::Orders, 5)),
        Became::Amounts(Some(40), None),
    ),
    (Act::Hold((Name::Orders, 4)), Became::Done),
    (
        Act::Read((Name::Payments, 7), (Name::Orders, 4)),
        Became::Holders(None, Some(1)),
    ),
    (Act::Drop(Name::Payments), Became::Done),
    (
        Act::Read((Name::Orders, 5), (Name::Payments, 7)),
        Became::NoTable(1),
    ),
    (
        Act::Read((Name::Orders, 5), (Name::Orders, 6)),
        Became::Amounts(None, None),
    ),
];

#[test]
fn items_at_one_point(rt: HostRuntime) -> Result<(), Fail> {
    assert!(rt; go_right(&rt, rt.alloc(), &STEPS)?);
    Ok(())
}
