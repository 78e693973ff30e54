//! Whole transactions of two orders.

use crate::acts::{Act, Became};
use crate::steps::go_right;
use case_rules::Name;
use std::test::*;

/// What is done, and what becomes of it.
static STEPS: [(Act, Became); 12] = [
    (Act::Create(Name::Orders), Became::Done),
    (Act::Make("one", [(4, 10), (7, 20)]), Became::Done),
    (Act::Get(4), Became::Amount(Some(10))),
    (Act::Get(7), Became::Amount(Some(20))),
    (Act::Make("one", [(4, 10), (7, 20)]), Became::Done),
    (Act::Make("one", [(4, 11), (7, 20)]), Became::Mismatch(1)),
    (Act::Make("two", [(5, 1), (7, 30)]), Became::SecondIsUnmet),
    (Act::Make("three", [(5, 1), (5, 2)]), Became::Twice),
    (Act::Get(4), Became::Amount(Some(10))),
    (Act::Get(7), Became::Amount(Some(20))),
    (Act::Get(5), Became::Amount(None)),
    (Act::Sweep, Became::Swept(0)),
];

#[test]
fn two_orders_at_once(rt: HostRuntime) -> Result<(), Fail> {
    assert!(rt; go_right(&rt, rt.alloc(), &STEPS)?);
    Ok(())
}
