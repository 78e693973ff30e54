//! Histories of items that expire.

use crate::asks::Ask::{
    Ack, Apply, Begin, Command, Commit, Due, Expire, Feed, Get, Peek, Prepare, Version, Write,
};
use crate::judged::{Case, judge};
use crate::lines::Line::{At, Index, Moment, Orders, Over};
use crate::replies::Reply::{
    Accepted, Acked, Applied, Begun, Changed, Decided, Empty, Expired, Fed, Held, Kept, Keys, Late,
    Out, Row, Stale, Versioned, Written,
};
use crate::shop::{
    A, C, DELETE_A, DELETE_FIVE_OF_A, DROP_ORDERS, EIGHT, EXPIRED, FIRST, FIRST_ORDER,
    FIRST_PAYMENT, MAKE_OLD_ORDERS, MAKE_OLD_PAYMENTS, OLD, OLD_ROW_COMES, PUT_A, PUT_OLD_A,
    PUT_OLD_C, ROW_GOES, TAKE_THREE_OF_A,
};
use std::test::Fail;
use txn_core::BreakKind::WrongAnswer;
use txn_core::Fate::Committed;

/// What the cells answer.
static LEGAL: &[Case] = &[
    // An order is removed from its moment on, by an action that removes it, and once.
    (
        &[
            Orders,
            At(1, Expire(DELETE_A), Kept),
            At(1, Write(PUT_OLD_A), Written(None, Some(OLD))),
            At(1, Due(9), Keys(&[])),
            Moment(8),
            At(1, Expire(DELETE_A), Kept),
            Moment(9),
            At(1, Due(9), Keys(&[A])),
            At(1, Expire(TAKE_THREE_OF_A), Kept),
            At(1, Expire(DELETE_FIVE_OF_A), Kept),
            At(1, Get(A), Row(Some(OLD))),
            At(1, Expire(DELETE_A), Expired(OLD)),
            At(1, Get(A), Row(None)),
            At(1, Version(A), Versioned(None, 3, None)),
            At(1, Due(9), Keys(&[])),
            At(1, Expire(DELETE_A), Kept),
        ],
        None,
    ),
    // One that never expires is kept, and one whose table is gone has no answer.
    (
        &[
            Orders,
            At(1, Write(PUT_A), Written(None, Some(EIGHT))),
            Moment(9),
            At(1, Due(9), Keys(&[])),
            At(1, Expire(DELETE_A), Kept),
            Over(Command(DROP_ORDERS), Changed(1)),
            At(1, Expire(DELETE_A), Stale),
        ],
        None,
    ),
    // What a transaction holds is neither listed nor removed.
    (
        &[
            Orders,
            At(1, Write(PUT_OLD_A), Written(None, Some(OLD))),
            At(1, Write(PUT_OLD_C), Written(None, Some(OLD))),
            At(16, Begin(None, &[PUT_A]), Begun(1)),
            At(1, Prepare(FIRST, PUT_A), Accepted),
            Moment(9),
            At(1, Due(9), Keys(&[C])),
            At(1, Expire(DELETE_A), Held(1)),
            At(16, Commit(1), Decided(Committed, true)),
            At(1, Expire(DELETE_A), Held(1)),
            At(1, Apply(1, A), Applied),
            At(1, Expire(DELETE_A), Kept),
            At(1, Due(9), Keys(&[C])),
        ],
        None,
    ),
    // An expiration raises the floor, as any other removal does.
    (
        &[
            Orders,
            At(1, Write(PUT_OLD_A), Written(None, Some(OLD))),
            At(16, Begin(None, &[PUT_A]), Begun(1)),
            Moment(9),
            At(1, Expire(DELETE_A), Expired(OLD)),
            At(1, Prepare(FIRST, PUT_A), Late(EXPIRED)),
        ],
        None,
    ),
    // And the row of the order goes.
    (
        &[
            Orders,
            Index,
            At(1, Write(PUT_OLD_A), Written(None, Some(OLD))),
            At(1, Peek, Out(4, OLD_ROW_COMES)),
            At(4, Feed(OLD_ROW_COMES), Fed),
            At(1, Ack(1), Acked),
            At(1, Peek, Empty),
            Moment(9),
            At(1, Expire(DELETE_A), Expired(OLD)),
            At(1, Peek, Out(4, ROW_GOES)),
        ],
        None,
    ),
    // They are listed by the numbers of their tables, and no more than are asked for. What comes with
    // a table expires too.
    (
        &[
            Over(Command(MAKE_OLD_PAYMENTS), Changed(1)),
            Over(Command(MAKE_OLD_ORDERS), Changed(2)),
            At(0, Due(9), Keys(&[])),
            Moment(9),
            At(0, Due(0), Keys(&[])),
            At(0, Due(1), Keys(&[FIRST_PAYMENT])),
            At(0, Due(2), Keys(&[FIRST_PAYMENT, FIRST_ORDER])),
            At(0, Due(3), Keys(&[FIRST_PAYMENT, FIRST_ORDER])),
            At(1, Due(3), Keys(&[])),
        ],
        None,
    ),
];

/// What they don't answer.
static BROKEN: &[Case] = &[
    // Removed too early, by an action that doesn't remove it, and not at all.
    (
        &[
            Orders,
            At(1, Write(PUT_OLD_A), Written(None, Some(OLD))),
            Moment(8),
            At(1, Expire(DELETE_A), Expired(OLD)),
        ],
        Some((2, WrongAnswer)),
    ),
    (
        &[
            Orders,
            At(1, Write(PUT_OLD_A), Written(None, Some(OLD))),
            Moment(9),
            At(1, Expire(TAKE_THREE_OF_A), Expired(OLD)),
        ],
        Some((2, WrongAnswer)),
    ),
    (
        &[
            Orders,
            At(1, Write(PUT_OLD_A), Written(None, Some(OLD))),
            Moment(9),
            At(1, Expire(DELETE_A), Kept),
        ],
        Some((2, WrongAnswer)),
    ),
    // Removed, and listed, though it is held.
    (
        &[
            Orders,
            At(1, Write(PUT_OLD_A), Written(None, Some(OLD))),
            At(16, Begin(None, &[PUT_A]), Begun(1)),
            At(1, Prepare(FIRST, PUT_A), Accepted),
            Moment(9),
            At(1, Expire(DELETE_A), Expired(OLD)),
        ],
        Some((4, WrongAnswer)),
    ),
    (
        &[
            Orders,
            At(1, Write(PUT_OLD_A), Written(None, Some(OLD))),
            At(16, Begin(None, &[PUT_A]), Begun(1)),
            At(1, Prepare(FIRST, PUT_A), Accepted),
            Moment(9),
            At(1, Due(9), Keys(&[A])),
        ],
        Some((4, WrongAnswer)),
    ),
    // One that was removed is there still.
    (
        &[
            Orders,
            At(1, Write(PUT_OLD_A), Written(None, Some(OLD))),
            Moment(9),
            At(1, Expire(DELETE_A), Expired(OLD)),
            At(1, Get(A), Row(Some(OLD))),
        ],
        Some((3, WrongAnswer)),
    ),
    // In another order, and more than were asked for.
    (
        &[
            Over(Command(MAKE_OLD_PAYMENTS), Changed(1)),
            Over(Command(MAKE_OLD_ORDERS), Changed(2)),
            Moment(9),
            At(0, Due(2), Keys(&[FIRST_ORDER, FIRST_PAYMENT])),
        ],
        Some((2, WrongAnswer)),
    ),
    (
        &[
            Over(Command(MAKE_OLD_PAYMENTS), Changed(1)),
            Over(Command(MAKE_OLD_ORDERS), Changed(2)),
            Moment(9),
            At(0, Due(1), Keys(&[FIRST_PAYMENT, FIRST_ORDER])),
        ],
        Some((2, WrongAnswer)),
    ),
];

#[test]
fn items_expire_so(rt: HostRuntime) -> Result<(), Fail> {
    judge(&rt, LEGAL)
}

#[test]
fn other_expirations_are_found(rt: HostRuntime) -> Result<(), Fail> {
    judge(&rt, BROKEN)
}
