//! Histories of tables, of their items and of the rows of their indexes.

use crate::asks::Ask::{
    Ack, Apply, Begin, Command, Commit, Feed, Get, Number, Peek, Pendings, Prepare, Query, Scan,
    Version, Write,
};
use crate::judged::{Case, judge};
use crate::lines::Line::{At, Index, Moment, Orders, Over};
use crate::replies::Reply::{
    Accepted, Acked, Already, Applied, Begun, Changed, Decided, Empty, Fed, Full, HasIndex, Held,
    Holds, InUse, Invalid, Late, NoTable, Nothing, Out, Part, Row, Stale, Told, ToldNone, Unmet,
    Versioned, Written,
};
use crate::shop::{
    A, B, C, CHECK_B, DELETE_A, DROP_ORDERS, DROP_PAYMENTS, EIGHT, FIRST, FIVE, MAKE_INDEX,
    MAKE_ORDERS, MAKE_PAYMENTS, MOVE_A, MOVED, MOVED_ROW, NEW_B, NEW_ROW, NEW_ROW_GOES,
    NEW_ROW_TOO_EARLY, NOBODYS_A, ORDERS_0, ORDERS_1, PAYMENT, PAYMENTS_0, PUT_A, PUT_B, PUT_C,
    ROW_COMES, ROW_COMES_AS_FIVE, ROW_COMES_SECOND, ROW_FROM_NOWHERE, ROW_GOES, ROW_OF_A, ROWS_4,
    ROWS_9, SECOND, TAKE_SIX_OF_A, TAKE_THREE_OF_A, WRITTEN,
};
use case_rules::{Fault, Name};
use std::test::Fail;
use txn_core::BreakKind::{IndexOrder, WrongAnswer};
use txn_core::Fate::Committed;

/// What the cells answer.
static LEGAL: &[Case] = &[
    // Conditions and faults of single writes.
    (
        &[
            Orders,
            At(1, Write(TAKE_THREE_OF_A), Invalid(Fault::NoItem)),
            At(1, Write(PUT_A), Written(None, Some(EIGHT))),
            At(1, Write(TAKE_THREE_OF_A), Written(Some(EIGHT), Some(FIVE))),
            At(1, Write(TAKE_SIX_OF_A), Invalid(Fault::TooLittle)),
            At(1, Write(DELETE_A), Written(Some(FIVE), None)),
            At(2, Write(NEW_B), Written(None, Some(FIVE))),
            At(2, Write(NEW_B), Unmet(Some(FIVE))),
            At(2, Write(CHECK_B), Unmet(Some(FIVE))),
        ],
        None,
    ),
    // Two tables in one cell. The item that comes with the second is its cell's second change. No
    // number comes again: 3 is the index's, the payments that are made again are the table 4, and
    // after 5 there is no number.
    (
        &[
            Over(Command(DROP_PAYMENTS), NoTable),
            Orders,
            Over(Command(MAKE_ORDERS), InUse),
            Over(Command(MAKE_PAYMENTS), Changed(2)),
            At(0, Get(PAYMENT), Row(Some(FIVE))),
            At(0, Version(PAYMENT), Versioned(Some(FIVE), 2, None)),
            At(0, Query(PAYMENTS_0), Part(&[(PAYMENT, FIVE)])),
            At(0, Scan(ORDERS_0), Part(&[])),
            Over(Command(MAKE_INDEX), Changed(3)),
            Over(Command(MAKE_INDEX), HasIndex),
            Over(Command(DROP_PAYMENTS), Changed(2)),
            At(0, Get(PAYMENT), Stale),
            At(0, Query(PAYMENTS_0), Stale),
            At(16, Number(Name::Payments), ToldNone),
            Over(Command(MAKE_PAYMENTS), Changed(4)),
            At(16, Number(Name::Payments), Told(4)),
            At(0, Get(PAYMENT), Stale),
            Over(Command(DROP_PAYMENTS), Changed(4)),
            Over(Command(MAKE_PAYMENTS), Changed(5)),
            Over(Command(DROP_PAYMENTS), Changed(5)),
            Over(Command(MAKE_PAYMENTS), Full),
        ],
        None,
    ),
    // A page has the orders of its cell, in the order of their keys.
    (
        &[
            Orders,
            At(1, Write(PUT_C), Written(None, Some(FIVE))),
            At(1, Write(PUT_A), Written(None, Some(EIGHT))),
            At(2, Write(PUT_B), Written(None, Some(FIVE))),
            At(1, Scan(ORDERS_1), Part(&[(A, EIGHT), (C, FIVE)])),
        ],
        None,
    ),
    // What is held stands in the way of its own table's commands.
    (
        &[
            Orders,
            Over(Command(MAKE_PAYMENTS), Changed(2)),
            At(16, Begin(None, &[PUT_A]), Begun(1)),
            At(1, Prepare(FIRST, PUT_A), Accepted),
            Over(Command(DROP_ORDERS), Held(1)),
            Over(Command(MAKE_INDEX), Held(1)),
            Over(Command(DROP_PAYMENTS), Changed(2)),
        ],
        None,
    ),
    // Of two in one cell it is the transaction of the least number.
    (
        &[
            Orders,
            At(16, Begin(None, &[PUT_C]), Begun(1)),
            At(16, Begin(None, &[PUT_A]), Begun(2)),
            At(1, Prepare(FIRST, PUT_C), Accepted),
            At(1, Prepare(SECOND, PUT_A), Accepted),
            Over(Command(DROP_ORDERS), Held(1)),
        ],
        None,
    ),
    // An order's row is in the cell of its customer, 4, and then 9. Each change is shown until it
    // is acknowledged, and an ApplyIndex that comes again changes nothing. A write that changes
    // nothing queues nothing, and a transaction's Apply queues what a write would.
    (
        &[
            Orders,
            Index,
            At(1, Write(NOBODYS_A), Invalid(Fault::IndexKey)),
            At(1, Write(PUT_A), Written(None, Some(EIGHT))),
            At(1, Query(ORDERS_1), Part(&[(A, EIGHT)])),
            At(4, Query(ROWS_4), Part(&[])),
            At(1, Peek, Out(4, ROW_COMES)),
            At(4, Feed(ROW_COMES), Fed),
            At(4, Query(ROWS_4), Part(&[(ROW_OF_A, EIGHT)])),
            At(4, Feed(ROW_COMES), Already),
            At(1, Write(MOVE_A), Written(Some(EIGHT), Some(MOVED))),
            At(1, Peek, Out(4, ROW_COMES)),
            At(1, Ack(1), Acked),
            At(1, Ack(1), Nothing),
            At(1, Peek, Out(4, ROW_GOES)),
            At(4, Feed(ROW_GOES), Fed),
            At(4, Scan(ROWS_4), Part(&[])),
            At(1, Ack(2), Acked),
            At(1, Peek, Out(9, NEW_ROW)),
            At(9, Feed(NEW_ROW), Fed),
            At(4, Feed(ROW_COMES), Already),
            At(1, Ack(3), Acked),
            At(9, Query(ROWS_9), Part(&[(MOVED_ROW, MOVED)])),
            At(1, Write(MOVE_A), Written(Some(MOVED), Some(MOVED))),
            At(1, Peek, Empty),
            At(16, Begin(None, &[PUT_A]), Begun(1)),
            At(1, Prepare(FIRST, PUT_A), Accepted),
            At(1, Query(ORDERS_1), Part(&[(A, MOVED)])),
            At(16, Commit(1), Decided(Committed, true)),
            At(1, Peek, Empty),
            At(1, Apply(1, A), Applied),
            At(1, Peek, Out(9, NEW_ROW_GOES)),
            At(1, Query(ORDERS_1), Part(&[(A, EIGHT)])),
        ],
        None,
    ),
    // An index that is made later has a row for each order that is there. When it is gone, what
    // still waits is fed to nobody.
    (
        &[
            Orders,
            At(1, Write(PUT_A), Written(None, Some(EIGHT))),
            At(1, Peek, Empty),
            At(4, Query(ROWS_4), Stale),
            Index,
            At(1, Peek, Out(4, ROW_COMES)),
            Over(Command(DROP_ORDERS), Changed(1)),
            At(4, Feed(ROW_COMES), Already),
            At(4, Query(ROWS_4), Stale),
            At(1, Ack(1), Acked),
            At(1, Peek, Empty),
        ],
        None,
    ),
];

/// What they don't answer, and changes of rows that come too early.
static BROKEN: &[Case] = &[
    (
        &[Orders, At(16, Begin(None, &[PUT_A]), Begun(2))],
        Some((1, WrongAnswer)),
    ),
    (
        &[
            Orders,
            At(16, Begin(None, &[PUT_A]), Begun(1)),
            At(1, Prepare(FIRST, PUT_A), Accepted),
            At(1, Get(A), Row(Some(EIGHT))),
        ],
        Some((3, WrongAnswer)),
    ),
    (
        &[
            Orders,
            At(16, Begin(None, &[PUT_A]), Begun(1)),
            At(16, Begin(None, &[PUT_A]), Begun(2)),
            At(1, Prepare(FIRST, PUT_A), Accepted),
            At(1, Prepare(SECOND, PUT_A), Accepted),
        ],
        Some((4, WrongAnswer)),
    ),
    // A stamp of the same moment and a lower number isn't late.
    (
        &[
            Orders,
            At(1, Write(PUT_A), Written(None, Some(EIGHT))),
            At(16, Begin(None, &[PUT_A]), Begun(1)),
            At(1, Prepare(FIRST, PUT_A), Late(WRITTEN)),
        ],
        Some((3, WrongAnswer)),
    ),
    (&[Orders, At(2, Get(A), Row(None))], Some((1, WrongAnswer))),
    (
        &[Orders, Moment(6), At(1, Get(A), Row(None))],
        Some((1, WrongAnswer)),
    ),
    (
        &[Orders, At(1, Pendings, Holds(A, 1))],
        Some((1, WrongAnswer)),
    ),
    // A number that was drawn comes again.
    (
        &[Orders, Over(Command(DROP_ORDERS), Changed(1)), Orders],
        Some((2, WrongAnswer)),
    ),
    // The condition is false.
    (
        &[
            Orders,
            At(2, Write(NEW_B), Written(None, Some(FIVE))),
            At(2, Write(NEW_B), Written(Some(FIVE), Some(FIVE))),
        ],
        Some((2, WrongAnswer)),
    ),
    // A page without its row, in another order, with a row of another cell, with one of the other
    // table, and with one that isn't fed yet.
    (
        &[
            Orders,
            At(1, Write(PUT_A), Written(None, Some(EIGHT))),
            At(1, Query(ORDERS_1), Part(&[])),
        ],
        Some((2, WrongAnswer)),
    ),
    (
        &[
            Orders,
            At(1, Write(PUT_C), Written(None, Some(FIVE))),
            At(1, Write(PUT_A), Written(None, Some(EIGHT))),
            At(1, Scan(ORDERS_1), Part(&[(C, FIVE), (A, EIGHT)])),
        ],
        Some((3, WrongAnswer)),
    ),
    (
        &[
            Orders,
            At(2, Write(PUT_B), Written(None, Some(FIVE))),
            At(1, Query(ORDERS_1), Part(&[(B, FIVE)])),
        ],
        Some((2, WrongAnswer)),
    ),
    (
        &[
            Orders,
            Over(Command(MAKE_PAYMENTS), Changed(2)),
            At(0, Scan(ORDERS_0), Part(&[(PAYMENT, FIVE)])),
        ],
        Some((2, WrongAnswer)),
    ),
    (
        &[
            Orders,
            Index,
            At(1, Write(PUT_A), Written(None, Some(EIGHT))),
            At(4, Query(ROWS_4), Part(&[(ROW_OF_A, EIGHT)])),
        ],
        Some((3, WrongAnswer)),
    ),
    // A change is shown that nobody queued; one that waits isn't shown, is shown with another row, or
    // under another number.
    (
        &[Orders, Index, At(1, Peek, Out(4, ROW_COMES))],
        Some((2, WrongAnswer)),
    ),
    (
        &[
            Orders,
            Index,
            At(1, Write(PUT_A), Written(None, Some(EIGHT))),
            At(1, Peek, Empty),
        ],
        Some((3, WrongAnswer)),
    ),
    (
        &[
            Orders,
            Index,
            At(1, Write(PUT_A), Written(None, Some(EIGHT))),
            At(1, Peek, Out(4, ROW_COMES_AS_FIVE)),
        ],
        Some((3, WrongAnswer)),
    ),
    (
        &[
            Orders,
            Index,
            At(1, Write(PUT_A), Written(None, Some(EIGHT))),
            At(1, Peek, Out(4, ROW_COMES_SECOND)),
        ],
        Some((3, WrongAnswer)),
    ),
    // The new row comes behind the removal of the old one.
    (
        &[
            Orders,
            At(1, Write(PUT_A), Written(None, Some(EIGHT))),
            Index,
            At(1, Peek, Out(4, ROW_COMES)),
            At(4, Feed(ROW_COMES), Fed),
            At(1, Ack(1), Acked),
            At(1, Write(MOVE_A), Written(Some(EIGHT), Some(MOVED))),
            At(1, Peek, Out(9, NEW_ROW_TOO_EARLY)),
        ],
        Some((7, WrongAnswer)),
    ),
    // Fed twice, acknowledged before it is fed, fed before it is shown, and fed with another row.
    (
        &[
            Orders,
            Index,
            At(1, Write(PUT_A), Written(None, Some(EIGHT))),
            At(1, Peek, Out(4, ROW_COMES)),
            At(4, Feed(ROW_COMES), Fed),
            At(4, Feed(ROW_COMES), Fed),
        ],
        Some((5, WrongAnswer)),
    ),
    (
        &[
            Orders,
            Index,
            At(1, Write(PUT_A), Written(None, Some(EIGHT))),
            At(1, Peek, Out(4, ROW_COMES)),
            At(1, Ack(1), Acked),
        ],
        Some((4, IndexOrder)),
    ),
    (
        &[
            Orders,
            Index,
            At(1, Write(PUT_A), Written(None, Some(EIGHT))),
            At(4, Feed(ROW_COMES), Fed),
        ],
        Some((3, IndexOrder)),
    ),
    (
        &[
            Orders,
            Index,
            At(1, Write(PUT_A), Written(None, Some(EIGHT))),
            At(1, Peek, Out(4, ROW_COMES)),
            At(4, Feed(ROW_COMES_AS_FIVE), Fed),
        ],
        Some((4, IndexOrder)),
    ),
    // Of a source that is no partition, which may not be sent: where the index is there it is as if nothing of it was fed before.
    (
        &[Orders, Index, At(4, Feed(ROW_FROM_NOWHERE), Fed)],
        Some((2, IndexOrder)),
    ),
    (
        &[Orders, Index, At(4, Feed(ROW_FROM_NOWHERE), Already)],
        Some((2, WrongAnswer)),
    ),
    (
        &[Orders, At(4, Feed(ROW_FROM_NOWHERE), Already)],
        Some((1, IndexOrder)),
    ),
];

#[test]
fn tables_and_indexes_answer_so(rt: HostRuntime) -> Result<(), Fail> {
    judge(&rt, LEGAL)
}

#[test]
fn other_answers_are_found(rt: HostRuntime) -> Result<(), Fail> {
    judge(&rt, BROKEN)
}
