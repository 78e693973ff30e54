//! Histories of transactions.

use crate::asks::Ask::{
    Apply, Begin, Cancel, Command, Commit, Done, Fate, Forget, Get, Pendings, Prepare, Recall,
    Release, Unfinished, Version, Write,
};
use crate::asks::Verdict;
use crate::judged::{Case, judge};
use crate::lines::Line::{At, Moment, Orders, Over, Pass};
use crate::replies::Reply::{
    Accepted, Applied, Begun, Changed, Decided, Finished, Forgotten, Held, Holds, Invalid, Is,
    Known, Late, Mismatch, Nothing, Number, Released, Repeat, Row, Running, Stale, Unknown, Unmet,
    Versioned, Written,
};
use crate::shop::{
    A, B, C, CHECK_B, DELETE_A, DROP_ORDERS, EIGHT, FIRST, FIVE, MAKE_ORDERS, NEW_B, PUT_A, PUT_B,
    PUT_C, SECOND, TAKE_THREE_OF_A, THIRD,
};
use case_rules::Fault;
use std::test::Fail;
use txn_core::BreakKind::{
    AllCells, CauselessCancel, EarlyApply, EarlyCommit, EarlyDone, EarlyForget, EarlyRelease,
    NotBegun,
};
use txn_core::Fate::{Cancelled, Committed, Gone, Undecided};

/// Transactions to their ends.
static LEGAL: &[Case] = &[
    // Under a token: the same actions are the same transaction, until it is over for 600 seconds
    // after its first Done, and others are a mismatch, also where a condition alone is another. What is
    // held isn't shown, and is written by nobody else. What is committed is shown where it was applied.
    (
        &[
            Orders,
            At(16, Begin(Some("t"), &[PUT_A, PUT_B]), Begun(1)),
            At(16, Begin(Some("t"), &[PUT_A, PUT_B]), Running(1)),
            At(1, Prepare(FIRST, PUT_A), Accepted),
            At(1, Prepare(FIRST, PUT_A), Accepted),
            At(1, Get(A), Row(None)),
            At(1, Version(A), Versioned(None, 0, Some(1))),
            At(1, Write(TAKE_THREE_OF_A), Held(1)),
            At(1, Pendings, Holds(A, 1)),
            At(2, Prepare(FIRST, PUT_B), Accepted),
            At(16, Unfinished, Number(1)),
            At(16, Fate(1), Is(Undecided)),
            At(16, Recall(1), Known(FIRST, Undecided, &[PUT_A, PUT_B], &[])),
            At(16, Commit(1), Decided(Committed, true)),
            At(16, Commit(1), Decided(Committed, false)),
            At(1, Apply(1, A), Applied),
            At(1, Apply(1, A), Nothing),
            At(2, Get(B), Row(None)),
            At(2, Apply(1, B), Applied),
            At(2, Get(B), Row(Some(FIVE))),
            At(16, Recall(1), Known(FIRST, Committed, &[PUT_A, PUT_B], &[])),
            At(16, Done(1), Finished),
            Moment(8),
            At(16, Done(1), Finished),
            At(16, Begin(Some("t"), &[PUT_A, PUT_B]), Repeat(1)),
            At(16, Begin(Some("t"), &[PUT_A, NEW_B]), Mismatch(1)),
            At(16, Forget(1), Forgotten),
            At(16, Forget(1), Nothing),
            At(16, Done(1), Nothing),
            At(16, Commit(1), Decided(Gone, false)),
            At(16, Fate(1), Is(Gone)),
            At(16, Recall(1), Unknown),
            At(1, Get(A), Row(Some(EIGHT))),
            Moment(600_000_006),
            At(16, Begin(Some("t"), &[PUT_A, NEW_B]), Mismatch(1)),
            Moment(600_000_007),
            At(16, Begin(Some("t"), &[PUT_A, NEW_B]), Begun(2)),
        ],
        None,
    ),
    // Two that race a third: one finds an order held, and one comes too late.
    (
        &[
            Orders,
            At(16, Begin(None, &[PUT_A, PUT_B]), Begun(1)),
            At(16, Begin(None, &[PUT_A, PUT_B]), Begun(2)),
            At(16, Begin(None, &[PUT_A, PUT_B]), Begun(3)),
            At(1, Prepare(SECOND, PUT_A), Accepted),
            At(2, Prepare(SECOND, PUT_B), Accepted),
            At(1, Prepare(THIRD, PUT_A), Held(2)),
            At(16, Commit(2), Decided(Committed, true)),
            At(1, Apply(2, A), Applied),
            At(2, Apply(2, B), Applied),
            At(2, Prepare(THIRD, PUT_B), Accepted),
            At(
                16,
                Cancel(3, &[Verdict::Held(2), Verdict::Accepted]),
                Decided(Cancelled, true),
            ),
            At(1, Release(3, A), Nothing),
            At(2, Release(3, B), Released),
            At(16, Done(3), Finished),
            At(1, Prepare(FIRST, PUT_A), Late(SECOND)),
            At(2, Prepare(FIRST, PUT_B), Late(SECOND)),
            At(
                16,
                Cancel(1, &[Verdict::Late(SECOND), Verdict::Late(SECOND)]),
                Decided(Cancelled, true),
            ),
            At(1, Release(1, A), Nothing),
            At(2, Release(1, B), Nothing),
            At(16, Done(1), Finished),
            At(2, Get(B), Row(Some(FIVE))),
        ],
        None,
    ),
    // A condition is false, and nothing can be taken from an order that isn't there.
    (
        &[
            Orders,
            At(16, Begin(None, &[TAKE_THREE_OF_A, CHECK_B]), Begun(1)),
            At(1, Prepare(FIRST, TAKE_THREE_OF_A), Invalid(Fault::NoItem)),
            At(2, Prepare(FIRST, CHECK_B), Unmet(None)),
            At(
                16,
                Cancel(1, &[Verdict::Invalid(Fault::NoItem), Verdict::Unmet(None)]),
                Decided(Cancelled, true),
            ),
            At(
                16,
                Recall(1),
                Known(
                    FIRST,
                    Cancelled,
                    &[TAKE_THREE_OF_A, CHECK_B],
                    &[Verdict::Invalid(Fault::NoItem), Verdict::Unmet(None)],
                ),
            ),
            At(1, Release(1, A), Nothing),
            At(2, Release(1, B), Nothing),
            At(16, Done(1), Finished),
            At(16, Forget(1), Forgotten),
        ],
        None,
    ),
    // A token is free at once where its transaction is cancelled.
    (
        &[
            Orders,
            At(16, Begin(Some("t"), &[CHECK_B]), Begun(1)),
            At(2, Prepare(FIRST, CHECK_B), Unmet(None)),
            At(
                16,
                Cancel(1, &[Verdict::Unmet(None)]),
                Decided(Cancelled, true),
            ),
            At(16, Begin(Some("t"), &[PUT_B]), Begun(2)),
        ],
        None,
    ),
    // Where an order was removed the stamp of the removal holds for all of its cell that are not there, as for the order 17.
    (
        &[
            Orders,
            At(1, Write(PUT_A), Written(None, Some(EIGHT))),
            At(16, Begin(None, &[PUT_C]), Begun(1)),
            At(16, Begin(None, &[DELETE_A]), Begun(2)),
            At(1, Prepare(SECOND, DELETE_A), Accepted),
            At(16, Commit(2), Decided(Committed, true)),
            At(1, Apply(2, A), Applied),
            At(1, Version(A), Versioned(None, 3, None)),
            At(1, Prepare(FIRST, PUT_C), Late(SECOND)),
            At(1, Write(PUT_C), Written(None, Some(FIVE))),
            At(1, Version(C), Versioned(Some(FIVE), 4, None)),
        ],
        None,
    ),
    // The table goes: that is a cause without reasons. A table that is made again is another one.
    (
        &[
            Orders,
            At(16, Begin(None, &[PUT_A, PUT_B]), Begun(1)),
            Over(Command(DROP_ORDERS), Changed(1)),
            Over(Command(MAKE_ORDERS), Changed(2)),
            At(1, Prepare(FIRST, PUT_A), Stale),
            At(
                16,
                Cancel(1, &[Verdict::Accepted, Verdict::Accepted]),
                Decided(Cancelled, true),
            ),
            At(16, Begin(None, &[PUT_A, PUT_B]), Stale),
        ],
        None,
    ),
];

/// What may not be sent.
static FORBIDDEN: &[Case] = &[
    (
        &[
            Orders,
            At(16, Begin(None, &[PUT_A, PUT_B]), Begun(1)),
            At(1, Prepare(FIRST, PUT_A), Accepted),
            At(16, Commit(1), Decided(Committed, true)),
        ],
        Some((3, EarlyCommit)),
    ),
    (
        &[
            Orders,
            At(16, Begin(None, &[PUT_A, PUT_B]), Begun(1)),
            At(1, Prepare(FIRST, PUT_A), Accepted),
            At(2, Prepare(FIRST, PUT_B), Accepted),
            At(16, Commit(1), Decided(Committed, true)),
            At(1, Apply(1, A), Applied),
            At(16, Done(1), Finished),
        ],
        Some((6, EarlyDone)),
    ),
    (
        &[
            Orders,
            At(16, Begin(None, &[PUT_A, CHECK_B]), Begun(1)),
            At(1, Prepare(FIRST, PUT_A), Accepted),
            At(2, Prepare(FIRST, CHECK_B), Unmet(None)),
            At(
                16,
                Cancel(1, &[Verdict::Accepted, Verdict::Accepted]),
                Decided(Cancelled, true),
            ),
        ],
        Some((4, CauselessCancel)),
    ),
    (
        &[
            Orders,
            At(16, Begin(None, &[PUT_A, CHECK_B]), Begun(1)),
            At(1, Prepare(FIRST, PUT_A), Accepted),
            At(2, Prepare(FIRST, CHECK_B), Unmet(None)),
            At(
                16,
                Cancel(1, &[Verdict::Unmet(None), Verdict::Unmet(None)]),
                Decided(Cancelled, true),
            ),
        ],
        Some((4, CauselessCancel)),
    ),
    // One reason for two actions.
    (
        &[
            Orders,
            At(16, Begin(None, &[PUT_A, CHECK_B]), Begun(1)),
            At(1, Prepare(FIRST, PUT_A), Accepted),
            At(2, Prepare(FIRST, CHECK_B), Unmet(None)),
            At(
                16,
                Cancel(1, &[Verdict::Unmet(None)]),
                Decided(Cancelled, true),
            ),
        ],
        Some((4, CauselessCancel)),
    ),
    (
        &[
            Orders,
            At(16, Begin(None, &[PUT_A]), Begun(1)),
            At(1, Prepare(FIRST, PUT_A), Accepted),
            At(1, Apply(1, A), Applied),
        ],
        Some((3, EarlyApply)),
    ),
    (
        &[
            Orders,
            At(16, Begin(None, &[PUT_A]), Begun(1)),
            At(1, Prepare(FIRST, PUT_A), Accepted),
            At(16, Commit(1), Decided(Committed, true)),
            At(1, Release(1, A), Released),
        ],
        Some((4, EarlyRelease)),
    ),
    (
        &[
            Orders,
            At(16, Begin(None, &[PUT_A]), Begun(1)),
            At(1, Prepare(FIRST, PUT_A), Accepted),
            At(16, Commit(1), Decided(Committed, true)),
            At(1, Apply(1, A), Applied),
            At(16, Forget(1), Forgotten),
        ],
        Some((5, EarlyForget)),
    ),
    // A pass forgets its own transactions alone.
    (
        &[
            Orders,
            At(16, Begin(None, &[PUT_A]), Begun(1)),
            At(1, Prepare(FIRST, PUT_A), Accepted),
            At(16, Commit(1), Decided(Committed, true)),
            At(1, Apply(1, A), Applied),
            Pass(2),
            At(16, Done(1), Finished),
            At(16, Forget(1), Forgotten),
        ],
        Some((6, EarlyForget)),
    ),
    (
        &[Orders, At(1, Prepare(FIRST, PUT_A), Accepted)],
        Some((1, NotBegun)),
    ),
    (
        &[
            Orders,
            At(16, Begin(None, &[PUT_A]), Begun(1)),
            At(1, Prepare(FIRST, DELETE_A), Accepted),
        ],
        Some((2, NotBegun)),
    ),
    (
        &[Orders, At(16, Commit(1), Decided(Gone, false))],
        Some((1, NotBegun)),
    ),
    (
        &[Orders, At(16, Begin(None, &[]), Begun(1))],
        Some((1, NotBegun)),
    ),
    (
        &[Orders, At(16, Begin(None, &[PUT_A, DELETE_A]), Begun(1))],
        Some((1, NotBegun)),
    ),
    (
        &[At(3, Command(MAKE_ORDERS), Changed(1))],
        Some((0, AllCells)),
    ),
    (&[Orders, Over(Get(A), Row(None))], Some((1, AllCells))),
];

#[test]
fn transactions_come_to_their_ends(rt: HostRuntime) -> Result<(), Fail> {
    judge(&rt, LEGAL)
}

#[test]
fn what_may_not_be_sent_is_found(rt: HostRuntime) -> Result<(), Fail> {
    judge(&rt, FORBIDDEN)
}
