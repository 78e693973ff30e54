//! The ways of a transaction's driver, and the order of stamps.

use std::process::Abort;
use std::test::Fail;
use txn_core::{Course, Fate, Move, Stamp, Verdict};

/// What a driver does next, or what it is told.
#[derive(Clone, Copy)]
enum Step {
    Next(Move),
    Verdict(Verdict),
    Fate(Fate),
    Done,
}

/// Ways of a transaction of two actions.
static WAYS: [&[Step]; 4] = [
    // All is accepted.
    &[
        Step::Next(Move::Prepare(0)),
        Step::Verdict(Verdict::Accepted),
        Step::Next(Move::Prepare(1)),
        Step::Verdict(Verdict::Accepted),
        Step::Next(Move::Commit),
        Step::Fate(Fate::Committed),
        Step::Next(Move::Apply(0)),
        Step::Done,
        Step::Next(Move::Apply(1)),
        Step::Done,
        Step::Next(Move::Done),
        Step::Done,
        Step::Next(Move::End),
    ],
    // The first action is refused: the second is asked all the same, since its reason is told too.
    &[
        Step::Verdict(Verdict::Held { number: 7 }),
        Step::Next(Move::Prepare(1)),
        Step::Verdict(Verdict::Accepted),
        Step::Next(Move::Cancel),
        Step::Fate(Fate::Cancelled),
        Step::Next(Move::Release(0)),
        Step::Done,
        Step::Next(Move::Release(1)),
        Step::Done,
        Step::Next(Move::Done),
    ],
    // From a fate that was found.
    &[Step::Fate(Fate::Committed), Step::Next(Move::Apply(0))],
    &[Step::Fate(Fate::Gone), Step::Next(Move::End)],
];

fn walk(rt: &impl Abort, steps: &[Step]) -> Result<(), Fail> {
    let mut course = Course::start(2);
    for step in steps {
        match *step {
            Step::Next(expected) => assert!(rt; course.next() == expected),
            Step::Verdict(verdict) => course.took_verdict(verdict),
            Step::Fate(fate) => course.took_fate(fate),
            Step::Done => course.took_done(),
        }
    }
    Ok(())
}

#[test]
fn drivers_go_on_by_what_they_are_told(rt: HostRuntime) -> Result<(), Fail> {
    for steps in &WAYS {
        walk(&rt, steps)?;
    }
    Ok(())
}

const EARLY: Stamp = Stamp {
    moment: 1,
    number: 9,
};

const LATE: Stamp = Stamp {
    moment: 2,
    number: 3,
};

const LATER: Stamp = Stamp {
    moment: 2,
    number: 4,
};

#[test]
fn stamps_go_by_moment_then_number(rt: HostRuntime) -> Result<(), Fail> {
    assert!(rt; EARLY < LATE);
    assert!(rt; LATE < LATER);
    Ok(())
}
