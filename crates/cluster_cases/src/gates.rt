//! A transaction that is held between two of its Prepares until another thread was answered.

ghost use Rattle.std.specs.Prelude.{◌≡◌};
ghost use Rattle.cluster.specs.Steps.{IsAtRest};
ghost use Rattle.coordinator.specs.declared.gate.Pace.{Pace};

use crate::orders::put;
use crate::steps::{amount, has_orders};
use case_rules::Shop;
use cluster::{Caller, Cluster, TableWorld};
use coordinator::{Gate, GoGate, Pace, Point, TransactEnd, transact_write};
use std::alloc::Global;
use std::sync::Wait;
use std::sync::atomic::{AtomicBool, Ordering};
use std::test::*;
use std::thread::{Threads, join, yield_now};
use turnstile::Pass;

/// How often a thread looks for what another one has to do first.
const LOOKS: u64 = 10_000_000;

/// What the two threads tell one another.
#[derive(Drop)]
struct Signals {
    /// The transaction is held.
    is_held: AtomicBool,
    /// The reader was answered.
    is_answered: AtomicBool,
}

/// Whether it is set within so many looks.
fn is_set(signal: &AtomicBool) -> bool {
    for _look in 0..LOOKS {
        if signal.load(Ordering::SeqCst) {
            return true;
        }
        yield_now();
    }
    false
}

/// A gate that holds a transaction after its first Prepare until the reader was answered.
#[derive(Drop)]
struct HoldingGate<'a> {
    signals: &'a Signals,
    is_answered: bool,
}

impl<'a> Gate for HoldingGate<'a> {
    ghost stops = { λ g. 0 };

    ghost passes = { λ old point pace new. pace ≡ Pace.Go };

    fn pass_point(&mut self, point: Point) -> Pace {
        if point == Point::AfterPrepare(0) {
            self.signals.is_held.store(true, Ordering::SeqCst);
            self.is_answered = is_set(&self.signals.is_answered);
        }
        Pace::Go
    }
}

/// Gives two orders of two partitions their amounts in a transaction that is held. Whether it was committed, and the reader was
/// answered meanwhile.
fn write_held<R: Wait>(
    rt: &R,
    alloc: Global,
    shop: &Cluster<Shop>,
    pass: Pass<TableWorld<Shop>>,
    signals: &Signals,
) -> bool
    requires rests { IsAtRest shop.now pass }
{
    let mut pass = pass;
    let caller = Caller::new(shop, rt, alloc);
    let mut gate = HoldingGate {
        signals,
        is_answered: false,
    };
    let actions = [put(1, 10), put(2, 20)];
    let end = transact_write(&caller, &mut pass, None, &actions, &mut gate);
    matches!(end, TransactEnd::Committed) && gate.is_answered
}

/// The amount of a third order, which is in a partition of the two, as it is read once the transaction is held.
fn read_meanwhile<R: Wait>(
    rt: &R,
    alloc: Global,
    shop: &Cluster<Shop>,
    pass: Pass<TableWorld<Shop>>,
    signals: &Signals,
) -> Option<u64>
    requires rests { IsAtRest shop.now pass }
{
    let mut pass = pass;
    let caller = Caller::new(shop, rt, alloc);
    if !is_set(&signals.is_held) {
        return None;
    }
    let found = amount(&caller, &mut pass, 3);
    signals.is_answered.store(true, Ordering::SeqCst);
    found
}

/// Both at once.
fn write_and_read<R: Wait + Threads + Sync>(
    rt: &R,
    alloc: Global,
    shop: &Cluster<Shop>,
    writer: Pass<TableWorld<Shop>>,
    reader: Pass<TableWorld<Shop>>,
) -> (bool, Option<u64>)
    requires rest { IsAtRest shop.now writer × IsAtRest shop.now reader }
{
    let signals = Signals {
        is_held: AtomicBool::new(false),
        is_answered: AtomicBool::new(false),
    };
    let lent = &signals;
    join(
        rt,
        move || -> bool
            requires { IsAtRest shop.now writer }
        { write_held(rt, alloc, shop, writer, lent) },
        move || -> Option<u64>
            requires { IsAtRest shop.now reader }
        { read_meanwhile(rt, alloc, shop, reader, lent) },
    )
}

/// Makes the table of orders, and the third order with its amount.
fn fill<R: Wait>(caller: &Caller<'_, Shop, R>, pass: &mut Pass<TableWorld<Shop>>) -> bool
    requires rests { IsAtRest caller.now pass.old }
    ensures rests { IsAtRest caller.now pass.new }
{
    if !has_orders(caller, pass) {
        return false;
    }
    let actions = [put(3, 30)];
    let end = transact_write(caller, pass, None, &actions, &mut GoGate);
    matches!(end, TransactEnd::Committed)
}

#[test]
fn gate_between_prepares(rt: HostRuntime) -> Result<(), Fail> {
    let alloc = rt.alloc();
    let (shop, mut passes) = Cluster::<Shop>::make(alloc, 2, 3)?;
    let mut last = passes.pop().ok_or("a pass")?;
    let reader = passes.pop().ok_or("a pass")?;
    let writer = passes.pop().ok_or("a pass")?;
    let caller = Caller::new(&shop, &rt, alloc);
    assert!(rt; fill(&caller, &mut last));
    assert!(rt; write_and_read(&rt, alloc, &shop, writer, reader) == (true, Some(30)));
    assert!(rt; amount(&caller, &mut last, 1) == Some(10));
    assert!(rt; amount(&caller, &mut last, 2) == Some(20));
    Ok(())
}
