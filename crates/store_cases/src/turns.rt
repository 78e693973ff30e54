ghost use Rattle.std.specs.Prelude.{◌≡◌, ◌+◌, ◌<◌, ◌≤◌, ◌%◌, ◌^◌, ℕ, true, false, [], ◌∷◌, Some, None, IfSome, sum_by, length, slice_get};
ghost use Rattle.turnstile.specs.Passes.{HoldsAll};
ghost use Rattle.turnstile.specs.Histories.{at_cell};
ghost use Rattle.turnstile.specs.Kept.{ticket};
ghost use Rattle.store_cases.specs.declared.turns.Added.{Added};

use base_types::Seq;
use std::alloc::Global;
use std::hint;
use std::marker::Brand;
use std::sync::Wait;
use std::sync::atomic::{AtomicBool, Ordering};
use std::test::*;
use std::thread::{Threads, join};
use turnstile::{AllTurns, EntryOf, Pass, Spent, Turn, TurnEnd, Turnstile, World};

// Counters, and the amounts that were added to them.
struct Counters;

#[derive(Drop)]
struct Added {
    pass: u64,
    cell: Option<u64>,
    moment: u64,
    amount: u64,
}

impl World for Counters {
    ghost use Rattle.std.specs.Prelude.{◌≡◌, ◌%◌, ◌^◌, sum_by};

    type Cell = u64;

    type Entry = Added;

    ghost by = { λ e. e.pass };

    ghost moment = { λ e. e.moment };

    ghost cell = { λ e. e.cell };

    ghost stands = { λ n c x log. x ≡ sum_by (λ e. e.amount) log % 2 ^ 64 };

    ghost legal = { λ n log. Unit {0} };

    ghost may = { λ n log e. Unit {0} };

    ghost answers = { λ n log e. Unit {0} };

    ghost starts = { λ n. tt };

    ghost may_still = { λ n seen log e a b c. tt };

    ghost goes_on = { λ n log seen e a b c d f h. tt };
}

impl EntryOf<Counters, Added> for Brand {
    ghost use Rattle.std.specs.Prelude.{None};

    ghost entry = { record { pass = 0; cell = None; moment = 0; amount = 0 } };
}

fn commit<E: EntryOf<Counters, Added>>(
    turnstile: &Turnstile<Counters>,
    pass: &mut Pass<Counters>,
    turn: &mut Turn<Counters>,
    amount: &u64,
)
    requires of { pass.old.turnstile ≡ turnstile.now.id }
    requires turn { pass.old.turns ≡ ticket turn.old.cell turn.old.number ∷ [] }
    requires once { turn.old.counted ≡ false }
    requires entry { let e : Added = record { pass = pass.old.number; cell = Some turn.old.cell; moment = pass.old.moment; amount = amount.now } in E.entry ≡ e }
    requires stands { turn.old.value ≡ (sum_by (λ (e : Added). e.amount) (at_cell (λ (e : Added). e.cell) turn.old.cell pass.old.front) + amount.now) % 2 ^ 64 }
    ensures pass { pass.new ≡ record pass.old { front = pass.new.front } }
    ensures turn { turn.new ≡ record turn.old { counted = true } }
    ensures stands { turn.new.value ≡ sum_by (λ (e : Added). e.amount) (at_cell (λ (e : Added). e.cell) turn.old.cell pass.new.front) % 2 ^ 64 }
{
    turnstile.commit_entry::<E>(pass, turn);
}

fn add<R: Wait>(
    turnstile: &Turnstile<Counters>,
    pass: &mut Pass<Counters>,
    rt: &R,
    cell: u32,
    amount: u64,
) -> Result<(), Spent>
    requires of { pass.old.turnstile ≡ turnstile.now.id }
    requires free { pass.old.turns ≡ [] }
    requires cell { cell < turnstile.now.id.slots }
    ensures { (pass.new.turnstile ≡ pass.old.turnstile) × (pass.new.number ≡ pass.old.number) × (pass.new.turns ≡ []) }
{
    let mut turn = turnstile.enter(pass, rt, cell)?;
    let value = turn.cell();
    *value = value.wrapping_add(amount);
    commit::<Brand>(turnstile, pass, &mut turn, &amount);
    turnstile.leave(pass, rt, turn);
    Ok(())
}

// Counts an entry of all cells that adds nothing.
fn commit_all<E: EntryOf<Counters, Added>>(
    turnstile: &Turnstile<Counters>,
    pass: &mut Pass<Counters>,
    turns: &mut AllTurns<Counters>,
)
    requires of { pass.old.turnstile ≡ turnstile.now.id }
    requires turns { HoldsAll pass.old turns.old.numbers.items }
    requires once { turns.old.counted ≡ false }
    requires count { length turns.old.values.items ≡ turnstile.now.id.slots }
    requires entry { let e : Added = record { pass = pass.old.number; cell = None; moment = pass.old.moment; amount = 0 } in E.entry ≡ e }
    requires stands { (c : ℕ) (x : ℕ) → slice_get turns.old.values.items c ≡ Some x → x ≡ sum_by (λ (e : Added). e.amount) (at_cell (λ (e : Added). e.cell) c pass.old.front) % 2 ^ 64 }
    ensures pass { pass.new ≡ record pass.old { front = pass.new.front } }
    ensures turns { turns.new ≡ record turns.old { counted = true } }
    ensures stands { (c : ℕ) (x : ℕ) → slice_get turns.new.values.items c ≡ Some x → x ≡ sum_by (λ (e : Added). e.amount) (at_cell (λ (e : Added). e.cell) c pass.new.front) % 2 ^ 64 }
{
    turnstile.commit_all::<E>(pass, turns);
}

// One entry of all cells. What the first three are.
fn touch_all<R: Wait>(
    turnstile: &Turnstile<Counters>,
    pass: &mut Pass<Counters>,
    rt: &R,
    alloc: Global,
) -> Result<(u64, u64, u64), TurnEnd>
    requires of { pass.old.turnstile ≡ turnstile.now.id }
    requires free { pass.old.turns ≡ [] }
    requires cells { 3 ≤ turnstile.now.id.slots }
    ensures { (pass.new.turnstile ≡ pass.old.turnstile) × (pass.new.number ≡ pass.old.number) × (pass.new.turns ≡ []) }
{
    let mut turns = turnstile.enter_all(alloc, pass, rt)?;
    let first = *turns.cell(0);
    let second = *turns.cell(1);
    let third = *turns.cell(2);
    commit_all::<Brand>(turnstile, pass, &mut turns);
    turnstile.leave_all(pass, rt, turns);
    Ok((first, second, third))
}

// Adds 1 three hundred times, with an entry of all cells now and then.
fn mingle<R: Wait>(turnstile: &Turnstile<Counters>, pass: Pass<Counters>, rt: &R, alloc: Global)
    requires of { pass.turnstile ≡ turnstile.now.id }
    requires free { pass.turns ≡ [] }
    requires cells { 3 ≤ turnstile.now.id.slots }
{
    let mut pass = pass;
    for i in 0..300u32 {
        if i % 50 == 0 {
            let _ = touch_all(turnstile, &mut pass, rt, alloc);
        }
        let _ = add(turnstile, &mut pass, rt, i % 3, 1);
    }
}

fn mingle_two<R: Wait + Threads + Sync>(
    rt: &R,
    turnstile: &Turnstile<Counters>,
    one: Pass<Counters>,
    two: Pass<Counters>,
    alloc: Global,
)
    requires of { (one.turnstile ≡ turnstile.now.id) × (two.turnstile ≡ turnstile.now.id) }
    requires free { (one.turns ≡ []) × (two.turns ≡ []) }
    requires cells { 3 ≤ turnstile.now.id.slots }
{
    join(
        rt,
        move ||
            requires { (one.turnstile ≡ turnstile.now.id) × (one.turns ≡ []) × (3 ≤ turnstile.now.id.slots) }
        { mingle(turnstile, one, rt, alloc) },
        move ||
            requires { (two.turnstile ≡ turnstile.now.id) × (two.turns ≡ []) × (3 ≤ turnstile.now.id.slots) }
        { mingle(turnstile, two, rt, alloc) },
    );
}

#[test]
fn four_threads(rt: HostRuntime) -> Result<(), Fail> {
    let alloc = rt.alloc();
    let cells = vec![in alloc; 0, 0, 0]?;
    let (turnstile, passes) = Turnstile::<Counters>::make(alloc, Seq::from(cells), 5)?;
    let mut passes: Vec<Pass<Counters>> = passes.into();
    let mut last = passes.pop().ok_or("the last pass")?;
    let four = passes.pop().ok_or("the fourth pass")?;
    let three = passes.pop().ok_or("the third pass")?;
    let two = passes.pop().ok_or("the second pass")?;
    let one = passes.pop().ok_or("the first pass")?;
    let shared = &turnstile;
    let handle = &rt;
    join(
        &rt,
        move ||
            requires { (one.turnstile ≡ shared.now.id) × (two.turnstile ≡ shared.now.id) × (one.turns ≡ []) × (two.turns ≡ []) × (3 ≤ shared.now.id.slots) }
        { mingle_two(handle, shared, one, two, alloc) },
        move ||
            requires { (three.turnstile ≡ shared.now.id) × (four.turnstile ≡ shared.now.id) × (three.turns ≡ []) × (four.turns ≡ []) × (3 ≤ shared.now.id.slots) }
        { mingle_two(handle, shared, three, four, alloc) },
    );
    assert!(rt; touch_all(&turnstile, &mut last, &rt, alloc) == Ok((400, 400, 400)));
    Ok(())
}

// How many looks at a flag are waited for.
const ROUNDS: u32 = 100_000_000;

// Long enough for who waits meanwhile to go to sleep.
const LONG: u32 = 1_000_000;

// What the holder of a turn and a visitor tell each other.
#[derive(Drop)]
struct Flags {
    held: AtomicBool,
    done: AtomicBool,
}

fn is_raised(flag: &AtomicBool, rounds: u32) -> bool {
    for _ in 0..rounds {
        if flag.load(Ordering::SeqCst) {
            return true;
        }
        hint::spin_loop();
    }
    false
}

// Holds the turn of the cell 0 until the visitor is done. Whether it was within the rounds.
fn hold<R: Wait>(
    turnstile: &Turnstile<Counters>,
    pass: Pass<Counters>,
    rt: &R,
    flags: &Flags,
    rounds: u32,
) -> bool
    requires of { pass.turnstile ≡ turnstile.now.id }
    requires free { pass.turns ≡ [] }
    requires cells { 3 ≤ turnstile.now.id.slots }
{
    let mut pass = pass;
    let Ok(turn) = turnstile.enter(&mut pass, rt, 0) else {
        return false;
    };
    flags.held.store(true, Ordering::SeqCst);
    let seen = is_raised(&flags.done, rounds);
    turnstile.leave(&mut pass, rt, turn);
    seen
}

// Adds 1 to the cell, or counts an entry of all cells, once the turn of the cell 0 is held.
fn visit<R: Wait>(
    turnstile: &Turnstile<Counters>,
    pass: Pass<Counters>,
    rt: &R,
    flags: &Flags,
    alloc: Global,
    cell: Option<u32>,
)
    requires of { pass.turnstile ≡ turnstile.now.id }
    requires free { pass.turns ≡ [] }
    requires cells { 3 ≤ turnstile.now.id.slots }
    requires cell { IfSome cell (λ c. c < 3) }
{
    let mut pass = pass;
    if !is_raised(&flags.held, ROUNDS) {
        return;
    }
    let has_come = match cell {
        Some(cell) => add(turnstile, &mut pass, rt, cell, 1).is_ok(),
        None => touch_all(turnstile, &mut pass, rt, alloc).is_ok(),
    };
    flags.done.store(has_come, Ordering::SeqCst);
}

// Whether the visitor was done within the rounds, and whether it was done in the end.
fn visited<R: Wait + Threads + Sync>(
    rt: &R,
    turnstile: &Turnstile<Counters>,
    one: Pass<Counters>,
    two: Pass<Counters>,
    alloc: Global,
    cell: Option<u32>,
    rounds: u32,
) -> (bool, bool)
    requires of { (one.turnstile ≡ turnstile.now.id) × (two.turnstile ≡ turnstile.now.id) }
    requires free { (one.turns ≡ []) × (two.turns ≡ []) }
    requires cells { 3 ≤ turnstile.now.id.slots }
    requires cell { IfSome cell (λ c. c < 3) }
{
    let flags = Flags {
        held: AtomicBool::new(false),
        done: AtomicBool::new(false),
    };
    let shared = &flags;
    let (seen, ()) = join(
        rt,
        move ||
            requires { (one.turnstile ≡ turnstile.now.id) × (one.turns ≡ []) × (3 ≤ turnstile.now.id.slots) }
        { hold(turnstile, one, rt, shared, rounds) },
        move ||
            requires { (two.turnstile ≡ turnstile.now.id) × (two.turns ≡ []) × (3 ≤ turnstile.now.id.slots) × IfSome cell (λ c. c < 3) }
        { visit(turnstile, two, rt, shared, alloc, cell) },
    );
    (seen, shared.done.load(Ordering::SeqCst))
}

// The visit of a cell, or of all of them, while the turn of the cell 0 is held.
fn visited_of_three<R: Wait + Threads + Sync>(
    rt: &R,
    alloc: Global,
    cell: Option<u32>,
    rounds: u32,
) -> Result<(bool, bool), Fail>
    requires { IfSome cell (λ c. c < 3) }
{
    let cells = vec![in alloc; 0, 0, 0]?;
    let (turnstile, passes) = Turnstile::<Counters>::make(alloc, Seq::from(cells), 2)?;
    let mut passes: Vec<Pass<Counters>> = passes.into();
    let two = passes.pop().ok_or("the second pass")?;
    let one = passes.pop().ok_or("the first pass")?;
    Ok(visited(rt, &turnstile, one, two, alloc, cell, rounds))
}

#[test]
fn cells_apart(rt: HostRuntime) -> Result<(), Fail> {
    let visited = visited_of_three(&rt, rt.alloc(), Some(1), ROUNDS)?;
    assert!(rt; visited == (true, true));
    Ok(())
}

// The visitor comes in only when the turn is left. It waits outside the queue, where it would in the end look again unwoken.
#[test]
fn turn_waited_for(rt: HostRuntime) -> Result<(), Fail> {
    let visited = visited_of_three(&rt, rt.alloc(), Some(0), LONG)?;
    assert!(rt; visited == (false, true));
    Ok(())
}

// So does one that waits with a ticket, which sleeps until it is woken: without that this would not end.
#[test]
fn turns_waited_for(rt: HostRuntime) -> Result<(), Fail> {
    let visited = visited_of_three(&rt, rt.alloc(), None, LONG)?;
    assert!(rt; visited == (false, true));
    Ok(())
}
