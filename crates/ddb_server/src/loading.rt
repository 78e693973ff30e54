//! A load, and what is told of it.

ghost use Rattle.std.specs.Prelude.{◌≡◌, ◌≤◌, IfOk, string_bytes};
ghost use Rattle.ddb_outside.specs.Causes.{Rose};
ghost use Rattle.ddb_server.specs.Loaded.{RunsLoad, TellsSummary, summary_text};

use coordinator::Gate;
use ddb_outside::{Failed, Sink, write_all};
use std::alloc::{AllocError as NoMemory, Global};
use std::fmt;
use std::sync::Wait;
use std::thread::Threads;
use table_cells::TableCells;
use table_load::{LoadEnd, PointGate, Session, Summary, load_all, make_clients};

/// A line that tells how many there are of what it names.
#[derive(Clone, Copy)]
struct Count {
    name: &'static str,
    count: u64,
}

impl Count {
    fn new(name: &'static str, count: u64) -> Count
        ensures { (result.name.now ≡ name.now) × (result.count ≡ count) }
    {
        Count { name, count }
    }
}

impl fmt::Display for Count {
    ghost use Rattle.std.specs.Prelude.{Some};
    ghost use Rattle.ddb_server.specs.Loaded.{count_line};

    ghost output = { λ line. Some (count_line line.name.now line.count) };

    #[tactic(auto, unfolding(crate::specs::Loaded::count_line))]
    fn fmt<W: fmt::Write>(&self, f: &mut fmt::Formatter<W>) -> fmt::Result {
        write!(f, "{} {}\n", self.name, self.count)
    }
}

/// A line that tells a sum.
#[derive(Clone, Copy)]
struct Sum {
    name: &'static str,
    sum: i64,
}

impl Sum {
    fn new(name: &'static str, sum: i64) -> Sum
        ensures { (result.name.now ≡ name.now) × (result.sum ≡ sum) }
    {
        Sum { name, sum }
    }
}

impl fmt::Display for Sum {
    ghost use Rattle.std.specs.Prelude.{Some};
    ghost use Rattle.ddb_server.specs.Loaded.{sum_line};

    ghost output = { λ line. Some (sum_line line.name.now line.sum) };

    #[tactic(auto, unfolding(crate::specs::Loaded::sum_line))]
    fn fmt<W: fmt::Write>(&self, f: &mut fmt::Formatter<W>) -> fmt::Result {
        write!(f, "{} {}\n", self.name, self.sum)
    }
}

/// The six lines of a summary.
fn summary_text(alloc: Global, summary: Summary) -> Result<String, NoMemory>
    ensures { IfOk result (λ text. string_bytes text ≡ summary_text summary) }
{
    let accounts = Count::new("accounts", summary.accounts);
    let transfers = Count::new("transfers", summary.transfers);
    let total = Sum::new("sum", summary.sum);
    let weighted = Sum::new("weighted", summary.weighted);
    let rows = Count::new("index rows", summary.index_rows);
    let weighted_rows = Sum::new("index weighted", summary.index_weighted);
    let text = format!(in alloc; "{accounts}{transfers}{total}{weighted}{rows}{weighted_rows}")?;
    Ok(text)
}

/// Writes a summary, and answers the exit status: 0, or 3 where the sink failed at it, or 7 where memory was refused for it.
fn tell<K: Sink>(alloc: Global, sink: &mut K, summary: Summary) -> u8
    ensures tells { TellsSummary summary (K.written sink.old) (K.written sink.new) result }
    ensures write { result ≡ 3 → Rose (K.faults sink.old) (K.faults sink.new) }
{
    let Ok(text) = summary_text(alloc, summary) else {
        return 7;
    };
    match write_all(sink, text.as_bytes()) {
        Ok(()) => 0,
        Err(Failed) => 3,
    }
}

/// A load by so many clients out of so many partitions, from empty tables on. Its summary is written, and the exit status is that of
/// how it ended: 6 where the units of a pass are used up, 7 where memory was refused, 8 where the gate stopped it.
pub(crate) fn load<R, K>(
    rt: &R,
    sink: &mut K,
    gate: &mut PointGate,
    start: u64,
    clients: u32,
    count: u64,
    partitions: u32,
) -> u8
where
    R: AllocGlobal + Threads + Wait + Sync,
    K: Sink,
    requires start { start ≤ 9999999 }
    requires clients { (1 ≤ clients) × (clients ≤ 16) }
    requires count { count ≤ 100000 }
    requires partitions { (1 ≤ partitions) × (partitions ≤ 64) }
    ensures loads { RunsLoad start clients count partitions (K.written sink.old) (K.written sink.new) result }
    ensures write { result ≡ 3 → Rose (K.faults sink.old) (K.faults sink.new) }
    ensures stopped { result ≡ 8 → Rose (⟦<PointGate as Gate>⟧.stops gate.old) (⟦<PointGate as Gate>⟧.stops gate.new) }
    ensures read { (result ≡ 1) → ⊥ }
    ensures net { (result ≡ 4) → ⊥ }
{
    let alloc = rt.alloc();
    let Ok((cells, mut passes)) = TableCells::make(alloc, partitions, clients + 1) else {
        return 7;
    };
    let Some(pass) = passes.pop() else {
        unreachable!()
    };
    let mut bank = Session::new(alloc, pass);
    let Ok(mut clients) = make_clients(alloc, passes, gate) else {
        return 7;
    };
    let end = load_all(
        rt,
        alloc,
        &cells,
        &mut bank,
        clients.as_mut_slice(),
        start,
        count,
        gate,
    );
    match end {
        LoadEnd::Done(summary) => tell(alloc, sink, summary),
        LoadEnd::Spent => 6,
        LoadEnd::NoMemory => 7,
        LoadEnd::Stopped => 8,
    }
}
