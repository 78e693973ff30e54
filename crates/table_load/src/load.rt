//! A load from its beginning to its end.

ghost use Rattle.std.specs.Prelude.{◌≡◌, ◌≢◌, ℕ, ◌≤◌, ◌<◌, All, length, slice_index_or, IfOk, IfErr, None};
ghost use Rattle.std.specs.List.{AllByRecursion, AllZip};
ghost use Rattle.ddb_outside.specs.Causes.{Rose};
ghost use Rattle.turnstile.specs.Histories.{IsBeginning};
ghost use Rattle.cluster.specs.Events.{pass_of};
ghost use Rattle.cluster.specs.Steps.{IsAtRest, partitions_of};
ghost use Rattle.pass_sessions.specs.Meetings.{SeesMore};
ghost use Rattle.table_load.specs.declared.end.LoadEnd.{LoadEnd};
ghost use Rattle.table_load.specs.declared.end.LoadFault.{LoadFault};
ghost use Rattle.table_load.specs.Clients.{IsFaultOf, Meets, SendsAll, WorksRound};
ghost use Rattle.table_load.specs.Loads.{AreClients, Closes, IfDone, IsLoaded, IsRead, Opens, summary_of};

use crate::client::{Client, Shares};
use crate::end::{LoadEnd, LoadFault, Summary};
use crate::figures::Figures;
use crate::gates::PointGate;
use crate::session::Session;
use crate::threads::{Works, work_each};
use base_types::Seq;
use coordinator::Gate;
use ddb_outside::StepClock;
use std::alloc::{AllocError as NoMemory, Global};
use std::sync::Wait;
use std::thread::Threads;
use table_cells::{TableCaller, TableCells, TablePass};

/// When the bank is read, in microseconds.
const READING: u64 = 200_000_000;

/// How many requests make the bank.
const SETUP: u32 = 65;

/// A scan of all accounts, and one of all rows of the index.
const TABLE: &str = "{\"TableName\":\"Bank\"}";

const INDEX: &str = "{\"TableName\":\"Bank\",\"IndexName\":\"by_branch\"}";

/// A client for each pass, numbered in their order, each with a gate like the one that is given.
pub fn make_clients(
    alloc: Global,
    mut passes: Seq<TablePass>,
    gate: &PointGate,
) -> Result<Seq<Client>, NoMemory>
    ensures { IfOk result (λ clients. AreClients passes clients) }
{
    let mut clients = Seq::with_capacity(alloc, passes.len())?;
    while let Some(pass) = passes.pop() {
        let number = passes.len() as u64;
        clients.insert(0, make_client(alloc, pass, number, gate)?)?;
    }
    Ok(clients)
}

/// A client of a number.
fn make_client(
    alloc: Global,
    pass: TablePass,
    number: u64,
    gate: &PointGate,
) -> Result<Client, NoMemory>
    ensures { IfOk result (λ client. (client.session ≡ pass) × (client.number ≡ number)) }
{
    let gate = *gate;
    Ok(Client {
        session: Session::new(alloc, pass),
        number,
        gate,
        fault: None,
    })
}

/// Lets the bank's session meet the clients in their order: in the end it has seen all that they have.
fn meet_each(cells: &TableCells, bank: &mut Session, clients: &mut [Client])
    requires bank { IsAtRest cells.now.cluster bank.old }
    requires clients { AllByRecursion (λ c. IsAtRest cells.now.cluster c.session) clients.old }
    ensures bank { SeesMore pass_of bank.old bank.new }
    ensures clients { AllZip Meets clients.old clients.new }
    ensures seen { AllByRecursion (λ c. IsBeginning c.session.front bank.new.front) clients.new }
    ensures bank_rests { IsAtRest cells.now.cluster bank.new }
    ensures clients_rest { AllByRecursion (λ c. IsAtRest cells.now.cluster c.session) clients.new }
{
    let Some((client, rest)) = clients.split_first_mut() else {
        return;
    };
    bank.meet(cells, &mut client.session);
    meet_each(cells, bank, rest);
}

impl Works<Client> for TableCells {
    ghost use Rattle.cluster.specs.Steps.{partitions_of};
    ghost use Rattle.table_load.specs.Clients.{IsReady, WorksRound};

    type Task = Shares;

    ghost suits = { λ cells shares client. IsReady cells.cluster shares client };

    ghost does = { λ cells shares old new. WorksRound (partitions_of cells.cluster) shares old new };

    fn work<T: Wait>(&self, rt: &T, alloc: Global, shares: Shares, client: &mut Client) {
        let caller = self.caller(rt, alloc);
        client.work(rt, &caller, shares);
    }
}

/// Whether all clients sent their shares.
fn all_went(clients: &[Client]) -> Result<(), LoadFault>
    ensures ok { IfOk result (λ _. AllByRecursion (λ c. c.fault ≡ None) clients.now) }
    ensures err { IfErr result (λ why. IsFaultOf why clients.now) }
{
    let Some((client, rest)) = clients.split_first() else {
        return Ok(());
    };
    match client.fault {
        Some(why) => Err(why),
        None => all_went(rest),
    }
}

/// The first round: all clients send their shares at the same time.
fn first_round<R>(
    rt: &R,
    alloc: Global,
    cells: &TableCells,
    clients: &mut [Client],
    start: u64,
    count: u64,
) -> Result<(), LoadFault>
where
    R: Threads + Wait + Sync,
    requires rest { AllByRecursion (λ c. IsAtRest cells.now.cluster c.session) clients.old }
    requires start { start ≤ 9999999 }
    requires count { count ≤ 100000 }
    requires some { 1 ≤ length clients.old }
    ensures ok { IfOk result (λ _. AllZip (SendsAll (partitions_of cells.now.cluster) start count (length clients.old)) clients.old clients.new) }
    ensures rest { AllByRecursion (λ c. IsAtRest cells.now.cluster c.session) clients.new }
    ensures unstopped { IfErr result (λ why. why ≢ LoadFault.Stopped) }
{
    let shares = Shares {
        start,
        count,
        clients: clients.len() as u64,
    };
    work_each(rt, alloc, cells, shares, clients);
    all_went(clients)
}

/// Feeds the index, and reads all accounts and all rows of the index.
fn read_bank<T: Wait>(
    rt: &T,
    cells: &TableCaller<'_, T>,
    bank: &mut Session,
) -> Result<(Figures, Figures), LoadFault>
    requires rests { IsAtRest cells.now.caller bank.old }
    ensures ok { IfOk result (λ read. IsRead (partitions_of cells.now.caller) bank.old read.0 read.1 bank.new) }
    ensures unstopped { IfErr result (λ why. why ≢ LoadFault.Stopped) }
    ensures rests { IsAtRest cells.now.caller bank.new }
{
    bank.drain(cells)?;
    let mut clock = StepClock::make(READING, 1);
    let table = bank.read_rows(rt, cells, &mut clock, TABLE)?;
    let index = bank.read_rows(rt, cells, &mut clock, INDEX)?;
    Ok((table, index))
}

/// The summary of what was read.
fn summary(transfers: u64, table: Figures, index: Figures) -> Summary
    ensures { result ≡ summary_of transfers table index }
{
    Summary {
        accounts: table.rows,
        transfers,
        sum: table.sum,
        weighted: table.weighted,
        index_rows: index.rows,
        index_weighted: index.weighted,
    }
}

/// Makes the bank, and lets the clients send their shares of the transfers.
fn open<R>(
    rt: &R,
    alloc: Global,
    cells: &TableCells,
    bank: &mut Session,
    clients: &mut [Client],
    start: u64,
    count: u64,
    requests: u32,
) -> Result<(), LoadFault>
where
    R: Threads + Wait + Sync,
    requires requests { requests ≤ 65 }
    requires bank { IsAtRest cells.now.cluster bank.old }
    requires clients { AllByRecursion (λ c. IsAtRest cells.now.cluster c.session) clients.old }
    requires start { start ≤ 9999999 }
    requires count { count ≤ 100000 }
    requires some { 1 ≤ length clients.old }
    ensures ok { IfOk result (λ _. Opens (partitions_of cells.now.cluster) start count requests bank.old clients.old bank.new clients.new) }
    ensures unstopped { IfErr result (λ why. why ≢ LoadFault.Stopped) }
    ensures bank { IsAtRest cells.now.cluster bank.new }
    ensures clients { AllByRecursion (λ c. IsAtRest cells.now.cluster c.session) clients.new }
{
    let caller = cells.caller(rt, alloc);
    bank.set_up(rt, &caller, requests)?;
    meet_each(cells, bank, clients);
    first_round(rt, alloc, cells, clients, start, count)?;
    meet_each(cells, bank, clients);
    Ok(())
}

/// Ends what was left, sends all transfers again, and reads the bank.
fn close<T: Wait, G: Gate>(
    rt: &T,
    cells: &TableCaller<'_, T>,
    bank: &mut Session,
    start: u64,
    count: u64,
    gate: &mut G,
) -> Result<Summary, LoadFault>
    requires rests { IsAtRest cells.now.caller bank.old }
    requires start { start ≤ 9999999 }
    requires count { count ≤ 100000 }
    ensures ok { IfOk result (λ summary. Closes (partitions_of cells.now.caller) start count bank.old summary bank.new) }
    ensures stopped { IfErr result (λ why. why ≡ LoadFault.Stopped → Rose (G.stops gate.old) (G.stops gate.new)) }
    ensures rests { IsAtRest cells.now.caller bank.new }
{
    bank.sweep(cells, gate)?;
    bank.make_all(rt, cells, start, count, gate)?;
    let (table, index) = read_bank(rt, cells, bank)?;
    Ok(summary(count, table, index))
}

/// All steps of a load.
fn load<R, G>(
    rt: &R,
    alloc: Global,
    cells: &TableCells,
    bank: &mut Session,
    clients: &mut [Client],
    start: u64,
    count: u64,
    gate: &mut G,
) -> Result<Summary, LoadFault>
where
    R: Threads + Wait + Sync,
    G: Gate,
    requires bank { IsAtRest cells.now.cluster bank.old }
    requires clients { AllByRecursion (λ c. IsAtRest cells.now.cluster c.session) clients.old }
    requires start { start ≤ 9999999 }
    requires count { count ≤ 100000 }
    requires some { 1 ≤ length clients.old }
    ensures ok { IfOk result (λ summary. IsLoaded (partitions_of cells.now.cluster) start count bank.old clients.old summary bank.new clients.new) }
    ensures stopped { IfErr result (λ why. why ≡ LoadFault.Stopped → Rose (G.stops gate.old) (G.stops gate.new)) }
{
    open(rt, alloc, cells, bank, clients, start, count, SETUP)?;
    let caller = cells.caller(rt, alloc);
    let summary = close(rt, &caller, bank, start, count, gate)?;
    meet_each(cells, bank, clients);
    bank.facts(cells);
    Ok(summary)
}

/// Makes a bank of 64 accounts in empty tables, lets the clients move money between them in `count` transfers, at most 100,000, of a load that
/// starts with a number of at most 9,999,999, and tells what the bank comes to in the end.
///
/// The clients send the transfers at the same time, each its share. What they left in the middle is ended then, and all transfers are sent
/// again, in order, so that each is made that was cancelled, and no other a second time. `Stopped` comes only where the gate stopped the
/// second of these. `Spent` is that the units of a pass are used up. `NoMemory` is for want of memory.
pub fn load_all<R, G>(
    rt: &R,
    alloc: Global,
    cells: &TableCells,
    bank: &mut Session,
    clients: &mut [Client],
    start: u64,
    count: u64,
    gate: &mut G,
) -> LoadEnd
where
    R: Threads + Wait + Sync,
    G: Gate,
    requires bank { IsAtRest cells.now.cluster bank.old }
    requires clients { AllByRecursion (λ c. IsAtRest cells.now.cluster c.session) clients.old }
    requires start { start ≤ 9999999 }
    requires count { count ≤ 100000 }
    requires some { 1 ≤ length clients.old }
    ensures done { IfDone result (λ summary. IsLoaded (partitions_of cells.now.cluster) start count bank.old clients.old summary bank.new clients.new) }
    ensures stopped { result ≡ LoadEnd.Stopped → Rose (G.stops gate.old) (G.stops gate.new) }
{
    match load(rt, alloc, cells, bank, clients, start, count, gate) {
        Ok(summary) => LoadEnd::Done(summary),
        Err(LoadFault::Stopped) => LoadEnd::Stopped,
        Err(LoadFault::Spent) => LoadEnd::Spent,
        Err(LoadFault::NoMemory) => LoadEnd::NoMemory,
    }
}
