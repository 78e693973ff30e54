//! What is told of the writes of a request.

ghost use Rattle.std.specs.Prelude.{◌≡◌, ◌∷◌, [], ◌++◌, sum_by, if◌then◌else◌, IfOk, OnOk};
ghost use Rattle.capacity.specs.Units.{counted};
ghost use Rattle.table_model.specs.Consumed.{used_by_all, where_asked};
ghost use Rattle.batch_calls.specs.Writes.{halves_used, is_made, told_writes, unmade, unwritten, unwritten_in, used_among};

use attr_value::lent;
use base_types::Seq;
use cell_asks::Wrote;
use std::alloc::{AllocError as NoMemory, Global};
use table_items::halves_written;
use table_model::Reply;
use table_request::{BatchWrite, Consumed, TableWrites, WriteRequest};

/// Whether the write was made.
fn is_made(wrote: &Wrote) -> bool
    ensures { result ≡ is_made wrote.now }
{
    match wrote {
        Wrote::Written { old: _, new: _ } => true,
        Wrote::Held { number: _ } => false,
        Wrote::CondFalse { old: _ } => false,
        Wrote::Invalid(_) => false,
        Wrote::Stale => false,
    }
}

/// The halves of a unit that the write used, none where it was not made.
fn halves_used(wrote: &Wrote) -> u64
    ensures { result ≡ halves_used wrote.now }
{
    match wrote {
        Wrote::Written { old, new } => halves_written(lent(old.as_ref()), lent(new.as_ref())),
        Wrote::Held { number: _ } => 0,
        Wrote::CondFalse { old: _ } => 0,
        Wrote::Invalid(_) => 0,
        Wrote::Stale => 0,
    }
}

/// The halves of a unit that these writes used, each by itself.
fn halves_in(wrotes: &[Wrote]) -> u64
    ensures { result ≡ counted (sum_by halves_used wrotes.now) }
{
    let mut halves = 0u64;
    for wrote in wrotes {
        halves = halves.saturating_add(halves_used(wrote));
    }
    halves
}

/// What the writes of a table used, which were answered so.
fn used_of(asked: &TableWrites, wrotes: &[Wrote]) -> Result<Consumed, NoMemory>
    ensures { IfOk result (λ used. used ≡ used_by_all asked.now.table halves_used wrotes.now) }
{
    let table = asked.table.try_clone()?;
    let halves = halves_in(wrotes);
    Ok(Consumed { table, halves })
}

/// Of each table what its writes used, which were answered so, table after table.
fn used(
    alloc: Global,
    requests: &[TableWrites],
    wrotes: &[Wrote],
) -> Result<Seq<Consumed>, NoMemory>
    ensures { IfOk result (λ used. used ≡ used_among requests.now wrotes.now) }
{
    let mut used = Seq::with_capacity(alloc, requests.len())?;
    let mut start = 0;
    for asked in requests {
        let end = start + asked.writes.len().min(wrotes.len() - start);
        used.push(used_of(asked, &wrotes[start..end])?)?;
        start = end;
    }
    Ok(used)
}

/// The same where it is told. Else nothing is measured.
fn used_if(
    capacity: bool,
    alloc: Global,
    requests: &[TableWrites],
    wrotes: &[Wrote],
) -> Result<Option<Seq<Consumed>>, NoMemory>
    ensures { IfOk result (λ used. used ≡ where_asked capacity (used_among requests.now wrotes.now)) }
{
    if !capacity {
        return Ok(None);
    }
    Ok(Some(used(alloc, requests, wrotes)?))
}

/// Adds a write, unless it was made.
fn push_unmade(
    left: &mut Seq<WriteRequest>,
    wrote: &Wrote,
    write: WriteRequest,
) -> Result<(), NoMemory>
    ensures { OnOk result (left.new ≡ (if is_made wrote.now then left.old else left.old ++ write ∷ [])) }
{
    if is_made(wrote) {
        drop(write);
        return Ok(());
    }
    left.push(write)?;
    Ok(())
}

/// Those of the writes that were not made.
fn unmade(
    alloc: Global,
    writes: Seq<WriteRequest>,
    wrotes: &[Wrote],
) -> Result<Seq<WriteRequest>, NoMemory>
    ensures { IfOk result (λ left. left ≡ unmade wrotes.now writes) }
{
    let mut left = Seq::new(alloc);
    for (wrote, write) in wrotes.iter().zip(Vec::from(writes)) {
        push_unmade(&mut left, wrote, write)?;
    }
    Ok(left)
}

/// Adds those of a table's writes that were not made, if there are some.
fn push_unwritten(
    rest: &mut Seq<TableWrites>,
    alloc: Global,
    asked: TableWrites,
    wrotes: &[Wrote],
) -> Result<(), NoMemory>
    ensures { OnOk result (rest.new ≡ rest.old ++ unwritten_in asked.table (unmade wrotes.now asked.writes)) }
{
    let TableWrites { table, writes } = asked;
    let writes = unmade(alloc, writes, wrotes)?;
    if writes.is_empty() {
        return Ok(());
    }
    rest.push(TableWrites { table, writes })?;
    Ok(())
}

/// The writes that were not made, under the names of their tables. They are moved out of the request.
fn unwritten(
    alloc: Global,
    requests: Seq<TableWrites>,
    wrotes: &[Wrote],
) -> Result<Seq<TableWrites>, NoMemory>
    ensures { IfOk result (λ rest. rest ≡ unwritten requests wrotes.now) }
{
    let mut rest = Seq::new(alloc);
    let mut start = 0;
    for asked in Vec::from(requests) {
        let end = start + asked.writes.len().min(wrotes.len() - start);
        push_unwritten(&mut rest, alloc, asked, &wrotes[start..end])?;
        start = end;
    }
    Ok(rest)
}

/// The reply to a request whose writes were answered so.
pub(crate) fn told_writes(
    alloc: Global,
    request: BatchWrite,
    wrotes: &[Wrote],
) -> Result<Reply, NoMemory>
    ensures { IfOk result (λ reply. reply ≡ told_writes request wrotes.now) }
{
    let BatchWrite {
        tables: requests,
        capacity,
    } = request;
    let consumed = used_if(capacity, alloc, requests.as_slice(), wrotes)?;
    let unwritten = unwritten(alloc, requests, wrotes)?;
    Ok(Reply::BatchWritten {
        unwritten,
        consumed,
    })
}
