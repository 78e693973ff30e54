//! By which attribute the items of a table expire, and the items that do.

ghost use Rattle.std.specs.Prelude.{◌≡◌, [], IfOk, OnOk, OnErr};
ghost use Rattle.table_model.specs.Catalog.{describe_time_to_live, update_time_to_live};
ghost use Rattle.table_model.specs.Expired.{swept};
ghost use Rattle.table_items.specs.Effects.{IsDone};

use crate::database::SlowDb;
use schema_update::{expiring, ttl_fault};
use std::alloc::{AllocError as NoMemory, Global};
use table_model::{Invalid, Refusal, Reply};
use table_request::{DescribeTimeToLive, UpdateTimeToLive};
use table_rows::TableRows;

/// How many microseconds a second has.
const SECOND: u64 = 1_000_000;

impl SlowDb {
    /// Takes all items out that are expired at a moment, in microseconds (Developer Guide: Using time to live). Of a table
    /// in which nothing can be expired no row is looked at.
    ///
    /// Where memory is refused nothing changes.
    pub fn sweep(&mut self, alloc: Global, moment: u64) -> Result<(), NoMemory>
        ensures ok { OnOk result (self.new ≡ swept self.old moment) }
        ensures err { OnErr result (self.new ≡ self.old) }
    {
        numbered_tables::sweep(&mut self.tables, alloc, moment / SECOND)?;
        Ok(())
    }

    /// Lets the items of a table expire by an attribute, or no longer (API Reference: UpdateTimeToLive). Where memory is
    /// refused nothing changes.
    pub(crate) fn update_time_to_live(
        &mut self,
        alloc: Global,
        request: UpdateTimeToLive,
    ) -> Result<Reply, NoMemory>
        ensures ok { IfOk result (λ reply. (self.new, reply) ≡ update_time_to_live self.old request) }
        ensures err { OnErr result (self.new ≡ self.old) }
    {
        let Some(table) = self.tables.get_mut(&request.table) else {
            return Ok(Reply::Refused(Refusal::NoTable(request.table)));
        };
        let reply = set_time_to_live(&mut table.rows, alloc, request)?;
        Ok(reply)
    }

    /// Describes by which attribute the items of a table expire (API Reference: DescribeTimeToLive).
    pub(crate) fn describe_time_to_live(
        &self,
        request: DescribeTimeToLive,
    ) -> Result<Reply, NoMemory>
        ensures { IfOk result (λ reply. (self.now, reply) ≡ describe_time_to_live self.now request) }
    {
        let Some(table) = self.tables.get(&request.table) else {
            return Ok(Reply::Refused(Refusal::NoTable(request.table)));
        };
        let name = match &table.rows.schema().ttl {
            Some(name) => Some(name.try_clone()?),
            None => None,
        };
        Ok(Reply::TimeToLive(name))
    }
}

/// Lets the items of a table in which nothing is prepared expire by an attribute, or no longer. Where memory is refused
/// nothing changes.
fn set_time_to_live(
    rows: &mut TableRows,
    alloc: Global,
    request: UpdateTimeToLive,
) -> Result<Reply, NoMemory>
    requires { rows.old.pending ≡ [] }
    ensures done { IfOk result (IsDone request.table (λ db. update_time_to_live db request) rows.old rows.new) }
    ensures err { OnErr result (rows.new ≡ rows.old) }
{
    let UpdateTimeToLive {
        table: _,
        name,
        enabled,
    } = request;
    if let Some(fault) = ttl_fault(&rows.schema().ttl, &name, enabled) {
        return Ok(Reply::Refused(Refusal::Invalid(Invalid::TimeToLive(fault))));
    }
    let schema = expiring(rows.schema(), &name, enabled)?;
    rows.change_schema(alloc, schema)?;
    Ok(Reply::TimeToLiveSet { name, enabled })
}
