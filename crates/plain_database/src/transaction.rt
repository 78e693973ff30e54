//! Many items read or written at one point.

ghost use Rattle.std.specs.Prelude.{◌≡◌, IfOk, OnErr};
ghost use Rattle.table_model.specs.Transactions.{transact_get, transact_write};
ghost use Rattle.plain_database.specs.Left.{IsLeftOut};

use crate::database::SlowDb;
use std::alloc::{AllocError as NoMemory, Global};
use table_model::Reply;
use table_request::{TransactGet, TransactWrite};

impl SlowDb {
    /// Reads items of several tables at one point (API Reference: TransactGetItems).
    pub(crate) fn transact_get(
        &self,
        alloc: Global,
        request: TransactGet,
    ) -> Result<Reply, NoMemory>
        ensures { IfOk result (λ reply. (self.now, reply) ≡ transact_get self.now request) }
    {
        let reply = transact_reads::transact_get(&self.tables, alloc, request)?;
        Ok(reply)
    }

    /// Changes items of several tables together at a moment, all or none (API Reference: TransactWriteItems). Where memory
    /// is refused nothing changes, but that tokens whose life is over may be forgotten.
    pub(crate) fn transact_write(
        &mut self,
        alloc: Global,
        request: TransactWrite,
        moment: u64,
    ) -> Result<Reply, NoMemory>
        ensures ok { IfOk result (λ reply. (self.new, reply) ≡ transact_write self.old request moment) }
        ensures err { OnErr result (IsLeftOut self.old moment self.new) }
    {
        let reply = transact_writes::transact_write(
            &mut self.tables,
            &mut self.tokens,
            alloc,
            request,
            moment,
        )?;
        Ok(reply)
    }
}
