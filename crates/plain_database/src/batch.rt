//! Many items read or written, one after the other.

ghost use Rattle.std.specs.Prelude.{◌≡◌, IfOk, OnErr};
ghost use Rattle.table_model.specs.Batches.{batch_get, batch_write};

use crate::database::SlowDb;
use std::alloc::{AllocError as NoMemory, Global};
use table_model::Reply;
use table_request::{BatchGet, BatchWrite};

impl SlowDb {
    /// Reads items of several tables (API Reference: BatchGetItem).
    pub(crate) fn batch_get(&self, alloc: Global, request: BatchGet) -> Result<Reply, NoMemory>
        ensures { IfOk result (λ reply. (self.now, reply) ≡ batch_get self.now request) }
    {
        let reply = table_batches::batch_get(&self.tables, alloc, request)?;
        Ok(reply)
    }

    /// Makes and drops items of several tables (API Reference: BatchWriteItem). Where memory is refused nothing changes.
    pub(crate) fn batch_write(
        &mut self,
        alloc: Global,
        request: BatchWrite,
    ) -> Result<Reply, NoMemory>
        ensures ok { IfOk result (λ reply. (self.new, reply) ≡ batch_write self.old request) }
        ensures err { OnErr result (self.new ≡ self.old) }
    {
        let reply = table_batches::batch_write(&mut self.tables, alloc, request)?;
        Ok(reply)
    }
}
