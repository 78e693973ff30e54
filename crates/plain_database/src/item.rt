//! Items of a table read and written.

ghost use Rattle.std.specs.Prelude.{◌≡◌, IfOk, OnErr};
ghost use Rattle.table_model.specs.Writes.{put_item, update_item, delete_item};
ghost use Rattle.table_model.specs.Reads.{get_item};

use crate::database::SlowDb;
use std::alloc::{AllocError as NoMemory, Global};
use table_model::{Refusal, Reply};
use table_request::{DeleteItem, GetItem, PutItem, UpdateItem};

impl SlowDb {
    /// Makes an item, in place of one with its key (API Reference: PutItem). Where memory is refused nothing changes.
    pub(crate) fn put_item(&mut self, alloc: Global, request: PutItem) -> Result<Reply, NoMemory>
        ensures ok { IfOk result (λ reply. (self.new, reply) ≡ put_item self.old request) }
        ensures err { OnErr result (self.new ≡ self.old) }
    {
        let Some(table) = self.tables.get_mut(&request.table) else {
            return Ok(Reply::Refused(Refusal::NoTable(request.table)));
        };
        let reply = table_items::put_item(&mut table.rows, alloc, request)?;
        Ok(reply)
    }

    /// Changes attributes of an item, or makes it (API Reference: UpdateItem). Where memory is refused nothing changes.
    pub(crate) fn update_item(
        &mut self,
        alloc: Global,
        request: UpdateItem,
    ) -> Result<Reply, NoMemory>
        ensures ok { IfOk result (λ reply. (self.new, reply) ≡ update_item self.old request) }
        ensures err { OnErr result (self.new ≡ self.old) }
    {
        let Some(table) = self.tables.get_mut(&request.table) else {
            return Ok(Reply::Refused(Refusal::NoTable(request.table)));
        };
        let reply = table_items::update_item(&mut table.rows, alloc, request)?;
        Ok(reply)
    }

    /// Drops an item (API Reference: DeleteItem). Where memory is refused nothing changes.
    pub(crate) fn delete_item(
        &mut self,
        alloc: Global,
        request: DeleteItem,
    ) -> Result<Reply, NoMemory>
        ensures ok { IfOk result (λ reply. (self.new, reply) ≡ delete_item self.old request) }
        ensures err { OnErr result (self.new ≡ self.old) }
    {
        let Some(table) = self.tables.get_mut(&request.table) else {
            return Ok(Reply::Refused(Refusal::NoTable(request.table)));
        };
        let reply = table_items::delete_item(&mut table.rows, alloc, request)?;
        Ok(reply)
    }

    /// Reads an item (API Reference: GetItem).
    pub(crate) fn get_item(&self, alloc: Global, request: GetItem) -> Result<Reply, NoMemory>
        ensures { IfOk result (λ reply. (self.now, reply) ≡ get_item self.now request) }
    {
        let Some(table) = self.tables.get(&request.table) else {
            return Ok(Reply::Refused(Refusal::NoTable(request.table)));
        };
        let reply = table_items::get_item(&table.rows, alloc, &request)?;
        Ok(reply)
    }
}
