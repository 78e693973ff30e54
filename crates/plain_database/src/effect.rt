//! Whole requests.

ghost use Rattle.std.specs.Prelude.{IfOk, OnErr};
ghost use Rattle.table_model.specs.Effect.{IsEffect};
ghost use Rattle.plain_database.specs.Left.{IsLeftOut};

use crate::database::SlowDb;
use std::alloc::{AllocError as NoMemory, Global};
use table_model::Reply;
use table_request::Request;

/// Applies a request at a moment, in microseconds, and answers its reply.
///
/// Where memory is refused nothing changes, but that a transaction may have forgotten tokens whose life was over.
pub fn effect_slow(
    db: &mut SlowDb,
    alloc: Global,
    request: Request,
    moment: u64,
) -> Result<Reply, NoMemory>
    ensures ok { IfOk result (IsEffect db.old request moment db.new) }
    ensures err { OnErr result (IsLeftOut db.old moment db.new) }
{
    match request {
        Request::CreateTable(request) => db.create_table(alloc, request, moment),
        Request::DeleteTable(request) => db.delete_table(request),
        Request::UpdateTable(request) => db.update_table(alloc, request),
        Request::DescribeTable(request) => db.describe_table(request),
        Request::ListTables(request) => db.list_tables(alloc, &request),
        Request::UpdateTimeToLive(request) => db.update_time_to_live(alloc, request),
        Request::DescribeTimeToLive(request) => db.describe_time_to_live(request),
        Request::PutItem(request) => db.put_item(alloc, request),
        Request::GetItem(request) => db.get_item(alloc, request),
        Request::UpdateItem(request) => db.update_item(alloc, request),
        Request::DeleteItem(request) => db.delete_item(alloc, request),
        Request::BatchGet(request) => db.batch_get(alloc, request),
        Request::BatchWrite(request) => db.batch_write(alloc, request),
        Request::Query(request) => db.query(alloc, &request),
        Request::Scan(request) => db.scan(alloc, &request),
        Request::TransactWrite(request) => db.transact_write(alloc, request, moment),
        Request::TransactGet(request) => db.transact_get(alloc, request),
    }
}
