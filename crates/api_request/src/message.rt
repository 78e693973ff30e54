//! From a message to its request.

ghost use Rattle.std.specs.Prelude.{◌≡◌};
ghost use Rattle.serde_json.specs.View.{view};
ghost use Rattle.request_parts.specs.Ends.{IsToldOf};
ghost use Rattle.request_parts.specs.Asks.{lent};
ghost use Rattle.api_request.specs.Requests.{refusal_of, IsStated, IsOfData, IsOfBody, IsRequest};

use crate::batch::{batch_get, batch_write};
use crate::catalog::{
    delete_table, describe_table, describe_time_to_live, list_tables, update_time_to_live,
};
use crate::change::update_table;
use crate::legacy::{delete_item, get_item, put_item, query, scan, update_item};
use crate::operation::{Operation, form_of, operation_named};
use crate::schema::create_table;
use crate::transaction::{transact_get, transact_write};
use api_form::{Fault, check_body};
use request_parts::{Refusal, RequestEnd};
use serde_json::Value;
use std::alloc::Global;
use table_request::Request;

/// The request that a message states: its target names the operation (the field `X-Amz-Target`), its body is JSON.
///
/// Refusals come in this order. UnknownOperation where the target names none, or is absent. Serialization where the body
/// is no JSON. The first fault of the body against the operation's form, those of kinds as Serialization. Then what only
/// the parts together show: the size of a transaction, expressions in their order, placeholders that none uses, a schema
/// that breaks a rule. NoMemory where memory is refused.
#[tactic(auto, using(crate::proofs::Messages::named_told))]
pub fn read(alloc: Global, target: Option<&[u8]>, body: &[u8]) -> Result<Request, RequestEnd>
    ensures { IsToldOf (IsRequest (lent target.entry) body.now) result }
{
    match operation_named(target) {
        Some(operation) => of_body(alloc, operation, body),
        None => Err(RequestEnd::Fault(Refusal::UnknownOperation)),
    }
}

/// The request of a body.
#[tactic(auto, using(crate::proofs::Messages::body_unread))]
fn of_body(alloc: Global, operation: Operation, body: &[u8]) -> Result<Request, RequestEnd>
    ensures { IsToldOf (IsOfBody operation body.now) result }
{
    match Value::from_slice(alloc, body) {
        Ok(json) => of_json(alloc, operation, &json),
        Err(error) if error.is_memory() => Err(RequestEnd::NoMemory),
        Err(_) => Err(RequestEnd::Fault(Refusal::Serialization)),
    }
}

/// The request of a body that is JSON.
fn of_json(alloc: Global, operation: Operation, json: &Value) -> Result<Request, RequestEnd>
    ensures { IsToldOf (IsOfData operation (view json.now)) result }
{
    match check_body(alloc, form_of(operation), json)? {
        Some(fault) => Err(RequestEnd::Fault(refusal_of(fault))),
        None => stated(alloc, operation, json),
    }
}

/// The refusal of a body with this fault.
fn refusal_of(fault: Fault) -> Refusal
    ensures { result ≡ refusal_of fault }
{
    match fault {
        Fault::Kind => Refusal::Serialization,
        fault => Refusal::Body(fault),
    }
}

/// The request of a body that has no fault of its form.
fn stated(alloc: Global, operation: Operation, json: &Value) -> Result<Request, RequestEnd>
    ensures { IsToldOf (IsStated operation (view json.now)) result }
{
    match operation {
        Operation::PutItem => Ok(Request::PutItem(put_item(alloc, json)?)),
        Operation::GetItem => Ok(Request::GetItem(get_item(alloc, json)?)),
        Operation::UpdateItem => Ok(Request::UpdateItem(update_item(alloc, json)?)),
        Operation::DeleteItem => Ok(Request::DeleteItem(delete_item(alloc, json)?)),
        Operation::Query => Ok(Request::Query(query(alloc, json)?)),
        Operation::Scan => Ok(Request::Scan(scan(alloc, json)?)),
        Operation::BatchGetItem => Ok(Request::BatchGet(batch_get(alloc, json)?)),
        Operation::BatchWriteItem => Ok(Request::BatchWrite(batch_write(alloc, json)?)),
        Operation::TransactWriteItems => Ok(Request::TransactWrite(transact_write(alloc, json)?)),
        Operation::TransactGetItems => Ok(Request::TransactGet(transact_get(alloc, json)?)),
        Operation::CreateTable => Ok(Request::CreateTable(create_table(alloc, json)?)),
        Operation::DeleteTable => Ok(Request::DeleteTable(delete_table(alloc, json)?)),
        Operation::UpdateTable => Ok(Request::UpdateTable(update_table(alloc, json)?)),
        Operation::DescribeTable => Ok(Request::DescribeTable(describe_table(alloc, json)?)),
        Operation::ListTables => Ok(Request::ListTables(list_tables(alloc, json)?)),
        Operation::UpdateTimeToLive => Ok(Request::UpdateTimeToLive(update_time_to_live(
            alloc, json,
        )?)),
        Operation::DescribeTimeToLive => Ok(Request::DescribeTimeToLive(describe_time_to_live(
            alloc, json,
        )?)),
    }
}
