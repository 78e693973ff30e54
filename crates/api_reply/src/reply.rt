//! The status and the body of every reply.

ghost use Rattle.std.specs.Prelude.{◌≡◌, ◌++◌, [], IfOk, None, OnOk, codes, option_map, string_bytes};
ghost use Rattle.json.specs.Print.{print};
ghost use Rattle.json.specs.Tree.{json_tokens};
ghost use Rattle.serde_json.specs.Data.{no_members, object};
ghost use Rattle.serde_json.specs.Written.{compact_text};
ghost use Rattle.attr_json.specs.Text.{tokens_of};
ghost use Rattle.api_reply.specs.Batches.{item};
ghost use Rattle.api_reply.specs.Bodies.{batch_read, batch_written, body_of, budget_body, consumption, data_of, edge_body};
ghost use Rattle.api_reply.specs.Bodies.{memory_body, page as page_data, reply_status, shown, told, transact_read};
ghost use Rattle.api_reply.specs.Capacity.{beside, capacities, capacity};
ghost use Rattle.api_reply.specs.Json.{Adds, list_of, optional};

use crate::consumed::write_consumed;
use crate::edge::{edge_kind, edge_message};
use crate::error::write_error;
use crate::message::kind_of;
use crate::time_to_live::{Description, Specification};
use crate::to_json::{
    ToJson, write_list_member, write_named, write_object_member, write_optional, write_whole,
};
use attr_value::SharedItem;
use base_types::Seq;
use json::Writer;
use request_parts::Refusal as EdgeRefusal;
use std::alloc::{AllocError as NoMemory, Global};
use table_model::{FoundItems, Page, Reply, TableNames};
use table_request::{Consumed, TableKeys, TableWrites};

/// The status of a reply: 200, or that of its error.
pub fn status(reply: &Reply) -> u16
    ensures { result ≡ reply_status reply.now }
{
    match reply {
        Reply::Refused(refusal) => kind_of(refusal).status(),
        _ => 200,
    }
}

/// The body of a reply: compact JSON, the members of each object in the order of their names.
pub fn body(alloc: Global, reply: &Reply) -> Result<String, NoMemory>
    ensures text { IfOk result (λ text. string_bytes text ≡ body_of reply.now) }
    // A reply that tells nothing of capacity is the text of what was done.
    ensures nothing_consumed { IfOk result
        (λ text. consumption reply.now ≡ None → string_bytes text ≡ compact_text (data_of reply.now)) }
{
    let mut writer = Writer::new(Vec::new(alloc));
    write_reply(alloc, &mut writer, reply)?;
    printed(writer)
}

/// The body of the refusal of a message that is no request. Its status is 400.
pub fn refusal_body(alloc: Global, refusal: &EdgeRefusal) -> Result<String, NoMemory>
    ensures { IfOk result (λ text. string_bytes text ≡ edge_body refusal.now) }
{
    let message = edge_message(alloc, refusal)?;
    let mut writer = Writer::new(Vec::new(alloc));
    write_error(&mut writer, edge_kind(refusal), message.as_str())?;
    printed(writer)
}

/// The body for want of memory, which takes none. Its status is 500.
pub fn memory_error_body() -> &'static str
    ensures { result.now ≡ memory_body }
{
    r#"{"__type":"com.amazonaws.dynamodb.v20120810#InternalServerError","message":"Internal server error"}"#
}

/// The body for a spent budget, which takes no memory. Its status is 500.
pub fn budget_error_body() -> &'static str
    ensures { result.now ≡ budget_body }
{
    r#"{"__type":"com.amazonaws.dynamodb.v20120810#InternalServerError","message":"request budget spent"}"#
}

/// The text that was written.
fn printed(writer: Writer) -> Result<String, NoMemory>
    requires { writer.before ≡ [] }
    ensures { IfOk result (λ text. string_bytes text ≡ print writer.tokens) }
{
    match String::from_utf8(writer.into_inner()) {
        Ok(text) => Ok(text),
        Err(_) => unreachable!(),
    }
}

/// Writes a reply.
fn write_reply(alloc: Global, writer: &mut Writer, reply: &Reply) -> Result<(), NoMemory>
    ensures tokens { OnOk result (writer.new.tokens ≡ writer.old.tokens ++ json_tokens (told reply.now)) }
    ensures before { writer.new.before ≡ writer.old.before }
{
    match reply {
        Reply::Described(schema) => write_named(alloc, writer, "TableDescription", schema),
        Reply::Table(schema) => write_named(alloc, writer, "Table", schema),
        Reply::Tables(names) => names.write(alloc, writer),
        Reply::TimeToLiveSet { name, enabled } => {
            let stated = Specification {
                name,
                enabled: *enabled,
            };
            write_named(alloc, writer, "TimeToLiveSpecification", &stated)
        }
        Reply::TimeToLive(name) => {
            let described = Description { name };
            write_named(alloc, writer, "TimeToLiveDescription", &described)
        }
        Reply::Written { shown, consumed } => write_written(alloc, writer, shown, consumed),
        Reply::Read { shown, consumed } => write_read(alloc, writer, shown, consumed),
        Reply::BatchRead {
            found,
            unread,
            consumed,
        } => write_batch_read(alloc, writer, found, unread, consumed),
        Reply::BatchWritten {
            unwritten,
            consumed,
        } => write_batch_written(alloc, writer, unwritten, consumed),
        Reply::Page { page, consumed } => write_page(alloc, writer, page, consumed),
        Reply::TransactWritten { consumed } => write_transact_written(alloc, writer, consumed),
        Reply::TransactRead { shown, consumed } => {
            write_transact_read(alloc, writer, shown, consumed)
        }
        Reply::Refused(refusal) => refusal.write(alloc, writer),
    }
}

/// Writes what a single write is answered.
fn write_written(
    alloc: Global,
    writer: &mut Writer,
    attributes: &Option<SharedItem>,
    consumed: &Option<Consumed>,
) -> Result<(), NoMemory>
    ensures tokens { OnOk result (writer.new.tokens
        ≡ writer.old.tokens ++ beside (option_map capacity consumed.now) (shown (codes "Attributes") attributes.now)) }
    ensures before { writer.new.before ≡ writer.old.before }
{
    writer.begin_object()?;
    write_optional(alloc, writer, "Attributes", attributes)?;
    write_consumed(alloc, writer, consumed)?;
    writer.end_object()
}

/// Writes what a GetItem is answered.
fn write_read(
    alloc: Global,
    writer: &mut Writer,
    item: &Option<SharedItem>,
    consumed: &Option<Consumed>,
) -> Result<(), NoMemory>
    ensures tokens { OnOk result (writer.new.tokens
        ≡ writer.old.tokens ++ beside (option_map capacity consumed.now) (shown (codes "Item") item.now)) }
    ensures before { writer.new.before ≡ writer.old.before }
{
    writer.begin_object()?;
    write_consumed(alloc, writer, consumed)?;
    write_optional(alloc, writer, "Item", item)?;
    writer.end_object()
}

impl ToJson for Option<SharedItem> {
    ghost as_data = { shown (codes "Item") };

    fn write(&self, alloc: Global, writer: &mut Writer) -> Result<(), NoMemory> {
        writer.begin_object()?;
        write_optional(alloc, writer, "Item", self)?;
        writer.end_object()
    }
}

/// Writes what a BatchGetItem is answered.
fn write_batch_read(
    alloc: Global,
    writer: &mut Writer,
    found: &Seq<FoundItems>,
    unread: &Seq<TableKeys>,
    consumed: &Option<Seq<Consumed>>,
) -> Result<(), NoMemory>
    ensures tokens { OnOk result (writer.new.tokens
        ≡ writer.old.tokens ++ beside (option_map capacities consumed.now) (batch_read found.now unread.now)) }
    ensures before { writer.new.before ≡ writer.old.before }
{
    writer.begin_object()?;
    write_consumed(alloc, writer, consumed)?;
    write_object_member(alloc, writer, "Responses", found)?;
    write_object_member(alloc, writer, "UnprocessedKeys", unread)?;
    writer.end_object()
}

/// Writes what a BatchWriteItem is answered.
fn write_batch_written(
    alloc: Global,
    writer: &mut Writer,
    unwritten: &Seq<TableWrites>,
    consumed: &Option<Seq<Consumed>>,
) -> Result<(), NoMemory>
    ensures tokens { OnOk result (writer.new.tokens
        ≡ writer.old.tokens ++ beside (option_map capacities consumed.now) (batch_written unwritten.now)) }
    ensures before { writer.new.before ≡ writer.old.before }
{
    writer.begin_object()?;
    write_consumed(alloc, writer, consumed)?;
    write_object_member(alloc, writer, "UnprocessedItems", unwritten)?;
    writer.end_object()
}

/// Writes what a TransactWriteItems is answered.
fn write_transact_written(
    alloc: Global,
    writer: &mut Writer,
    consumed: &Option<Seq<Consumed>>,
) -> Result<(), NoMemory>
    ensures tokens { OnOk result (writer.new.tokens
        ≡ writer.old.tokens ++ beside (option_map capacities consumed.now) (object no_members)) }
    ensures before { writer.new.before ≡ writer.old.before }
{
    writer.begin_object()?;
    write_consumed(alloc, writer, consumed)?;
    writer.end_object()
}

/// Writes what a TransactGetItems is answered.
fn write_transact_read(
    alloc: Global,
    writer: &mut Writer,
    found: &Seq<Option<SharedItem>>,
    consumed: &Option<Seq<Consumed>>,
) -> Result<(), NoMemory>
    ensures tokens { OnOk result (writer.new.tokens
        ≡ writer.old.tokens ++ beside (option_map capacities consumed.now) (transact_read found.now)) }
    ensures before { writer.new.before ≡ writer.old.before }
{
    writer.begin_object()?;
    write_consumed(alloc, writer, consumed)?;
    write_list_member(alloc, writer, "Responses", found)?;
    writer.end_object()
}

impl ToJson for TableNames {
    ghost use Rattle.api_reply.specs.Bodies.{tables};

    ghost as_data = { tables };

    fn write(&self, alloc: Global, writer: &mut Writer) -> Result<(), NoMemory> {
        writer.begin_object()?;
        write_optional(alloc, writer, "LastEvaluatedTableName", &self.last)?;
        write_list_member(alloc, writer, "TableNames", &self.names)?;
        writer.end_object()
    }
}

/// Writes what a Query or a Scan is answered.
fn write_page(
    alloc: Global,
    writer: &mut Writer,
    page: &Page,
    consumed: &Option<Consumed>,
) -> Result<(), NoMemory>
    ensures tokens { OnOk result (writer.new.tokens ≡ writer.old.tokens ++ beside (option_map capacity consumed.now) (page_data page.now)) }
    ensures before { writer.new.before ≡ writer.old.before }
{
    writer.begin_object()?;
    write_consumed(alloc, writer, consumed)?;
    write_whole(writer, "Count", page.count)?;
    write_items(alloc, writer, &page.items)?;
    write_optional(alloc, writer, "LastEvaluatedKey", &page.last)?;
    write_whole(writer, "ScannedCount", page.scanned)?;
    writer.end_object()
}

/// Writes the rows of a page, unless they were counted alone.
#[tactic(auto, unfolding(crate::specs::Json::Adds))]
fn write_items(
    alloc: Global,
    writer: &mut Writer,
    items: &Option<Seq<SharedItem>>,
) -> Result<(), NoMemory>
    ensures adds { OnOk result (Adds (optional (codes "Items") (option_map (list_of item) items.now)) writer.old writer.new) }
    ensures before { writer.new.before ≡ writer.old.before }
{
    match items {
        Some(items) => write_list_member(alloc, writer, "Items", items),
        None => Ok(()),
    }
}
