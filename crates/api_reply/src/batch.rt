//! What a batch found, and what of it was left undone.

ghost use Rattle.std.specs.Prelude.{◌≡◌, ◌++◌, OnOk, codes, option_map};
ghost use Rattle.serde_json.specs.Data.{member, no_members, object, string};
ghost use Rattle.attr_json.specs.Text.{tokens_of};
ghost use Rattle.api_reply.specs.Batches.{item as shown, names};
ghost use Rattle.api_reply.specs.Json.{Adds, list_of, optional};

use crate::to_json::{
    Entry, ToJson, write_list, write_list_member, write_named, write_object_member, write_optional,
};
use attr_value::Item;
use base_types::{Seq, Text};
use expr_words::NamePair;
use json::Writer;
use std::alloc::{AllocError as NoMemory, Global};
use table_model::FoundItems;
use table_request::{TableKeys, TableWrites, WriteRequest};

impl ToJson for FoundItems {
    ghost use Rattle.api_reply.specs.Batches.{items};

    ghost as_data = { items };

    fn write(&self, alloc: Global, writer: &mut Writer) -> Result<(), NoMemory> {
        write_list(alloc, writer, &self.items)
    }
}

impl Entry for FoundItems {
    ghost key = { λ t. t.table };

    fn key(&self) -> &str {
        self.table.as_str()
    }
}

impl ToJson for NamePair {
    ghost use Rattle.serde_json.specs.Data.{string};

    ghost as_data = { λ pair. string pair.name };

    fn write(&self, _alloc: Global, writer: &mut Writer) -> Result<(), NoMemory> {
        writer.string(self.name.as_str())
    }
}

impl Entry for NamePair {
    ghost key = { λ pair. pair.placeholder };

    fn key(&self) -> &str {
        self.placeholder.as_str()
    }
}

impl ToJson for TableKeys {
    ghost use Rattle.api_reply.specs.Batches.{unread};

    ghost as_data = { unread };

    fn write(&self, alloc: Global, writer: &mut Writer) -> Result<(), NoMemory> {
        writer.begin_object()?;
        write_attributes(alloc, writer, &self.attributes)?;
        write_optional(alloc, writer, "ConsistentRead", &self.consistent)?;
        write_names(alloc, writer, &self.names)?;
        write_list_member(alloc, writer, "Keys", &self.keys)?;
        write_optional(alloc, writer, "ProjectionExpression", &self.expression)?;
        writer.end_object()
    }
}

impl Entry for TableKeys {
    ghost key = { λ t. t.table };

    fn key(&self) -> &str {
        self.table.as_str()
    }
}

/// Writes the names of the attributes that were asked for without an expression, where they are stated.
#[tactic(auto, unfolding(crate::specs::Json::Adds))]
fn write_attributes(
    alloc: Global,
    writer: &mut Writer,
    names: &Option<Seq<Text>>,
) -> Result<(), NoMemory>
    ensures adds { OnOk result (Adds (optional (codes "AttributesToGet") (option_map (list_of string) names.now)) writer.old writer.new) }
    ensures before { writer.new.before ≡ writer.old.before }
{
    match names {
        Some(names) => write_list_member(alloc, writer, "AttributesToGet", names),
        None => Ok(()),
    }
}

/// Writes the names that placeholders stand for, where they are stated.
#[tactic(auto, unfolding(crate::specs::Json::Adds))]
fn write_names(
    alloc: Global,
    writer: &mut Writer,
    pairs: &Option<Seq<NamePair>>,
) -> Result<(), NoMemory>
    ensures adds { OnOk result (Adds (optional (codes "ExpressionAttributeNames") (option_map names pairs.now)) writer.old writer.new) }
    ensures before { writer.new.before ≡ writer.old.before }
{
    match pairs {
        Some(pairs) => write_object_member(alloc, writer, "ExpressionAttributeNames", pairs),
        None => Ok(()),
    }
}

impl ToJson for WriteRequest {
    ghost use Rattle.api_reply.specs.Batches.{unwritten_one};

    ghost as_data = { unwritten_one };

    fn write(&self, alloc: Global, writer: &mut Writer) -> Result<(), NoMemory> {
        match self {
            WriteRequest::Put(item) => write_request(alloc, writer, "PutRequest", "Item", item),
            WriteRequest::Delete(key) => write_request(alloc, writer, "DeleteRequest", "Key", key),
        }
    }
}

/// Writes an object whose one member is an object with the item.
fn write_request(
    alloc: Global,
    writer: &mut Writer,
    outer: &str,
    inner: &str,
    item: &Item,
) -> Result<(), NoMemory>
    ensures tokens { OnOk result (writer.new.tokens
        ≡ writer.old.tokens ++ tokens_of (object (member outer.now (object (member inner.now (shown item.now) no_members)) no_members))) }
    ensures before { writer.new.before ≡ writer.old.before }
{
    writer.begin_object()?;
    write_named_member(alloc, writer, outer, inner, item)?;
    writer.end_object()
}

/// Writes a member that is an object with the item.
#[tactic(auto, using(crate::proofs::Joins::joins), unfolding(crate::specs::Json::Adds))]
fn write_named_member(
    alloc: Global,
    writer: &mut Writer,
    outer: &str,
    inner: &str,
    item: &Item,
) -> Result<(), NoMemory>
    ensures adds { OnOk result
        (Adds (member outer.now (object (member inner.now (shown item.now) no_members))) writer.old writer.new) }
    ensures before { writer.new.before ≡ writer.old.before }
{
    writer.key(outer)?;
    write_named(alloc, writer, inner, item)
}

impl ToJson for TableWrites {
    ghost use Rattle.api_reply.specs.Batches.{unwritten};

    ghost as_data = { unwritten };

    fn write(&self, alloc: Global, writer: &mut Writer) -> Result<(), NoMemory> {
        write_list(alloc, writer, &self.writes)
    }
}

impl Entry for TableWrites {
    ghost key = { λ t. t.table };

    fn key(&self) -> &str {
        self.table.as_str()
    }
}
