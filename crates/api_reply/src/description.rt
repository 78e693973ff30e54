//! How a table is described (DynamoDB API Reference: TableDescription).

ghost use Rattle.std.specs.Prelude.{◌≡◌, [], ◌∷◌, ◌++◌, OnOk, IfOk, codes};
ghost use Rattle.json.specs.Token.{end_array};
ghost use Rattle.json.specs.Tree.{items_tokens};
ghost use Rattle.serde_json.specs.Written.{items_outline};
ghost use Rattle.attr_json.specs.Text.{tokens_of};
ghost use Rattle.api_reply.specs.Descriptions.{arn, billing_mode, indexes, kept_names, key_element, letter_of, projection_type, sort_element};
ghost use Rattle.api_reply.specs.Json.{Adds, optional};

use crate::to_json::{ToJson, write_list_member, write_member, write_text, write_whole};
use base_types::{Seq, Text};
use json::Writer;
use std::alloc::{AllocError as NoMemory, Global};
use table_schema::{Definition, GlobalIndex, KeyKind, KeyNames, LocalIndex, Projection, Schema};

impl ToJson for Definition {
    ghost use Rattle.api_reply.specs.Descriptions.{definition};

    ghost as_data = { definition };

    fn write(&self, alloc: Global, writer: &mut Writer) -> Result<(), NoMemory> {
        writer.begin_object()?;
        write_member(alloc, writer, "AttributeName", &self.name)?;
        write_text(writer, "AttributeType", letter_of(self.kind))?;
        writer.end_object()
    }
}

/// The letter of a key's type.
fn letter_of(kind: KeyKind) -> &'static str
    ensures { result.now ≡ letter_of kind }
{
    match kind {
        KeyKind::S => "S",
        KeyKind::N => "N",
        KeyKind::B => "B",
    }
}

impl ToJson for KeyNames {
    ghost use Rattle.api_reply.specs.Descriptions.{key_schema};

    ghost as_data = { key_schema };

    fn write(&self, alloc: Global, writer: &mut Writer) -> Result<(), NoMemory> {
        writer.begin_array()?;
        write_key_element(alloc, writer, "HASH", &self.partition)?;
        write_sort_element(alloc, writer, &self.sort)?;
        writer.end_array()
    }
}

/// Writes an element of a KeySchema.
fn write_key_element(
    alloc: Global,
    writer: &mut Writer,
    role: &str,
    name: &Text,
) -> Result<(), NoMemory>
    ensures tokens { OnOk result (writer.new.tokens ≡ writer.old.tokens ++ tokens_of (key_element role.now name.now)) }
    ensures before { writer.new.before ≡ writer.old.before }
{
    writer.begin_object()?;
    write_member(alloc, writer, "AttributeName", name)?;
    write_text(writer, "KeyType", role)?;
    writer.end_object()
}

/// Writes the element for a sort key, where there is one. It is the last of its list.
#[tactic(auto, using(crate::proofs::Joins::last_one))]
fn write_sort_element(
    alloc: Global,
    writer: &mut Writer,
    sort: &Option<Text>,
) -> Result<(), NoMemory>
    ensures tokens { OnOk result (writer.new.tokens ++ end_array ∷ []
        ≡ writer.old.tokens ++ items_tokens (items_outline (sort_element sort.now))) }
    ensures before { writer.new.before ≡ writer.old.before }
{
    match sort {
        Some(name) => write_key_element(alloc, writer, "RANGE", name),
        None => Ok(()),
    }
}

impl ToJson for Projection {
    ghost use Rattle.api_reply.specs.Descriptions.{projected};

    ghost as_data = { projected };

    fn write(&self, alloc: Global, writer: &mut Writer) -> Result<(), NoMemory> {
        writer.begin_object()?;
        write_kept_names(alloc, writer, self)?;
        write_text(writer, "ProjectionType", projection_type(self))?;
        writer.end_object()
    }
}

/// Writes the names of the attributes that are kept beside the keys, where they are named.
#[tactic(auto, unfolding(crate::specs::Json::Adds))]
fn write_kept_names(
    alloc: Global,
    writer: &mut Writer,
    projection: &Projection,
) -> Result<(), NoMemory>
    ensures adds { OnOk result (Adds (optional (codes "NonKeyAttributes") (kept_names projection.now)) writer.old writer.new) }
    ensures before { writer.new.before ≡ writer.old.before }
{
    match projection {
        Projection::Include(names) => write_list_member(alloc, writer, "NonKeyAttributes", names),
        Projection::KeysOnly | Projection::All => Ok(()),
    }
}

fn projection_type(projection: &Projection) -> &'static str
    ensures { result.now ≡ projection_type projection.now }
{
    match projection {
        Projection::KeysOnly => "KEYS_ONLY",
        Projection::Include(_) => "INCLUDE",
        Projection::All => "ALL",
    }
}

impl ToJson for LocalIndex {
    ghost use Rattle.api_reply.specs.Descriptions.{local_index};

    ghost as_data = { local_index };

    fn write(&self, alloc: Global, writer: &mut Writer) -> Result<(), NoMemory> {
        writer.begin_object()?;
        write_member(alloc, writer, "IndexName", &self.name)?;
        write_member(alloc, writer, "KeySchema", &self.keys)?;
        write_member(alloc, writer, "Projection", &self.projection)?;
        writer.end_object()
    }
}

impl ToJson for GlobalIndex {
    ghost use Rattle.api_reply.specs.Descriptions.{global_index};

    ghost as_data = { global_index };

    fn write(&self, alloc: Global, writer: &mut Writer) -> Result<(), NoMemory> {
        writer.begin_object()?;
        write_member(alloc, writer, "IndexName", &self.name)?;
        write_text(writer, "IndexStatus", "ACTIVE")?;
        write_member(alloc, writer, "KeySchema", &self.keys)?;
        write_member(alloc, writer, "Projection", &self.projection)?;
        writer.end_object()
    }
}

/// Writes a member that lists indexes, where there are some.
#[tactic(auto, unfolding(crate::specs::Json::Adds))]
fn write_indexes<T: ToJson>(
    alloc: Global,
    writer: &mut Writer,
    name: &str,
    list: &Seq<T>,
) -> Result<(), NoMemory>
    ensures adds { OnOk result (Adds (optional name.now (indexes T.as_data list.now)) writer.old writer.new) }
    ensures before { writer.new.before ≡ writer.old.before }
{
    if list.is_empty() {
        return Ok(());
    }
    write_list_member(alloc, writer, name, list)
}

/// How a table is billed (BillingModeSummary).
#[derive(Clone, Copy)]
struct Billing {
    on_demand: bool,
}

impl ToJson for Billing {
    ghost use Rattle.api_reply.specs.Descriptions.{billing};

    ghost as_data = { λ b. billing b.on_demand };

    fn write(&self, _alloc: Global, writer: &mut Writer) -> Result<(), NoMemory> {
        writer.begin_object()?;
        write_text(writer, "BillingMode", billing_mode(self.on_demand))?;
        writer.end_object()
    }
}

fn billing_mode(on_demand: bool) -> &'static str
    ensures { result.now ≡ billing_mode on_demand }
{
    if on_demand {
        "PAY_PER_REQUEST"
    } else {
        "PROVISIONED"
    }
}

/// What a table may use of a second (ProvisionedThroughput).
#[derive(Clone, Copy)]
struct Throughput {
    read_units: u64,
    write_units: u64,
}

impl ToJson for Throughput {
    ghost use Rattle.api_reply.specs.Descriptions.{throughput};

    ghost as_data = { λ t. throughput t.read_units t.write_units };

    fn write(&self, _alloc: Global, writer: &mut Writer) -> Result<(), NoMemory> {
        writer.begin_object()?;
        write_whole(writer, "NumberOfDecreasesToday", 0)?;
        write_whole(writer, "ReadCapacityUnits", self.read_units)?;
        write_whole(writer, "WriteCapacityUnits", self.write_units)?;
        writer.end_object()
    }
}

/// The name of a table among all resources.
fn arn(alloc: Global, name: &Text) -> Result<Text, NoMemory>
    ensures { IfOk result (λ text. text ≡ arn name.now) }
{
    let arn = format!(in alloc; "arn:aws:dynamodb:ddblocal:000000000000:table/{name}")?;
    Ok(Text::from(arn))
}

impl ToJson for Schema {
    ghost use Rattle.api_reply.specs.Descriptions.{description};

    ghost as_data = { description };

    fn write(&self, alloc: Global, writer: &mut Writer) -> Result<(), NoMemory> {
        let billing = Billing {
            on_demand: self.on_demand,
        };
        let throughput = Throughput {
            read_units: self.read_units,
            write_units: self.write_units,
        };
        let arn = arn(alloc, &self.name)?;
        writer.begin_object()?;
        write_list_member(alloc, writer, "AttributeDefinitions", &self.definitions)?;
        write_member(alloc, writer, "BillingModeSummary", &billing)?;
        write_whole(writer, "CreationDateTime", self.created / 1_000_000)?;
        write_indexes(alloc, writer, "GlobalSecondaryIndexes", &self.globals)?;
        write_member(alloc, writer, "KeySchema", &self.keys)?;
        write_indexes(alloc, writer, "LocalSecondaryIndexes", &self.locals)?;
        write_member(alloc, writer, "ProvisionedThroughput", &throughput)?;
        write_member(alloc, writer, "TableArn", &arn)?;
        write_member(alloc, writer, "TableName", &self.name)?;
        write_text(writer, "TableStatus", "ACTIVE")?;
        writer.end_object()
    }
}
