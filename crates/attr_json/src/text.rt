//! Values and items as compact JSON text, with no tree.

ghost use Rattle.std.specs.Prelude.{◌≡◌, ◌++◌, OnOk};
ghost use Rattle.number38.specs.Printed.{printed};
ghost use Rattle.serde_json.specs.Data.{array, object};
ghost use Rattle.attr_value.specs.Tree.{text_set, number_set, binary_set};
ghost use Rattle.attr_value.specs.View.{tree_of};
ghost use Rattle.attr_json.specs.ReadBack.{ReadsBack, ElementsReadBack, AttributesReadBack};
ghost use Rattle.attr_json.specs.Text.{tokens_of, type_of, content_of};
ghost use Rattle.attr_json.specs.Written.{strings, base64_of, data_of, items_of, members_of};

use crate::plain::{base64_text, number_text};
use attr_value::{Elements, Item, Value};
use base_types::{Bytes, Text};
use json::Writer;
use number38::Number;
use ordered_set::OrderedSet;
use std::alloc::{AllocError as NoMemory, Global};

/// Writes the value's JSON as compact text, token by token.
#[cycle(text)]
fn write_value(alloc: Global, writer: &mut Writer, value: &Value) -> Result<(), NoMemory>
    ensures tokens { OnOk result (writer.new.tokens ≡ writer.old.tokens ++ tokens_of (data_of (tree_of value.now))) }
    ensures before { writer.new.before ≡ writer.old.before }
    ensures read_back { OnOk result (ReadsBack (tree_of value.now)) }
{
    writer.begin_object()?;
    writer.key(type_name(value))?;
    write_content(alloc, writer, value)?;
    writer.end_object()
}

/// Writes the item's JSON as compact text, token by token. [`item_from`](crate::item_from) reads it back as the same item
/// where its attributes have at most 32 levels of lists and maps.
#[cycle(text)]
pub fn write_item(alloc: Global, writer: &mut Writer, item: &Item) -> Result<(), NoMemory>
    ensures tokens { OnOk result (writer.new.tokens ≡ writer.old.tokens ++ tokens_of (object (members_of item.now))) }
    ensures before { writer.new.before ≡ writer.old.before }
    ensures read_back { OnOk result (AttributesReadBack item.now) }
{
    writer.begin_object()?;
    for (name, value) in item.iter() {
        writer.key(name.as_str())?;
        write_value(alloc, writer, value)?;
    }
    writer.end_object()
}

/// Writes what stands under the name of a value's type.
#[cycle(text)]
fn write_content(alloc: Global, writer: &mut Writer, value: &Value) -> Result<(), NoMemory>
    ensures tokens { OnOk result (writer.new.tokens
        ≡ writer.old.tokens ++ tokens_of (content_of (tree_of value.now))) }
    ensures before { writer.new.before ≡ writer.old.before }
    ensures read_back { OnOk result (ReadsBack (tree_of value.now)) }
{
    match value {
        Value::S(text) => writer.string(text.as_str()),
        Value::N(number) => writer.string(number_text(alloc, number)?.as_str()),
        Value::B(bytes) => writer.string(base64_text(alloc, bytes)?.as_str()),
        Value::Bool(flag) => writer.boolean(*flag),
        Value::Null => writer.boolean(true),
        Value::L(list) => write_list(alloc, writer, list),
        Value::M(item) => write_item(alloc, writer, item),
        Value::Ss(texts) => write_texts(writer, texts),
        Value::Ns(numbers) => write_numbers(alloc, writer, numbers),
        Value::Bs(binaries) => write_binaries(alloc, writer, binaries),
    }
}

/// Writes the elements of a list.
#[cycle(text)]
fn write_list(alloc: Global, writer: &mut Writer, list: &Elements) -> Result<(), NoMemory>
    ensures tokens { OnOk result (writer.new.tokens ≡ writer.old.tokens ++ tokens_of (array (items_of list.now))) }
    ensures before { writer.new.before ≡ writer.old.before }
    ensures read_back { OnOk result (ElementsReadBack list.now) }
{
    writer.begin_array()?;
    for value in list.as_slice() {
        write_value(alloc, writer, value)?;
    }
    writer.end_array()
}

/// The name of a value's type.
fn type_name(value: &Value) -> &'static str
    ensures { result.now ≡ type_of (tree_of value.now) }
{
    match value {
        Value::S(_) => "S",
        Value::N(_) => "N",
        Value::B(_) => "B",
        Value::Bool(_) => "BOOL",
        Value::Null => "NULL",
        Value::L(_) => "L",
        Value::M(_) => "M",
        Value::Ss(_) => "SS",
        Value::Ns(_) => "NS",
        Value::Bs(_) => "BS",
    }
}

/// Writes a set of texts as a list of strings.
fn write_texts(writer: &mut Writer, set: &OrderedSet<Text>) -> Result<(), NoMemory>
    ensures tokens { OnOk result (writer.new.tokens
        ≡ writer.old.tokens ++ tokens_of (array (strings (λ s. s) set.now))) }
    ensures before { writer.new.before ≡ writer.old.before }
    ensures read_back { OnOk result (ReadsBack (text_set set.now)) }
{
    writer.begin_array()?;
    for text in set.as_slice() {
        writer.string(text.as_str())?;
    }
    writer.end_array()
}

/// Writes a set of numbers as a list of strings.
fn write_numbers(
    alloc: Global,
    writer: &mut Writer,
    set: &OrderedSet<Number>,
) -> Result<(), NoMemory>
    ensures tokens { OnOk result (writer.new.tokens
        ≡ writer.old.tokens ++ tokens_of (array (strings printed set.now))) }
    ensures before { writer.new.before ≡ writer.old.before }
    ensures read_back { OnOk result (ReadsBack (number_set set.now)) }
{
    writer.begin_array()?;
    for number in set.as_slice() {
        writer.string(number_text(alloc, number)?.as_str())?;
    }
    writer.end_array()
}

/// Writes a set of binaries as a list of strings in base64.
fn write_binaries(
    alloc: Global,
    writer: &mut Writer,
    set: &OrderedSet<Bytes>,
) -> Result<(), NoMemory>
    ensures tokens { OnOk result (writer.new.tokens
        ≡ writer.old.tokens ++ tokens_of (array (strings base64_of set.now))) }
    ensures before { writer.new.before ≡ writer.old.before }
    ensures read_back { OnOk result (ReadsBack (binary_set set.now)) }
{
    writer.begin_array()?;
    for bytes in set.as_slice() {
        writer.string(base64_text(alloc, bytes)?.as_str())?;
    }
    writer.end_array()
}
