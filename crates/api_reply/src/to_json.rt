//! JSON that is written token by token, with no tree.

ghost use Rattle.std.specs.Prelude.{◌≡◌, ◌++◌, ◌∷◌, List, [], OnOk, ℕ, option_map};
ghost use Rattle.serde_json.specs.Data.{Data, boolean, member, no_members, object, string};
ghost use Rattle.attr_json.specs.Text.{tokens_of};
ghost use Rattle.attr_json.specs.Written.{members_of};
ghost use Rattle.api_reply.specs.Json.{Adds, entries, list_of, object_of, optional, whole};

use attr_json::write_item;
use attr_value::{Item, SharedItem};
use base_types::{Seq, Text};
use json::Writer;
use std::alloc::{AllocError as NoMemory, Global};

/// A type whose values are written as JSON.
pub(crate) trait ToJson {
    ghost as_data: { Self → Data };

    /// Writes the JSON of the value.
    fn write(&self, alloc: Global, writer: &mut Writer) -> Result<(), NoMemory>
        ensures tokens { OnOk result (writer.new.tokens ≡ writer.old.tokens ++ tokens_of (as_data self.now)) }
        ensures before { writer.new.before ≡ writer.old.before };
}

/// A type whose values stand in an object, each under its own name.
pub(crate) trait Entry: ToJson {
    ghost key: { Self → List ℕ };

    /// The name of the member.
    fn key(&self) -> &str
        ensures { result.now ≡ key self.now };
}

/// Writes a list.
pub(crate) fn write_list<T: ToJson>(
    alloc: Global,
    writer: &mut Writer,
    values: &Seq<T>,
) -> Result<(), NoMemory>
    ensures tokens { OnOk result (writer.new.tokens ≡ writer.old.tokens ++ tokens_of (list_of T.as_data values.now)) }
    ensures before { writer.new.before ≡ writer.old.before }
{
    writer.begin_array()?;
    for value in values.as_slice() {
        value.write(alloc, writer)?;
    }
    writer.end_array()
}

/// Writes an object whose members are these.
pub(crate) fn write_object<T: Entry>(
    alloc: Global,
    writer: &mut Writer,
    values: &Seq<T>,
) -> Result<(), NoMemory>
    ensures tokens { OnOk result (writer.new.tokens ≡ writer.old.tokens ++ tokens_of (object_of T.key T.as_data values.now)) }
    ensures before { writer.new.before ≡ writer.old.before }
{
    writer.begin_object()?;
    for value in values.as_slice() {
        writer.key(value.key())?;
        value.write(alloc, writer)?;
    }
    writer.end_object()
}

/// Writes a member.
#[tactic(auto, using(crate::proofs::Joins::joins), unfolding(crate::specs::Json::Adds))]
pub(crate) fn write_member<T: ToJson>(
    alloc: Global,
    writer: &mut Writer,
    name: &str,
    value: &T,
) -> Result<(), NoMemory>
    ensures adds { OnOk result (Adds (member name.now (T.as_data value.now)) writer.old writer.new) }
    ensures before { writer.new.before ≡ writer.old.before }
{
    writer.key(name)?;
    value.write(alloc, writer)
}

/// Writes a member, where it has a value.
#[tactic(auto, using(crate::proofs::Joins::joins), unfolding(crate::specs::Json::Adds))]
pub(crate) fn write_optional<T: ToJson>(
    alloc: Global,
    writer: &mut Writer,
    name: &str,
    value: &Option<T>,
) -> Result<(), NoMemory>
    ensures adds { OnOk result (Adds (optional name.now (option_map T.as_data value.now)) writer.old writer.new) }
    ensures before { writer.new.before ≡ writer.old.before }
{
    match value {
        Some(value) => write_member(alloc, writer, name, value),
        None => Ok(()),
    }
}

/// Writes an object of one member.
pub(crate) fn write_named<T: ToJson>(
    alloc: Global,
    writer: &mut Writer,
    name: &str,
    value: &T,
) -> Result<(), NoMemory>
    ensures tokens { OnOk result (writer.new.tokens
        ≡ writer.old.tokens ++ tokens_of (object (member name.now (T.as_data value.now) no_members))) }
    ensures before { writer.new.before ≡ writer.old.before }
{
    writer.begin_object()?;
    write_member(alloc, writer, name, value)?;
    writer.end_object()
}

/// Writes a member that is a list.
#[tactic(auto, using(crate::proofs::Joins::joins), unfolding(crate::specs::Json::Adds))]
pub(crate) fn write_list_member<T: ToJson>(
    alloc: Global,
    writer: &mut Writer,
    name: &str,
    values: &Seq<T>,
) -> Result<(), NoMemory>
    ensures adds { OnOk result (Adds (member name.now (list_of T.as_data values.now)) writer.old writer.new) }
    ensures before { writer.new.before ≡ writer.old.before }
{
    writer.key(name)?;
    write_list(alloc, writer, values)
}

/// Writes a member that is an object of such members.
#[tactic(auto, using(crate::proofs::Joins::joins), unfolding(crate::specs::Json::Adds))]
pub(crate) fn write_object_member<T: Entry>(
    alloc: Global,
    writer: &mut Writer,
    name: &str,
    values: &Seq<T>,
) -> Result<(), NoMemory>
    ensures adds { OnOk result (Adds (member name.now (object_of T.key T.as_data values.now)) writer.old writer.new) }
    ensures before { writer.new.before ≡ writer.old.before }
{
    writer.key(name)?;
    write_object(alloc, writer, values)
}

/// Writes a member that is a text.
#[tactic(auto, using(crate::proofs::Joins::joins), unfolding(crate::specs::Json::Adds))]
pub(crate) fn write_text(writer: &mut Writer, name: &str, text: &str) -> Result<(), NoMemory>
    ensures adds { OnOk result (Adds (member name.now (string text.now)) writer.old writer.new) }
    ensures before { writer.new.before ≡ writer.old.before }
{
    writer.key(name)?;
    writer.string(text)
}

/// Writes a member that is a whole number.
#[tactic(auto, using(crate::proofs::Joins::joins), unfolding(crate::specs::Json::Adds))]
pub(crate) fn write_whole(writer: &mut Writer, name: &str, number: u64) -> Result<(), NoMemory>
    ensures adds { OnOk result (Adds (member name.now (whole number)) writer.old writer.new) }
    ensures before { writer.new.before ≡ writer.old.before }
{
    writer.key(name)?;
    writer.u64(number)
}

impl ToJson for Item {
    ghost as_data = { λ item. object (members_of item) };

    fn write(&self, alloc: Global, writer: &mut Writer) -> Result<(), NoMemory> {
        write_item(alloc, writer, self)
    }
}

impl ToJson for SharedItem {
    ghost as_data = { λ item. object (members_of item) };

    fn write(&self, alloc: Global, writer: &mut Writer) -> Result<(), NoMemory> {
        write_item(alloc, writer, self.item())
    }
}

impl ToJson for Text {
    ghost as_data = { λ text. string text };

    fn write(&self, _alloc: Global, writer: &mut Writer) -> Result<(), NoMemory> {
        writer.string(self.as_str())
    }
}

impl ToJson for bool {
    ghost as_data = { λ flag. boolean flag };

    fn write(&self, _alloc: Global, writer: &mut Writer) -> Result<(), NoMemory> {
        writer.boolean(*self)
    }
}
