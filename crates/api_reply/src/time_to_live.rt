//! A table's time to live (DynamoDB API Reference: TimeToLiveSpecification, TimeToLiveDescription).

ghost use Rattle.std.specs.Prelude.{◌≡◌};
ghost use Rattle.api_reply.specs.Descriptions.{ttl_status};

use crate::to_json::{ToJson, write_member, write_optional, write_text};
use base_types::Text;
use json::Writer;
use std::alloc::{AllocError as NoMemory, Global};

/// A time to live as it was stated.
#[derive(Clone, Copy)]
pub(crate) struct Specification<'a> {
    pub name: &'a Text,
    pub enabled: bool,
}

impl ToJson for Specification<'_> {
    ghost use Rattle.api_reply.specs.Descriptions.{specification};

    ghost as_data = { λ s. specification s.name.now s.enabled };

    fn write(&self, alloc: Global, writer: &mut Writer) -> Result<(), NoMemory> {
        writer.begin_object()?;
        write_member(alloc, writer, "AttributeName", self.name)?;
        write_member(alloc, writer, "Enabled", &self.enabled)?;
        writer.end_object()
    }
}

/// The attribute by which the items of a table expire, where they do.
#[derive(Clone, Copy)]
pub(crate) struct Description<'a> {
    pub name: &'a Option<Text>,
}

impl ToJson for Description<'_> {
    ghost use Rattle.api_reply.specs.Descriptions.{time_to_live};

    ghost as_data = { λ d. time_to_live d.name.now };

    fn write(&self, alloc: Global, writer: &mut Writer) -> Result<(), NoMemory> {
        writer.begin_object()?;
        write_optional(alloc, writer, "AttributeName", self.name)?;
        write_text(writer, "TimeToLiveStatus", status(self.name))?;
        writer.end_object()
    }
}

fn status(name: &Option<Text>) -> &'static str
    ensures { result.now ≡ ttl_status name.now }
{
    match name {
        Some(_) => "ENABLED",
        None => "DISABLED",
    }
}
