//! Refusals that several requests have.

ghost use Rattle.std.specs.Prelude.{◌≡◌};
ghost use Rattle.table_model.specs.declared.reply.Reply.{Reply as AnyReply};
ghost use Rattle.table_model.specs.declared.refusal.Refusal.{Refusal as AnyRefusal};
ghost use Rattle.table_model.specs.Catalog.{schema_refusal};

use base_types::Text;
use table_model::{Invalid, Refusal, Reply};
use table_schema::SchemaFault;

/// A transaction holds an item of the table.
pub(crate) fn held(name: Text) -> Reply
    ensures { result ≡ AnyReply.Refused (AnyRefusal.TableHeld name) }
{
    Reply::Refused(Refusal::TableHeld(name))
}

/// The schema that a table would have breaks a rule.
pub(crate) fn bad_schema(fault: SchemaFault) -> Refusal
    ensures { result ≡ schema_refusal fault }
{
    Refusal::Invalid(Invalid::Schema(fault))
}
