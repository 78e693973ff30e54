//! What a page sees and shows of a row.

ghost use Rattle.std.specs.Prelude.{◌≡◌, ◌++◌, ◌∷◌, [], None, Some, IfOk, OnOk, if◌then◌else◌};
ghost use Rattle.std.specs.Option.{option_map};
ghost use Rattle.item_keys.specs.Row.{only};
ghost use Rattle.table_model.specs.Pages as model;
ghost use Rattle.page_reads.specs.Sources.{source_in, seen};
ghost use Rattle.page_reads.specs.Filled.{item_of};

use crate::names::Names;
use crate::refused::asks_all;
use crate::source::Source;
use attr_value::{Item, SharedItem};
use base_types::Seq;
use projection::pick;
use std::alloc::{AllocError as NoMemory, Global};
use table_request::PageRequest;
use table_schema::{GlobalIndex, Projection, Schema};

/// How rows are looked at: of which table, as rows of what, and by which request.
#[derive(Clone, Copy)]
pub struct Sight<'a> {
    pub schema: &'a Schema,
    pub source: Source<'a>,
    pub page: &'a PageRequest,
}

/// A row as a page sees it: the item itself, or what an index keeps of it.
#[derive(Drop)]
pub enum Seen<'a> {
    Whole(&'a SharedItem),
    Kept(Item),
}

impl Seen<'_> {
    /// The attributes that are seen.
    pub(crate) fn item(&self) -> &Item
        ensures { result.now ≡ item_of self.now }
    {
        match self {
            Seen::Whole(item) => item.item(),
            Seen::Kept(item) => item,
        }
    }

    /// The same for one more owner.
    fn into_shared(self, alloc: Global) -> Result<SharedItem, NoMemory>
        ensures { IfOk result (λ item. item ≡ item_of self.entry) }
    {
        match self {
            Seen::Whole(item) => item.share(),
            Seen::Kept(item) => SharedItem::new(alloc, item),
        }
    }
}

/// What a global index keeps of an item. An index that keeps all attributes has the item as it is.
fn seen_in<'a>(
    alloc: Global,
    schema: &Schema,
    index: &GlobalIndex,
    item: &'a SharedItem,
) -> Result<Seen<'a>, NoMemory>
    ensures { IfOk result (λ row. item_of row ≡ seen schema.now (model.global_index index.now) item.now) }
{
    match &index.projection {
        Projection::All => Ok(Seen::Whole(item)),
        Projection::KeysOnly | Projection::Include(_) => {
            let names = Names::Row(&schema.keys, &index.keys, &index.projection);
            Ok(Seen::Kept(names.only(alloc, item.item())?))
        }
    }
}

impl Sight<'_> {
    /// What the page sees of an item.
    pub fn see<'a>(&self, alloc: Global, item: &'a SharedItem) -> Result<Seen<'a>, NoMemory>
        ensures { IfOk result (λ row. item_of row ≡ seen self.now.schema.now (source_in self.now.source) item.now) }
    {
        match self.source {
            Source::Global(_, index) => seen_in(alloc, self.schema, index, item),
            Source::Table | Source::Local(..) => Ok(Seen::Whole(item)),
        }
    }

    /// What is shown of a row where no projection is stated.
    fn show_by_default(&self, alloc: Global, row: Seen<'_>) -> Result<SharedItem, NoMemory>
        ensures { IfOk result (λ item.
            item ≡ model.default_view self.now.schema.now (source_in self.now.source) self.now.page.now.select (item_of row.entry)) }
    {
        match self.source {
            Source::Local(_, index) if !asks_all(self.page.select) => {
                let names = Names::Row(&self.schema.keys, &index.keys, &index.projection);
                SharedItem::new(alloc, names.only(alloc, row.item())?)
            }
            _ => row.into_shared(alloc),
        }
    }

    /// What is shown of a row (API Reference: Query, Select).
    fn show(&self, alloc: Global, row: Seen<'_>) -> Result<SharedItem, NoMemory>
        ensures { IfOk result (λ item.
            item ≡ model.row_view self.now.schema.now (source_in self.now.source) self.now.page.now (item_of row.entry)) }
    {
        match &self.page.projection {
            Some(paths) => SharedItem::new(alloc, pick(paths, row.item())?),
            None => self.show_by_default(alloc, row),
        }
    }

    /// Adds what is shown of a row, where rows are shown.
    pub(crate) fn add_shown(
        &self,
        alloc: Global,
        row: Seen<'_>,
        items: &mut Option<Seq<SharedItem>>,
    ) -> Result<(), NoMemory>
        ensures { OnOk result (items.new ≡ option_map (λ shown.
            shown ++ model.row_view self.now.schema.now (source_in self.now.source) self.now.page.now (item_of row.entry) ∷ []) items.old) }
    {
        if let Some(items) = items {
            items.push(self.show(alloc, row)?)?;
        }
        Ok(())
    }

    /// The key after which the next page begins, where the page ends with this row: that of what is read, and the table's
    /// (API Reference: Query, LastEvaluatedKey).
    pub(crate) fn last_key(
        &self,
        alloc: Global,
        row: &Item,
        is_full: bool,
    ) -> Result<Option<Item>, NoMemory>
        ensures { IfOk result (λ key. key ≡ (if is_full
            then Some (only (model.is_start_name self.now.schema.now (source_in self.now.source)) row.now) else None)) }
    {
        if !is_full {
            return Ok(None);
        }
        let names = Names::Start(self.source.keys(self.schema), &self.schema.keys);
        Ok(Some(names.only(alloc, row)?))
    }
}
