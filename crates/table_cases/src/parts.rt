//! A table with a global index, and its one item.

use attr_value::{Item, SharedItem, Value};
use base_types::{Seq, Text};
use cell_model::{CellKey, IndexRowKey, ItemKey, KeyedAction, StatedChange, Statement};
use item_keys::{Key, KeyValue};
use row_keys::{Position, RowKey};
use std::alloc::{AllocError as NoMemory, Global};
use table_schema::{Definition, GlobalIndex, KeyKind, KeyNames, Projection, Schema};

/// When everything happens.
pub(crate) const MOMENT: u64 = 5;

fn definition(alloc: Global, name: &str) -> Result<Definition, NoMemory> {
    Ok(Definition {
        name: Text::copied(alloc, name)?,
        kind: KeyKind::S,
    })
}

fn keys(alloc: Global, name: &str) -> Result<KeyNames, NoMemory> {
    Ok(KeyNames {
        partition: Text::copied(alloc, name)?,
        sort: None,
    })
}

fn globals(alloc: Global) -> Result<Seq<GlobalIndex>, NoMemory> {
    let mut globals = Seq::new(alloc);
    globals.push(GlobalIndex {
        name: Text::copied(alloc, "by_kind")?,
        keys: keys(alloc, "kind")?,
        projection: Projection::KeysOnly,
    })?;
    Ok(globals)
}

/// A table with the key `id` and an index with the key `kind`.
pub(crate) fn schema(alloc: Global) -> Result<Schema, NoMemory> {
    let mut definitions = Seq::new(alloc);
    definitions.push(definition(alloc, "id")?)?;
    definitions.push(definition(alloc, "kind")?)?;
    Ok(Schema {
        name: Text::copied(alloc, "Tab")?,
        definitions,
        keys: keys(alloc, "id")?,
        locals: Seq::new(alloc),
        globals: globals(alloc)?,
        on_demand: true,
        read_units: 0,
        write_units: 0,
        created: MOMENT,
        ttl: None,
        stream: None,
    })
}

/// The key of this text.
pub(crate) fn row_key(alloc: Global, text: &str) -> Result<RowKey, NoMemory> {
    let key = Key {
        partition: KeyValue::S(Text::copied(alloc, text)?),
        sort: None,
    };
    Ok(RowKey::from(key.placed(alloc)?))
}

pub(crate) fn attribute(
    alloc: Global,
    item: &mut Item,
    name: &str,
    text: &str,
) -> Result<(), NoMemory> {
    let name = Text::copied(alloc, name)?;
    let text = Text::copied(alloc, text)?;
    item.put(name, Value::S(text))
}

fn plain_item(alloc: Global) -> Result<Item, NoMemory> {
    let mut item = Item::new(alloc);
    attribute(alloc, &mut item, "id", "a")?;
    attribute(alloc, &mut item, "kind", "b")?;
    Ok(item)
}

/// The item `a`, whose kind is `b`. It has 8 bytes.
pub(crate) fn item(alloc: Global) -> Result<SharedItem, NoMemory> {
    SharedItem::new(alloc, plain_item(alloc)?)
}

/// Its key in the table of number 1.
pub(crate) fn item_key(alloc: Global) -> Result<CellKey, NoMemory> {
    Ok(CellKey::Item(ItemKey {
        table: 1,
        key: row_key(alloc, "a")?,
    }))
}

/// Where it stands where this key is read.
pub(crate) fn position(alloc: Global, read: &str) -> Result<Position, NoMemory> {
    let read = row_key(alloc, read)?;
    let item = row_key(alloc, "a")?;
    Ok(Position { read, item })
}

/// The key of its row in the index, which has the number 2.
pub(crate) fn index_key(alloc: Global) -> Result<CellKey, NoMemory> {
    Ok(CellKey::Row(IndexRowKey {
        table: 1,
        index: 2,
        at: position(alloc, "b")?,
    }))
}

/// An action on the item of a key, without a condition.
pub(crate) fn changing(
    alloc: Global,
    table: Text,
    change: StatedChange,
    key: CellKey,
) -> KeyedAction {
    let statement = Statement {
        table,
        change,
        condition: None,
        values: Seq::new(alloc),
        show_old: false,
    };
    KeyedAction::new(key, statement)
}

/// Puts the item.
pub(crate) fn put(alloc: Global) -> Result<KeyedAction, NoMemory> {
    let table = Text::copied(alloc, "Tab")?;
    let item = plain_item(alloc)?;
    let key = item_key(alloc)?;
    Ok(changing(alloc, table, StatedChange::Put(item), key))
}

/// Updates the item without an expression.
pub(crate) fn keep(alloc: Global) -> Result<KeyedAction, NoMemory> {
    let table = Text::copied(alloc, "Tab")?;
    let mut key = Item::new(alloc);
    attribute(alloc, &mut key, "id", "a")?;
    let change = StatedChange::Update { key, update: None };
    Ok(changing(alloc, table, change, item_key(alloc)?))
}
