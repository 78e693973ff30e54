//! The database.

ghost use Rattle.std.specs.Prelude.{◌≡◌, IfOk};
ghost use Rattle.table_model.specs.Database.{empty_database};

use base_types::{Seq, Text};
use client_tokens::Tokens;
use numbered_tables::NumberedTable;
use std::alloc::{AllocError as NoMemory, Global};
use std::collections::BTreeMap;
use std::marker::Model;
use table_model::NumberedAction;

/// Tables by name, tokens, and how many tables were made so far.
///
/// Contracts see the database of the definitions. Between requests nothing is prepared in any table, and each row stands at
/// its item's key.
pub struct SlowDb {
    pub(crate) tables: BTreeMap<Text, NumberedTable>,
    pub(crate) tokens: Tokens<Seq<NumberedAction>>,
    pub(crate) made: u64,
}

// By hand, so that no crate above proves it again.
impl Drop for SlowDb {
    fn drop(self) {
        let SlowDb {
            tables: _,
            tokens: _,
            made: _,
        } = self;
    }
}

impl Model for SlowDb {
    ghost use Rattle.table_model.specs.Database.{Database};
    ghost use Rattle.numbered_tables.specs.Tables.{tables_in};
    ghost use Rattle.plain_database.specs.Sound.{IsSound};
    ghost use Rattle.plain_database.specs.Codes.{database_code};

    ghost Value = { Database };

    ghost coded = { database_code };

    ghost view = { λ db. record { tables = tables_in db.tables.entries; tokens = db.tokens; made = db.made } };

    ghost invariant = { λ db. IsSound db.tables.entries };
}

impl SlowDb {
    /// A database without tables. `NoMemory` is for want of memory.
    pub fn new(alloc: Global) -> Result<SlowDb, NoMemory>
        ensures { IfOk result (λ db. db ≡ empty_database) }
    {
        Ok(SlowDb {
            tables: BTreeMap::new(alloc),
            tokens: Tokens::make(alloc)?,
            made: 0,
        })
    }
}
