//! What is so of tables in every legal history. The functions do nothing: their clauses are laws.

ghost use Rattle.std.specs.Prelude.{ℕ};
ghost use Rattle.table_history.specs.CommandEffects.{CommandsAreEffects};
ghost use Rattle.table_history.specs.Expirations.{ExpirationsRemoveRows};
ghost use Rattle.table_history.specs.KeptHistories.{CatalogsAreKept};
ghost use Rattle.table_history.specs.SameTable.{LooksHold, NumbersStay};
ghost use Rattle.table_history.specs.Standing.{OthersLeaveTables, StandAlike, TablesStand};
ghost use Rattle.table_history.specs.WriteEffects.{WritesAreEffects};

/// At every point the tables have valid schemas, names and numbers of their own, and each global index has its number.
pub fn catalogs_of_histories()
    ensures { (partitions : ℕ) → CatalogsAreKept partitions }
{}

/// What is there under the number of a table at a later point is that table: it has the name, the key and the local indexes
/// that it had, and the attributes of these keys have the types that they had. So what a Look told of a number holds as
/// long as the number is there.
pub fn same_table()
    ensures numbers { (partitions : ℕ) → NumbersStay partitions }
    ensures looks { (partitions : ℕ) → LooksHold partitions }
{}

/// Some sequential database has the tables that the one order of the history makes, and some has what readers are shown. All
/// that stand for the same have the same tables, rows and schemas. What puts nothing into the one order leaves the tables.
pub fn tables_stand()
    ensures some { (partitions : ℕ) → TablesStand partitions }
    ensures one { StandAlike }
    ensures others { (partitions : ℕ) → OthersLeaveTables partitions }
{}

/// Each command of a request does to every database that has the tables what the request does, and is answered its reply:
/// what is left has the tables with the command's entry.
pub fn commands_are_effects()
    ensures { (partitions : ℕ) → CommandsAreEffects partitions }
{}

/// Each single write of a request does to every database that has the tables what the request does, and is answered its
/// reply: what is left has the tables with the write's entry.
pub fn writes_are_effects()
    ensures { (partitions : ℕ) → WritesAreEffects partitions }
{}

/// Each expiration removes of every database that has the tables the row of its key, which was there as it tells and was
/// expired: what is left has the tables with the expiration's entry. One that removes nothing leaves the tables, as
/// [`tables_stand`] says of all that puts nothing into the one order.
pub fn expirations_remove_rows()
    ensures { (partitions : ℕ) → ExpirationsRemoveRows partitions }
{}
