//! What holds of these tables. The functions do nothing: their clauses are laws.

ghost use Rattle.std.specs.Prelude.{ℕ};
ghost use Rattle.txn_core.specs.Service.{IsServiceLawful};
ghost use Rattle.cell_model.specs.Service.{service};
ghost use Rattle.cell_model.specs.KeptCatalogs.{CommandsKeep, KeptIsWhole};
ghost use Rattle.cell_model.specs.Laws.{ActAsTheDatabase, CellsTellParts, PartsAreOnePage, RowsAreTheDatabases, TakesItsPage, TellsItsRoom};

/// They keep what the protocol asks of tables, for every number of partitions: so the laws of the one order hold of them.
pub fn tables_are_lawful()
    ensures { (partitions : ℕ) → IsServiceLawful (service partitions) }
{}

/// Every catalog that commands make out of the empty one is kept: its tables are in the order of their names and have valid
/// schemas, their numbers differ, and each global index has its number. Of such a catalog nothing counts for nothing.
pub fn catalogs_are_kept()
    ensures kept { CommandsKeep }
    ensures whole { KeptIsWhole }
{}

/// An action makes of its item what it does in the sequential database.
pub fn actions_are_the_databases()
    ensures { ActAsTheDatabase }
{}

/// The rows that the items of a table have in a global index, put in the order of the index, are its rows in the
/// sequential database.
pub fn index_rows_are_the_databases()
    ensures { RowsAreTheDatabases }
{}

/// The rows that a page takes are its page of them and of all that follow (API Reference: Query, LastEvaluatedKey), and
/// what it may still take is what they leave. Its filter counts for nothing in this.
pub fn pages_end_where_they_are_full()
    ensures page { TakesItsPage }
    ensures room { TellsItsRoom }
{}

/// The parts of a page in several cells, each asked with the room that the one before left, up to the first with which it has
/// ended, are one page of all rows that were there for it, whatever its filter is. What a cell answers to a page is such a part.
pub fn parts_are_one_page()
    ensures page { PartsAreOnePage }
    ensures parts { CellsTellParts }
{}
