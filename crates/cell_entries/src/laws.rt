//! What is so of the entries of every item. The function does nothing: its clauses are laws.

ghost use Rattle.cell_entries.specs.LocalEntries.{CommandsSpareEntries, EntriesNameItems, UpdatesKeepEntries};

use crate::entry::LocalEntry;

/// An item's entries name it, by the order of entries; a command leaves the entries of items of every table that it doesn't
/// concern; and an update of a table leaves those of its own items too.
pub fn entries_are_lawful()
    ensures named { EntriesNameItems ⟦<LocalEntry as Ord>⟧.cmp }
    ensures spared { CommandsSpareEntries }
    ensures kept { UpdatesKeepEntries }
{}
