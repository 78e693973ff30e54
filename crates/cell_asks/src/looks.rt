//! What is kept of Looks.

ghost use Rattle.std.specs.Prelude.{◌≡◌, List};
ghost use Rattle.std.specs.Option.{option_copied};
ghost use Rattle.table_history.specs.Entries.{TableEvent};
ghost use Rattle.cell_asks.specs.Told.{AreTold, WasTold, kept_of};

use base_types::Text;
use cell_model::TableLook;
use std::alloc::{AllocError as NoMemory, Global};
use std::collections::BTreeMap;

/// How many tables are kept at most.
const MOST: usize = 256;

/// Tables as Looks told of them, by name. What a Look told of a number holds as long as the number is there, so a session goes
/// by it until a message of it finds the table gone.
#[derive(Drop)]
pub struct Looks {
    pub(crate) tables: BTreeMap<Text, TableLook>,
}

impl Looks {
    /// Nothing is kept.
    pub fn new(alloc: Global) -> Looks
        ensures { (es : List TableEvent) → AreTold es result }
    {
        Looks {
            tables: BTreeMap::new(alloc),
        }
    }

    /// The table of a name, as a Look told of it.
    pub fn find(&self, name: &Text) -> Option<&TableLook>
        ensures { option_copied result ≡ kept_of self.now name.now }
    {
        self.tables.get(name)
    }

    /// Keeps what a Look told. Where 256 tables are kept these are let go first. Where memory is refused it is not kept.
    pub fn keep(&mut self, alloc: Global, name: Text, look: TableLook) -> Result<(), NoMemory>
        ensures { (es : List TableEvent) → AreTold es self.old → WasTold es name look → AreTold es self.new }
    {
        self.make_room(alloc);
        let _ = self.tables.insert(name, look)?;
        Ok(())
    }

    fn make_room(&mut self, alloc: Global)
        ensures { (es : List TableEvent) → AreTold es self.old → AreTold es self.new }
    {
        if self.tables.len() >= MOST {
            self.forget(alloc);
        }
    }

    /// Lets go of all that is kept.
    pub fn forget(&mut self, alloc: Global)
        ensures { (es : List TableEvent) → AreTold es self.new }
    {
        self.tables = BTreeMap::new(alloc);
    }
}
