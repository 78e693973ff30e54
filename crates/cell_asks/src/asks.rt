//! What a call asks of the cells, one message each.

ghost use Rattle.std.specs.Prelude.{◌≡◌, ◌<◌, ℕ, IfOk, IfErr};
ghost use Rattle.turnstile.specs.Passes.{PassView};
ghost use Rattle.txn_core.specs.declared.message.Message.{Message};
ghost use Rattle.cell_model.specs.Keys.{cell_at, place_of};
ghost use Rattle.cell_model.specs.declared.question.CatalogQuestion.TheVariants.{Look, Names, Page};
ghost use Rattle.table_history.specs.Entries.{TableEvent};
ghost use Rattle.cell_asks.specs.Steps.{One, Stops};
ghost use Rattle.cell_asks.specs.Answers.{got_answer, look_answer, names_answer, page_answer, ruled_answer, wrote_answer};

use attr_value::SharedItem;
use base_types::Text;
use cell_model::{
    CatalogAnswer, CatalogCommand, CellKey, KeyedAction, NameList, PageQuestion, Part, TableLook,
};
use cluster::StepError;
use std::alloc::Global;
use update_eval::EvalFault;

/// What a Get is answered.
#[derive(Drop)]
pub enum Got {
    /// The committed item, where there is one.
    Row(Option<SharedItem>),
    /// The table is gone.
    Stale,
}

/// What a Write is answered.
#[derive(Drop)]
pub enum Wrote {
    /// It was made: the item before and afterwards.
    Written {
        old: Option<SharedItem>,
        new: Option<SharedItem>,
    },
    /// The transaction of this number holds the item.
    Held {
        number: u64,
    },
    /// The condition is false of the item that was found.
    CondFalse {
        old: Option<SharedItem>,
    },
    /// The action can't be evaluated on its item.
    Invalid(EvalFault),
    /// The table is gone.
    Stale,
}

/// What a command is answered.
#[derive(Drop)]
pub enum Ruled {
    /// It was carried out.
    Changed(CatalogAnswer),
    Refused(CatalogAnswer),
    /// The transaction of this number holds an item of the table.
    Held { number: u64 },
}

/// Who calls on cells of real tables, with a pass that is lent to each call. A message is answered at the moment of the pass,
/// for one unit of it; the errors are those of [`StepError`].
///
/// `count` is the number of partitions. A pass `fits` that is of these cells and holds no turn, and is `seen` as its view.
pub trait Asks {
    type Pass;

    ghost count: { Self → ℕ };

    ghost fits: { Self → Self.Pass → Type 0 };

    ghost seen: { Self.Pass → PassView TableEvent };

    /// The allocator.
    fn alloc(&self) -> Global;

    /// The number of partitions.
    fn partitions(&self) -> u32
        ensures { result ≡ count self.now };

    /// The partition of an item, or of a row of an index.
    fn cell_of(&self, key: &CellKey) -> u32
        ensures cell { result ≡ cell_at (count self.now) (place_of key.now) }
        ensures partition { result < count self.now };

    /// The moment of a pass, in microseconds.
    fn moment(&self, pass: &Self::Pass) -> u64
        ensures { result ≡ (seen pass.now).moment };

    /// The table of a name.
    fn look(&self, pass: &mut Self::Pass, name: Text) -> Result<Option<TableLook>, StepError>
        requires fits { fits self.now pass.old }
        ensures ok { IfOk result (λ told. One (count self.now) (seen pass.old) (Message.Ask (Look name)) (look_answer told) (seen pass.new)) }
        ensures err { IfErr result (λ why. Stops (count self.now) (seen pass.old) why (seen pass.new)) }
        ensures fits { fits self.now pass.new };

    /// At most so many names of tables, from behind the one that is given.
    fn names(
        &self,
        pass: &mut Self::Pass,
        after: Option<Text>,
        limit: u64,
    ) -> Result<NameList, StepError>
        requires fits { fits self.now pass.old }
        ensures ok { IfOk result (λ told. One (count self.now) (seen pass.old) (Message.Ask (Names after limit)) (names_answer told) (seen pass.new)) }
        ensures err { IfErr result (λ why. Stops (count self.now) (seen pass.old) why (seen pass.new)) }
        ensures fits { fits self.now pass.new };

    /// The committed item of a key.
    fn get(&self, pass: &mut Self::Pass, key: CellKey) -> Result<Got, StepError>
        requires fits { fits self.now pass.old }
        ensures ok { IfOk result (λ got. One (count self.now) (seen pass.old) (Message.Get key) (got_answer got) (seen pass.new)) }
        ensures err { IfErr result (λ why. Stops (count self.now) (seen pass.old) why (seen pass.new)) }
        ensures fits { fits self.now pass.new };

    /// A single write.
    fn write(&self, pass: &mut Self::Pass, action: KeyedAction) -> Result<Wrote, StepError>
        requires fits { fits self.now pass.old }
        ensures ok { IfOk result (λ wrote. One (count self.now) (seen pass.old) (Message.Write action) (wrote_answer wrote) (seen pass.new)) }
        ensures err { IfErr result (λ why. Stops (count self.now) (seen pass.old) why (seen pass.new)) }
        ensures fits { fits self.now pass.new };

    /// A cell's part of a page, or none where its table or its index is gone.
    fn page(&self, pass: &mut Self::Pass, question: PageQuestion) -> Result<Option<Part>, StepError>
        requires fits { fits self.now pass.old }
        ensures ok { IfOk result (λ part. One (count self.now) (seen pass.old) (Message.ScanPage (Page question)) (page_answer part) (seen pass.new)) }
        ensures err { IfErr result (λ why. Stops (count self.now) (seen pass.old) why (seen pass.new)) }
        ensures fits { fits self.now pass.new };

    /// A change of the catalog.
    fn command(&self, pass: &mut Self::Pass, command: CatalogCommand) -> Result<Ruled, StepError>
        requires fits { fits self.now pass.old }
        ensures ok { IfOk result (λ ruled. One (count self.now) (seen pass.old) (Message.Command command) (ruled_answer ruled) (seen pass.new)) }
        ensures err { IfErr result (λ why. Stops (count self.now) (seen pass.old) why (seen pass.new)) }
        ensures fits { fits self.now pass.new };
}
