ghost use Rattle.std.specs.Prelude.{◌≡◌, ◌↔◌, ◌≤◌, ℕ, IfOk, IsTrue};
ghost use Rattle.std.specs.Option.{option_copied};
ghost use Rattle.txn_core.specs.Service.{Service, IsServiceLawful};

use crate::outcome::Outcome;
use crate::ruling::Ruling;
use index_feed::Row;
use std::alloc::{AllocError as NoMemory, Global};

/// What the protocol needs to know of tables: which item a key stands for, where it lives, what
/// actions do, and what the catalog answers.
///
/// The laws of this crate hold for whatever meets this trait, for every number of partitions. Its
/// calls compute what `protocol` says, so that a history can be replayed; those that make a value
/// can answer `NoMemory`.
pub trait Rules {
    /// Which item: its table and its key there; or which row of an index.
    type Key: Drop;
    /// What an item holds, or a row of an index.
    type Value: Drop;
    /// An action on one item.
    type Action: Drop;
    /// Why an action can't be evaluated on its item.
    type Fault: Drop;
    /// The tables that are there.
    type Catalog: Drop;
    /// A change of the catalog.
    type Command: Drop;
    /// A question about the catalog, or a page of rows.
    type Question: Drop;
    /// What is told of the catalog, or a page of rows.
    type Told: Drop;

    /// Items, actions and catalogs, for a number of partitions.
    ghost protocol: { ℕ → Service Self.Key Self.Value Self.Action Self.Fault Self.Catalog Self.Command Self.Question Self.Told };

    /// Whether both keys stand for one item.
    fn is_same(left: &Self::Key, right: &Self::Key) -> bool
        ensures { (partitions : ℕ) → result ≡ (protocol partitions).core.same left.now right.now };

    /// The partition in which an item lives, or a row of an index.
    fn cell_of(partitions: u32, key: &Self::Key) -> u32
        requires { 1 ≤ partitions }
        ensures { result ≡ (protocol partitions).core.cell_of key.now };

    /// The partition of a page of rows.
    fn page_cell(partitions: u32, page: &Self::Question) -> u32
        requires { 1 ≤ partitions }
        ensures { result ≡ (protocol partitions).page_cell page.now };

    /// The item that an action is on.
    fn key_of(action: &Self::Action) -> &Self::Key
        ensures { (partitions : ℕ) → result.now ≡ (protocol partitions).core.key_of action.now };

    /// What an action makes of an item.
    fn act(
        alloc: Global,
        catalog: &Self::Catalog,
        action: &Self::Action,
        item: Option<&Self::Value>,
    ) -> Result<Outcome<Self::Value, Self::Fault>, NoMemory>
        ensures { IfOk result (λ outcome. (partitions : ℕ) → outcome
            ≡ (protocol partitions).core.act catalog.now action.now (option_copied item.entry)) };

    /// The action that removes an item, whatever it holds.
    fn removal(alloc: Global, key: &Self::Key) -> Result<Self::Action, NoMemory>
        ensures { IfOk result (λ action. (partitions : ℕ) → action ≡ (protocol partitions).core.removal key.now) };

    /// Whether what an item holds is expired at a moment, in microseconds since 1970-01-01T00:00:00Z.
    fn is_expired(catalog: &Self::Catalog, key: &Self::Key, item: &Self::Value, moment: u64) -> bool
        ensures { (partitions : ℕ) → result ≡ (protocol partitions).core.expired catalog.now key.now item.now moment };

    /// The catalog without a table.
    fn no_table(alloc: Global) -> Result<Self::Catalog, NoMemory>
        ensures { IfOk result (λ catalog. (partitions : ℕ) → catalog ≡ (protocol partitions).core.empty) };

    /// Whether the catalog has the item's table.
    fn is_there(catalog: &Self::Catalog, key: &Self::Key) -> bool
        ensures { (partitions : ℕ) → result ≡ (protocol partitions).core.there catalog.now key.now };

    /// The catalog after a command that was not refused, at its moment.
    fn change(
        alloc: Global,
        command: &Self::Command,
        moment: u64,
        catalog: &Self::Catalog,
    ) -> Result<Self::Catalog, NoMemory>
        ensures { IfOk result (λ next. (partitions : ℕ) → next ≡ (protocol partitions).core.change command.now moment catalog.now) };

    /// The item that a command brings with a new table, by the catalog before it.
    fn adds(
        alloc: Global,
        command: &Self::Command,
        catalog: &Self::Catalog,
        key: &Self::Key,
    ) -> Result<Option<Self::Value>, NoMemory>
        ensures { IfOk result (λ item. (partitions : ℕ) → item ≡ (protocol partitions).core.adds command.now catalog.now key.now) };

    /// The keys of the items that a command brings with a new table.
    fn brings(
        alloc: Global,
        command: &Self::Command,
        catalog: &Self::Catalog,
    ) -> Result<Vec<Self::Key>, NoMemory>
        ensures { IfOk result (λ keys. (partitions : ℕ) → keys.items ≡ (protocol partitions).index.brings command.now catalog.now) };

    /// The item that an index row is of.
    fn item_of(alloc: Global, row_key: &Self::Key) -> Result<Self::Key, NoMemory>
        ensures { IfOk result (λ key. (partitions : ℕ) → key ≡ (protocol partitions).index.item_of row_key.now) };

    /// The numbers of the indexes of an item's table, ascending.
    fn indexes(
        alloc: Global,
        catalog: &Self::Catalog,
        key: &Self::Key,
    ) -> Result<Vec<u64>, NoMemory>
        ensures { IfOk result (λ numbers. (partitions : ℕ) → numbers.items ≡ (protocol partitions).index.indexes catalog.now key.now) };

    /// An item's row in an index, where it has one.
    fn row_of(
        alloc: Global,
        catalog: &Self::Catalog,
        index: u64,
        key: &Self::Key,
        item: &Self::Value,
    ) -> Result<Option<Row<Self::Key, Self::Value>>, NoMemory>
        ensures { IfOk result (λ row. (partitions : ℕ) → row ≡ (protocol partitions).index.row_of catalog.now index key.now item.now) };

    /// Whether two transactions with these actions have the same parameters.
    fn are_same_actions(left: &[Self::Action], right: &[Self::Action]) -> bool
        ensures { (partitions : ℕ) → result ≡ (protocol partitions).same_actions left.now right.now };

    /// The answer to a question about the catalog.
    fn tell(
        alloc: Global,
        catalog: &Self::Catalog,
        question: &Self::Question,
    ) -> Result<Self::Told, NoMemory>
        ensures { IfOk result (λ told. (partitions : ℕ) → told ≡ (protocol partitions).tell catalog.now question.now) };

    /// Whether the catalog has the page's table and index.
    fn serves(catalog: &Self::Catalog, page: &Self::Question) -> bool
        ensures { (partitions : ℕ) → result ≡ (protocol partitions).serves catalog.now page.now };

    /// The number of the index that a page is of; none, where it is of the table's items.
    fn page_index(page: &Self::Question) -> Option<u64>
        ensures { (partitions : ℕ) → result ≡ (protocol partitions).page_index page.now };

    /// The refusal of a command's name or number, which comes before all else.
    fn refuses(
        alloc: Global,
        command: &Self::Command,
        catalog: &Self::Catalog,
    ) -> Result<Option<Self::Told>, NoMemory>
        ensures { IfOk result (λ refusal. (partitions : ℕ) → refusal ≡ (protocol partitions).refuses command.now catalog.now) };

    /// What becomes of a command that nothing stands in the way of, at its moment.
    fn rule(
        alloc: Global,
        command: &Self::Command,
        moment: u64,
        catalog: &Self::Catalog,
    ) -> Result<Ruling<Self::Told>, NoMemory>
        ensures { IfOk result (λ ruling. (partitions : ℕ) → ruling ≡ (protocol partitions).rules command.now moment catalog.now) };

    /// Whether two keys are equal.
    fn are_equal_keys(left: &Self::Key, right: &Self::Key) -> bool
        ensures { IsTrue result ↔ (left.now ≡ right.now) };

    /// Whether two values are equal.
    fn are_equal_values(left: &Self::Value, right: &Self::Value) -> bool
        ensures { IsTrue result ↔ (left.now ≡ right.now) };

    /// Whether two actions are equal.
    fn are_equal_actions(left: &Self::Action, right: &Self::Action) -> bool
        ensures { IsTrue result ↔ (left.now ≡ right.now) };

    /// Whether two faults are equal.
    fn are_equal_faults(left: &Self::Fault, right: &Self::Fault) -> bool
        ensures { IsTrue result ↔ (left.now ≡ right.now) };

    /// Whether two answers of the catalog are equal.
    fn are_equal_told(left: &Self::Told, right: &Self::Told) -> bool
        ensures { IsTrue result ↔ (left.now ≡ right.now) };

    /// A copy of a key, equal to it.
    fn copy_of_key(alloc: Global, key: &Self::Key) -> Result<Self::Key, NoMemory>
        ensures { IfOk result (λ copy. copy ≡ key.now) };

    /// A copy of a value, equal to it.
    fn copy_of_value(alloc: Global, value: &Self::Value) -> Result<Self::Value, NoMemory>
        ensures { IfOk result (λ copy. copy ≡ value.now) };

    /// A copy of an action, equal to it.
    fn copy_of_action(alloc: Global, action: &Self::Action) -> Result<Self::Action, NoMemory>
        ensures { IfOk result (λ copy. copy ≡ action.now) };

    /// The partitions are the cells below the control cell.
    ghost numbered: { (partitions : ℕ) → (protocol partitions).control ≡ partitions };

    /// Keys that stand for one item can't be told apart, removals remove, the number of a table
    /// never comes again, and a command spares the tables that it doesn't concern.
    ghost lawful: { (partitions : ℕ) → IsServiceLawful (protocol partitions) };
}
