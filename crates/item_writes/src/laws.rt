//! What holds of every item and all writes. The law is the contract of a function that does nothing.

ghost use Rattle.std.specs.Prelude.{List};
ghost use Rattle.attr_value.specs.Tree.{Attributes, AreInOrder};
ghost use Rattle.item_writes.specs.NewTree.{Written};
ghost use Rattle.item_writes.specs.ValuesByName.{IsByName, KeepsOthers};

/// At each name of the new item stands what a write puts right there, and else what stays of the old value with the writes
/// that lead on from there. Where no write begins with a name, that is the old value.
#[tactic(auto, using(crate::proofs::ByName::by_name, crate::proofs::ByName::keeps_others))]
pub fn values_by_name()
    ensures by_name { (item : Attributes) (writes : List Written) → AreInOrder item → IsByName item writes }
    ensures others { (item : Attributes) (writes : List Written) → AreInOrder item → KeepsOthers item writes }
{}
