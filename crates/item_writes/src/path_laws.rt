//! What holds of every item and all writes, through lists too. Each law is the contract of a function that does nothing.

ghost use Rattle.std.specs.Prelude.{List};
ghost use Rattle.attr_value.specs.Tree as tree;
ghost use Rattle.attr_value.specs.Tree.{Attributes, Trees};
ghost use Rattle.path_entries.specs.Order.{AreInOrder};
ghost use Rattle.item_writes.specs.Apart.{AreApart, paths_of};
ghost use Rattle.item_writes.specs.NewTree.{Written};
ghost use Rattle.item_writes.specs.ListsByPlace.{ClosesUp, KeepsElements, KeepsOrder, PutsElements};
ghost use Rattle.item_writes.specs.ListsByPlace.{AppendsInOrder, HasAsMany, HasNothingElse};
ghost use Rattle.item_writes.specs.PathsThroughLists.{IsInOrder, MakesInnerWrites, KeepsOtherPaths, MovesOtherPaths};
ghost use Rattle.item_writes.specs.PathsThroughLists.{AppendsAlongPaths, PutsMoved, PutsWritten};
ghost use Rattle.item_writes.specs.Worked.{Worked};

/// What becomes of a list by all writes, of which none begins another: the elements that stay keep their order and close
/// up, each with the writes that lead on from its old place, and behind them stands what is written past the end, in order
/// of place.
pub fn lists_by_place()
    ensures closes_up { (elements : Trees) (writes : List Written) → AreApart (paths_of writes) → ClosesUp elements writes }
    ensures order { (writes : List Written) → AreApart (paths_of writes) → KeepsOrder writes }
    ensures kept { (elements : Trees) (writes : List Written) → AreApart (paths_of writes) → KeepsElements elements writes }
    ensures put { (elements : Trees) (writes : List Written) → AreApart (paths_of writes) → PutsElements elements writes }
    ensures appended { (elements : Trees) (writes : List Written) → AreInOrder writes
        → AreApart (paths_of writes) → AppendsInOrder elements writes }
    ensures nothing_else { (elements : Trees) (writes : List Written)
        → AreApart (paths_of writes) → HasNothingElse elements writes }
    ensures as_many { (elements : Trees) (writes : List Written) → AreApart (paths_of writes) → HasAsMany elements writes }
{}

/// What stood at the end of a path that no written path begins stands at the end of the new path, with the writes that lead
/// on from there: through maps and lists, of which the lists have the path's places.
#[tactic(auto, using(crate::proofs::Paths::makes_inner_writes))]
pub fn inner_writes_are_made()
    ensures { (item : Attributes) (writes : List Written) → IsInOrder (tree.map item)
        → AreApart (paths_of writes) → MakesInnerWrites item writes }
{}

/// What stood at the end of a path that no written path begins, and that begins none, stands there still, where nothing is
/// taken out before its places, and else at the end of the new path. The lists along the path have its places.
pub fn other_paths_are_kept()
    ensures in_place { (item : Attributes) (writes : List Written)
        → IsInOrder (tree.map item) → KeepsOtherPaths item writes }
    ensures moved { (item : Attributes) (writes : List Written) → IsInOrder (tree.map item)
        → AreApart (paths_of writes) → MovesOtherPaths item writes }
{}

/// What is written stands at the end of its path, where nothing is taken out before its places, and else at the end of the
/// new path. None of the written paths begins another, and each parent is a map for a name, or a list that has the place.
/// What is written past the end of a list stands in the new one behind all that stay, in order of place.
pub fn written_values_stand()
    ensures in_place { (item : Attributes) (writes : List Written) → IsInOrder (tree.map item)
        → AreApart (paths_of writes) → PutsWritten item writes }
    ensures moved { (item : Attributes) (writes : List Written) → IsInOrder (tree.map item)
        → AreApart (paths_of writes) → PutsMoved item writes }
    ensures appended { (item : Attributes) (writes : List Written)
        → IsInOrder (tree.map item) → AreInOrder writes → AreApart (paths_of writes) → AppendsAlongPaths item writes }
{}

/// The worked examples hold.
#[tactic(auto, using(crate::proofs::Examples::worked_examples))]
pub fn worked()
    ensures { Worked }
{}
