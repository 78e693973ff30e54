//! What calls make of a cell whose entries are those of its items. The function does nothing: its clause is a law.

ghost use Rattle.local_index.specs.Items.{KeepToItems};

/// Where the committed entries of a cell are exactly those of its items, and those held exactly those of the images that are
/// held, each call leaves them so, of the items and images that are there afterwards; and it may be made. Each entry names
/// an item, of type `I`.
pub fn entries_keep_to_items<E: Ord, I: Eq>()
    ensures { (item_of : E → I) → KeepToItems E.cmp I.eq item_of }
{}
