//! What an update is.

ghost use Rattle.expr_parse.specs.Overlaps.{HaveOverlap};
ghost use Rattle.expr_parse.specs.UpdateTree.{tree_of, written};

use base_types::{DocPath, Seq};
use expr_words::{PathValue, SetTo};
use std::alloc::AllocError as NoMemory;

/// An update of an item (DynamoDB Developer Guide, "Update expressions"): what its clauses list. Of two paths that it
/// writes the steps of none begin the other's.
#[derive(Debug, PartialEq, Eq)]
pub struct Update {
    pub sets: Seq<SetTo>,
    pub removes: Seq<DocPath>,
    pub adds: Seq<PathValue>,
    pub deletes: Seq<PathValue>,
    ghost apart: { ¬ HaveOverlap (written (tree_of sets removes adds deletes)) },
}

// By hand, so that no crate above proves it again.
impl Drop for Update {
    fn drop(self) {
        let Update {
            sets: _,
            removes: _,
            adds: _,
            deletes: _,
        } = self;
    }
}

impl Update {
    ghost use Rattle.std.specs.Prelude.{◌≡◌, IfOk};
    ghost use Rattle.expr_parse.specs.Update.{update_tree};

    /// An equal update.
    pub fn try_clone(&self) -> Result<Update, NoMemory>
        ensures { IfOk result (λ copy. update_tree copy ≡ update_tree self.now) }
    {
        Ok(Update {
            sets: self.sets.try_clone()?,
            removes: self.removes.try_clone()?,
            adds: self.adds.try_clone()?,
            deletes: self.deletes.try_clone()?,
        })
    }
}
