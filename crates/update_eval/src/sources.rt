//! Where terms find values.

ghost use Rattle.std.specs.Prelude.{◌≡◌, IfOk, IfSome, Some, map};
ghost use Rattle.std.specs.Coded.{Coded-set, coded_list, coded_option};
ghost use Rattle.attr_value.specs.Paths.{found};
ghost use Rattle.attr_value.specs.View.{tree_of};
ghost use Rattle.update_eval.specs.Codes.{tree_code};
ghost use Rattle.update_eval.specs.Terms.{given};
ghost use Rattle.update_eval.specs.Views.{AreFound, lent_value};

use crate::named::{FoundValue, named_often};
use attr_value::{Item, Value};
use base_types::{DocPath, Seq};
use expr_words::SetTo;
use item_writes::LentValue;
use std::alloc::{AllocError as NoMemory, Global};

/// The values that came with an update and the item as it was. How deep a value nests is asked of it once here: of each
/// that came, and of what a path finds that right sides name often.
#[derive(Drop)]
pub(crate) struct Sources<'v> {
    pub(crate) values: &'v Seq<Value>,
    pub(crate) old: &'v Item,
    lent: Seq<LentValue<'v>>,
    named: Seq<FoundValue<'v>>,
    ghost lends_all: { map (λ lent. lent.value.now) lent ≡ values.now },
    ghost are_found: { AreFound old.now named } by { Coded-set (coded_list (coded_option tree_code)) _ _ },
}

impl<'v> Sources<'v> {
    /// These values and this item, for the right sides of these assignments.
    pub(crate) fn new(
        alloc: Global,
        sets: &'v [SetTo],
        values: &'v Seq<Value>,
        old: &'v Item,
    ) -> Result<Sources<'v>, NoMemory>
        ensures values { IfOk result (λ sources. sources.values.now ≡ values.now) }
        ensures old { IfOk result (λ sources. sources.old.now ≡ old.now) }
    {
        let lent = all_lent(alloc, values)?;
        let named = named_often(alloc, sets, old)?;
        Ok(Sources {
            values,
            old,
            lent,
            named,
        })
    }

    /// The value of this place among those that came.
    #[tactic(auto, using(crate::proofs::Lent::given_is))]
    pub(crate) fn given(&self, place: u32) -> Option<LentValue<'v>>
        ensures { lent_value result ≡ given self.now.values.now place }
    {
        match self.lent.get(place as usize) {
            Some(lent) => Some(*lent),
            None => None,
        }
    }

    /// What the path finds in the item.
    pub(crate) fn found(&self, path: &DocPath) -> Option<LentValue<'v>>
        ensures { lent_value result ≡ found path.now.steps self.now.old.now }
    {
        if let Some(lent) = self.known(path) {
            return Some(lent);
        }
        match self.old.get(path) {
            Some(value) => Some(LentValue::new(value)),
            None => None,
        }
    }

    /// What the path finds, where right sides name it often.
    #[tactic(auto, using(crate::proofs::Lent::known_is))]
    fn known(&self, path: &DocPath) -> Option<LentValue<'v>>
        ensures { IfSome result (λ lent. found path.now.steps self.now.old.now ≡ Some (tree_of lent.value.now)) }
    {
        let named = self.named.as_slice();
        let place = named.partition_point(|found| found.path < path);
        let found = self.named.get(place)?;
        if !found.is_at(path) {
            return None;
        }
        Some(found.lent)
    }
}

/// All values, lent.
fn all_lent<'v>(alloc: Global, values: &'v Seq<Value>) -> Result<Seq<LentValue<'v>>, NoMemory>
    ensures { IfOk result (λ all. map (λ lent. lent.value.now) all ≡ values.now) }
{
    let mut all = Seq::with_capacity(alloc, values.len())?;
    for value in values.as_slice() {
        all.push(LentValue::new(value))?;
    }
    Ok(all)
}
