//! Keys in their order, as ordered maps ask for it.

use crate::key::Key;
use std::cmp::Ordering;

impl PartialEq for Key {
    ghost use Rattle.std.specs.Cmp.{eq_by_cmp_equiv, partial_equiv_from_equiv};
    ghost use Rattle.std.specs.Ordering.{eq_by_cmp};
    ghost use Rattle.case_rules.specs.Keys.{key_cmp};
    ghost use Rattle.case_rules.specs.KeyLaws.{keys_total};

    ghost eq = { eq_by_cmp key_cmp };

    ghost laws = { partial_equiv_from_equiv (eq_by_cmp_equiv keys_total) };

    fn eq(&self, other: &Key) -> bool {
        self.compare(other).is_eq()
    }
}

impl Eq for Key {
    ghost use Rattle.std.specs.Cmp.{eq_by_cmp_equiv};
    ghost use Rattle.case_rules.specs.KeyLaws.{keys_total};

    ghost laws = { eq_by_cmp_equiv keys_total };
}

impl PartialOrd for Key {
    ghost use Rattle.std.specs.Cmp.{partial_order_from_total};
    ghost use Rattle.std.specs.Ordering.{as_partial_cmp};
    ghost use Rattle.case_rules.specs.Keys.{key_cmp};
    ghost use Rattle.case_rules.specs.KeyLaws.{keys_total};

    ghost partial_cmp = { as_partial_cmp key_cmp };

    ghost laws = { partial_order_from_total keys_total };

    fn partial_cmp(&self, other: &Key) -> Option<Ordering> {
        Some(self.compare(other))
    }
}

impl Ord for Key {
    ghost use Rattle.std.specs.Prelude.{refl};
    ghost use Rattle.case_rules.specs.Keys.{key_cmp};
    ghost use Rattle.case_rules.specs.KeyLaws.{keys_total};

    ghost cmp = { key_cmp };

    ghost total = { keys_total };

    ghost matches_partial_cmp = { λ x y. refl };

    ghost matches_eq = { λ x y. refl };

    fn cmp(&self, other: &Key) -> Ordering {
        self.compare(other)
    }
}
