ghost use Rattle.std.specs.Cmp.{partial_equiv_from_equiv};
ghost use Rattle.std.specs.Prelude.{Some, refl};
ghost use Rattle.names.specs.Canonical.{canonical as canonical_order, same_name};
ghost use Rattle.names.specs.Orders.{same_name_equiv, canonical_partial, canonical_total_by, names_ties};
ghost use Rattle.zoldabi.specs.Owned.{labels_owned};

use crate::owned::OwnedName;
use std::cmp::Ordering;

// Two are equal if they are the same name.
impl PartialEq for OwnedName {
    ghost eq = { λ a b. same_name (labels_owned a) (labels_owned b) };

    ghost laws = { partial_equiv_from_equiv (same_name_equiv labels_owned) };

    fn eq(&self, other: &Self) -> bool {
        self.name() == other.name()
    }
}

impl Eq for OwnedName {
    ghost laws = { same_name_equiv labels_owned };
}

impl PartialOrd for OwnedName {
    ghost partial_cmp = { λ a b. Some (canonical_order (labels_owned a) (labels_owned b)) };

    ghost laws = { canonical_partial labels_owned };

    fn partial_cmp(&self, other: &Self) -> Option<Ordering> {
        Some(self.cmp(other))
    }
}

// Canonical order.
impl Ord for OwnedName {
    ghost cmp = { λ a b. canonical_order (labels_owned a) (labels_owned b) };

    ghost total = { canonical_total_by labels_owned };

    ghost matches_partial_cmp = { λ a b. refl };

    ghost matches_eq = { λ a b. names_ties (labels_owned a) (labels_owned b) };

    fn cmp(&self, other: &Self) -> Ordering {
        self.name().cmp(&other.name())
    }
}
