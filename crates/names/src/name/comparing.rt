ghost use Rattle.std.specs.Cmp.{partial_equiv_from_equiv};
ghost use Rattle.std.specs.Prelude.{◌≡◌, map, length, Some, refl};
ghost use Rattle.names.specs.Orders.{same_name_equiv, canonical_partial, canonical_total_by, names_ties};
ghost use Rattle.names.specs.Canonical.{canonical as canonical_order, shared as shared_labels, by_octets, same_name, below, at_or_below};
ghost use Rattle.names.specs.Laws.{StrictTotal, Families};
ghost use Rattle.names.specs.View.{labels as labels_in};
ghost use Rattle.names.specs.Wire.{lower};

use crate::name::Name;
use std::cmp::Ordering;

// Two labels, octet by octet in lower case.
fn compare_labels(a: &[u8], b: &[u8]) -> Ordering
    ensures { result ≡ by_octets (map lower a.now) (map lower b.now) }
{
    a.iter()
        .map(|x| x.to_ascii_lowercase())
        .cmp(b.iter().map(|y| y.to_ascii_lowercase()))
}

// What two names have in common: the labels that they share from the root on, and their order.
#[derive(Clone, Copy)]
struct Meeting {
    shared: usize,
    order: Ordering,
}

// The same for names of equally many labels. From left to right: what the rightmost two labels that differ say remains.
fn meet_level(a: &Name<'_>, b: &Name<'_>) -> Meeting
    requires { length (labels_in a.now) ≡ length (labels_in b.now) }
    ensures shared { result.shared ≡ shared_labels (labels_in a.now) (labels_in b.now) }
    ensures order { result.order ≡ canonical_order (labels_in a.now) (labels_in b.now) }
{
    let mut shared = 0;
    let mut order = Ordering::Equal;
    for (x, y) in a.labels().zip(b.labels()) {
        match compare_labels(x, y) {
            Ordering::Equal => shared += 1,
            found => {
                shared = 0;
                order = found;
            }
        }
    }
    Meeting { shared, order }
}

// The same for any two names.
fn meet(a: &Name<'_>, b: &Name<'_>) -> Meeting
    ensures shared { result.shared ≡ shared_labels (labels_in a.now) (labels_in b.now) }
    ensures order { result.order ≡ canonical_order (labels_in a.now) (labels_in b.now) }
{
    let m = a.label_count();
    let n = b.label_count();
    let fewer = m.min(n);
    let Meeting { shared, order } = meet_level(&a.without(m - fewer), &b.without(n - fewer));
    Meeting {
        shared,
        order: order.then(m.cmp(&n)),
    }
}

impl Name<'_> {
    // How many labels the two names share, counted from the root.
    pub fn shared_labels(&self, other: &Name<'_>) -> usize
        ensures { result ≡ shared_labels (labels_in self.now) (labels_in other.now) }
    {
        meet(self, other).shared
    }

    // Whether this name is the other one or below it.
    pub fn is_at_or_below(&self, other: &Name<'_>) -> bool
        ensures { result ≡ at_or_below (labels_in self.now) (labels_in other.now) }
    {
        self.shared_labels(other) == other.label_count()
    }

    // Whether the other name is an ancestor of this one.
    pub fn is_below(&self, other: &Name<'_>) -> bool
        ensures value { result ≡ below (labels_in self.now) (labels_in other.now) }
        ensures families { Families }
    {
        other.label_count() < self.label_count() && self.is_at_or_below(other)
    }
}

// Two names are equal if they are the same name.
impl PartialEq for Name<'_> {
    ghost eq = { λ a b. same_name (labels_in a) (labels_in b) };

    ghost laws = { partial_equiv_from_equiv (same_name_equiv labels_in) };

    fn eq(&self, other: &Self) -> bool {
        self.cmp(other).is_eq()
    }
}

impl Eq for Name<'_> {
    ghost laws = { same_name_equiv labels_in };
}

impl PartialOrd for Name<'_> {
    ghost partial_cmp = { λ a b. Some (canonical_order (labels_in a) (labels_in b)) };

    ghost laws = { canonical_partial labels_in };

    fn partial_cmp(&self, other: &Self) -> Option<Ordering> {
        Some(self.cmp(other))
    }
}

// Canonical order (RFC 4034 section 6.1): labels from the right, as unsigned octets in lower case; what ends first is
// less.
impl Ord for Name<'_> {
    ghost cmp = { λ a b. canonical_order (labels_in a) (labels_in b) };

    ghost total = { canonical_total_by labels_in };

    ghost matches_partial_cmp = { λ a b. refl };

    ghost matches_eq = { λ a b. names_ties (labels_in a) (labels_in b) };

    fn cmp(&self, other: &Self) -> Ordering
        ensures value { result ≡ canonical_order (labels_in self.now) (labels_in other.now) }
        ensures total { StrictTotal canonical_order }
    {
        meet(self, other).order
    }
}
