// Which sets of types a name may hold.
ghost use Rattle.std.specs.Prelude.{◌≡◌};
ghost use Rattle.names.specs.TypeView.{words as words_in};
ghost use Rattle.names.specs.Types.{empty, only_holdable, unsigned_cut, signed_cut, apex_set, cut_set, plain_set, inner_set, rule_broken};
ghost use Rattle.names.specs.View.{labels as labels_in};

use crate::name::Name;
use crate::types::{DS, NS, ROOM, SOA, TypeSet, WORDS, is_holdable};

impl TypeSet {
    // Whether the set has no type.
    pub fn is_empty(&self) -> bool
        ensures { result ≡ empty (words_in self.now) }
    {
        self.words == [0; WORDS]
    }

    // Whether a name may hold each type of the set.
    pub fn only_holdable(&self) -> bool
        ensures { result ≡ only_holdable (words_in self.now) }
    {
        (0..ROOM).all(|t| !self.has(t) || is_holdable(t))
    }

    // Whether the set is NS alone, what an unsigned zone cut holds.
    pub fn is_unsigned_cut(&self) -> bool
        ensures { result ≡ unsigned_cut (words_in self.now) }
    {
        let cut = TypeSet::empty().with(NS);
        *self == cut
    }

    // Whether the set is NS and DS, what a signed zone cut holds.
    // Kept: both this and the one before are public, and one function of both would take what their names say.
    pub fn is_signed_cut(&self) -> bool
        ensures { result ≡ signed_cut (words_in self.now) }
    {
        let cut = TypeSet::empty().with(NS).with(DS);
        *self == cut
    }

    // Whether the set is what a zone cut holds.
    fn is_cut(&self) -> bool
        ensures { result ≡ cut_set (words_in self.now) }
    {
        self.is_unsigned_cut() || self.is_signed_cut()
    }

    // Whether the set is some types that may be held, SOA and DS not among them.
    fn is_plain(&self) -> bool
        ensures { result ≡ plain_set (words_in self.now) }
    {
        !self.is_empty() && self.only_holdable() && !self.has(SOA) && !self.has(DS)
    }

    // Whether the apex may hold the set.
    pub fn allowed_at_apex(&self) -> bool
        ensures { result ≡ apex_set (words_in self.now) }
    {
        self.only_holdable() && self.has(NS) && self.has(SOA) && !self.has(DS)
    }

    // Whether a name other than the apex may hold the set.
    pub fn allowed_below_apex(&self, name: &Name<'_>) -> bool
        ensures { result ≡ inner_set (labels_in name.now) (words_in self.now) }
    {
        if self.has(NS) {
            return self.is_cut() && !name.has_star_label();
        }
        self.is_plain()
    }

    // Whether the rules forbid the set to a name in a zone with this apex.
    pub fn breaks_rule(&self, apex: &Name<'_>, name: &Name<'_>) -> bool
        ensures { result ≡ rule_broken (labels_in apex.now) (labels_in name.now) (words_in self.now) }
    {
        if name == apex {
            return !self.allowed_at_apex();
        }
        !self.allowed_below_apex(name)
    }
}
