ghost use Rattle.std.specs.Prelude.{false, [], ◌∷◌, length, ◌==◌, refl};
ghost use Rattle.names.specs.Canonical.{by_octets};
ghost use Rattle.orders.specs.Hashes.{as_long_at_most};
ghost use Rattle.orders_tests.specs.Strings.{turned_total, one_fits};
ghost use Rattle.orders.specs.Strings.{total_ring};
ghost use Rattle.std.proofs.lemmas.Bool.{false≢true};

use names::name::{MAX_NAME, Name};
use names::refusal::Refusal;
use orders::order::Order;
use std::cmp::Ordering;

// A name's place is one octet, its label count, so that most names share theirs; what has more labels is less.
#[derive(Clone, Copy)]
pub struct FewPlaces;

impl Order for FewPlaces {
    ghost place = { λ _ n. length n ∷ [] };

    ghost placed = { λ _ p. (length p == 1) };

    ghost compared = { λ _ a b. by_octets b a };

    ghost families = { λ _. false };

    ghost beneath = { λ _ _ _. false };

    ghost places = { λ o n h. refl };

    ghost short = { λ o p h. as_long_at_most p 1 h one_fits };

    ghost ring = { λ o. total_ring _ _ turned_total };

    ghost family = { λ o h. absurd (false≢true h) };

    fn is_place(&self, octets: &[u8]) -> bool {
        octets.len() == 1
    }

    fn compare(&self, a: &[u8], b: &[u8]) -> Ordering {
        b.cmp(a)
    }

    fn keeps_families(&self) -> bool {
        false
    }

    fn is_below(&self, _a: &[u8], _b: &[u8]) -> bool {
        false
    }

    fn write_place(&self, name: &[u8], out: &mut [u8; MAX_NAME]) -> Result<usize, Refusal> {
        let name = Name::read(name)?;
        out[0] = name.label_count() as u8;
        Ok(1)
    }
}
