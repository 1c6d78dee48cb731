ghost use Rattle.std.specs.Prelude.{false, [], length, ◌==◌, refl};
ghost use Rattle.std.specs.declared.cmp.Ordering.TheVariants.{Equal};
ghost use Rattle.orders.specs.Hashes.{as_long_at_most};
ghost use Rattle.orders_tests.specs.Strings.{one_ring, none_fit};
ghost use Rattle.std.proofs.lemmas.Bool.{false≢true};

use names::name::{MAX_NAME, Name};
use names::refusal::Refusal;
use orders::order::Order;
use std::cmp::Ordering;

// All names have one place, the empty string, and there is no other.
#[derive(Clone, Copy)]
pub struct OnePlace;

impl Order for OnePlace {
    ghost place = { λ _ _. [] };

    ghost placed = { λ _ p. (length p == 0) };

    ghost compared = { λ _ _ _. Equal };

    ghost families = { λ _. false };

    ghost beneath = { λ _ _ _. false };

    ghost places = { λ o n h. refl };

    ghost short = { λ o p h. as_long_at_most p 0 h none_fit };

    ghost ring = { λ o. one_ring };

    ghost family = { λ o h. absurd (false≢true h) };

    fn is_place(&self, octets: &[u8]) -> bool {
        octets.is_empty()
    }

    fn compare(&self, _a: &[u8], _b: &[u8]) -> Ordering {
        Ordering::Equal
    }

    fn keeps_families(&self) -> bool {
        false
    }

    fn is_below(&self, _a: &[u8], _b: &[u8]) -> bool {
        false
    }

    fn write_place(&self, name: &[u8], _out: &mut [u8; MAX_NAME]) -> Result<usize, Refusal> {
        Name::read(name)?;
        Ok(0)
    }
}
