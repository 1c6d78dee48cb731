ghost use Rattle.std.specs.Prelude.{◌≡◌, true, length, nat_le};
ghost use Rattle.names.specs.Canonical.{by_octets};
ghost use Rattle.names.specs.View.{labels as labels_in};
ghost use Rattle.names.specs.Wire.{written};
ghost use Rattle.orders_tests.specs.Reversal.{from_root, goes_on};
ghost use Rattle.orders_tests.specs.Pieces.{from_root_place, few_octets, reversed_family};
ghost use Rattle.names.proofs.Ordered.{octets_total};
ghost use Rattle.orders.specs.Strings.{total_ring};

use names::name::{MAX_NAME, Name};
use names::refusal::Refusal;
use orders::order::Order;
use std::cmp::Ordering;

// The octets that a place has at most.
const MAX_PLACE: usize = 254;

// The labels of a name from the right, in lower case, each behind its length, to the front of a buffer, and how many
// octets these are.
fn write_reversed(name: &Name<'_>, out: &mut [u8; MAX_NAME]) -> usize
    ensures value { result ≡ length (from_root (labels_in name.now)) }
    ensures buffer { out.new ≡ written (from_root (labels_in name.now)) out.old }
{
    let mut left = *name;
    while let Some((_, rest)) = left.split_first() {
        let octets = left.octets();
        let start = rest.octets().len() - 1;
        let end = octets.len() - 1;
        let part = &mut out[start..end];
        part.copy_from_slice(&octets[..end - start]);
        part.make_ascii_lowercase();
        left = rest;
    }
    name.octets().len() - 1
}

// Whether a begins with all of b and goes on after it.
fn goes_on(a: &[u8], b: &[u8]) -> bool
    ensures { result ≡ goes_on a.now b.now }
{
    a.len() > b.len() && a.starts_with(b)
}

// An order that keeps families, with other places than wire forms and another rule than canonical order. A name's place
// is its labels from the right, in lower case, each behind its length; so of two labels the shorter one is less.
// All strings of up to 254 octets are places.
#[derive(Clone, Copy)]
pub struct Reversed;

impl Order for Reversed {
    ghost place = { λ _ n. from_root n };

    ghost placed = { λ _ p. nat_le (length p) 254 };

    ghost compared = { λ _ a b. by_octets a b };

    ghost families = { λ _. true };

    ghost beneath = { λ _ a b. goes_on a b };

    ghost places = { λ o n h. from_root_place n h };

    ghost short = { λ o p h. few_octets p h };

    ghost ring = { λ o. total_ring _ _ octets_total };

    ghost family = { λ o h. reversed_family };

    fn is_place(&self, octets: &[u8]) -> bool {
        octets.len() <= MAX_PLACE
    }

    fn compare(&self, a: &[u8], b: &[u8]) -> Ordering {
        a.cmp(b)
    }

    fn keeps_families(&self) -> bool {
        true
    }

    fn is_below(&self, a: &[u8], b: &[u8]) -> bool {
        goes_on(a, b)
    }

    fn write_place(&self, name: &[u8], out: &mut [u8; MAX_NAME]) -> Result<usize, Refusal> {
        let name = Name::read(name)?;
        Ok(write_reversed(&name, out))
    }
}
