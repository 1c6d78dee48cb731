ghost use Rattle.std.specs.Prelude.{◌≡◌, true};
ghost use Rattle.names.specs.Wire.{lower_octets, wire};
ghost use Rattle.orders.specs.Places.{is_lower_name, by_names, below_names};
ghost use Rattle.orders.specs.ByName.{wire_place, place_short, names_ring, names_family};

use crate::order::Order;
use names::name::{MAX_NAME, Name};
use names::refusal::Refusal;
use std::cmp::Ordering;

const KEEPS_FAMILIES: bool = true;

// Whether no octet is a letter in upper case.
fn is_lower(octets: &[u8]) -> bool
    ensures { result ≡ lower_octets octets.now }
{
    octets.iter().all(|x| !x.is_ascii_uppercase())
}

// Canonical order (RFC 4034 section 6.1). A name's place is its wire form in lower case.
#[derive(Clone, Copy)]
pub struct Canonical;

impl Order for Canonical {
    ghost place = { λ _ n. wire n };

    ghost placed = { λ _ p. is_lower_name p };

    ghost compared = { λ _ a b. by_names a b };

    ghost families = { λ _. true };

    ghost beneath = { λ _ a b. below_names a b };

    ghost places = { λ o n h. wire_place n h };

    ghost short = { λ o p h. place_short p h };

    ghost ring = { λ o. names_ring };

    ghost family = { λ o h. names_family };

    fn is_place(&self, octets: &[u8]) -> bool {
        Name::read(octets).is_ok() && is_lower(octets)
    }

    fn compare(&self, a: &[u8], b: &[u8]) -> Ordering {
        let (Ok(a), Ok(b)) = (Name::read(a), Name::read(b)) else {
            return Ordering::Equal;
        };
        a.cmp(&b)
    }

    fn keeps_families(&self) -> bool {
        KEEPS_FAMILIES
    }

    fn is_below(&self, a: &[u8], b: &[u8]) -> bool {
        let (Ok(a), Ok(b)) = (Name::read(a), Name::read(b)) else {
            return false;
        };
        a.is_below(&b)
    }

    fn write_place(&self, name: &[u8], out: &mut [u8; MAX_NAME]) -> Result<usize, Refusal> {
        let name = Name::read(name)?;
        Ok(name.write_lower(out))
    }
}
