ghost use Rattle.std.specs.Prelude.{◌≡◌, ◌≤◌, Bool, true, length, Ok};
ghost use Rattle.std.specs.declared.cmp.Ordering.{Ordering};
ghost use Rattle.names.specs.Wire.{Octets, Labels, is_labels};
ghost use Rattle.names.specs.Refusals.{of_name};
ghost use Rattle.orders.specs.Places.{place_written};
ghost use Rattle.orders.specs.Ring.{Ring, Family};

use names::name::MAX_NAME;
use names::refusal::Refusal;
use std::cmp::Ordering;

// An order of names: a place for each, which strings are places, and how two places compare. The members and laws say
// what an order means; none of its answers ever changes.
pub trait Order {
    // the place of a name; names that differ only in case are one name
    ghost place: { Self → Labels → Octets };

    ghost placed: { Self → Octets → Bool };

    // how two places compare; what it says of strings that are no places is open
    ghost compared: { Self → Octets → Octets → Ordering };

    // the order keeps families: names below a name stand together, right behind it
    ghost families: { Self → Bool };

    // a place is below another; what it says is open but for places of names under an order that keeps families
    ghost beneath: { Self → Octets → Octets → Bool };

    // Whether the string is a place.
    fn is_place(&self, octets: &[u8]) -> bool
        ensures { result ≡ placed self.now octets.now };

    // How two places compare.
    fn compare(&self, a: &[u8], b: &[u8]) -> Ordering
        ensures { result ≡ compared self.now a.now b.now };

    // Whether the order keeps families.
    // Kept: a question of each order, and no Option of the next one, so that code over any order is written once.
    fn keeps_families(&self) -> bool
        ensures { result ≡ families self.now };

    // Whether the place a is below b.
    fn is_below(&self, a: &[u8], b: &[u8]) -> bool
        ensures { result ≡ beneath self.now a.now b.now };

    // The place of a name to the front of a buffer, and its length; what lies past it stays.
    // Kept: a buffer of the caller and a length, since the library has no heap.
    fn write_place(&self, name: &[u8], out: &mut [u8; MAX_NAME]) -> Result<usize, Refusal>
        ensures value { result ≡ of_name name.now (λ n. Ok (length (place self.now n))) }
        ensures buffer { out.new ≡ place_written (place self.now) name.now out.old };

    ghost places: { (o : Self) (n : Labels) → is_labels n ≡ true → placed o (place o n) ≡ true };

    ghost short: { (o : Self) (p : Octets) → placed o p ≡ true → length p ≤ 255 };

    ghost ring: { (o : Self) → Ring (placed o) (compared o) };

    ghost family: { (o : Self) → families o ≡ true → Family (place o) (compared o) (beneath o) };
}
