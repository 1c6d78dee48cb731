// A name and its types, in one slot of a book.
ghost use Rattle.std.specs.Prelude.{◌≡◌, ◌≤◌, true, take};
ghost use Rattle.names.specs.Wire.{is_name};

use names::name::MAX_NAME;
use names::types::TypeSet;

mod slots;

// The first `len` octets are the name, the others are 0.
// Kept: a buffer with its length beside it, since the library has no heap and entries lie in slots that are lent.
#[derive(Clone, Copy)]
pub struct Named {
    octets: [u8; MAX_NAME],
    len: usize,
    types: TypeSet,
    ghost fits: { len ≤ 255 },
    ghost name: { is_name (take len octets) ≡ true },
}
