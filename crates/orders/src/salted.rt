ghost use Rattle.std.specs.Prelude.{◌≤◌};

mod hashing;
mod salted_order;

// How many octets a salt has at most.
pub const MAX_SALT: usize = 32;

// How many further iterations there are at most.
pub const MAX_ITERATIONS: u16 = 150;

// A salted order over a digest (RFC 5155 section 5): a name's place is the digest of its lower-case wire form and the
// salt, and then, as often as there are iterations, the digest of the last result and the salt.
// Kept: the salt has its length beside it, since a slice would bind the order to memory of the caller, and a Vec needs a heap.
#[derive(Drop)]
pub struct Salted<D: Drop> {
    digest: D,
    salt: [u8; MAX_SALT],
    salt_len: usize,
    iterations: u16,
    ghost short: { salt_len ≤ 32 },
    ghost few: { iterations ≤ 150 },
}
