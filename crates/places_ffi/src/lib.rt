// SHA-1, and places of names under salted orders over it, as functions that a C program can call.
#![tactic(auto)]

ghost use Rattle.std.specs.Prelude.{◌≡◌, ◌&&◌, ◌++◌, drop, if◌then◌else◌};
ghost use Rattle.digests.specs.Sha.{sha1 as sha1_of};
ghost use Rattle.names.specs.Wire.{is_name, wire};
ghost use Rattle.orders.specs.Places.{iterated, place_written};
ghost use Rattle.orders.specs.Salts.{allowed};

use digests::digest::Digest;
use digests::sha1::Sha1;
use orders::order::Order;
use orders::salted::Salted;

// Writes SHA-1 of a and b joined to the front of the buffer, and answers how many octets that is. What lies past them
// stays.
#[unsafe(no_mangle)]
pub extern "C" fn digest_sha1(a: &[u8], b: &[u8], out: &mut [u8; 255]) -> usize
    ensures value { result ≡ 20 }
    ensures buffer { out.new ≡ sha1_of (a.now ++ b.now) ++ drop 20 out.old }
{
    Sha1.digest(a, b, out)
}

// Writes the place of a name under the salted order over SHA-1 with this salt and so many further iterations to the
// front of the buffer, and answers how many octets that is. What lies past them stays. Where the octets are no name, or
// there is no such order, the answer is 0, and the buffer stays.
// Kept: a buffer with a length, here and above, and 0 in place of an Option, since C calls both.
#[unsafe(no_mangle)]
pub extern "C" fn place_sha1(
    name: &[u8],
    salt: &[u8],
    iterations: u16,
    out: &mut [u8; 255],
) -> usize
    ensures value { result ≡ (if allowed salt.now iterations && is_name name.now then 20 else 0) }
    ensures buffer { out.new ≡ (if allowed salt.now iterations then place_written (λ n. iterated sha1_of salt.now (wire n) iterations) name.now out.old else out.old) }
{
    match Salted::new(Sha1, salt, iterations) {
        Ok(order) => order.write_place(name, out).unwrap_or(0),
        Err(_) => 0,
    }
}
