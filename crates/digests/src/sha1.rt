ghost use Rattle.std.specs.Prelude.{◌≡◌, ◌+◌, ◌≤◌, true, ◌++◌, drop};
ghost use Rattle.digests.specs.Examples.{Sha1Examples};
ghost use Rattle.digests.specs.Sha.{word, ended, sha1 as sha1_of};
ghost use Rattle.std.proofs.Math.Seq.{paste};
ghost use Rattle.std.proofs.Common.{lit≤};
ghost use Rattle.digests.specs.Octets.{sha1_length, sha1_octets};

mod blocks;
mod rounds;

use crate::digest::Digest;
use crate::sha1::blocks::Joined;
use crate::sha1::rounds::State;

// SHA-1 as FIPS 180-4 defines it, for whole octets.
#[derive(Clone, Copy)]
pub struct Sha1;

// Writes the octets of a word at `at`.
fn put_word(out: &mut [u8; 255], at: usize, x: u32)
    requires { at + 4 ≤ 255 }
    ensures { out.new ≡ paste out.old at (word x) 4 }
{
    out[at..at + 4].copy_from_slice(&x.to_be_bytes());
}

// Writes the octets of a hash value to the front.
fn put_state(out: &mut [u8; 255], s: State)
    ensures { out.new ≡ ended s ++ drop 20 out.old }
{
    // Kept: five words at fixed places; a zip of the words with pieces of the buffer says no more, and needs an invariant.
    put_word(out, 0, s.a);
    put_word(out, 4, s.b);
    put_word(out, 8, s.c);
    put_word(out, 12, s.d);
    put_word(out, 16, s.e);
}

impl Digest for Sha1 {
    const LEN: usize = 20;

    ghost LEN = { 20 };

    ghost hash = { sha1_of };

    ghost some = { lit≤ tt };

    ghost short = { lit≤ tt };

    ghost exact = { sha1_length };

    ghost octets = { sha1_octets };

    fn digest(&self, a: &[u8], b: &[u8], out: &mut [u8; 255]) -> usize {
        put_state(out, Joined::new(a, b).hash());
        Self::LEN
    }
}

// The definition gives the digests that NIST publishes of its example messages.
pub fn sha1_examples_hold() -> bool
    ensures answer { result ≡ true }
    ensures examples { Sha1Examples }
{
    true
}
