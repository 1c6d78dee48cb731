ghost use Rattle.std.specs.Prelude.{◌≡◌, ◌%◌, sum, refl};
ghost use Rattle.digests.specs.Sums.{byte_sum};
ghost use Rattle.std.proofs.Common.{lit≤};
ghost use Rattle.digests.specs.Octets.{sum_octets};

use crate::digest::Digest;

// A digest of one octet, the sum of all octets mod 256. Other octets with the same digest are easily found, so it is for
// trials.
#[derive(Clone, Copy)]
pub struct ByteSum;

// The sum of octets mod 256.
fn sum_of(s: &[u8]) -> u8
    ensures { result ≡ sum s.now % 256 }
{
    s.iter().fold(0, |t, b| t.wrapping_add(*b))
}

impl Digest for ByteSum {
    const LEN: usize = 1;

    ghost LEN = { 1 };

    ghost hash = { byte_sum };

    ghost some = { lit≤ tt };

    ghost short = { lit≤ tt };

    ghost exact = { λ _. refl };

    ghost octets = { sum_octets };

    fn digest(&self, a: &[u8], b: &[u8], out: &mut [u8; 255]) -> usize {
        out[0] = sum_of(a).wrapping_add(sum_of(b));
        Self::LEN
    }
}
