ghost use Rattle.std.specs.Prelude.{◌≡◌, false, ◌++◌, length, drop, ◌==◌};
ghost use Rattle.names.specs.Canonical.{by_octets};
ghost use Rattle.names.specs.Wire.{wire};
ghost use Rattle.orders.specs.Places.{iterated};
ghost use Rattle.orders.specs.Salts.{salt_of, iterations_of};
ghost use Rattle.std.proofs.lemmas.Bool.{eq-eqb, false≢true};
ghost use Rattle.orders.specs.Hashes.{iterated_length, as_long_at_most};
ghost use Rattle.names.proofs.Ordered.{octets_total};
ghost use Rattle.orders.specs.Strings.{total_ring};

use crate::order::Order;
use crate::salted::Salted;
use digests::digest::Digest;
use names::name::{MAX_NAME, Name};
use names::refusal::Refusal;
use std::cmp::Ordering;

const KEEPS_FAMILIES: bool = false;

impl<D: Digest + Drop> Salted<D> {
    // Step after step, from octets, to the front of a buffer; the length of the last result.
    fn iterate(&self, octets: &[u8], out: &mut [u8; MAX_NAME]) -> usize
        ensures value { result ≡ D.Digest.LEN }
        ensures buffer { out.new ≡ iterated D.Digest.hash (salt_of self.now) octets.now (iterations_of self.now) ++ drop D.Digest.LEN out.old }
    {
        let salt = self.salt();
        let mut n = self.digest.digest(octets, salt, out);
        for _ in 0..self.iterations {
            let last = *out;
            n = self.digest.digest(&last[..n], salt, out);
        }
        n
    }
}

impl<D: Digest + Drop> Order for Salted<D> {
    ghost place = { λ o n. iterated D.Digest.hash (salt_of o) (wire n) (iterations_of o) };

    ghost placed = { λ _ p. (length p == D.Digest.LEN) };

    ghost compared = { λ _ a b. by_octets a b };

    ghost families = { λ _. false };

    ghost beneath = { λ _ _ _. false };

    ghost places = { λ o n h. eq-eqb _ _ (iterated_length D.Digest.hash D.Digest.LEN D.Digest.exact (salt_of o) (wire n) (iterations_of o)) };

    ghost short = { λ o p h. as_long_at_most p _ h D.Digest.short };

    ghost ring = { λ o. total_ring _ by_octets octets_total };

    ghost family = { λ o h. absurd (false≢true h) };

    fn is_place(&self, octets: &[u8]) -> bool {
        octets.len() == D::LEN
    }

    fn compare(&self, a: &[u8], b: &[u8]) -> Ordering {
        a.cmp(b)
    }

    fn keeps_families(&self) -> bool {
        KEEPS_FAMILIES
    }

    fn is_below(&self, _a: &[u8], _b: &[u8]) -> bool {
        KEEPS_FAMILIES
    }

    fn write_place(&self, name: &[u8], out: &mut [u8; MAX_NAME]) -> Result<usize, Refusal> {
        let name = Name::read(name)?;
        let mut lower = [0; MAX_NAME];
        let n = name.write_lower(&mut lower);
        Ok(self.iterate(&lower[..n], out))
    }
}
