ghost use Rattle.std.specs.Prelude.{◌≡◌, ℕ, ◌<◌, ◌≤◌, List, ◌++◌, length, drop, slice_index};

// A way to make of any octets a digest: octets of a fixed number.
pub trait Digest {
    // How many octets a digest has.
    const LEN: usize;

    // the same, for clauses
    ghost LEN: { ℕ };

    // the digest of octets
    ghost hash: { List ℕ → List ℕ };

    // Writes the digest of a and b joined to the front of the buffer, and answers how many octets that is. What lies
    // past them stays.
    // Kept: a buffer of the caller and a length, since the library has no heap.
    fn digest(&self, a: &[u8], b: &[u8], out: &mut [u8; 255]) -> usize
        ensures value { result ≡ LEN }
        ensures buffer { out.new ≡ hash (a.now ++ b.now) ++ drop LEN out.old };

    ghost some: { 1 ≤ LEN };

    ghost short: { LEN ≤ 255 };

    ghost exact: { (xs : List ℕ) → length (hash xs) ≡ LEN };

    ghost octets: { (xs : List ℕ) (i : ℕ) → slice_index (hash xs) i < 256 };
}
