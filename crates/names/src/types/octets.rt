// Sets of types as octets.
ghost use Rattle.std.specs.Prelude.{◌≡◌, ℕ, ◌/◌, ◌%◌, ◌^◌, not, ◌==◌, bit_and, slice_index};
ghost use Rattle.names.specs.TypeView.{words as words_in};
ghost use Rattle.names.specs.Types.{has};

use crate::types::{TypeSet, WORDS};

// The set that the octets are.
impl From<[u8; WORDS]> for TypeSet {
    ghost from_gives = { λ octets set. words_in set ≡ octets };

    fn from(octets: [u8; WORDS]) -> TypeSet {
        TypeSet { words: octets }
    }
}

impl TypeSet {
    // The octets of the set.
    // Kept: no `From`, since at a call this name says what comes, and the array's type need not be written there.
    pub fn to_octets(&self) -> [u8; WORDS]
        ensures value { result ≡ words_in self.now }
        ensures layout { (t : ℕ) → has (words_in self.now) t ≡ not (bit_and (slice_index result (t / 8)) (128 / 2 ^ (t % 8)) == 0) }
    {
        self.words
    }
}
