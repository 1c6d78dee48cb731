// The types of a set.
ghost use Rattle.std.specs.Prelude.{◌≡◌, ℕ, ◌&&◌, ◌||◌, ◌==◌, nat_lt};
ghost use Rattle.names.specs.TypeView.{words as words_in};
ghost use Rattle.names.specs.Types.{has, with, room, no_types, mask_of};

use crate::types::{BITS, TypeSet, WORDS};

// The octet with the highest bit alone.
const HIGHEST: u8 = 128;

// The octet with the bit of type t alone.
fn mask_of(t: u16) -> u8
    ensures { result ≡ mask_of t }
{
    HIGHEST >> (t % BITS)
}

impl TypeSet {
    // The set of no type.
    pub fn empty() -> TypeSet
        ensures { words_in result ≡ no_types }
    {
        TypeSet { words: [0; WORDS] }
    }

    // Whether t is in the set; a type past the last octet is in none.
    pub fn has(&self, t: u16) -> bool
        ensures { result ≡ has (words_in self.now) t }
    {
        let i = usize::from(t / BITS);
        if i >= WORDS {
            return false;
        }
        self.words[i] & mask_of(t) != 0
    }

    // The set with t besides; a type past the last octet leaves it as it is.
    pub fn with(&self, t: u16) -> TypeSet
        ensures value { words_in result ≡ with (words_in self.now) t }
        ensures members { (u : ℕ) → has (words_in result) u ≡ (has (words_in self.now) u || (u == t && nat_lt t room)) }
    {
        let mut words = self.words;
        let i = usize::from(t / BITS);
        if i < WORDS {
            words[i] |= mask_of(t);
        }
        TypeSet { words }
    }
}
