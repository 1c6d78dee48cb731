ghost use Rattle.std.specs.Prelude.{◌≡◌, ℕ, true, length, Ok, Option};
ghost use Rattle.books.specs.Answers.{of_name, found, some, put_name, take_name, put_held, take_held, name_written};
ghost use Rattle.books.specs.Held.{Held, Entry, rises, entry_of, entry_after, first_entry};
ghost use Rattle.names.specs.TypeView.{words};
ghost use Rattle.names.specs.Wire.{Labels, wire};
ghost use Rattle.std.specs.Option.{option_map};

use names::name::MAX_NAME;
use names::refusal::Refusal;
use names::types::TypeSet;

// A book: a capacity, a cost for each name, and the names held, each with its types.
// Kept: names come as octets, as to an order, since it is the book that answers what is no name.
pub trait Book {
    // the names held with their types, strictly rising in canonical order
    ghost held: { Self → Held };

    ghost rising: { (b : Self) → rises (held b) ≡ true };

    ghost most: { Self → ℕ };

    ghost charge: { Self → Labels → ℕ };

    // the entry that a slot number stands for
    ghost entry: { Self → ℕ → Option Entry };

    // What the names held may cost together at most.
    fn capacity(&self) -> usize
        ensures { result ≡ most self.now };

    // What a name costs.
    fn cost(&self, name: &[u8]) -> Result<usize, Refusal>
        ensures { result ≡ of_name name.now (λ n. Ok (charge self.now n)) };

    // The slot of a name, if the name is held.
    fn find(&self, name: &[u8]) -> Result<Option<usize>, Refusal>
        ensures { found (entry self.now) result ≡ of_name name.now (λ n. Ok (some (entry_of n (held self.now)))) };

    // The slot of the first held name that is greater than a name.
    fn next(&self, name: &[u8]) -> Result<Option<usize>, Refusal>
        ensures { found (entry self.now) result ≡ of_name name.now (λ n. Ok (some (entry_after n (held self.now)))) };

    // The slot of the least held name.
    fn first(&self) -> Option<usize>
        ensures { option_map (entry self.now) result ≡ some (first_entry (held self.now)) };

    // The types in a slot.
    fn types(&self, slot: usize) -> Option<TypeSet>
        ensures { option_map words result ≡ option_map (λ e. e.1) (entry self.now slot) };

    // The name in a slot, in lower case, to the front of a buffer, and its length; what lies past it stays.
    // Kept: a buffer of the caller and a length, since the library has no heap.
    fn write_name(&self, slot: usize, out: &mut [u8; MAX_NAME]) -> Option<usize>
        ensures value { result ≡ option_map (λ e. length (wire e.0)) (entry self.now slot) }
        ensures buffer { out.new ≡ name_written (entry self.now slot) out.old };

    // One name more, with its types.
    fn put(&mut self, name: &[u8], types: &TypeSet) -> Result<(), Refusal>
        ensures answer { result ≡ of_name name.now (put_name (most self.old) (charge self.old) (held self.old)) }
        ensures held { held self.new ≡ put_held (most self.old) (charge self.old) (held self.old) name.now (words types.now) }
        ensures capacity { most self.new ≡ most self.old }
        ensures cost { (n : Labels) → charge self.new n ≡ charge self.old n };

    // One name less.
    fn take(&mut self, name: &[u8]) -> Result<(), Refusal>
        ensures answer { result ≡ of_name name.now (take_name (held self.old)) }
        ensures held { held self.new ≡ take_held (held self.old) name.now }
        ensures capacity { most self.new ≡ most self.old }
        ensures cost { (n : Labels) → charge self.new n ≡ charge self.old n };
}
