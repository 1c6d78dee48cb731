// A book that keeps its entries in canonical order, in slots that the caller lends.
#![tactic(auto)]

ghost use Rattle.std.specs.Prelude.{◌≡◌, true};
ghost use Rattle.books.specs.Held.{rises};
ghost use Rattle.shelf.specs.Entries.{live};
ghost use Rattle.table.specs.Ranks.{entries_in};

use books::named::Named;
use shelf::Shelf;

mod keeping;
mod table_book;

// A name costs 1, and the capacity is the number of slots.
#[derive(Drop)]
pub struct Table<'a> {
    shelf: Shelf<'a, Named>,
    ghost sorted: { rises (entries_in (live shelf.slots.now shelf.count)) ≡ true },
}
