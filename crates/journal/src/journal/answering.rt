// A journal as a book.
ghost use Rattle.journal.specs.Notes.{held_by, entry_at};
ghost use Rattle.books.specs.Held.{one_each};
ghost use Rattle.journal.specs.Rising.{journal_rises};
ghost use Rattle.journal.specs.State.{notes_shown, slots_of};

use crate::journal::Journal;
use crate::scan::{least, least_after, live_at, put_of};
use books::book::Book;
use names::name::{MAX_NAME, Name};
use names::refusal::Refusal;
use names::types::TypeSet;

// What each name costs.
const NAME_COST: usize = 1;

impl<'a> Book for Journal<'a> {
    ghost held = { λ j. held_by (notes_shown j) };

    ghost rising = { journal_rises };

    ghost most = { slots_of };

    ghost charge = { λ _. one_each };

    ghost entry = { λ j. entry_at (notes_shown j) };

    fn capacity(&self) -> usize {
        self.shelf.capacity()
    }

    fn cost(&self, name: &[u8]) -> Result<usize, Refusal> {
        Name::read(name)?;
        Ok(NAME_COST)
    }

    fn find(&self, name: &[u8]) -> Result<Option<usize>, Refusal> {
        let name = Name::read(name)?;
        Ok(put_of(self.notes(), &name))
    }

    fn next(&self, name: &[u8]) -> Result<Option<usize>, Refusal> {
        let name = Name::read(name)?;
        Ok(least_after(self.notes(), &name))
    }

    fn first(&self) -> Option<usize> {
        least(self.notes())
    }

    fn types(&self, slot: usize) -> Option<TypeSet> {
        Some(live_at(self.notes(), slot)?.types())
    }

    fn write_name(&self, slot: usize, out: &mut [u8; MAX_NAME]) -> Option<usize> {
        Some(live_at(self.notes(), slot)?.name().write_lower(out))
    }

    fn put(&mut self, name: &[u8], types: &TypeSet) -> Result<(), Refusal> {
        self.note_put(name, types)
    }

    fn take(&mut self, name: &[u8]) -> Result<(), Refusal> {
        self.note_take(name)
    }
}
