// A table as a book.
ghost use Rattle.std.specs.Prelude.{◌≡◌};
ghost use Rattle.std.specs.Option.{option_map};
ghost use Rattle.books.specs.Answers.{some};
ghost use Rattle.table.specs.Tables.{held_by, slot_count, entry_at};
ghost use Rattle.books.specs.Held.{one_each};

use crate::Table;
use books::book::Book;
use names::name::{MAX_NAME, Name};
use names::refusal::Refusal;
use names::types::TypeSet;

impl Table<'_> {
    // An index as a slot number, if there is an entry.
    fn slot(&self, i: usize) -> Option<usize>
        ensures { option_map (entry_at self.now) result ≡ some (entry_at self.now i) }
    {
        (i < self.entries().len()).then_some(i)
    }
}

impl<'a> Book for Table<'a> {
    ghost held = { held_by };

    ghost rising = { λ t. t.sorted };

    ghost most = { slot_count };

    ghost charge = { λ _. one_each };

    ghost entry = { entry_at };

    fn capacity(&self) -> usize {
        self.shelf.capacity()
    }

    fn cost(&self, name: &[u8]) -> Result<usize, Refusal> {
        Name::read(name)?;
        Ok(1)
    }

    fn find(&self, name: &[u8]) -> Result<Option<usize>, Refusal> {
        let name = Name::read(name)?;
        Ok(self.position(&name).ok())
    }

    fn next(&self, name: &[u8]) -> Result<Option<usize>, Refusal> {
        let name = Name::read(name)?;
        let after = self.entries().partition_point(|entry| entry.name() <= name);
        Ok(self.slot(after))
    }

    fn first(&self) -> Option<usize> {
        self.slot(0)
    }

    fn types(&self, slot: usize) -> Option<TypeSet> {
        let entry = self.entries().get(slot)?;
        Some(entry.types())
    }

    fn write_name(&self, slot: usize, out: &mut [u8; MAX_NAME]) -> Option<usize> {
        let entry = self.entries().get(slot)?;
        Some(entry.name().write_lower(out))
    }

    fn put(&mut self, name: &[u8], types: &TypeSet) -> Result<(), Refusal> {
        self.insert(name, types)
    }

    fn take(&mut self, name: &[u8]) -> Result<(), Refusal> {
        self.remove(name)
    }
}
