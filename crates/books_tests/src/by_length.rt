// A book in the slots of a table, in which a name costs its length: of N slots it holds N octets of names.
ghost use Rattle.std.specs.Prelude.{◌≡◌};
ghost use Rattle.books.specs.Answers.{of_name, put_name};
ghost use Rattle.books_tests.specs.Octets.{octets_of, rest};
ghost use Rattle.table.specs.Ranks.{entries_in};
ghost use Rattle.table.specs.Tables.{held_by, slot_count, entry_at};

use books::book::Book;
use books::named::Named;
use names::name::{MAX_NAME, Name};
use names::refusal::Refusal;
use names::types::TypeSet;
use table::Table;

#[derive(Drop)]
pub struct ByLength<'a, 'b> {
    table: &'a mut Table<'b>,
}

// What the names of the entries leave of so many octets, if these suffice.
fn left_of(octets: usize, entries: &[Named]) -> Option<usize>
    ensures { result ≡ rest octets (entries_in entries.now) }
{
    let mut left = octets;
    for entry in entries {
        left = left.checked_sub(entry.name().octets().len())?;
    }
    Some(left)
}

impl<'a, 'b> ByLength<'a, 'b> {
    pub(crate) fn new(table: &'a mut Table<'b>) -> Self
        ensures { result.table.now ≡ table.old }
    {
        ByLength { table }
    }

    // What is left of the capacity, if the names held do not exceed it.
    fn left(&self) -> Option<usize>
        ensures { result ≡ rest (slot_count self.now.table.now) (held_by self.now.table.now) }
    {
        left_of(self.table.capacity(), self.table.entries())
    }

    // Whether a name may be put.
    fn admit(&self, name: &[u8]) -> Result<(), Refusal>
        ensures { result ≡ of_name name.now (put_name (slot_count self.now.table.now) octets_of (held_by self.now.table.now)) }
    {
        let cost = self.cost(name)?;
        if self.find(name)?.is_some() {
            return Err(Refusal::Held);
        }
        match self.left() {
            Some(left) if cost <= left => Ok(()),
            _ => Err(Refusal::BookFull),
        }
    }
}

impl<'a, 'b> Book for ByLength<'a, 'b> {
    ghost held = { λ b. held_by b.table.now };

    ghost rising = { λ b. b.table.now.sorted };

    ghost most = { λ b. slot_count b.table.now };

    ghost charge = { λ _. octets_of };

    ghost entry = { λ b i. entry_at b.table.now i };

    fn capacity(&self) -> usize {
        self.table.capacity()
    }

    fn cost(&self, name: &[u8]) -> Result<usize, Refusal> {
        let name = Name::read(name)?;
        Ok(name.octets().len())
    }

    fn find(&self, name: &[u8]) -> Result<Option<usize>, Refusal> {
        self.table.find(name)
    }

    fn next(&self, name: &[u8]) -> Result<Option<usize>, Refusal> {
        self.table.next(name)
    }

    fn first(&self) -> Option<usize> {
        self.table.first()
    }

    fn types(&self, slot: usize) -> Option<TypeSet> {
        self.table.types(slot)
    }

    fn write_name(&self, slot: usize, out: &mut [u8; MAX_NAME]) -> Option<usize> {
        self.table.write_name(slot, out)
    }

    fn put(&mut self, name: &[u8], types: &TypeSet) -> Result<(), Refusal> {
        self.admit(name)?;
        self.table.insert(name, types)
    }

    fn take(&mut self, name: &[u8]) -> Result<(), Refusal> {
        self.table.remove(name)
    }
}
