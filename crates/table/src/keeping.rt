// The slots of a table.
ghost use Rattle.std.specs.Prelude.{◌≡◌, []};
ghost use Rattle.books.specs.Answers.{of_name, put_name, take_name, put_held, take_held};
ghost use Rattle.names.specs.TypeView.{words as words_in};
ghost use Rattle.names.specs.View.{labels as labels_in};
ghost use Rattle.table.specs.Ranks.{standing};
ghost use Rattle.table.specs.Tables.{in_use, held_by, slot_count, kept, inserted_in, removed_from};
ghost use Rattle.books.specs.Held.{one_each};

use crate::Table;
use books::named::Named;
use names::name::Name;
use names::refusal::Refusal;
use names::types::TypeSet;
use shelf::Shelf;

impl<'a> Table<'a> {
    // A table without an entry; what lies in the slots does not matter.
    pub fn new(slots: &'a mut [Named]) -> Self
        ensures held { held_by result ≡ [] }
        ensures slots { result.shelf.slots.now ≡ slots.old }
    {
        Table {
            shelf: Shelf::new(slots),
        }
    }

    // The slots in use, in canonical order of their names.
    pub fn entries(&self) -> &[Named]
        ensures { result.now ≡ in_use self.now }
    {
        self.shelf.entries()
    }

    // The index of a name's entry, or else the index at which it would stand.
    pub(crate) fn position(&self, name: &Name<'_>) -> Result<usize, usize>
        ensures { result ≡ standing (labels_in name.now) (held_by self.now) }
    {
        self.entries()
            .binary_search_by(|entry| entry.name().cmp(name))
    }

    // One entry more, in its place; the slots behind it move up by one.
    pub fn insert(&mut self, name: &[u8], types: &TypeSet) -> Result<(), Refusal>
        ensures answer { result ≡ of_name name.now (put_name (slot_count self.old) one_each (held_by self.old)) }
        ensures kept { kept self.new ≡ inserted_in self.old name.now (words_in types.now) }
        ensures held { held_by self.new ≡ put_held (slot_count self.old) one_each (held_by self.old) name.now (words_in types.now) }
        ensures slots { slot_count self.new ≡ slot_count self.old }
    {
        let entry = Named::new(name, types)?;
        let Err(i) = self.position(&entry.name()) else {
            return Err(Refusal::Held);
        };
        if self.shelf.put(i, entry) {
            Ok(())
        } else {
            Err(Refusal::BookFull)
        }
    }

    // One entry less; the slots behind it move down by one.
    pub fn remove(&mut self, name: &[u8]) -> Result<(), Refusal>
        ensures answer { result ≡ of_name name.now (take_name (held_by self.old)) }
        ensures kept { kept self.new ≡ removed_from self.old name.now }
        ensures held { held_by self.new ≡ take_held (held_by self.old) name.now }
        ensures slots { slot_count self.new ≡ slot_count self.old }
    {
        let name = Name::read(name)?;
        let Ok(i) = self.position(&name) else {
            return Err(Refusal::NotHeld);
        };
        self.shelf.take(i);
        Ok(())
    }
}
