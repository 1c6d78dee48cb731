// The notes of a journal, and how they are kept.
ghost use Rattle.std.specs.Prelude.{◌≡◌, ◌<◌, [], ◌∷◌, ◌++◌, length, nat_lt};
ghost use Rattle.books.specs.Answers.{of_name, put_name, take_name};
ghost use Rattle.journal.specs.Notes.{held_by, compacted, readied, notes_after_put, notes_after_take};
ghost use Rattle.books.specs.Held.{one_each};
ghost use Rattle.journal.specs.State.{all_slots, slots_of, notes_of, notes_shown};
ghost use Rattle.names.specs.TypeView.{words as words_in};
ghost use Rattle.std.specs.List.{remove};

use crate::journal::Journal;
use crate::note::Note;
use crate::scan::{live_at, put_of};
use books::named::Named;
use names::refusal::Refusal;
use names::types::TypeSet;
use shelf::Shelf;

// Kept: each call that changes notes says that the number of slots stays; an invariant speaks of one state, not of two.
impl<'a> Journal<'a> {
    // A journal with no note; the slots stay as they are.
    pub fn new(slots: &'a mut [Note]) -> Self
        ensures notes { notes_of result ≡ [] }
        ensures slots { all_slots result ≡ slots.old }
    {
        Journal {
            shelf: Shelf::new(slots),
        }
    }

    // The notes, the oldest first.
    pub fn notes(&self) -> &[Note]
        ensures { result.now ≡ notes_of self.now }
    {
        self.shelf.entries()
    }

    // One note more, in a free slot.
    fn add(&mut self, note: Note)
        requires { length (notes_of self.old) < slots_of self.old }
        ensures notes { notes_of self.new ≡ notes_of self.old ++ (note ∷ []) }
        ensures slots { slots_of self.new ≡ slots_of self.old }
    {
        let n = self.notes().len();
        self.shelf.put(n, note);
    }

    // One note less.
    fn remove(&mut self, i: usize)
        requires { i < length (notes_of self.old) }
        ensures notes { notes_of self.new ≡ remove (notes_of self.old) i }
        ensures slots { slots_of self.new ≡ slots_of self.old }
    {
        self.shelf.take(i);
    }

    // Removes all notes that are not live. Each is judged by those after it, which all still stand then.
    fn compact(&mut self)
        ensures notes { notes_shown self.new ≡ compacted (notes_shown self.old) }
        ensures slots { slots_of self.new ≡ slots_of self.old }
    {
        // Kept: an index, since what stays depends on the notes behind it, which a `retain` does not show its closure.
        let mut i = 0;
        while i < self.notes().len() {
            if live_at(self.notes(), i).is_some() {
                i += 1;
            } else {
                self.remove(i);
            }
        }
    }

    // Sees that a slot is free, by compaction where none is; false, and nothing altered, where all slots have live notes.
    // Kept: a bool, since nothing comes with the answer, and `note_take` goes on where it is false.
    fn make_room(&mut self) -> bool
        ensures answer { result ≡ nat_lt (length (compacted (notes_shown self.old))) (slots_of self.old) }
        ensures notes { notes_shown self.new ≡ readied (slots_of self.old) (notes_shown self.old) }
        ensures slots { slots_of self.new ≡ slots_of self.old }
    {
        if self.notes().len() == self.shelf.capacity() {
            self.compact();
        }
        self.notes().len() < self.shelf.capacity()
    }

    // Notes that a name is put with types. What lies in the slots past the notes is open.
    pub fn note_put(&mut self, name: &[u8], types: &TypeSet) -> Result<(), Refusal>
        ensures answer { result ≡ of_name name.now (put_name (slots_of self.old) one_each (held_by (notes_shown self.old))) }
        ensures notes { notes_shown self.new ≡ notes_after_put (slots_of self.old) (notes_shown self.old) name.now (words_in types.now) }
        ensures slots { slots_of self.new ≡ slots_of self.old }
    {
        let named = Named::new(name, types)?;
        if put_of(self.notes(), &named.name()).is_some() {
            return Err(Refusal::Held);
        }
        if !self.make_room() {
            return Err(Refusal::BookFull);
        }
        self.add(Note::Put(named));
        Ok(())
    }

    // Notes that a name is taken. What lies in the slots past the notes is open.
    pub fn note_take(&mut self, name: &[u8]) -> Result<(), Refusal>
        ensures answer { result ≡ of_name name.now (take_name (held_by (notes_shown self.old))) }
        ensures notes { notes_shown self.new ≡ notes_after_take (slots_of self.old) (notes_shown self.old) name.now }
        ensures slots { slots_of self.new ≡ slots_of self.old }
    {
        let named = Named::new(name, &TypeSet::empty())?;
        let Some(i) = put_of(self.notes(), &named.name()) else {
            return Err(Refusal::NotHeld);
        };
        if self.make_room() {
            self.add(Note::Take(named));
        } else {
            self.remove(i);
        }
        Ok(())
    }
}
