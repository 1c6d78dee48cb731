use crate::note::Note;
use shelf::Shelf;

mod answering;
mod keeping;

// A journal: the notes of what was put and taken, the oldest first.
#[derive(Drop)]
pub struct Journal<'a> {
    shelf: Shelf<'a, Note>,
}
