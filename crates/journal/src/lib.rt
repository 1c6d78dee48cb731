// A book that notes what is put and taken, the oldest note first, in slots that the caller lends. A name costs 1, and the
// capacity is the number of slots. Where no slot is free, the notes that no longer count make room.
#![tactic(auto)]

mod journal;
mod note;
mod scan;

pub use journal::Journal;
pub use note::Note;
