// A note of a journal.
ghost use Rattle.std.specs.Prelude.{◌≡◌};
ghost use Rattle.books.specs.Stored.{blank as blank_contents};
ghost use Rattle.journal.specs.Notes.{takes, is_put, name_noted};
ghost use Rattle.journal.specs.View.{note_contents};
ghost use Rattle.names.specs.View.{labels as labels_in};

use books::named::Named;
use names::name::Name;

#[derive(Clone, Copy)]
pub enum Note {
    // a name was put, with these types
    Put(Named),
    // a name was taken; there are no types
    Take(Named),
}

impl Note {
    // What a slot holds before any note is written there.
    pub fn blank() -> Note
        ensures { note_contents result ≡ takes blank_contents }
    {
        Note::Take(Named::blank())
    }

    pub(crate) fn is_put(&self) -> bool
        ensures { result ≡ is_put (note_contents self.now) }
    {
        matches!(self, Note::Put(_))
    }

    // The name that was put or taken.
    pub(crate) fn name(&self) -> Name<'_>
        ensures { labels_in result ≡ name_noted (note_contents self.now) }
    {
        let (Note::Put(named) | Note::Take(named)) = self;
        named.name()
    }
}
