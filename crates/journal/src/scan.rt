// What the notes say, found by going through them.
ghost use Rattle.std.specs.Prelude.{◌≡◌};
ghost use Rattle.books.specs.Answers.{some};
ghost use Rattle.books.specs.Held.{entry_of, entry_after, first_entry};
ghost use Rattle.books.specs.Stored.{entry_in};
ghost use Rattle.journal.specs.Notes.{held_by, mentions, entry_at};
ghost use Rattle.journal.specs.View.{shown};
ghost use Rattle.names.specs.View.{labels as labels_in};
ghost use Rattle.std.specs.Option.{option_map};

use crate::note::Note;
use books::named::Named;
use names::name::Name;

// The wire form of the root.
const ROOT: [u8; 1] = [0];

// Whether one of the notes names the name.
fn is_mentioned(notes: &[Note], name: &Name<'_>) -> bool
    ensures { result ≡ mentions (labels_in name.now) (shown notes.now) }
{
    notes.iter().any(|note| *name == note.name())
}

// The name and the types of the note at i, if it is live.
pub(crate) fn live_at(notes: &[Note], i: usize) -> Option<&Named>
    ensures { option_map (λ e. entry_in e.now) result ≡ entry_at (shown notes.now) i }
{
    match notes.get(i)? {
        Note::Put(named) if !is_mentioned(&notes[i + 1..], &named.name()) => Some(named),
        _ => None,
    }
}

// The index of the newest note of a name, if that is a put.
pub(crate) fn put_of(notes: &[Note], name: &Name<'_>) -> Option<usize>
    ensures { option_map (entry_at (shown notes.now)) result ≡ some (entry_of (labels_in name.now) (held_by (shown notes.now))) }
{
    let i = notes.iter().rposition(|note| *name == note.name())?;
    notes[i].is_put().then_some(i)
}

// The index of the live note that has the least name greater than a name.
pub(crate) fn least_after(notes: &[Note], after: &Name<'_>) -> Option<usize>
    ensures { option_map (entry_at (shown notes.now)) result ≡ some (entry_after (labels_in after.now) (held_by (shown notes.now))) }
{
    let mut best: Option<(usize, Name<'_>)> = None;
    for (i, note) in notes.iter().enumerate().rev() {
        let name = note.name();
        if *after < name {
            // Kept: a `match`; with `is_none_or` the proof did not close, since nothing was known of what its closure answers.
            let is_nearer = match best {
                Some((_, least)) => name < least,
                None => true,
            };
            if is_nearer && live_at(notes, i).is_some() {
                best = Some((i, name));
            }
        }
    }
    best.map(|(i, _)| i)
}

// The index of the live note that has the least name. The root is less than all other names.
pub(crate) fn least(notes: &[Note]) -> Option<usize>
    ensures { option_map (entry_at (shown notes.now)) result ≡ some (first_entry (held_by (shown notes.now))) }
{
    let root = Name::read(&ROOT).unwrap();
    // Kept: a `match`; with `or_else` the proof did not close, since nothing was known of what this closure answers.
    match put_of(notes, &root) {
        Some(i) => Some(i),
        None => least_after(notes, &root),
    }
}
