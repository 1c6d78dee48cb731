// All names of a book with their types, in canonical order.
#![tactic(auto)]

ghost use Rattle.std.specs.Prelude.{◌≡◌, IfOk, if◌then◌else◌, None};
ghost use Rattle.books.specs.Answers.{some};
ghost use Rattle.books.specs.Held.{entry_after};
ghost use Rattle.listing.specs.Rows.{entries_in, shown, shown_by};
ghost use Rattle.names.specs.TypeView.{words};
ghost use Rattle.names.specs.Wire.{is_name, labels_of};
ghost use Rattle.std.specs.Option.{option_map};

use books::book::Book;
use names::name::MAX_NAME;
use names::types::TypeSet;
use std::alloc::{AllocError, Global};

// A held name, in lower case, and its types.
#[derive(Drop)]
pub struct Row {
    octets: Vec<u8>,
    types: TypeSet,
}

impl Row {
    // The octets of the name, in lower case.
    pub fn octets(&self) -> &[u8]
        ensures { result.now ≡ (shown_by self.now).0 }
    {
        self.octets.as_slice()
    }

    pub fn types(&self) -> TypeSet
        ensures { words result ≡ (shown_by self.now).1 }
    {
        self.types
    }
}

// The row of a slot, if it stands for an entry.
fn row_at<B: Book>(heap: Global, book: &B, slot: usize) -> Result<Option<Row>, AllocError>
    ensures { IfOk result (λ o. option_map shown_by o ≡ option_map shown (B.Book.entry book.now slot)) }
{
    let mut name = [0; MAX_NAME];
    let Some(n) = book.write_name(slot, &mut name) else {
        return Ok(None);
    };
    let Some(types) = book.types(slot) else {
        return Ok(None);
    };
    let octets = Vec::from_slice(heap, &name[..n])?;
    Ok(Some(Row { octets, types }))
}

// The slot after that of a name, if there is one.
fn slot_after<B: Book>(book: &B, name: &[u8]) -> Option<usize>
    ensures { option_map (B.Book.entry book.now) result ≡ (if is_name name.now then some (entry_after (labels_of name.now) (B.Book.held book.now)) else None) }
{
    book.next(name).ok().flatten()
}

// The rows of a book.
pub fn rows<B: Book>(heap: Global, book: &B) -> Result<Vec<Row>, AllocError>
    ensures { IfOk result (λ v. entries_in v.items ≡ B.Book.held book.now) }
{
    let mut rows = Vec::new(heap);
    let mut slot = book.first();
    while let Some(s) = slot {
        let Some(row) = row_at(heap, book, s)? else {
            break;
        };
        slot = slot_after(book, &row.octets);
        rows.push(row)?;
    }
    Ok(rows)
}
