ghost use Rattle.std.specs.Prelude.{◌≡◌, IfOk, string_bytes};
ghost use Rattle.names.specs.TypeView.{words as words_in};
ghost use Rattle.names.specs.View.{labels as labels_in};
ghost use Rattle.script.specs.Record.{record_line, entry_line};

use crate::name::name_text;
use crate::set::set_text;
use names::name::Name;
use names::types::TypeSet;
use std::alloc::{AllocError, Global};

// A line of the script and its answer.
pub fn record_line(heap: Global, line: &str, answer: &str) -> Result<String, AllocError>
    ensures { IfOk result (λ s. string_bytes s ≡ record_line line.now answer.now) }
{
    format!(in heap; "{line} => {answer}")
}

// A name and its types, indented.
pub fn entry_line(heap: Global, name: &Name<'_>, types: &TypeSet) -> Result<String, AllocError>
    ensures { IfOk result (λ s. string_bytes s ≡ entry_line (labels_in name.now) (words_in types.now)) }
{
    let name = name_text(heap, name)?;
    let types = set_text(heap, types)?;
    format!(in heap; "  {name} {types}")
}
