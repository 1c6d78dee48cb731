ghost use Rattle.std.specs.Prelude.{◌≡◌, IfOk, Some, string_bytes};
ghost use Rattle.names.specs.TypeView.{words as words_in};
ghost use Rattle.script.specs.Reads.{Reads};
ghost use Rattle.script.specs.SetText.{set_of, types_in, read_set, set_text};
ghost use Rattle.std.specs.Option.{option_map};

use crate::fault::Fault;
use crate::name::octets_fit;
use crate::types::{read_types, types_text};
use names::types::{ROOM, TypeSet};
use std::alloc::{AllocError, Global};

// The set of these types; none where a set has no room for one of them.
fn set_of(types: &[u16]) -> Option<TypeSet>
    ensures { option_map words_in result ≡ set_of types.now }
{
    let mut set = TypeSet::empty();
    for t in types {
        if *t >= ROOM {
            return None;
        }
        set = set.with(*t);
    }
    Some(set)
}

// The types of a set, rising.
fn types_of(heap: Global, set: &TypeSet) -> Result<Vec<u16>, AllocError>
    ensures { IfOk result (λ v. v.items ≡ types_in (words_in set.now)) }
{
    (0..ROOM).filter(|t| set.has(*t)).collect(heap)
}

// The set of types that a text stands for.
pub fn read_set(heap: Global, text: &str) -> Result<TypeSet, Fault>
    ensures { Reads words_in Fault.NotTypes result (read_set text.now) }
{
    let types = read_types(heap, text)?;
    set_of(&types).ok_or(Fault::NotTypes)
}

// A set of types, printed.
// Kept: an `impl Display` of a type around the set would state the text, and has no place for `reads_back`.
pub fn set_text(heap: Global, set: &TypeSet) -> Result<String, AllocError>
    ensures text { IfOk result (λ s. string_bytes s ≡ set_text (words_in set.now)) }
    ensures reads_back { IfOk result (λ s. read_set (string_bytes s) ≡ Some (words_in set.now)) }
{
    octets_fit(&set.to_octets());
    let types = types_of(heap, set)?;
    types_text(heap, &types)
}
