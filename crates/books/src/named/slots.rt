ghost use Rattle.std.specs.Prelude.{◌≡◌, true, take, IfErr, if◌then◌else◌, Some, None};
ghost use Rattle.books.specs.Stored.{contents, entry_in, stored, blank as blank_contents};
ghost use Rattle.names.specs.TypeView.{words as words_in};
ghost use Rattle.names.specs.View.{octets as octets_in};
ghost use Rattle.names.specs.Wire.{is_name, labels_of};
ghost use Rattle.std.specs.Option.{option_map};
ghost use Rattle.std.specs.Result.{result_ok};

use crate::named::Named;
use names::name::{MAX_NAME, Name};
use names::refusal::Refusal;
use names::types::TypeSet;

impl Named {
    // What a slot holds before anything is put there: the root, without types.
    pub fn blank() -> Named
        ensures { contents result ≡ blank_contents }
    {
        Named {
            octets: [0; MAX_NAME],
            len: 1,
            types: TypeSet::empty(),
        }
    }

    // The name that the octets are, in lower case, with types.
    pub fn new(name: &[u8], types: &TypeSet) -> Result<Named, Refusal>
        ensures contents { option_map contents (result_ok result) ≡ (if is_name name.now then Some (stored name.now (words_in types.now)) else None) }
        ensures entry { option_map entry_in (result_ok result) ≡ (if is_name name.now then Some (labels_of name.now, words_in types.now) else None) }
        ensures refused { IfErr result (λ e. e ≡ Refusal.NoName) }
    {
        let name = Name::read(name)?;
        let mut octets = [0; MAX_NAME];
        let len = name.write_lower(&mut octets);
        Ok(Named {
            octets,
            len,
            types: *types,
        })
    }

    // The name.
    pub fn name(&self) -> Name<'_>
        ensures octets { octets_in result ≡ take (contents self.now).1.0 (contents self.now).0 }
        ensures labels { labels_of (octets_in result) ≡ (entry_in self.now).0 }
        ensures name { is_name (octets_in result) ≡ true }
    {
        let n = self.len;
        Name::read(&self.octets[0..n]).unwrap()
    }

    // Its types.
    pub fn types(&self) -> TypeSet
        ensures { words_in result ≡ (entry_in self.now).1 }
    {
        self.types
    }
}
