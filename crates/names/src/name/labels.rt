ghost use Rattle.std.specs.Iterator.{YieldsFirstBy, item_count};
ghost use Rattle.std.specs.Prelude.{map};
ghost use Rattle.names.specs.View.{labels as labels_in};
ghost use Rattle.names.specs.Wire.{lower};

use crate::name::Name;

// The labels of a name that are left, the leftmost first.
#[derive(Clone, Copy)]
pub struct Labels<'a> {
    pub(crate) left: Name<'a>,
}

impl<'a> Iterator for Labels<'a> {
    type Item = &'a [u8];

    ghost next_gives = { YieldsFirstBy (λ l. map lower l.now) (λ s. labels_in s.left) };

    ghost remaining = { item_count (λ s. labels_in s.left) };

    fn next(&mut self) -> Option<&'a [u8]> {
        let (label, rest) = self.left.split_first()?;
        self.left = rest;
        Some(label)
    }
}
