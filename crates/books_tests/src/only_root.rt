// A book of capacity 0, in which the root costs nothing and each other name 1: it holds the root alone.
ghost use Rattle.std.specs.Prelude.{◌≡◌, min, length, is_some, if◌then◌else◌, Some, None};
ghost use Rattle.books_tests.specs.Root.{root_held, root_rises};
ghost use Rattle.std.specs.List.{slice_get};

use books::book::Book;
use names::name::{MAX_NAME, Name};
use names::refusal::Refusal;
use names::types::TypeSet;

#[derive(Clone, Copy)]
pub struct OnlyRoot {
    // the root's types, if it is held
    types: Option<TypeSet>,
}

impl OnlyRoot {
    pub(crate) fn new() -> OnlyRoot
        ensures { result.types ≡ None }
    {
        OnlyRoot { types: None }
    }

    // The root's slot, if it is held.
    fn slot(&self) -> Option<usize>
        ensures { result ≡ (if is_some self.now.types then Some 0 else None) }
    {
        self.types.is_some().then_some(0)
    }
}

impl Book for OnlyRoot {
    ghost held = { λ b. root_held b.types };

    ghost rising = { λ b. root_rises b.types };

    ghost most = { λ _. 0 };

    ghost charge = { λ _ n. min (length n) 1 };

    ghost entry = { λ b i. slice_get (root_held b.types) i };

    fn capacity(&self) -> usize {
        0
    }

    fn cost(&self, name: &[u8]) -> Result<usize, Refusal> {
        let name = Name::read(name)?;
        Ok(name.label_count().min(1))
    }

    fn find(&self, name: &[u8]) -> Result<Option<usize>, Refusal> {
        let name = Name::read(name)?;
        if name.label_count() > 0 {
            return Ok(None);
        }
        Ok(self.slot())
    }

    fn next(&self, name: &[u8]) -> Result<Option<usize>, Refusal> {
        Name::read(name)?;
        Ok(None)
    }

    fn first(&self) -> Option<usize> {
        self.slot()
    }

    fn types(&self, slot: usize) -> Option<TypeSet> {
        if slot == 0 { self.types } else { None }
    }

    fn write_name(&self, slot: usize, out: &mut [u8; MAX_NAME]) -> Option<usize> {
        if slot > 0 || self.types.is_none() {
            return None;
        }
        out[0] = 0;
        Some(1)
    }

    fn put(&mut self, name: &[u8], types: &TypeSet) -> Result<(), Refusal> {
        let name = Name::read(name)?;
        if name.label_count() > 0 {
            return Err(Refusal::BookFull);
        }
        if self.types.is_some() {
            return Err(Refusal::Held);
        }
        self.types = Some(*types);
        Ok(())
    }

    fn take(&mut self, name: &[u8]) -> Result<(), Refusal> {
        let name = Name::read(name)?;
        if name.label_count() > 0 || self.types.is_none() {
            return Err(Refusal::NotHeld);
        }
        self.types = None;
        Ok(())
    }
}
