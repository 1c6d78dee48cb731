// A book of capacity 0, in which a name costs its length: it holds nothing.
ghost use Rattle.std.specs.Prelude.{[], length, None, refl};
ghost use Rattle.names.specs.Wire.{wire};

use books::book::Book;
use names::name::{MAX_NAME, Name};
use names::refusal::Refusal;
use names::types::TypeSet;

#[derive(Clone, Copy)]
pub struct Nothing;

impl Book for Nothing {
    ghost held = { λ _. [] };

    ghost rising = { λ _. refl };

    ghost most = { λ _. 0 };

    ghost charge = { λ _ n. length (wire n) };

    ghost entry = { λ _ _. None };

    fn capacity(&self) -> usize {
        0
    }

    fn cost(&self, name: &[u8]) -> Result<usize, Refusal> {
        let name = Name::read(name)?;
        let mut out = [0; MAX_NAME];
        Ok(name.write_lower(&mut out))
    }

    fn find(&self, name: &[u8]) -> Result<Option<usize>, Refusal> {
        Name::read(name)?;
        Ok(None)
    }

    fn next(&self, name: &[u8]) -> Result<Option<usize>, Refusal> {
        Name::read(name)?;
        Ok(None)
    }

    fn first(&self) -> Option<usize> {
        None
    }

    fn types(&self, _slot: usize) -> Option<TypeSet> {
        None
    }

    fn write_name(&self, _slot: usize, _out: &mut [u8; MAX_NAME]) -> Option<usize> {
        None
    }

    fn put(&mut self, name: &[u8], _types: &TypeSet) -> Result<(), Refusal> {
        Name::read(name)?;
        Err(Refusal::BookFull)
    }

    fn take(&mut self, name: &[u8]) -> Result<(), Refusal> {
        Name::read(name)?;
        Err(Refusal::NotHeld)
    }
}
