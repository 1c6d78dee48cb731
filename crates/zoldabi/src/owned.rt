// A name that owns its octets.
ghost use Rattle.std.specs.Prelude.{◌≡◌, true};
ghost use Rattle.names.specs.Wire.{is_name};

mod comparing;
mod reading;

// What the program keeps of a name outlives the line that it was read from.
#[derive(Drop)]
pub(crate) struct OwnedName {
    octets: Vec<u8>,
    ghost whole: { is_name octets.items ≡ true },
}
