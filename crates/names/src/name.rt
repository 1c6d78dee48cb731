ghost use Rattle.std.specs.Prelude.{◌≡◌, true};
ghost use Rattle.names.specs.Wire.{is_name};

mod comparing;
mod labels;
mod reading;
mod writing;

pub use labels::Labels;

// The octets that a name has at most.
pub const MAX_NAME: usize = 255;

// The one octet of the label `*`.
const STAR: u8 = b'*';

// A name in wire form, as the octets that somebody holds.
#[derive(Clone, Copy)]
pub struct Name<'a> {
    octets: &'a [u8],
    ghost whole: { is_name octets.now ≡ true },
}
