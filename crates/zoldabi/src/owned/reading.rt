ghost use Rattle.std.specs.Prelude.{◌≡◌, Some, None, if◌then◌else◌};
ghost use Rattle.std.specs.Option.{option_map};
ghost use Rattle.names.specs.View.{octets as octets_in};
ghost use Rattle.names.specs.Wire.{is_name};
ghost use Rattle.zoldabi.specs.Owned.{octets_owned};

use crate::owned::OwnedName;
use names::name::Name;

impl OwnedName {
    // The name that the octets are, if they are one.
    pub(crate) fn new(octets: Vec<u8>) -> Option<Self>
        ensures { option_map octets_owned result ≡ (if is_name octets.items then Some octets.items else None) }
    {
        match Name::read(&octets) {
            Ok(_) => Some(OwnedName { octets }),
            Err(_) => None,
        }
    }

    // The name, to be read.
    pub(crate) fn name(&self) -> Name<'_>
        ensures { octets_in result ≡ octets_owned self.now }
    {
        Name::read(&self.octets).unwrap()
    }
}
