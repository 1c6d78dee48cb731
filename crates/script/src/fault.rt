ghost use Rattle.std.specs.Prelude.{◌≡◌, Some};
ghost use Rattle.script.specs.FaultText.{fault_text};
ghost use Rattle.script.specs.declared.fault.Fault.TheVariants.{NoMemory};

use std::alloc::{AllocError, AllocFailed};
use std::error::Error;
use std::fmt;

// Why a text was not read.
#[derive(Clone, Copy, PartialEq, Eq, Debug)]
pub enum Fault {
    // there is no memory
    NoMemory,
    // the first word is no command
    NotACommand,
    // the command lacks a word
    TooFewWords,
    // the command has a word too many
    TooManyWords,
    // the word is no NAME
    NotAName,
    // the word is no TYPES, or a set has no room for one of them
    NotTypes,
}

impl fmt::Display for Fault {
    ghost output = { λ fault. Some (fault_text fault) };

    fn fmt<W: fmt::Write>(&self, f: &mut fmt::Formatter<W>) -> fmt::Result {
        f.write_str(match self {
            Fault::NoMemory => "no memory",
            Fault::NotACommand => "no command",
            Fault::TooFewWords => "too few words",
            Fault::TooManyWords => "too many words",
            Fault::NotAName => "no name in text form",
            Fault::NotTypes => "no list of types below 128",
        })
    }
}

impl Error for Fault {}

impl From<AllocError> for Fault {
    ghost from_gives = { λ _ y. y ≡ NoMemory };

    fn from(_error: AllocError) -> Fault {
        Fault::NoMemory
    }
}

impl<T> From<AllocFailed<T>> for Fault
where
    T: Drop,
{
    ghost from_gives = { λ _ y. y ≡ NoMemory };

    fn from(_refused: AllocFailed<T>) -> Fault {
        Fault::NoMemory
    }
}
