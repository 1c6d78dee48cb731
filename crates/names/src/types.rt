// Record types, and sets of them.
ghost use Rattle.std.specs.Prelude.{◌≡◌};
ghost use Rattle.names.specs.Types.{asked, holdable};

mod members;
mod octets;
mod rules;

// Kept: numbers, since each number of 16 bits is a type (RFC 3597): an enum has not all, a struct around it rules none out.
pub const NS: u16 = 2;

pub const SOA: u16 = 6;

pub const DNAME: u16 = 39;

pub const OPT: u16 = 41;

pub const DS: u16 = 43;

pub const RRSIG: u16 = 46;

pub const NSEC: u16 = 47;

pub const NSEC3: u16 = 50;

// The first and the last type that may be asked for.
const FIRST_ASKED: u16 = 1;

const LAST_ASKED: u16 = 127;

// How many octets a set has: it has room for eight types in each.
pub const WORDS: usize = 16;

// How many bits an octet has.
const BITS: u16 = 8;

// How many types a set has room for.
pub const ROOM: u16 = BITS * WORDS as u16;

// A set of types below ROOM. Type t is the bit 128 >> t % 8 of octet t / 8.
#[derive(Clone, Copy, PartialEq, Eq)]
pub struct TypeSet {
    words: [u8; WORDS],
}

// Whether records of type t may be asked for.
pub fn is_asked(t: u16) -> bool
    ensures { result ≡ asked t }
{
    (FIRST_ASKED..=LAST_ASKED).contains(&t) && !matches!(t, OPT | RRSIG | NSEC | NSEC3)
}

// Whether a name may hold records of type t.
pub fn is_holdable(t: u16) -> bool
    ensures { result ≡ holdable t }
{
    is_asked(t) && t != DNAME
}
