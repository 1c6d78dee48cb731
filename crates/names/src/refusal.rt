// Why a call is refused.
ghost use Rattle.std.specs.Prelude.{◌≡◌, Some};
ghost use Rattle.names.specs.Refusals.{number, refusal_text};

use std::error::Error;
use std::fmt;

// The refusals of the whole library, in the order of their numbers, which begin at 1.
#[derive(Clone, Copy, Debug, PartialEq, Eq)]
pub enum Refusal {
    // 1: the octets are no name
    NoName,
    // 2: the name is not at or below the apex
    OutsideZone,
    // 3: the types are empty, not all of them may be held, or the zone's rules forbid them to that name
    TypesNotAllowed,
    // 4: the name is held already
    Held,
    // 5: the name is not held
    NotHeld,
    // 6: the apex cannot be struck
    IsApex,
    // 7: the name is below a zone cut, or is a zone cut above a held name
    CrossesCut,
    // 8: the book has no room
    BookFull,
    // 9: two charted names have one place: their indices, the smaller first
    SharedPlace(usize, usize),
    // 10: there are fewer record slots than records
    TooFewSlots,
    // 11: iterations over 150, a salt over 32 octets, a flag that is not 0 or 1 or that this kind of order cannot have
    SettingNotAllowed,
    // 12: the type may not be asked for
    NotAskedType,
    // 13: the zone is not sealed
    NotSealed,
    // 14: type DS (43) at the apex
    DsAtApex,
    // 15: a name that the answer must exclude has the place of a record: the record's index
    PlaceTaken(usize),
    // 16: the answer list has room for fewer than three records
    ListTooShort,
    // 17: the claim is not 1 to 5, or its label count is out of range
    ClaimNotAllowed,
    // 18: over eight records, an owner or next that is no place, or a flag that this kind of order cannot have
    RecordsNotAllowed,
    // 19: no record encloses an ancestor
    NoEncloser,
    // 20: the next closer name is not excluded
    NextCloserNotExcluded,
    // 21: the wildcard is not excluded
    WildcardNotExcluded,
    // 22: the types are not told
    TypesNotTold,
    // 23: the types told say otherwise
    ToldOtherwise,
}

impl Refusal {
    // The number by which a host knows the refusal.
    // Kept: no `From`, which would be this match under a name that does not say what the number is.
    pub fn number(&self) -> u8
        ensures { result ≡ number self.now }
    {
        match self {
            Refusal::NoName => 1,
            Refusal::OutsideZone => 2,
            Refusal::TypesNotAllowed => 3,
            Refusal::Held => 4,
            Refusal::NotHeld => 5,
            Refusal::IsApex => 6,
            Refusal::CrossesCut => 7,
            Refusal::BookFull => 8,
            Refusal::SharedPlace(_, _) => 9,
            Refusal::TooFewSlots => 10,
            Refusal::SettingNotAllowed => 11,
            Refusal::NotAskedType => 12,
            Refusal::NotSealed => 13,
            Refusal::DsAtApex => 14,
            Refusal::PlaceTaken(_) => 15,
            Refusal::ListTooShort => 16,
            Refusal::ClaimNotAllowed => 17,
            Refusal::RecordsNotAllowed => 18,
            Refusal::NoEncloser => 19,
            Refusal::NextCloserNotExcluded => 20,
            Refusal::WildcardNotExcluded => 21,
            Refusal::TypesNotTold => 22,
            Refusal::ToldOtherwise => 23,
        }
    }
}

impl fmt::Display for Refusal {
    ghost output = { λ refusal. Some (refusal_text refusal) };

    fn fmt<W: fmt::Write>(&self, f: &mut fmt::Formatter<W>) -> fmt::Result {
        f.write_str(match self {
            Refusal::NoName => "no name",
            Refusal::OutsideZone => "not at or below the apex",
            Refusal::TypesNotAllowed => "types that the name may not hold",
            Refusal::Held => "held already",
            Refusal::NotHeld => "not held",
            Refusal::IsApex => "the apex",
            Refusal::CrossesCut => "below a zone cut, or a zone cut above a held name",
            Refusal::BookFull => "no room in the book",
            Refusal::SharedPlace(_, _) => "two names with one place",
            Refusal::TooFewSlots => "fewer record slots than records",
            Refusal::SettingNotAllowed => "a setting that is not allowed",
            Refusal::NotAskedType => "a type that may not be asked for",
            Refusal::NotSealed => "not sealed",
            Refusal::DsAtApex => "type DS at the apex",
            Refusal::PlaceTaken(_) => "a name to exclude has the place of a record",
            Refusal::ListTooShort => "an answer list under three records",
            Refusal::ClaimNotAllowed => "no such claim, or a label count out of range",
            Refusal::RecordsNotAllowed => "records that are not allowed",
            Refusal::NoEncloser => "no record encloses an ancestor",
            Refusal::NextCloserNotExcluded => "the next closer name is not excluded",
            Refusal::WildcardNotExcluded => "the wildcard is not excluded",
            Refusal::TypesNotTold => "the types are not told",
            Refusal::ToldOtherwise => "the types told say otherwise",
        })
    }
}

impl Error for Refusal {}
