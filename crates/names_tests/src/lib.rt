#![tactic(auto)]

mod wire;

use names::refusal::Refusal;
use names::types::{TypeSet, WORDS, is_asked, is_holdable};
use std::test::Fail;

// The types below 131 that may not be asked for.
const NEVER: [u16; 8] = [0, 41, 46, 47, 50, 128, 129, 130];

// Types past all that may be asked for.
const PAST: [u16; 7] = [255, 256, 257, 383, 384, 32768, 65535];

#[test]
fn types_asked(rt: HostRuntime) {
    for t in 0..131u16 {
        assert_eq!(rt; is_asked(t), !NEVER.contains(&t), "{}", t);
    }
    for t in PAST {
        assert_eq!(rt; is_asked(t), false, "{}", t);
    }
}

#[test]
fn types_holdable(rt: HostRuntime) {
    for t in 0..131u16 {
        assert_eq!(rt; is_holdable(t), t != 39 && !NEVER.contains(&t), "{}", t);
    }
    for t in PAST {
        assert_eq!(rt; is_holdable(t), false, "{}", t);
    }
}

#[test]
fn octets_of_types(rt: HostRuntime) {
    assert_eq!(rt;
        TypeSet::empty().with(1).to_octets(),
        [0x40, 0, 0, 0, 0, 0, 0, 0, 0, 0, 0, 0, 0, 0, 0, 0]
    );
    assert_eq!(rt;
        TypeSet::empty().with(46).to_octets(),
        [0, 0, 0, 0, 0, 0x02, 0, 0, 0, 0, 0, 0, 0, 0, 0, 0]
    );
    assert_eq!(rt;
        TypeSet::empty().with(127).to_octets(),
        [0, 0, 0, 0, 0, 0, 0, 0, 0, 0, 0, 0, 0, 0, 0, 0x01]
    );
    assert_eq!(rt;
        TypeSet::empty().with(1).with(1).with(2).to_octets()[0],
        0x60
    );
    for t in [128, 255, 256, 65535] {
        assert_eq!(rt; TypeSet::empty().with(t).to_octets(), [0; WORDS], "{}", t);
    }
}

#[test]
fn types_of_octets(rt: HostRuntime) {
    let set = TypeSet::from([0x40, 0, 0, 0, 0, 0x02, 0, 0, 0, 0, 0, 0, 0, 0, 0, 0x01]);
    for t in 0..131u16 {
        assert_eq!(rt; set.has(t), t == 1 || t == 46 || t == 127, "{}", t);
    }
    for t in PAST {
        assert_eq!(rt; set.has(t), false, "{}", t);
    }
    assert_eq!(rt;
        set.to_octets(),
        [0x40, 0, 0, 0, 0, 0x02, 0, 0, 0, 0, 0, 0, 0, 0, 0, 0x01]
    );
}

#[test]
fn sets_that_names_hold(rt: HostRuntime) {
    let none = TypeSet::empty();
    let ns = none.with(2);
    assert!(rt; none.is_empty() && !ns.is_empty());
    assert!(rt; ns.is_unsigned_cut() && !ns.is_signed_cut() && !none.is_unsigned_cut());
    assert!(rt;
        ns.with(43).is_signed_cut()
            && !ns.with(43).is_unsigned_cut()
            && !ns.with(1).with(43).is_signed_cut()
    );
    assert!(rt;
        none.with(1).with(127).only_holdable()
            && !none.with(39).only_holdable()
            && !none.with(0).only_holdable()
    );
    assert!(rt;
        ns.with(6).with(48).allowed_at_apex()
            && !ns.allowed_at_apex()
            && !ns.with(6).with(43).allowed_at_apex()
    );
}

// The refusals in the order of their numbers.
const REFUSALS: [Refusal; 23] = [
    Refusal::NoName,
    Refusal::OutsideZone,
    Refusal::TypesNotAllowed,
    Refusal::Held,
    Refusal::NotHeld,
    Refusal::IsApex,
    Refusal::CrossesCut,
    Refusal::BookFull,
    Refusal::SharedPlace(3, 7),
    Refusal::TooFewSlots,
    Refusal::SettingNotAllowed,
    Refusal::NotAskedType,
    Refusal::NotSealed,
    Refusal::DsAtApex,
    Refusal::PlaceTaken(3),
    Refusal::ListTooShort,
    Refusal::ClaimNotAllowed,
    Refusal::RecordsNotAllowed,
    Refusal::NoEncloser,
    Refusal::NextCloserNotExcluded,
    Refusal::WildcardNotExcluded,
    Refusal::TypesNotTold,
    Refusal::ToldOtherwise,
];

#[test]
fn refusals_numbered(rt: HostRuntime) {
    for (i, r) in REFUSALS.iter().enumerate() {
        assert_eq!(rt; usize::from(r.number()), i + 1);
    }
}

#[test]
fn refusals_printed(rt: HostRuntime) -> Result<(), Fail> {
    let heap = rt.alloc();
    assert_eq!(rt; Refusal::NoName.to_string(heap)?.as_str(), "no name");
    assert_eq!(rt;
        Refusal::SharedPlace(3, 7).to_string(heap)?.as_str(),
        "two names with one place"
    );
    assert_eq!(rt;
        Refusal::ToldOtherwise.to_string(heap)?.as_str(),
        "the types told say otherwise"
    );
    Ok(())
}
