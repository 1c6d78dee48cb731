use crate::few_places::FewPlaces;
use crate::one_place::OnePlace;
use crate::reversed::Reversed;
use digests::sha1::Sha1;
use names::name::MAX_NAME;
use names::refusal::Refusal;
use orders::canonical::Canonical;
use orders::order::Order;
use orders::salted::Salted;
use std::process::Abort;
use std::test::Fail;

// What a buffer holds before.
const OLD: u8 = 0xee;

// The order puts the name at the place, and leaves what lies past it in the buffer.
fn places<O: Order>(rt: &impl Abort, order: &O, name: &[u8], place: &[u8]) -> Result<(), Fail> {
    let mut out = [OLD; MAX_NAME];
    let n = order.write_place(name, &mut out)?;
    assert!(rt; n <= MAX_NAME);
    assert!(rt; out[0..n] == place[..]);
    for x in &out[n..] {
        assert_eq!(rt; *x, OLD);
    }
    assert!(rt; order.is_place(place));
    Ok(())
}

// The order refuses what is no name, and leaves the buffer.
fn refuses<O: Order>(rt: &impl Abort, order: &O) {
    let none: [&[u8]; 4] = [b"", b"\x01a", b"\x01a\x00\x00", b"\x40a\x00"];
    let mut out = [OLD; MAX_NAME];
    for octets in none {
        assert!(rt; matches!(order.write_place(octets, &mut out), Err(Refusal::NoName)));
        assert!(rt; out == [OLD; MAX_NAME]);
    }
}

// The order has these places one after the other.
fn rising<O: Order>(rt: &impl Abort, order: &O, places: &[&[u8]]) {
    for (i, a) in places.iter().enumerate() {
        for (j, b) in places.iter().enumerate() {
            assert!(rt; order.compare(a, b) == i.cmp(&j));
        }
    }
}

// The first of these places is below the second, and no other way.
fn below<O: Order>(rt: &impl Abort, order: &O, a: &[u8], b: &[u8]) {
    assert!(rt; order.is_below(a, b));
    assert!(rt; !order.is_below(b, a));
    assert!(rt; !order.is_below(a, a));
}

#[test]
fn one_place(rt: HostRuntime) -> Result<(), Fail> {
    let order = OnePlace;
    refuses(&rt, &order);
    places(&rt, &order, b"\x00", b"")?;
    places(&rt, &order, b"\x01a\x00", b"")?;
    assert!(rt; !order.is_place(b"a"));
    assert!(rt; !order.keeps_families());
    rising(&rt, &order, &[b""]);
    Ok(())
}

#[test]
fn few_places(rt: HostRuntime) -> Result<(), Fail> {
    let order = FewPlaces;
    refuses(&rt, &order);
    places(&rt, &order, b"\x00", b"\x00")?;
    places(&rt, &order, b"\x01a\x01b\x00", b"\x02")?;
    places(&rt, &order, b"\x02cc\x01D\x00", b"\x02")?;
    assert!(rt; !order.is_place(b"ab"));
    assert!(rt; !order.keeps_families());
    rising(&rt, &order, &[b"\xff", b"\x02", b"\x00"]);
    Ok(())
}

#[test]
fn reversed(rt: HostRuntime) -> Result<(), Fail> {
    let order = Reversed;
    refuses(&rt, &order);
    places(&rt, &order, b"\x00", b"")?;
    places(
        &rt,
        &order,
        b"\x02Ab\x01C\x03deF\x00",
        b"\x03def\x01c\x02ab",
    )?;
    assert!(rt; order.is_place(&[9; 254]));
    assert!(rt; !order.is_place(&[9; 255]));
    assert!(rt; order.keeps_families());
    // in canonical order aa is before b
    rising(&rt, &order, &[b"", b"\x01b", b"\x01b\x01z", b"\x02aa"]);
    below(&rt, &order, b"\x01b\x01z", b"\x01b");
    below(&rt, &order, b"\x01b", b"");
    Ok(())
}

const ABOVE: &[u8] = b"\x07example\x00";

const LOWER: &[u8] = b"\x01a\x07example\x00";

const UPPER: &[u8] = b"\x01A\x07Example\x00";

#[test]
fn canonical(rt: HostRuntime) -> Result<(), Fail> {
    let order = Canonical;
    refuses(&rt, &order);
    places(&rt, &order, b"\x00", b"\x00")?;
    places(&rt, &order, UPPER, LOWER)?;
    assert!(rt; !order.is_place(UPPER));
    assert!(rt; !order.is_place(b"\x01a"));
    assert!(rt; order.keeps_families());
    rising(
        &rt,
        &order,
        &[b"\x00", b"\x02aa\x00", b"\x01b\x00", ABOVE, LOWER],
    );
    below(&rt, &order, LOWER, ABOVE);
    Ok(())
}

// The names of RFC 5155 appendix A and their hashes, as printed there.
const HASHED: [(&[u8], &[u8; 32]); 12] = [
    (b"\x07example\x00", b"0p9mhaveqvm6t7vbl5lop2u3t2rp3tom"),
    (b"\x01a\x07example\x00", b"35mthgpgcu1qg68fab165klnsnk3dpvl"),
    (
        b"\x02ai\x07example\x00",
        b"gjeqe526plbf1g8mklp59enfd789njgi",
    ),
    (
        b"\x03ns1\x07example\x00",
        b"2t7b4g4vsa5smi47k61mv5bv1a22bojr",
    ),
    (
        b"\x03ns2\x07example\x00",
        b"q04jkcevqvmu85r014c7dkba38o0ji5r",
    ),
    (b"\x01w\x07example\x00", b"k8udemvp1j2f7eg6jebps17vp3n8i58h"),
    (
        b"\x01*\x01w\x07example\x00",
        b"r53bq7cc2uvmubfu5ocmm6pers9tk9en",
    ),
    (
        b"\x01x\x01w\x07example\x00",
        b"b4um86eghhds6nea196smvmlo4ors995",
    ),
    (
        b"\x01y\x01w\x07example\x00",
        b"ji6neoaepv8b5o6k4ev33abha8ht9fgc",
    ),
    (
        b"\x01x\x01y\x01w\x07example\x00",
        b"2vptu5timamqttgl4luu9kg21e0aor3s",
    ),
    (
        b"\x02xx\x07example\x00",
        b"t644ebqk9bibcna874givr6joj62mlhv",
    ),
    (
        b"\x202t7b4g4vsa5smi47k61mv5bv1a22bojr\x07example\x00",
        b"kohar7mbb8dc2ce8a9qvl8hon4k53uhi",
    ),
];

// The digits of base32hex (RFC 4648 section 7).
const DIGITS: &[u8; 32] = b"0123456789abcdefghijklmnopqrstuv";

// The digits, of five bits each, say the first octets.
fn says(rt: &impl Abort, digits: &[u8; 32], octets: &[u8; MAX_NAME]) {
    for (i, digit) in digits.iter().enumerate() {
        let at = i * 5 / 8;
        let pair = u16::from_be_bytes([octets[at], octets[at + 1]]) as usize;
        assert_eq!(rt; *digit, DIGITS[(pair >> (11 - i * 5 % 8)) % 32]);
    }
}

#[test]
fn hashes_of_rfc_5155(rt: HostRuntime) -> Result<(), Fail> {
    let order = Salted::new(Sha1, &[0xaa, 0xbb, 0xcc, 0xdd], 12)?;
    for (name, digits) in HASHED {
        let mut out = [OLD; MAX_NAME];
        assert_eq!(rt; order.write_place(name, &mut out)?, 20);
        says(&rt, digits, &out);
    }
    Ok(())
}

// A salt of the most octets.
const LONG: [u8; 32] = [7; 32];

#[test]
fn settings(rt: HostRuntime) -> Result<(), Fail> {
    let order = Salted::new(Sha1, &LONG, 150)?;
    assert_eq!(rt; order.salt(), LONG.as_slice());
    assert_eq!(rt; order.iterations(), 150);
    let over = Salted::new(Sha1, &[7; 33], 150);
    assert!(rt; matches!(over, Err(Refusal::SettingNotAllowed)));
    let over = Salted::new(Sha1, &LONG, 151);
    assert!(rt; matches!(over, Err(Refusal::SettingNotAllowed)));
    Ok(())
}

#[test]
fn salted(rt: HostRuntime) -> Result<(), Fail> {
    let order = Salted::new(Sha1, b"", 0)?;
    refuses(&rt, &order);
    let mut out = [OLD; MAX_NAME];
    assert_eq!(rt; order.write_place(LOWER, &mut out)?, 20);
    places(&rt, &order, UPPER, &out[0..20])?;
    assert!(rt; !order.is_place(b"a"));
    assert!(rt; !order.keeps_families());
    rising(&rt, &order, &[b"", b"\x00\x02", b"\x01"]);
    Ok(())
}
