// Names in wire form.
use names::name::Name;
use std::alloc::{AllocError, Global};
use std::test::Fail;

// The example list of RFC 4034 section 6.1, which is in canonical order.
const SORTED: [&[u8]; 9] = [
    b"\x07example\x00",
    b"\x01a\x07example\x00",
    b"\x08yljkjljk\x01a\x07example\x00",
    b"\x01Z\x01a\x07example\x00",
    b"\x04zABC\x01a\x07EXAMPLE\x00",
    b"\x01z\x07example\x00",
    b"\x01\x01\x01z\x07example\x00",
    b"\x01*\x01z\x07example\x00",
    b"\x01\xc8\x01z\x07example\x00",
];

#[test]
fn rfc_4034_order(rt: HostRuntime) -> Result<(), Fail> {
    for (i, a) in SORTED.iter().enumerate() {
        for (j, b) in SORTED.iter().enumerate() {
            let a = Name::read(a)?;
            let b = Name::read(b)?;
            assert!(rt; a.cmp(&b) == i.cmp(&j));
            assert_eq!(rt; a == b, i == j);
        }
    }
    Ok(())
}

// A name that has a label of so many octets for each number.
fn long_name(heap: Global, labels: &[u8]) -> Result<Vec<u8>, AllocError> {
    let mut s = Vec::new(heap);
    for n in labels {
        s.push(*n)?;
        s.resize(s.len() + usize::from(*n), b'x')?;
    }
    s.push(0)?;
    Ok(s)
}

#[test]
fn longest_names(rt: HostRuntime) -> Result<(), Fail> {
    let longest = long_name(rt.alloc(), &[63, 63, 63, 61])?;
    assert_eq!(rt; longest.len(), 255);
    assert_eq!(rt; Name::read(&longest)?.label_count(), 4);
    let over = long_name(rt.alloc(), &[63, 63, 63, 62])?;
    assert_eq!(rt; over.len(), 256);
    assert!(rt; Name::read(&over).is_err());
    let many = long_name(rt.alloc(), &[1; 127])?;
    assert_eq!(rt; many.len(), 255);
    assert_eq!(rt; Name::read(&many)?.label_count(), 127);
    let too_many = long_name(rt.alloc(), &[1; 128])?;
    assert!(rt; Name::read(&too_many).is_err());
    assert!(rt; Name::read(&long_name(rt.alloc(), &[63])?).is_ok());
    assert!(rt; Name::read(&long_name(rt.alloc(), &[64])?).is_err());
    Ok(())
}

// The root, and octets that are no name: empty, without the closing 0, with a label cut off, with octets after the
// closing 0, with a length octet that is a pointer.
#[test]
fn names_and_none(rt: HostRuntime) -> Result<(), Fail> {
    assert_eq!(rt; Name::read(b"\x00")?.label_count(), 0);
    let none: [&[u8]; 9] = [
        b"",
        b"\x01a",
        b"\x01",
        b"\x02a\x00",
        b"\x01a\x02b\x00",
        b"\x00\x00",
        b"\x01a\x00\x00",
        b"\xc0\x0c",
        b"\x01a\xc0\x00",
    ];
    for s in none {
        assert!(rt; Name::read(s).is_err());
    }
    Ok(())
}

#[test]
fn ancestors(rt: HostRuntime) -> Result<(), Fail> {
    let name = Name::read(b"\x01a\x02Bb\x00")?;
    let up = name.parent().ok_or("no parent")?;
    assert_eq!(rt; up.octets(), b"\x02Bb\x00".as_slice());
    let top = up.parent().ok_or("no root")?;
    assert_eq!(rt; top.octets(), b"\x00".as_slice());
    assert!(rt; top.parent().is_none());
    assert_eq!(rt;
        name.ancestor(2).ok_or("not itself")?.octets(),
        name.octets()
    );
    assert_eq!(rt;
        name.ancestor(0).ok_or("no root")?.octets(),
        b"\x00".as_slice()
    );
    assert!(rt; name.ancestor(3).is_none());
    assert!(rt;
        name.is_below(&up) && name.is_below(&top) && !name.is_below(&name) && !up.is_below(&name)
    );
    assert!(rt;
        name.is_at_or_below(&name) && name.is_at_or_below(&up) && !up.is_at_or_below(&name)
    );
    let other = Name::read(b"\x01a\x01b\x02bB\x00")?;
    assert_eq!(rt; name.shared_labels(&other), 1);
    assert_eq!(rt; name.shared_labels(&top), 0);
    assert_eq!(rt; name.shared_labels(&name), 2);
    Ok(())
}

#[test]
fn written_names(rt: HostRuntime) -> Result<(), Fail> {
    let mut out = [7u8; 255];
    let name = Name::read(b"\x02aZ\x01[\x00")?;
    assert_eq!(rt; name.write_lower(&mut out), 6);
    assert_eq!(rt; &out[0..8], b"\x02az\x01[\x00\x07\x07".as_slice());
    let mut out = [7u8; 255];
    assert_eq!(rt; name.write_star(&mut out), Some(8));
    assert_eq!(rt; &out[0..10], b"\x01*\x02az\x01[\x00\x07\x07".as_slice());
    assert!(rt; !name.has_star_label());
    assert!(rt; Name::read(b"\x01b\x01*\x01c\x00")?.has_star_label());
    assert!(rt; !Name::read(b"\x02**\x00")?.has_star_label());
    let mut out = [7u8; 255];
    let fits = long_name(rt.alloc(), &[63, 63, 63, 59])?;
    assert_eq!(rt; Name::read(&fits)?.write_star(&mut out), Some(255));
    let mut out = [7u8; 255];
    let over = long_name(rt.alloc(), &[63, 63, 63, 60])?;
    assert_eq!(rt; Name::read(&over)?.write_star(&mut out), None);
    assert_eq!(rt; out, [7u8; 255]);
    Ok(())
}
