use crate::by_length::ByLength;
use crate::nothing::Nothing;
use crate::only_root::OnlyRoot;
use books::book::Book;
use books::named::Named;
use listing::rows;
use names::refusal::Refusal;
use names::types::TypeSet;
use std::test::Fail;
use table::Table;

#[test]
fn nothing_is_held(rt: HostRuntime) -> Result<(), Fail> {
    let mut book = Nothing;
    let name = b"\x01a\x00";
    let types = TypeSet::empty();
    assert_eq!(rt; book.put(name, &types), Err(Refusal::BookFull));
    assert_eq!(rt; book.put(b"\x01a", &types), Err(Refusal::NoName));
    assert_eq!(rt; book.take(name), Err(Refusal::NotHeld));
    assert_eq!(rt; book.cost(name), Ok(3));
    assert!(rt; rows(rt.alloc(), &book)?.is_empty());
    Ok(())
}

#[test]
fn octets_are_counted(rt: HostRuntime) -> Result<(), Fail> {
    let mut slots = [Named::blank(); 8];
    let mut table = Table::new(&mut slots);
    let mut book = ByLength::new(&mut table);
    let types = TypeSet::empty();
    assert!(rt; book.put(b"\x01a\x00", &types).is_ok());
    assert!(rt; book.put(b"\x01b\x00", &types).is_ok());
    assert_eq!(rt; book.put(b"\x01c\x00", &types), Err(Refusal::BookFull));
    assert_eq!(rt; book.put(b"\x01A\x00", &types), Err(Refusal::Held));
    assert!(rt; book.put(b"\x00", &types).is_ok());
    assert!(rt; book.take(b"\x01A\x00").is_ok());
    assert!(rt; book.put(b"\x01c\x00", &types).is_ok());
    assert_eq!(rt; rows(rt.alloc(), &book)?.len(), 3);
    Ok(())
}

#[test]
fn the_root_is_held(rt: HostRuntime) -> Result<(), Fail> {
    let mut book = OnlyRoot::new();
    let types = TypeSet::empty();
    assert_eq!(rt; book.put(b"\x01a\x00", &types), Err(Refusal::BookFull));
    assert_eq!(rt; book.put(b"", &types), Err(Refusal::NoName));
    assert!(rt; book.put(b"\x00", &types).is_ok());
    assert_eq!(rt; book.put(b"\x00", &types), Err(Refusal::Held));
    assert_eq!(rt; rows(rt.alloc(), &book)?.len(), 1);
    assert!(rt; book.take(b"\x00").is_ok());
    assert_eq!(rt; book.take(b"\x00"), Err(Refusal::NotHeld));
    Ok(())
}
