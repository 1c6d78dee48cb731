// The two shipped books beside each other.
use books::book::Book;
use books::named::Named;
use journal::{Journal, Note};
use listing::rows;
use names::refusal::Refusal;
use names::types::{TypeSet, WORDS};
use std::alloc::Global;
use std::process::Abort;
use std::test::Fail;
use table::Table;

// How many slots the largest book has, and how many calls a sequence.
const MOST_SLOTS: usize = 4;

const CALLS: u16 = 120;

// Names that differ, one of them twice, in another case.
const NAMES: [&[u8]; 6] = [
    b"\x00",
    b"\x01a\x00",
    b"\x01A\x00",
    b"\x01b\x01a\x00",
    b"\x01*\x00",
    b"\x03zz",
];

// A name that is held, with its types, both as octets.
#[derive(Debug, PartialEq, Eq, Drop)]
struct Shown {
    name: Vec<u8>,
    types: [u8; WORDS],
}

// What a book answers to a call, and what it holds then.
#[derive(Debug, PartialEq, Eq, Drop)]
struct Step {
    answer: Result<(), Refusal>,
    held: Vec<Shown>,
}

// What a book holds.
fn held_by<B: Book>(heap: Global, book: &B) -> Result<Vec<Shown>, Fail> {
    let mut held = Vec::new(heap);
    for row in &rows(heap, book)? {
        held.push(Shown {
            name: row.octets().to_vec(heap)?,
            types: row.types().to_octets(),
        })?;
    }
    Ok(held)
}

// The steps of a book through a sequence of calls that a number begins.
fn record<B: Book>(heap: Global, book: &mut B, begin: u16) -> Result<Vec<Step>, Fail> {
    let mut record = Vec::new(heap);
    let mut state = begin;
    for t in 0..CALLS {
        state = state.wrapping_mul(25173).wrapping_add(13849);
        let name = NAMES[state as usize / 256 % NAMES.len()];
        let answer = if state / 2048 % 8 < 5 {
            book.put(name, &TypeSet::empty().with(t))
        } else {
            book.take(name)
        };
        let held = held_by(heap, book)?;
        record.push(Step { answer, held })?;
    }
    Ok(record)
}

// Both books with so many slots give the same record.
fn check_alike(rt: &impl Abort, heap: Global, slots: usize, begin: u16) -> Result<(), Fail> {
    let mut entries = vec![in heap; Named::blank(); slots]?;
    let mut notes = vec![in heap; Note::blank(); slots]?;
    let table = record(heap, &mut Table::new(&mut entries), begin)?;
    let journal = record(heap, &mut Journal::new(&mut notes), begin)?;
    assert_eq!(rt; table, journal);
    Ok(())
}

#[test]
fn alike(rt: HostRuntime) -> Result<(), Fail> {
    for slots in 0..=MOST_SLOTS {
        for begin in 0..8 {
            check_alike(&rt, rt.alloc(), slots, begin)?;
        }
    }
    Ok(())
}

#[test]
fn full_of_puts(rt: HostRuntime) {
    let mut slots = [Note::blank(); 2];
    let mut book = Journal::new(&mut slots);
    let types = TypeSet::empty();
    assert!(rt; book.put(b"\x01a\x00", &types).is_ok() && book.put(b"\x01b\x00", &types).is_ok());
    assert_eq!(rt; book.put(b"\x01c\x00", &types), Err(Refusal::BookFull));
    assert_eq!(rt; book.put(b"\x01A\x00", &types), Err(Refusal::Held));
    assert_eq!(rt; book.notes().len(), 2);
    assert!(rt; book.take(b"\x01A\x00").is_ok());
    assert_eq!(rt; book.notes().len(), 1);
}

#[test]
fn full_with_takes(rt: HostRuntime) {
    let mut slots = [Note::blank(); 3];
    let mut book = Journal::new(&mut slots);
    let types = TypeSet::empty();
    assert!(rt; book.put(b"\x01a\x00", &types).is_ok() && book.put(b"\x01b\x00", &types).is_ok());
    assert!(rt; book.take(b"\x01a\x00").is_ok());
    assert_eq!(rt; book.take(b"\x01a\x00"), Err(Refusal::NotHeld));
    assert_eq!(rt; book.notes().len(), 3);
    assert!(rt; book.put(b"\x01c\x00", &types).is_ok());
    assert_eq!(rt; book.notes().len(), 2);
    assert!(rt; book.take(b"\x01b\x00").is_ok() && book.take(b"\x01c\x00").is_ok());
    assert_eq!(rt; book.notes().len(), 2);
}
