ghost use Rattle.std.specs.Prelude.{◌≡◌, map, IfOk, if◌then◌else◌, Some, None, vec_items, string_bytes, decimal};
ghost use Rattle.script.specs.Reads.{Reads};
ghost use Rattle.script.specs.TypeText.{named, mnemonics, are_digits, is_number, number_after, read_type, read_types, types_text};

use crate::fault::Fault;
use std::alloc::{AllocError, Global};

const MAX_DIGITS: usize = 5;

const MNEMONICS: [(&str, u16); 25] = [
    ("A", 1),
    ("NS", 2),
    ("CNAME", 5),
    ("SOA", 6),
    ("PTR", 12),
    ("HINFO", 13),
    ("MX", 15),
    ("TXT", 16),
    ("AAAA", 28),
    ("LOC", 29),
    ("SRV", 33),
    ("NAPTR", 35),
    ("DNAME", 39),
    ("OPT", 41),
    ("DS", 43),
    ("SSHFP", 44),
    ("RRSIG", 46),
    ("NSEC", 47),
    ("DNSKEY", 48),
    ("NSEC3", 50),
    ("NSEC3PARAM", 51),
    ("TLSA", 52),
    ("CDS", 59),
    ("CDNSKEY", 60),
    ("SPF", 99),
];

// The number of a mnemonic, in either case.
fn mnemonic(text: &str) -> Option<u16>
    ensures { result ≡ named text.now mnemonics }
{
    MNEMONICS
        .iter()
        .find(|(name, _)| text.eq_ignore_ascii_case(name))
        .map(|(_, number)| *number)
}

// Whether there are only digits.
fn are_digits(text: &str) -> bool
    ensures { result ≡ are_digits text.now }
{
    text.bytes().all(|c| c.is_ascii_digit())
}

// The type that a decimal number is.
fn number(text: &str) -> Option<u16>
    ensures { result ≡ (if is_number text.now then Some (number_after 0 text.now) else None) }
{
    if text.len() > MAX_DIGITS || !are_digits(text) {
        return None;
    }
    text.parse().ok()
}

// The type that a text stands for.
fn type_of(text: &str) -> Option<u16>
    ensures { result ≡ read_type text.now }
{
    number(text).or_else(|| mnemonic(text))
}

// The types that a text stands for.
pub(crate) fn read_types(heap: Global, text: &str) -> Result<Vec<u16>, Fault>
    ensures { Reads vec_items Fault.NotTypes result (read_types text.now) }
{
    let mut types = Vec::new(heap);
    if text == "-" {
        return Ok(types);
    }
    for piece in text.split(',') {
        let t = type_of(piece).ok_or(Fault::NotTypes)?;
        types.push(t)?;
    }
    Ok(types)
}

// Types, printed.
pub(crate) fn types_text(heap: Global, types: &[u16]) -> Result<String, AllocError>
    ensures text { IfOk result (λ s. string_bytes s ≡ types_text types.now) }
    ensures reads_back { IfOk result (λ s. read_types (string_bytes s) ≡ Some types.now) }
{
    let [first, rest @ ..] = types else {
        return String::from_str(heap, "-");
    };
    let mut text = first.to_string(heap)?;
    for t in rest {
        write!(text, ",{t}")?;
    }
    Ok(text)
}
