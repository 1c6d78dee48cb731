ghost use Rattle.std.specs.Prelude.{◌≡◌, ◌+◌, ◌*◌, ◌%◌, ◌&&◌, length, true, [], ◌∷◌, ◌++◌, map, IfOk, if◌then◌else◌, Some, None, vec_items, string_bytes, OnOk};
ghost use Rattle.names.specs.Wire.{lower, wire};
ghost use Rattle.names.specs.View.{labels};
ghost use Rattle.script.specs.NameText.{are_octets, is_shown, octet_text, label_text, labels_text, name_text, read_name, read_hex, read_labels, is_hex, hex_value, is_plain, is_octet3, decimal3, is_whole};
ghost use Rattle.script.specs.Reads.{Reads};

use crate::fault::Fault;
use names::name::Name;
use std::alloc::{AllocError, Global};

const MAX_LABEL: u8 = 63;

// A hexadecimal digit's value.
fn hex_value(c: u8) -> Option<u8>
    ensures { result ≡ (if is_hex c then Some (hex_value c) else None) }
{
    char::from(c).to_digit(16).map(|digit| digit as u8)
}

// The octet that two hexadecimal digits write.
fn hex_octet(high: u8, low: u8) -> Option<u8>
    ensures { result ≡ (if is_hex high && is_hex low then Some (16 * hex_value high + hex_value low) else None) }
{
    Some(16 * hex_value(high)? + hex_value(low)?)
}

// The octet that three digits write.
fn octet3(a: u8, b: u8, c: u8) -> Option<u8>
    ensures { result ≡ (if is_octet3 a b c then Some (decimal3 a b c) else None) }
{
    let hundreds = char::from(a).to_digit(10)?;
    let tens = char::from(b).to_digit(10)?;
    let ones = char::from(c).to_digit(10)?;
    u8::try_from(100 * hundreds + 10 * tens + ones).ok()
}

// An octet that is printed as itself.
fn is_shown(c: u8) -> bool
    ensures { result ≡ is_shown c }
{
    matches!(c, b'a'..=b'z' | b'0'..=b'9' | b'-' | b'_' | b'*')
}

// An octet that is read as itself.
fn is_plain(c: u8) -> bool
    ensures { result ≡ is_plain c }
{
    is_shown(c) || c.is_ascii_uppercase()
}

// The octets that pairs of hexadecimal digits write.
fn read_hex(heap: Global, text: &[u8]) -> Result<Vec<u8>, Fault>
    ensures { Reads vec_items Fault.NotAName result (read_hex text.now) }
{
    let (pairs, []) = text.as_chunks::<2>() else {
        return Err(Fault::NotAName);
    };
    let mut octets = Vec::new(heap);
    for [high, low] in pairs {
        let octet = hex_octet(*high, *low).ok_or(Fault::NotAName)?;
        octets.push(octet)?;
    }
    Ok(octets)
}

// Puts a label in wire form behind a name.
fn push_wire(name: &mut Vec<u8>, label: &[u8]) -> Result<(), Fault>
    ensures { Reads (λ _. name.new.items) Fault.NotAName result (if is_whole label.now then Some (name.old.items ++ length label.now ∷ label.now) else None) }
{
    let Ok(length @ 1..=MAX_LABEL) = u8::try_from(label.len()) else {
        return Err(Fault::NotAName);
    };
    name.push(length)?;
    name.extend_from_slice(label)?;
    Ok(())
}

// The wire form that labels stand for.
fn read_labels(heap: Global, text: &[u8]) -> Result<Vec<u8>, Fault>
    ensures { Reads vec_items Fault.NotAName result (read_labels [] text.now) }
{
    let mut name = Vec::new(heap);
    let mut label = Vec::new(heap);
    let mut rest = text;
    loop {
        rest = match rest {
            [] if label.is_empty() => break,
            [b'.', tail @ ..] => {
                push_wire(&mut name, &label)?;
                label.clear();
                tail
            }
            [b'\\', a, b, c, tail @ ..] => {
                let octet = octet3(*a, *b, *c).ok_or(Fault::NotAName)?;
                label.push(octet)?;
                tail
            }
            [c, tail @ ..] if is_plain(*c) => {
                label.push(*c)?;
                tail
            }
            _ => return Err(Fault::NotAName),
        };
    }
    name.push(0)?;
    Ok(name)
}

// The octets that a text stands for.
pub fn read_name(heap: Global, text: &str) -> Result<Vec<u8>, Fault>
    ensures { Reads vec_items Fault.NotAName result (read_name text.now) }
{
    match text.as_bytes() {
        [] => Err(Fault::NotAName),
        [b'=', digits @ ..] => read_hex(heap, digits),
        [b'.'] => Ok(Vec::from_slice(heap, &[0])?),
        octets => read_labels(heap, octets),
    }
}

// The last digit of a number.
fn last_digit(n: u8) -> char
    ensures { result ≡ 48 + n % 10 }
{
    char::from(b'0' + n % 10)
}

// Puts an octet of a label behind a text.
fn push_octet(text: &mut String, x: u8) -> Result<(), AllocError>
    ensures { OnOk result (string_bytes text.new ≡ string_bytes text.old ++ octet_text x) }
{
    if is_shown(x) {
        text.push(char::from(x))?;
    } else {
        // Kept: a push for each character, since a format took one and a half times as long to list names of such octets.
        text.push('\\')?;
        text.push(last_digit(x / 100))?;
        text.push(last_digit(x / 10))?;
        text.push(last_digit(x))?;
    }
    Ok(())
}

// Puts a label, in lower case, behind a text.
fn push_label(text: &mut String, label: &[u8]) -> Result<(), AllocError>
    ensures { OnOk result (string_bytes text.new ≡ string_bytes text.old ++ label_text (map lower label.now)) }
{
    for x in label {
        push_octet(text, x.to_ascii_lowercase())?;
    }
    Ok(())
}

// Says by its contract that the octets of a slice are below 256, which the checker knows of a parameter.
// Kept: without a call of it that fact stays open where `reads_back` of a name and of a set needs it.
pub(crate) fn octets_fit(octets: &[u8])
    ensures { are_octets octets.now ≡ true }
{}

// The labels of a name, printed, each followed by a dot.
fn labels_text(heap: Global, name: &Name<'_>) -> Result<String, AllocError>
    ensures { IfOk result (λ s. string_bytes s ≡ labels_text (labels name.now)) }
{
    let mut text = String::new(heap);
    for label in name.labels() {
        push_label(&mut text, label)?;
        text.push('.')?;
    }
    Ok(text)
}

// A name, printed.
// Kept: an `impl Display` of a type around the name would state the text, and has no place for `reads_back`.
pub fn name_text(heap: Global, name: &Name<'_>) -> Result<String, AllocError>
    ensures text { IfOk result (λ s. string_bytes s ≡ name_text (labels name.now)) }
    ensures reads_back { IfOk result (λ s. read_name (string_bytes s) ≡ Some (wire (labels name.now))) }
{
    octets_fit(name.octets());
    if name.label_count() == 0 {
        return String::from_str(heap, ".");
    }
    labels_text(heap, name)
}
