// SHA-1 and the sum of octets on messages in two parts, against digests that another program computed.
#![tactic(auto)]

use digests::byte_sum::ByteSum;
use digests::digest::Digest;
use digests::sha1::Sha1;
use std::array;
use std::process::Abort;
use std::test::Fail;

// Octet i of each message is i mod 251.
const LONGEST: usize = 5000;

// The sum of the octets of the longest, mod 256.
const SUM: u8 = 98;

// Lengths, and SHA-1 of the messages that are so long, as Python's hashlib computes it.
const VECTORS: [(usize, &[u8]); 16] = [
    (
        0,
        b"\xda\x39\xa3\xee\x5e\x6b\x4b\x0d\x32\x55\xbf\xef\x95\x60\x18\x90\xaf\xd8\x07\x09",
    ),
    (
        1,
        b"\x5b\xa9\x3c\x9d\xb0\xcf\xf9\x3f\x52\xb5\x21\xd7\x42\x0e\x43\xf6\xed\xa2\x78\x4f",
    ),
    (
        3,
        b"\x0c\x7a\x62\x3f\xd2\xbb\xc0\x5b\x06\x42\x3b\xe3\x59\xe4\x02\x1d\x36\xe7\x21\xad",
    ),
    (
        54,
        b"\xcf\xae\x6d\x86\xa7\x67\xb9\xc7\x00\xb5\x08\x1a\x54\x26\x5f\xb2\xfe\x0f\x6f\xd9",
    ),
    (
        55,
        b"\x8a\xe2\xd4\x67\x29\xcf\xe6\x8f\xf9\x27\xaf\x5e\xec\x9c\x7d\x1b\x66\xd6\x5a\xc2",
    ),
    (
        56,
        b"\x63\x6e\x2e\xc6\x98\xda\xc9\x03\x49\x8e\x64\x8b\xd2\xf3\xaf\x64\x1d\x3c\x88\xcb",
    ),
    (
        57,
        b"\x7c\xb1\x33\x0f\x35\x24\x4b\x57\x43\x75\x39\x25\x33\x04\xea\x78\xa6\xb7\xc4\x43",
    ),
    (
        63,
        b"\x6d\x94\x2d\xa0\xc4\x39\x2b\x12\x35\x28\xf2\x90\x5c\x71\x3a\x3c\xe2\x83\x64\xbd",
    ),
    (
        64,
        b"\xc6\x13\x8d\x51\x4f\xfa\x21\x35\xbf\xce\x0e\xd0\xb8\xfa\xc6\x56\x69\x91\x7e\xc7",
    ),
    (
        65,
        b"\x69\xbd\x72\x8a\xd6\xe1\x3c\xd7\x6f\xf1\x97\x51\xfd\xe4\x27\xb0\x0e\x39\x57\x46",
    ),
    (
        119,
        b"\x41\xc8\x9d\x06\x00\x1b\xab\x4a\xb7\x87\x36\xb4\x4e\xfe\x7c\xe1\x8c\xe6\xae\x08",
    ),
    (
        120,
        b"\xd3\xdb\xd6\x53\xbd\x85\x97\xb7\x47\x53\x21\xb6\x0a\x36\x89\x12\x78\xe6\xa0\x4a",
    ),
    (
        127,
        b"\x89\xd7\x31\x2a\x90\x3f\x65\xcd\x2b\x3e\x34\xa9\x75\xe5\x5d\xbe\xa9\x03\x33\x53",
    ),
    (
        128,
        b"\xe6\x43\x4b\xc4\x01\xf9\x86\x03\xd7\xed\xa5\x04\x79\x0c\x98\xc6\x73\x85\xd5\x35",
    ),
    (
        129,
        b"\x33\x52\xe4\x1c\xc3\x0b\x40\xae\x80\x10\x89\x70\x49\x2b\x21\x01\x40\x49\xe6\x25",
    ),
    (
        4999,
        b"\x75\x9e\x0a\x5e\x4c\xd5\xa7\x6b\x49\x3d\xa6\xec\x59\xe8\x70\xd2\x28\xf7\x2d\x46",
    ),
];

// The longest message that NIST publishes the digest of: a million times the letter a.
const MILLION: usize = 1_000_000;

const OF_MILLION: &[u8] =
    b"\x34\xaa\x97\x3c\xd4\xc4\xda\xa4\xf6\x1e\xeb\x2b\xdb\xad\x27\x31\x65\x34\x01\x6f";

fn message() -> [u8; LONGEST] {
    array::from_fn(|i| (i % 251) as u8)
}

// The digest of the message, split at `at`, is written to the front of the buffer, and the rest of it stays.
#[cfg(test)]
fn check_split<D: Digest>(
    rt: &impl Abort,
    d: &D,
    message: &[u8],
    at: usize,
    digest: &[u8],
) -> Result<(), Fail> {
    let (a, b) = message.split_at_checked(at).ok_or("a split past the end")?;
    let mut out = [0xee; 255];
    let n = d.digest(a, b, &mut out);
    assert_eq!(rt; n, digest.len(), "{} of {}", at, message.len());
    let (front, rest) = out.split_at_checked(n).ok_or("a digest past the end")?;
    assert_eq!(rt; front, digest, "{} of {}", at, message.len());
    assert!(rt;
        rest.iter().all(|x| *x == 0xee),
        "{} of {}",
        at,
        message.len()
    );
    Ok(())
}

#[test]
fn sha1_of_two_parts(rt: HostRuntime) -> Result<(), Fail> {
    let m = message();
    for (len, digest) in VECTORS {
        let front = m.get(..len).ok_or("a length past the end")?;
        for at in [0, len.min(1), len / 2, len] {
            check_split(&rt, &Sha1, front, at, digest)?;
        }
    }
    Ok(())
}

#[test]
fn sha1_of_a_million(rt: HostRuntime) -> Result<(), Fail> {
    let m = vec![in rt.alloc(); b'a'; MILLION]?;
    for at in [0, 1, 63, 500_000] {
        check_split(&rt, &Sha1, &m, at, OF_MILLION)?;
    }
    Ok(())
}

#[test]
fn sum_of_two_parts(rt: HostRuntime) -> Result<(), Fail> {
    let m = message();
    check_split(&rt, &ByteSum, &[], 0, &[0])?;
    for at in [0, 1, LONGEST / 2, LONGEST] {
        check_split(&rt, &ByteSum, &m, at, &[SUM])?;
    }
    Ok(())
}

#[test]
fn sizes(rt: HostRuntime) {
    assert_eq!(rt; ByteSum::LEN, 1);
    assert_eq!(rt; Sha1::LEN, 20);
}
