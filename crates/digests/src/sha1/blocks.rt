// The blocks of 64 octets that SHA-1 goes over.
ghost use Rattle.std.specs.Prelude.{◌≡◌, ◌*◌, ◌%◌, ◌^◌, ◌<◌, ◌≤◌, ◌++◌, length, drop};
ghost use Rattle.digests.specs.Runs.{absorbed};
ghost use Rattle.digests.specs.Sha.{words_at, ending, padded, initial, run};

use crate::sha1::rounds::{INITIAL, State, compress};
use std::array;
use std::marker::Model;

// How many octets a block has.
const BLOCK: usize = 64;

// A block that begins with fewer octets of the message than these has room for the bit behind it and the length.
const ROOM: usize = 56;

// The bit 1 behind the message, with seven zeros.
const MARK: u8 = 0x80;

// The words of a block.
fn words_of(block: &[u8; BLOCK]) -> [u32; 16]
    ensures { result ≡ words_at block.now 0 }
{
    let (words, _) = block.as_chunks::<4>();
    array::from_fn(|i| u32::from_be_bytes(words[i]))
}

// The hash value after blocks.
fn absorb(mut s: State, blocks: &[[u8; BLOCK]]) -> State
    ensures { result ≡ absorbed s blocks.now }
{
    for block in blocks {
        s = compress(s, words_of(block));
    }
    s
}

// Octets in two parts, which count as joined.
#[derive(Drop)]
pub(crate) struct Joined<'a> {
    front: &'a [u8],
    behind: &'a [u8],
}

impl<'a> Model for Joined<'a> {
    ghost use Rattle.std.specs.Prelude.{ℕ, List, ◌++◌};

    ghost Value = { List ℕ };

    ghost view = { λ j. j.front.now ++ j.behind.now };
}

impl<'a> Joined<'a> {
    pub(crate) fn new(front: &'a [u8], behind: &'a [u8]) -> Self
        ensures { result ≡ front.now ++ behind.now }
    {
        Joined { front, behind }
    }

    fn len(&self) -> usize
        ensures { result ≡ length self.now }
    {
        self.front.len() + self.behind.len()
    }

    // The length in bits, mod 2 ^ 64.
    fn bits(&self) -> u64
        ensures { result ≡ (length self.now * 8) % 2 ^ 64 }
    {
        (self.len() as u64).wrapping_mul(8)
    }

    // Writes the octets to the front.
    fn lay(&self, out: &mut [u8])
        requires { length self.now ≤ length out.old }
        ensures { out.new ≡ self.now ++ drop (length self.now) out.old }
    {
        let n = self.front.len();
        out[..n].copy_from_slice(self.front);
        out[n..n + self.behind.len()].copy_from_slice(self.behind);
    }

    // The hash value after the one block that the octets are.
    fn absorb(&self, s: State) -> State
        requires { length self.now ≡ 64 }
        ensures { result ≡ run s self.now }
    {
        let mut block = [0; BLOCK];
        self.lay(&mut block);
        absorb(s, &[block])
    }

    // The hash value at the end of a message of so many bits, of which the octets are what follows its whole blocks.
    fn finish(&self, s: State, bits: u64) -> State
        requires { length self.now < 64 }
        ensures { result ≡ run s (self.now ++ ending (length self.now) bits) }
    {
        let n = self.len();
        let mut last = [0; 2 * BLOCK];
        self.lay(&mut last);
        last[n] = MARK;
        let end = if n < ROOM { BLOCK } else { 2 * BLOCK };
        last[end - 8..end].copy_from_slice(&bits.to_be_bytes());
        absorb(s, last[..end].as_chunks().0)
    }

    // The hash value at the end of the message that the octets are.
    pub(crate) fn hash(&self) -> State
        ensures { result ≡ run initial (padded self.now) }
    {
        let bits = self.bits();
        let (whole, rest) = self.front.as_chunks();
        let s = absorb(INITIAL, whole);
        let Some((front, behind)) = self.behind.split_at_checked(BLOCK - rest.len()) else {
            return Joined::new(rest, self.behind).finish(s, bits);
        };
        let t = Joined::new(rest, front).absorb(s);
        let (middle, last) = behind.as_chunks();
        Joined::new(last, &[]).finish(absorb(t, middle), bits)
    }
}
