// The rounds of SHA-1 on one block. The schedule is kept as a window of 16 words at a time.
ghost use Rattle.std.specs.Prelude.{◌≡◌};
ghost use Rattle.digests.specs.Runs.{turned, choosing, parting, majoring, window};
ghost use Rattle.digests.specs.Sha.{schedule, rounds as rounds_from, compressed};

// The constants of the rounds with Ch, of the first rounds with Parity, of those with Maj, and of the last with Parity.
const K_CH: u32 = 0x5a827999;

const K_PARITY: u32 = 0x6ed9eba1;

const K_MAJ: u32 = 0x8f1bbcdc;

const K_LAST: u32 = 0xca62c1d6;

// A hash value, or the five working variables.
#[derive(Clone, Copy)]
pub(crate) struct State {
    pub(crate) a: u32,
    pub(crate) b: u32,
    pub(crate) c: u32,
    pub(crate) d: u32,
    pub(crate) e: u32,
}

// The initial hash value.
pub(crate) const INITIAL: State = State {
    a: 0x67452301,
    b: 0xefcdab89,
    c: 0x98badcfe,
    d: 0x10325476,
    e: 0xc3d2e1f0,
};

// One round, of which f is the function's value and k the constant.
fn turn(s: State, f: u32, k: u32, w: u32) -> State
    ensures { result ≡ turned k f s w }
{
    let sum = s
        .a
        .rotate_left(5)
        .wrapping_add(f)
        .wrapping_add(s.e)
        .wrapping_add(k)
        .wrapping_add(w);
    State {
        a: sum,
        b: s.a,
        c: s.b.rotate_left(30),
        d: s.c,
        e: s.d,
    }
}

// A round with Ch.
fn choose(s: State, w: &u32) -> State
    ensures { result ≡ choosing s w.now }
{
    turn(s, (s.b & s.c) ^ (!s.b & s.d), K_CH, *w)
}

// A round with Parity, and the constant K.
fn parity<const K: u32>(s: State, w: &u32) -> State
    ensures { result ≡ parting K s w.now }
{
    turn(s, s.b ^ s.c ^ s.d, K, *w)
}

// A round with Maj.
fn majority(s: State, w: &u32) -> State
    ensures { result ≡ majoring s w.now }
{
    turn(s, (s.b & s.c) ^ (s.b & s.d) ^ (s.c & s.d), K_MAJ, *w)
}

// The 16 words of the schedule after the 16 at hand, in their place.
fn advance(w: [u32; 16]) -> [u32; 16]
    ensures { result ≡ window w }
{
    let mut v = w;
    // Kept: a word is made of words that the loop wrote before it, at four fixed distances, which no iterator hands out.
    for i in 0..16 {
        v[i] = (v[(i + 13) % 16] ^ v[(i + 8) % 16] ^ v[(i + 2) % 16] ^ v[i]).rotate_left(1);
    }
    v
}

// All rounds.
fn run_all(s: State, block: [u32; 16]) -> State
    ensures { result ≡ rounds_from 0 s (schedule block 64) }
{
    let x0 = block.iter().fold(s, choose);
    let w1 = advance(block);
    let x1 = w1[..4].iter().fold(x0, choose);
    let x2 = w1[4..].iter().fold(x1, parity::<K_PARITY>);
    let w2 = advance(w1);
    let x3 = w2[..8].iter().fold(x2, parity::<K_PARITY>);
    let x4 = w2[8..].iter().fold(x3, majority);
    let w3 = advance(w2);
    let x5 = w3[..12].iter().fold(x4, majority);
    let x6 = w3[12..].iter().fold(x5, parity::<K_LAST>);
    advance(w3).iter().fold(x6, parity::<K_LAST>)
}

// The hash value after one block.
pub(crate) fn compress(s: State, block: [u32; 16]) -> State
    ensures { result ≡ compressed s block }
{
    let t = run_all(s, block);
    State {
        a: s.a.wrapping_add(t.a),
        b: s.b.wrapping_add(t.b),
        c: s.c.wrapping_add(t.c),
        d: s.d.wrapping_add(t.d),
        e: s.e.wrapping_add(t.e),
    }
}
