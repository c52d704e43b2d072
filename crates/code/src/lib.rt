// The code of a block: the checks of data, written into a lent part, and the values of a word at the powers of 2.
#![tactic(auto)]

ghost use Rattle.std.specs.Prelude.{◌≡◌, ◌++◌, ◌-◌, ◌≤◌, length, take, drop, replicate};
ghost use Rattle.basics.specs.Build.{build};
ghost use Rattle.field.specs.Field.{pow_n};
ghost use Rattle.code.specs.Code.{value, checks, syndromes_of, generator as generator_of};
ghost use Rattle.code.specs.Lanes.{lanes, coefficients, rooted, reduced, padded, hornered};

use std::array;

// The coefficients that are worked on together: more than any block has checks, and a whole number of vectors.
pub const LANES: usize = 32;

// A polynomial of a degree up to LANES, the highest power first.
const COEFFICIENTS: usize = LANES + 1;

// The product of a polynomial and (x − a).
fn times_root(g: [u8; COEFFICIENTS], a: u8) -> [u8; COEFFICIENTS]
    ensures { result ≡ build (rooted g a) coefficients }
{
    array::from_fn(|k| if k == 0 {
        g[0]
    } else {
        g[k] ^ field::mul(a, g[k - 1])
    })
}

// The generator for n checks, the highest power first.
fn generator(n: usize) -> [u8; COEFFICIENTS]
    requires { n ≤ 30 }
    ensures { result ≡ padded coefficients (generator_of n) }
{
    let mut g: [u8; COEFFICIENTS] = [0; COEFFICIENTS];
    g[0] = 1;
    let mut root: u8 = 1;
    for _ in 0..n {
        g = times_root(g, root);
        root = field::dbl(root);
    }
    g
}

// The remainder r after one more data codeword d.
fn reduce(r: [u8; COEFFICIENTS], g: [u8; COEFFICIENTS], d: u8) -> [u8; COEFFICIENTS]
    ensures { result ≡ build (reduced r g d) lanes ++ replicate 1 0 }
{
    let c = d ^ r[0];
    array::from_fn(|k| if k < LANES {
        r[k + 1] ^ field::mul(c, g[k + 1])
    } else {
        0
    })
}

// The remainder of the data times x^n: its n checks, and zeros behind them.
pub fn remainder(held: &[u8], n: usize) -> [u8; COEFFICIENTS]
    requires { n ≤ 30 }
    ensures front { take n result ≡ checks n held.now }
    ensures behind { drop n result ≡ replicate (coefficients - n) 0 }
{
    let g = generator(n);
    let mut r: [u8; COEFFICIENTS] = [0; COEFFICIENTS];
    for codeword in held {
        // by a name in between: a call's result that goes straight into an array of the loop has no proof rule
        let next = reduce(r, g, *codeword);
        r = next;
    }
    r
}

// The checks of the data, as many as the part has places.
pub fn checks_into(held: &[u8], out: &mut [u8])
    requires { length out.old ≤ 30 }
    ensures { out.new ≡ checks (length out.old) held.now }
{
    let n = out.len();
    let r = remainder(held, n);
    out.copy_from_slice(&r[..n]);
}

// 1, 2, 4 and so on: the 32 first powers of 2 in the field, worked out once for a word. The corrector has a constant, which costs each of its searches no doublings.
fn powers() -> [u8; LANES]
    ensures { result ≡ build pow_n lanes }
{
    let mut p: [u8; LANES] = [0; LANES];
    let mut power: u8 = 1;
    for place in p.iter_mut() {
        *place = power;
        power = field::dbl(power);
    }
    p
}

// Each value times its power, and the next codeword c added to each. `corrector::times_plus` adds a row, lane by lane: here no row is made of the codeword.
fn horner(s: [u8; LANES], p: [u8; LANES], c: u8) -> [u8; LANES]
    ensures { result ≡ build (hornered s p c) lanes }
{
    array::from_fn(|k| field::mul(s[k], p[k]) ^ c)
}

// The values of the word at the 32 first powers of 2. `corrector::Polynomial::values` is of a polynomial in lanes, the lowest coefficient first, at any places.
fn values(word: &[u8]) -> [u8; LANES]
    ensures { result ≡ build (λ i. value (pow_n i) word.now) lanes }
{
    let p = powers();
    let mut s: [u8; LANES] = [0; LANES];
    for codeword in word {
        // by a name in between, as in `remainder`
        let next = horner(s, p, *codeword);
        s = next;
    }
    s
}

// The n syndromes of the word, and zeros behind them.
pub fn syndromes(word: &[u8], n: usize) -> [u8; LANES]
    requires { n ≤ lanes }
    ensures { result ≡ padded lanes (syndromes_of n word.now) }
{
    let mut all = values(word);
    all[n..].fill(0);
    all
}
