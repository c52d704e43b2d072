// The corrector: the one codeword that a block stands for, or none.
#![tactic(auto)]

ghost use Rattle.std.specs.Prelude.{◌≡◌, cond, ℕ, suc, ◌+◌, ◌-◌, ◌<◌, ◌≤◌, eqb, length, get_or, MatchOption};
ghost use Rattle.field.specs.Field.{inv_n};
ghost use Rattle.field.proofs.Byte.{elt};
ghost use Rattle.theory.proofs.Sum.{sum};
ghost use Rattle.theory.proofs.Run.{act, eval, Below};
ghost use Rattle.theory.proofs.Values.{product, evaluator as evaluator_of, slope};
ghost use Rattle.theory.proofs.Gf.{gf256};
ghost use Rattle.corrector.specs.Lanes.{filled, times_plus, lowered, raised, poly, Running};
ghost use Rattle.code.specs.Code.{unreadable, differing};
ghost use Rattle.corrector.specs.Correct.{Asked, Proposed, StandsForNone, Tested, Corrected};
ghost use Rattle.corrector.specs.Places.{Erased, Found, Noted, Grouped, Mended, Magnitudes};

use code::LANES;
use std::array;

// A row of bytes: a polynomial, the lowest coefficient first, a sequence, or a value for each of some places.
// A loop puts a call's row into its variable by a name in between, since a result that goes straight into an array has no proof rule.
type Row = [u8; LANES];

// a b + c, lane by lane.
fn times_plus(a: Row, b: Row, c: Row) -> Row
    ensures { result ≡ times_plus a b c }
{
    array::from_fn(|i| field::mul(a[i], b[i]) ^ c[i])
}

// a without its first i entries.
fn lower(a: Row, i: usize) -> Row
    requires { i ≤ 32 }
    ensures { result ≡ lowered a i }
{
    let mut r: Row = [0; LANES];
    r[..LANES - i].copy_from_slice(&a[i..]);
    r
}

// a moved up by k places.
fn raise(a: Row, k: usize) -> Row
    requires { k ≤ 32 }
    ensures { result ≡ raised a k }
{
    let mut r: Row = [0; LANES];
    r[k..].copy_from_slice(&a[..LANES - k]);
    r
}

// The sum of all lanes.
fn total(a: Row) -> u8
    ensures { elt result ≡ sum gf256 32 (poly a) }
{
    a.iter().fold(0, |r, x| r ^ *x)
}

// A polynomial a of degree l, which is 0 on the first i windows of the values, and what it was before it last grew, which was e where it failed.
// f is the inverse of e.
#[derive(Drop)]
struct State {
    a: Row,
    b: Row,
    i: usize,
    l: usize,
    e: u8,
    f: u8,
}

// The polynomial a on the values from i on.
fn window(a: Row, s: Row, i: usize) -> u8
    requires { i ≤ 32 }
    ensures { elt result ≡ act gf256 32 (poly a) (poly s) i }
{
    total(times_plus(a, lower(s, i), [0; LANES]))
}

// a moved up by j places, and q times b moved up by k places.
fn mixed(a: Row, j: usize, b: Row, k: usize, q: u8) -> Row
    requires { (j ≤ 32) × (k ≤ 32) }
    ensures { result ≡ times_plus (raised b k) (filled q) (raised a j) }
{
    times_plus(raise(b, k), [q; LANES], raise(a, j))
}

// One more value of s.
fn step(mut st: State, s: Row) -> State
    requires { Running s st.i st.l st.a st.b st.e × (st.i + st.l < 30) × (st.f ≡ inv_n st.e) }
    ensures { Running s result.i result.l result.a result.b result.e × (result.i + result.l ≡ st.i + st.l + 1) × (result.f ≡ inv_n result.e) }
{
    let d = window(st.a, s, st.i);
    if d == 0 {
        st.i += 1;
        return st;
    }
    let q = field::mul(d, st.f);
    if st.i < st.l {
        let mended = mixed(st.a, 0, st.b, st.l - 1 - st.i, q);
        st.a = mended;
        st.i += 1;
        st
    } else {
        let before = st.a;
        let grown = mixed(before, st.i + 1 - st.l, st.b, 0, q);
        State {
            a: grown,
            b: before,
            i: st.l,
            l: st.i + 1,
            e: d,
            f: field::inv(d),
        }
    }
}

// The shortest recurrence of the first m values of s.
fn run(s: Row, m: usize) -> State
    requires { m ≤ 30 }
    ensures { Running s result.i result.l result.a result.b result.e × (result.i + result.l ≡ m) }
{
    let mut a: Row = [0; LANES];
    a[0] = 1;
    let b: Row = [0; LANES];
    let mut st = State {
        a,
        b,
        i: 0,
        l: 0,
        e: 1,
        f: 1,
    };
    for _ in 0..m {
        st = step(st, s);
    }
    st
}

// The sums, with the place whose locator is x taken out where it is unreadable.
fn without(s: Row, flag: u8, x: u8) -> Row
    ensures { result ≡ cond (eqb flag 0) s (times_plus s (filled x) (lowered s 1)) }
{
    if flag == 0 {
        s
    } else {
        times_plus(s, [x; LANES], lower(s, 1))
    }
}

// A polynomial, and a number of coefficients past which all are 0.
#[derive(Clone, Copy)]
struct Polynomial {
    row: Row,
    many: usize,
    ghost narrow: { many ≤ 32 },
    ghost below: { Below gf256 many (poly row) },
}

impl Polynomial {
    // The sums s multiplied by the polynomial: at a root of it, what its quotient makes of the sums.
    fn evaluator(self, s: Row) -> Polynomial
        requires { 0 < self.many }
        ensures { (result.many + 1 ≡ self.many) × ((h : ℕ) → poly result.row h ≡ evaluator_of gf256 32 (poly self.row) (poly s) h) }
    {
        let mut r: Row = [0; LANES];
        for (k, sum) in s[..self.many - 1].iter().enumerate() {
            let next = times_plus(lower(self.row, k + 1), [*sum; LANES], r);
            r = next;
        }
        Polynomial {
            row: r,
            many: self.many - 1,
        }
    }

    // What it is at each of the xs.
    fn values(self, xs: Row) -> Row
        ensures { (i : ℕ) → i < 32 → poly result i ≡ eval gf256 32 (poly self.row) (poly xs i) }
    {
        let mut r: Row = [0; LANES];
        for coefficient in self.row[..self.many].iter().rev() {
            let next = times_plus(r, xs, [*coefficient; LANES]);
            r = next;
        }
        r
    }

    // What its quotient by the variable minus x is at x, for each x of the xs.
    fn slopes(self, xs: Row) -> Row
        ensures { (i : ℕ) → i < 32 → poly result i ≡ slope gf256 32 (poly self.row) (poly xs i) }
    {
        let mut r: Row = [0; LANES];
        let mut p: Row = [0; LANES];
        for coefficient in self.row[..self.many].iter().rev() {
            let slope = times_plus(r, xs, p);
            r = slope;
            let value = times_plus(p, xs, [*coefficient; LANES]);
            p = value;
        }
        r
    }
}

// The inverse in each lane.
fn inverses(a: Row) -> Row
    ensures { (i : ℕ) → i < 32 → get_or result i 0 ≡ inv_n (get_or a i 0) }
{
    let zeros: Row = [0; LANES];
    let mut r: Row = [1; LANES];
    let mut s = a;
    for _ in 0..7usize {
        let square = times_plus(s, s, zeros);
        s = square;
        let product = times_plus(r, s, zeros);
        r = product;
    }
    r
}

// The places of a block that may differ from its codeword, the greatest first, and their locators. A count of 31 says that there are more than 30.
// The two rows have a count beside them: there is no heap, and the locators are lanes that are worked on together.
#[derive(Drop)]
struct Listed {
    at: Row,
    xs: Row,
    count: usize,
    ghost few: { count ≤ 31 },
}

impl Listed {
    // No place.
    fn none() -> Self
        ensures { (result.at ≡ filled 0) × (result.xs ≡ filled 0) × (result.count ≡ 0) }
    {
        Listed {
            at: [0; LANES],
            xs: [0; LANES],
            count: 0,
        }
    }

    // The places, and the place j with the locator x where it is unreadable or the polynomial is 0 there.
    fn noted(self, flag: u8, v: u8, j: usize, x: u8) -> Listed
        requires { j < 255 }
        ensures { Noted flag v j x self.at self.xs self.count result.at result.xs result.count }
    {
        if flag == 0 && v != 0 {
            return self;
        }
        if self.count == 31 {
            return self;
        }
        // taken apart: written in place, a correction takes 1.2 percent more instructions
        let Listed {
            mut at,
            mut xs,
            count,
        } = self;
        at[count] = j as u8;
        xs[count] = x;
        Listed {
            at,
            xs,
            count: count + 1,
        }
    }

    // The product of the variable minus each of the locators.
    fn locator(&self) -> Polynomial
        requires { self.now.count ≤ 30 }
        ensures { (result.many ≡ self.now.count + 1) × ((h : ℕ) → poly result.row h ≡ product gf256 (poly self.now.xs) self.now.count h) }
    {
        let mut r: Row = [0; LANES];
        r[0] = 1;
        for x in &self.xs[..self.count] {
            let next = times_plus(r, [*x; LANES], raise(r, 1));
            r = next;
        }
        Polynomial {
            row: r,
            many: self.count + 1,
        }
    }

    // What is wrong at each of the places, of the sums s.
    fn magnitudes(&self, s: Row) -> Row
        requires { self.now.count ≤ 30 }
        ensures { Magnitudes self.now.xs self.now.count s result }
    {
        let product = self.locator();
        let sums = product.evaluator(s);
        let tops = sums.values(self.xs);
        let bottoms = product.slopes(self.xs);
        times_plus(tops, inverses(bottoms), [0; LANES])
    }
}

// 2 to the powers 0 to 31.
const POWERS: Row = [
    1, 2, 4, 8, 16, 32, 64, 128, 29, 58, 116, 232, 205, 135, 19, 38, 76, 152, 45, 90, 180, 117,
    234, 201, 143, 3, 6, 12, 24, 48, 96, 192,
];

// How many codewords of a block differ from its codeword, and how many are unreadable.
#[derive(Clone, Copy)]
pub struct Counts {
    pub differing: usize,
    pub unreadable: usize,
}

// A block: its codewords, and a flag for each, not 0 where the codeword could not be read.
#[derive(Clone, Copy)]
struct Block<'a> {
    word: &'a [u8],
    flags: &'a [u8],
    ghost flagged: { length flags.now ≡ length word.now },
    ghost short: { length flags.now ≤ 255 },
}

impl Block<'_> {
    // How many codewords are unreadable.
    fn missing(self) -> usize
        ensures { result ≡ unreadable self.entry.flags.now }
    {
        self.flags.iter().map(|flag| usize::from(*flag != 0)).sum()
    }

    // How many readable codewords differ from c.
    fn differ(self, c: &[u8]) -> usize
        requires { length c.now ≡ length self.word.now }
        ensures { result ≡ differing self.entry.word.now self.entry.flags.now c.now }
    {
        self.word
            .iter()
            .zip(self.flags)
            .zip(c)
            .filter(|((a, flag), b)| **flag == 0 && **a != **b)
            .count()
    }

    // The sums, with each unreadable place taken out.
    fn erased(self, s: Row) -> Row
        ensures { Erased s self.entry.flags.now result }
    {
        let mut r = s;
        let mut x: u8 = 1;
        for flag in self.flags.iter().rev() {
            let next = without(r, *flag, x);
            r = next;
            x = field::dbl(x);
        }
        r
    }

    // The places below top from the greatest down, many of them, with the locators xs and the values vs of a polynomial there.
    fn grouped(self, found: Listed, vs: Row, xs: Row, top: usize, many: usize) -> Listed
        requires { (top ≤ length self.flags.now) × (many ≤ top) × (many ≤ 32) }
        ensures { Grouped self.entry.flags.now vs xs top many found.at found.xs found.count result.at result.xs result.count }
    {
        let mut list = found;
        for i in 0..many {
            let j = top - 1 - i;
            list = list.noted(self.flags[j], vs[i], j, xs[i]);
        }
        list
    }

    // The unreadable places and those where the polynomial a is 0: 32 places at a time, from the last place down.
    fn suspected(self, a: Polynomial) -> Listed
        ensures { Found self.entry.flags.now a.row 0 result.at result.xs result.count }
    {
        let zeros: Row = [0; LANES];
        let mut found = Listed::none();
        let mut xs = POWERS;
        for group in 0..self.flags.len().div_ceil(LANES) {
            let top = self.flags.len() - group * LANES;
            found = self.grouped(found, a.values(xs), xs, top, top.min(LANES));
            // 157 is 2 to the power 32
            let next = times_plus(xs, [157; LANES], zeros);
            xs = next;
        }
        found
    }

    // The word with the value of each of the places added there.
    fn mended(self, found: &Listed, values: Row) -> [u8; 255]
        requires { (k : ℕ) → k < found.now.count → get_or found.now.at k 0 < length self.word.now }
        ensures { Mended self.entry.word.now found.now.at values found.now.count result }
    {
        let mut r: [u8; 255] = [0; 255];
        r[..self.word.len()].copy_from_slice(self.word);
        for k in 0..found.count {
            let j = usize::from(found.at[k]);
            r[j] = self.word[j] ^ values[k];
        }
        r
    }

    // The codeword that the block stands for, where it stands for one; none where more places are suspected than a codeword within the bound leaves.
    fn proposed(self, s: Row, n: usize, e: usize) -> Option<[u8; 255]>
        requires { Asked self.word.now self.flags.now s n e }
        ensures { MatchOption result (StandsForNone n self.entry.word.now self.entry.flags.now) (Proposed n self.entry.word.now self.entry.flags.now) }
    {
        let st = run(self.erased(s), n - e);
        let row = st.a;
        let found = self.suspected(Polynomial {
            row,
            many: st.l + 1,
        });
        if n < found.count {
            return None;
        }
        let wrong = found.magnitudes(s);
        Some(self.mended(&found, wrong))
    }

    // Whether the block, some codewords of which are unreadable, stands for c: c is a codeword, and the bound is kept.
    fn tested(self, c: &[u8], n: usize, room: usize, missing: usize) -> Option<Counts>
        requires { (length c.now ≡ length self.word.now) × (n ≤ 30) × (missing ≡ unreadable self.flags.now) }
        ensures { Tested n room self.entry.word.now self.entry.flags.now c.now result }
    {
        if code::syndromes(c, n) != [0; LANES] {
            return None;
        }
        let wrong = self.differ(c);
        if room < 2 * wrong + missing {
            return None;
        }
        Some(Counts {
            differing: wrong,
            unreadable: missing,
        })
    }
}

// The codeword that a block of n checks stands for within the room, put into the place of the word, with its counts; or none, and the word is as it was.
pub fn correct(word: &mut [u8], flags: &[u8], n: usize, room: usize) -> Option<Counts>
    requires { (length flags.now ≡ length word.old) × (length word.old ≤ 255) × (n ≤ 30) × (room ≤ n) }
    ensures { Corrected n room word.old flags.now word.new result }
{
    let block = Block { word, flags };
    let e = block.missing();
    if room < e {
        return None;
    }
    let s = code::syndromes(word, n);
    if e == 0 && s == [0; LANES] {
        return Some(Counts {
            differing: 0,
            unreadable: 0,
        });
    }
    let fixed = block.proposed(s, n, e)?;
    let c = &fixed[..word.len()];
    let counts = block.tested(c, n, room, e)?;
    word.copy_from_slice(c);
    Some(counts)
}
