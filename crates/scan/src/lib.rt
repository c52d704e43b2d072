// What a matrix holds, as it was read: the copies of the words, and the codewords with their flags. A module is 0 light, 1 dark, 2 unreadable.
#![tactic(auto)]

ghost use Rattle.std.specs.Prelude.{◌≡◌, List, map, ℕ, ◌+◌, ◌-◌, ◌*◌, ◌^◌, ◌≤◌, ◌<◌, eqb, ltb, length, get_or, take};
ghost use Rattle.basics.specs.Sums.{one};
ghost use Rattle.basics.specs.Build.{build};
ghost use Rattle.basics.specs.Lists.{up_to, AtMost};
ghost use Rattle.tables.specs.Tables.{side as side_of, total as total_of, last_version, most_side};
ghost use Rattle.modules.specs.Modules.{format_places, version_places, walk};
ghost use Rattle.modules.specs.Kinds.{row_flips, Gives};
ghost use Rattle.scan.specs.Received.{flag as flag_of, codeword, received, codewords as codewords_of, flags as flags_of};
ghost use Rattle.scan.specs.Scan.{CopyRead, Ready, Walked, plain, EightRead};

use tables::{MOST_MODULES, MOST_SIDE};

// The number of a module that could not be read.
const UNREADABLE: u8 = 2;

// The kind of a data module.
const DATA: u8 = 2;

// The bits of a format word and of a version word.
const FORMAT_BITS: usize = 15;

const VERSION_BITS: usize = 18;

// A copy of a word, and which of its bits could be read.
#[derive(Clone, Copy)]
pub struct Copy {
    pub bits: u32,
    pub readable: u32,
}

// A module with the flips of its row taken off: bit j for column j.
fn unmask(x: u8, row: u64, j: usize) -> u8
    requires { j < 64 }
    ensures { result ≡ plain x row j }
{
    if x == UNREADABLE {
        UNREADABLE
    } else {
        x ^ (((row >> j) % 2) as u8)
    }
}

// A matrix beside the kinds of its modules and the flips of its rows.
#[derive(Clone, Copy)]
struct Matrix<'a> {
    m: &'a [u8],
    kinds: &'a [u8],
    rows: &'a [u64],
    v: usize,
    ghost ready: { Ready v m.now kinds.now rows.now },
}

impl Matrix<'_> {
    // A module is met: a data module is put behind the first n. How many there are then.
    fn meet(self, row: usize, column: usize, out: &mut [u8], n: usize) -> usize
        requires inside { (row < side_of self.v) × (column < side_of self.v) }
        requires room { n < length out.old }
        ensures long { length out.new ≡ length out.old }
        ensures walked { let x = self.entry in (k : ℕ) → row * side_of x.v + column ≡ walk (side_of x.v) k → Walked x.v x.rows.now x.m.now k n out.old → Walked x.v x.rows.now x.m.now (k + 1) result out.new }
    {
        let p = row * tables::side(self.v) + column;
        if self.kinds[p] != DATA {
            return n;
        }
        out[n] = unmask(self.m[p], self.rows[row], column);
        n + 1
    }

    // The data modules of column pair q, put behind the first n. How many there are then.
    fn pair(self, q: usize, out: &mut [u8], n: usize) -> usize
        requires ready { (2 * q + 2 < side_of self.v) × (side_of self.v * side_of self.v ≤ length out.old) }
        requires walked { Walked self.v self.rows.now self.m.now (q * (2 * side_of self.v)) n out.old }
        ensures { let x = self.entry in (length out.new ≡ length out.old) × Walked x.v x.rows.now x.m.now (q * (2 * side_of x.v) + 2 * side_of x.v) result out.new }
    {
        let s = tables::side(self.v);
        let right = modules::pair_column(s, q);
        let mut count = n;
        for t in 0..s {
            let row = modules::pair_row(s, q, t);
            for column in [right, right - 1] {
                count = self.meet(row, column, out, count);
            }
        }
        count
    }

    // The data modules in their order, at the front of `out`. How many there are.
    fn walk(self, out: &mut [u8]) -> usize
        requires { side_of self.v * side_of self.v ≤ length out.old }
        ensures { let x = self.entry in (length out.new ≡ length out.old) × Walked x.v x.rows.now x.m.now (side_of x.v * (side_of x.v - 1)) result out.new }
    {
        let mut n = 0;
        for q in 0..(tables::side(self.v) - 1) / 2 {
            n = self.pair(q, out, n);
        }
        n
    }
}

// Where a mask flips each row.
fn flip_rows(mask: usize) -> [u64; MOST_SIDE]
    requires { mask < 8 }
    ensures { result ≡ build (row_flips mask) most_side }
{
    std::array::from_fn(|i| modules::row_flips(mask, i))
}

// The data modules in their order with the mask taken off, at the front of `out`. How many there are.
fn gather(m: &[u8], v: usize, mask: usize, out: &mut [u8]) -> usize
    requires le_v { (1 ≤ v) × ((v ≤ last_version) × (mask < 8)) }
    requires m_len { (length m.now ≡ side_of v * side_of v) × (side_of v * side_of v ≤ length out.old) }
    ensures { (length out.new ≡ length out.old) × ((result ≤ length out.old) × (take result out.new ≡ received v mask m.now)) }
{
    let mut kinds = [0u8; MOST_MODULES];
    modules::kinds(v, &mut kinds);
    let rows = flip_rows(mask);
    let matrix = Matrix {
        m,
        kinds: &kinds,
        rows: &rows,
        v,
    };
    matrix.walk(out)
}

// A copy with one bit more, below the others.
fn below(c: Copy, x: u8) -> Copy
    requires { (c.bits < 2 ^ 18) × (c.readable < 2 ^ 18) }
    ensures { (result.bits ≡ one (eqb x 1) + 2 * c.bits) × (result.readable ≡ one (ltb x 2) + 2 * c.readable) }
{
    Copy {
        bits: u32::from(x == 1) + 2 * c.bits,
        readable: u32::from(x < UNREADABLE) + 2 * c.readable,
    }
}

// Eight modules as a codeword, none where one of them could not be read. All are looked at, so that many codewords are made at once.
fn eight(bits: &[u8]) -> Option<u8>
    requires { AtMost 2 bits.now × (length bits.now ≡ 8) }
    ensures { EightRead bits.now result }
{
    let mut x: u32 = 0;
    let mut readable = true;
    for b in bits {
        x = x * 2 + u32::from(*b);
        readable &= *b != UNREADABLE;
    }
    if readable { Some(x as u8) } else { None }
}

// The codewords that modules in their order make, 0 where one could not be read, and their flags.
fn pack(bits: &[u8], words: &mut [u8], flags: &mut [u8])
    requires { AtMost 2 bits.now × ((length words.old ≤ 346) × ((8 * length words.old ≤ length bits.now) × (length flags.old ≡ length words.old))) }
    ensures { (words.new ≡ map (codeword bits.now) (up_to (length words.old))) × (flags.new ≡ map (flag_of bits.now) (up_to (length words.old))) }
{
    for q in 0..words.len() {
        let codeword = eight(&bits[8 * q..8 * q + 8]);
        words[q] = codeword.unwrap_or(0);
        flags[q] = u8::from(codeword.is_none());
    }
}

// The codewords of a matrix in their sent order, and their flags.
pub fn codewords(m: &[u8], v: usize, mask: usize, words: &mut [u8], flags: &mut [u8])
    requires le_v { (1 ≤ v) × ((v ≤ last_version) × (mask < 8)) }
    requires m_len { (length m.now ≡ side_of v * side_of v) × AtMost 2 m.now }
    requires words_len { (length words.old ≡ total_of v) × (length flags.old ≡ total_of v) }
    ensures { (words.new ≡ codewords_of v mask m.now) × (flags.new ≡ flags_of v mask m.now) }
{
    let mut bits = [0u8; MOST_MODULES];
    let n = gather(m, v, mask, &mut bits);
    pack(&bits[..n], words, flags);
}

// A copy of a word of so many bits, whose places are told one by one.
fn copy_at<P: Fn(usize) -> usize>(m: &[u8], bits: usize, place: P) -> Copy
    requires few { bits ≤ 18 }
    requires callable { (b : ℕ) → b < bits → P.pre place b }
    requires within { (b p : ℕ) → b < bits → P.post place b p → p < length m.now }
    ensures { (places : List ℕ) → length places ≡ bits → Gives (P.post place) bits (λ b. get_or places b 0) → CopyRead m.now places result }
{
    let mut copy = Copy {
        bits: 0,
        readable: 0,
    };
    for b in (0..bits).rev() {
        copy = below(copy, m[place(b)]);
    }
    copy
}

// A copy of the format word.
pub fn format_copy(m: &[u8], v: usize, copy: usize) -> Copy
    requires { (1 ≤ v) × ((v ≤ last_version) × ((copy < 2) × (length m.now ≡ side_of v * side_of v))) }
    ensures { CopyRead m.now (format_places v copy) result }
{
    copy_at(m, FORMAT_BITS, |b| modules::format_place(v, copy, b))
}

// A copy of the version word.
pub fn version_copy(m: &[u8], v: usize, copy: usize) -> Copy
    requires { (7 ≤ v) × ((v ≤ last_version) × ((copy < 2) × (length m.now ≡ side_of v * side_of v))) }
    ensures { CopyRead m.now (version_places v copy) result }
{
    copy_at(m, VERSION_BITS, |b| modules::version_place(v, copy, b))
}
