// What each module of a version is, the data modules' filling, and the symbol that a mask makes of it.
#![tactic(auto)]

ghost use Rattle.std.specs.Prelude.{◌≡◌, ℕ, cond, ◌++◌, ◌+◌, ◌-◌, ◌*◌, ◌%◌, ◌≤◌, ◌<◌, eqb, length, get_or, drop, replicate};
ghost use Rattle.basics.specs.Bits.{bit_of, byte_bits};
ghost use Rattle.basics.specs.Build.{build};
ghost use Rattle.basics.specs.Lists.{AtMost};
ghost use Rattle.basics.specs.Walk.{walked};
ghost use Rattle.tables.specs.Tables.{side as side_of, centres, last_version, Lawful};
ghost use Rattle.modules.specs.Modules.{format_places, version_places, pair_column};
ghost use Rattle.modules.specs.Kinds.{Gives, HasRoom, kinds as kinds_of, row_flips, square_place, timing_place, timing_value, format_place, format_value, version_place, version_value, at_finder, aligned_one, aligned, finders_on, frame_on, laid, finished, tinted, filling, put as put_one, put_all, pair_place};

// The kind of a data module that is not filled, or filled by 0. A kind is a byte and no enum: callers lend the matrices of kinds, and `tint` takes a kind as the
// number of its colour's bit.
const DATA: u8 = 2;

// The kind of bit 0 of the format word.
const FORMAT: usize = 4;

// The colours of kinds 0 to 3, bit by bit, where the mask leaves a data module and where it flips it.
const PLAIN: u64 = 10;

const TURNED: u64 = 6;

// The version word is drawn from this version on.
const FIRST_WITH_WORD: usize = 7;

// Dark modules of a finder with its light separator, 8 by 8, row by row from bit 0.
const FINDER_TOP_LEFT: u64 = 0x7F415D5D5D417F;

const FINDER_TOP_RIGHT: u64 = 0xFE82BABABA82FE;

const FINDER_BOTTOM_LEFT: u64 = 0x7F415D5D5D417F00;

// Dark modules of an alignment pattern, 5 by 5, row by row from bit 0.
const ALIGNMENT_DARK: u64 = 0x1F8D63F;

// Where each mask flips rows 0 to 11: bit j for column j, which comes again every 6 columns, as the rows do every 12.
const FLIPS: [[u8; 12]; 8] = [
    [21, 42, 21, 42, 21, 42, 21, 42, 21, 42, 21, 42],
    [63, 0, 63, 0, 63, 0, 63, 0, 63, 0, 63, 0],
    [9, 9, 9, 9, 9, 9, 9, 9, 9, 9, 9, 9],
    [9, 36, 18, 9, 36, 18, 9, 36, 18, 9, 36, 18],
    [7, 7, 56, 56, 7, 7, 56, 56, 7, 7, 56, 56],
    [63, 1, 9, 21, 9, 1, 63, 1, 9, 21, 9, 1],
    [63, 7, 27, 21, 45, 49, 63, 7, 27, 21, 45, 49],
    [21, 56, 49, 42, 7, 14, 21, 56, 49, 42, 7, 14],
];

// 1 at every sixth bit, ten times.
const SIXTHS: u64 = 0x41041041041041;

// Bit k of a number, bit 0 the least significant.
fn bit_of(x: u64, k: usize) -> u8
    requires { k < 64 }
    ensures { result ≡ bit_of x k }
{
    ((x >> k) % 2) as u8
}

// Where a mask flips row i: bit j for column j, 60 columns.
pub fn row_flips(mask: usize, i: usize) -> u64
    requires { (mask < 8) × (i < 60) }
    ensures { result ≡ row_flips mask i }
{
    u64::from(FLIPS[mask][i % 12]) * SIXTHS
}

// The place of module (i, j) in a matrix of side s.
fn place(s: usize, i: usize, j: usize) -> usize
    requires { (s ≤ 57) × ((i < s) × (j < s)) }
    ensures { (result ≡ i * s + j) × (result < s * s) }
{
    i * s + j
}

// The place of bit b of a copy of the format word.
#[tactic(auto, using(crate::proofs::Places::format_first, crate::proofs::Places::format_second), unfolding(crate::specs::Modules::format_one, crate::specs::Modules::format_two))]
pub fn format_place(v: usize, copy: usize, b: usize) -> usize
    requires { (1 ≤ v) × ((v ≤ last_version) × ((copy < 2) × (b < 15))) }
    ensures { result ≡ get_or (format_places v copy) b 0 }
{
    let s = tables::side(v);
    // the long runs of bits first, since a `match` with ranges tests its single numbers first: 54 instructions more for each symbol
    if copy == 1 {
        if b <= 7 {
            place(s, 8, s - 1 - b)
        } else {
            place(s, s - 15 + b, 8)
        }
    } else if b <= 5 {
        place(s, b, 8)
    } else if b >= 9 {
        place(s, 8, 14 - b)
    } else if b == 6 {
        place(s, 7, 8)
    } else if b == 7 {
        place(s, 8, 8)
    } else {
        place(s, 8, 7)
    }
}

// The place of bit b of a copy of the version word.
#[tactic(auto, using(crate::proofs::Places::version_first, crate::proofs::Places::version_second), unfolding(crate::specs::Modules::version_one, crate::specs::Modules::version_two))]
pub fn version_place(v: usize, copy: usize, b: usize) -> usize
    requires { (7 ≤ v) × ((v ≤ last_version) × ((copy < 2) × (b < 18))) }
    ensures { result ≡ get_or (version_places v copy) b 0 }
{
    let s = tables::side(v);
    let i = b / 3;
    let j = s - 11 + b % 3;
    if copy == 0 {
        place(s, i, j)
    } else {
        place(s, j, i)
    }
}

// At each turn t a colour or a kind at a place.
#[tactic(auto, using(basics::proofs::Walk::walked_none, basics::proofs::Walk::walked_more))]
fn draw<P: Fn(usize) -> usize, K: Fn(usize) -> u8>(out: &mut [u8], turns: usize, place: P, kind: K)
    requires ready { (t : ℕ) → t < turns → P.pre place t × K.pre kind t }
    requires inside { (t p : ℕ) → t < turns → P.post place t p → p < length out.old }
    ensures { (places kinds : ℕ → ℕ) → Gives (P.post place) turns places → Gives (K.post kind) turns kinds → out.new ≡ walked places kinds turns out.old }
{
    for t in 0..turns {
        let p = place(t);
        out[p] = kind(t);
    }
}

// Whether pair (a, b) of n alignment centres is one of the three at finders.
#[tactic(auto, unfolding(crate::specs::Kinds::at_finder))]
fn at_finder(n: usize, a: usize, b: usize) -> bool
    requires { (a < 3) × (b < 3) }
    ensures { result ≡ at_finder n a b }
{
    a * b == 0 && (a + b == 0 || a + b + 1 == n)
}

// The kind of a data module that codeword bit n fills. Past the last it is one of the surplus: its bit is 0, and the mask flips it as any other.
#[tactic(auto, using(crate::proofs::Filling::bit_inside, crate::proofs::Filling::bit_past))]
fn filled(codewords: &[u8], n: usize) -> u8
    ensures { result ≡ 2 + get_or (byte_bits codewords.now) n 0 }
{
    match codewords.get(n / 8) {
        Some(codeword) => DATA + bit_of(u64::from(*codeword), 7 - n % 8),
        None => DATA,
    }
}

// A module is met: a data module takes codeword bit n. Answers how many bits are used then.
#[tactic(auto, unfolding(crate::specs::Kinds::put))]
fn put(codewords: &[u8], base: &mut [u8], p: usize, n: usize) -> usize
    requires { (p < length base.old) × (n < 4096) }
    ensures { filling base.new result ≡ put_one (byte_bits codewords.now) (filling base.old n) p }
{
    if base[p] != DATA {
        return n;
    }
    base[p] = filled(codewords, n);
    n + 1
}

// The right column of pair q.
#[tactic(auto, unfolding(crate::specs::Modules::pair_column))]
pub fn pair_column(s: usize, q: usize) -> usize
    requires { 2 * q + 2 < s }
    ensures { (result ≡ pair_column s q) × ((1 ≤ result) × (result < s)) }
{
    let c = s - 1 - 2 * q;
    if c <= 6 { c - 1 } else { c }
}

// The row that pair q meets after t rows: the first pair runs upward, then down, in turn.
pub fn pair_row(s: usize, q: usize, t: usize) -> usize
    requires { t < s }
    ensures { (result ≡ cond (eqb (q % 2) 0) (s - 1 - t) t) × (result < s) }
{
    if q % 2 == 0 { s - 1 - t } else { t }
}

// A version of the table. It fixes the side of the matrix that its methods draw in.
#[derive(Clone, Copy)]
struct Version {
    v: usize,
    ghost real: { (1 ≤ v) × (v ≤ last_version) },
}

impl Version {
    // A square of side w: dark where a bit is set, row by row.
    #[tactic(auto, unfolding(crate::specs::Kinds::square_place))]
    fn square(self, out: &mut [u8], top: usize, left: usize, w: usize, dark: u64)
        requires { (1 ≤ w) × ((w ≤ 8) × ((top + w ≤ side_of self.v) × ((left + w ≤ side_of self.v) × HasRoom out.old self.v))) }
        ensures { out.new ≡ walked (square_place (side_of self.v) top left w) (bit_of dark) (w * w) out.old }
    {
        let s = tables::side(self.v);
        draw(
            out,
            w * w,
            |t| place(s, top + t / w, left + t % w),
            |t| bit_of(dark, t),
        );
    }

    // Module t of row 6 and column 6 between the finders, row and column in turn.
    #[tactic(auto, unfolding(crate::specs::Kinds::timing_place))]
    fn timing_place(self, t: usize) -> usize
        requires { t < 2 * (side_of self.v - 16) }
        ensures { (result ≡ timing_place (side_of self.v) t) × (result < side_of self.v * side_of self.v) }
    {
        let s = tables::side(self.v);
        let j = 8 + t / 2;
        if t % 2 == 0 {
            place(s, 6, j)
        } else {
            place(s, j, 6)
        }
    }

    // Row 6 and column 6 between the finders, dark at even index.
    #[tactic(auto, unfolding(crate::specs::Kinds::timing_value))]
    fn timing(self, out: &mut [u8])
        requires { HasRoom out.old self.v }
        ensures { out.new ≡ walked (timing_place (side_of self.v)) timing_value (2 * (side_of self.v - 16)) out.old }
    {
        draw(
            out,
            2 * (tables::side(self.v) - 16),
            |t| self.timing_place(t),
            // a bit of 1, since `u8::from(t / 2 % 2 == 0)` takes 650 instructions more for each symbol
            |t| bit_of(1, t / 2 % 2),
        );
    }

    // The kinds of the format word's bits, in both copies.
    #[tactic(auto, unfolding(crate::specs::Kinds::format_place, crate::specs::Kinds::format_value))]
    fn formats(self, out: &mut [u8])
        requires { HasRoom out.old self.v }
        ensures { out.new ≡ walked (format_place self.v) format_value 30 out.old }
    {
        draw(
            out,
            30,
            |t| format_place(self.v, t % 2, t / 2),
            |t| (FORMAT + t / 2) as u8,
        );
    }

    // The bits of the version word, in both copies.
    #[tactic(auto, unfolding(crate::specs::Kinds::version_place, crate::specs::Kinds::version_value))]
    fn versions(self, out: &mut [u8], word: u64)
        requires { (7 ≤ self.v) × HasRoom out.old self.v }
        ensures { out.new ≡ walked (version_place self.v) (version_value word) 36 out.old }
    {
        draw(
            out,
            36,
            |t| version_place(self.v, t % 2, t / 2),
            |t| bit_of(word, t / 2),
        );
    }

    // The alignment pattern at pair (a, b) of the listed centres, none at a finder.
    #[tactic(auto, using(crate::proofs::Centres::centres_few, crate::proofs::Centres::centre_inside, crate::proofs::Centres::aligned_skip, crate::proofs::Centres::aligned_square))]
    fn alignment(self, out: &mut [u8], a: usize, b: usize)
        requires { (a < length (centres self.v)) × ((b < length (centres self.v)) × HasRoom out.old self.v) }
        ensures { out.new ≡ aligned_one self.v (a * length (centres self.v) + b) out.old }
    {
        if at_finder(tables::centre_count(self.v), a, b) {
            return;
        }
        let i = tables::centre(self.v, a);
        let j = tables::centre(self.v, b);
        self.square(out, i - 2, j - 2, 5, ALIGNMENT_DARK);
    }

    // All alignment patterns.
    #[tactic(auto, using(crate::proofs::Centres::aligned_none, crate::proofs::Centres::aligned_more, crate::proofs::Centres::aligned_row, crate::proofs::Centres::aligned_rows))]
    fn alignments(self, out: &mut [u8])
        requires { HasRoom out.old self.v }
        ensures { out.new ≡ aligned self.v (length (centres self.v) * length (centres self.v)) out.old }
    {
        let n = tables::centre_count(self.v);
        for a in 0..n {
            for b in 0..n {
                self.alignment(out, a, b);
            }
        }
    }

    // The three finders with their separators.
    #[tactic(auto, unfolding(crate::specs::Kinds::finders_on))]
    fn finders(self, out: &mut [u8])
        requires { HasRoom out.old self.v }
        ensures { out.new ≡ finders_on (side_of self.v) out.old }
    {
        let s = tables::side(self.v);
        self.square(out, 0, 0, 8, FINDER_TOP_LEFT);
        self.square(out, 0, s - 8, 8, FINDER_TOP_RIGHT);
        self.square(out, s - 8, 0, 8, FINDER_BOTTOM_LEFT);
    }

    // Timing, alignment patterns, the format word's bits and the module that is always dark.
    #[tactic(auto, using(crate::proofs::Centres::frame_made))]
    fn frame(self, out: &mut [u8])
        requires { HasRoom out.old self.v }
        ensures { out.new ≡ frame_on self.v out.old }
    {
        let s = tables::side(self.v);
        self.timing(out);
        self.alignments(out);
        self.formats(out);
        let dark = place(s, s - 8, 8);
        out[dark] = 1;
    }

    // The kinds of a version's modules, pattern after pattern, over a matrix of its length.
    fn patterns(self, out: &mut [u8])
        requires { length out.old ≡ side_of self.v * side_of self.v }
        ensures { out.new ≡ kinds_of self.v }
    {
        out.fill(DATA);
        self.finders(out);
        self.frame(out);
        if self.v >= FIRST_WITH_WORD {
            self.versions(out, u64::from(words::version_word(self.v as u32)));
        }
    }

    // The modules of column pair q, right before left in each row.
    #[tactic(auto, using(crate::proofs::Filling::put_none))]
    fn pair(self, codewords: &[u8], base: &mut [u8], q: usize, n: usize) -> usize
        requires { (q < 2 * self.v + 8) × ((n + 2 * side_of self.v ≤ 4000) × HasRoom base.old self.v) }
        ensures { filling base.new result ≡ put_all (byte_bits codewords.now) (pair_place (side_of self.v) q) (2 * side_of self.v) (filling base.old n) }
    {
        let s = tables::side(self.v);
        let right = pair_column(s, q);
        let mut used = n;
        for t in 0..s {
            let p = place(s, pair_row(s, q, t), right);
            used = put(codewords, base, p, used);
            used = put(codewords, base, p - 1, used);
        }
        used
    }
}

// The kind of each module of a version, no data module filled.
pub fn kinds(v: usize, out: &mut [u8])
    requires { (1 ≤ v) × ((v ≤ last_version) × (side_of v * side_of v ≤ length out.old)) }
    ensures { out.new ≡ kinds_of v ++ drop (side_of v * side_of v) out.old }
{
    let s = tables::side(v);
    Version { v }.patterns(&mut out[..s * s]);
}

// The colour of a module of kind x in column j: a bit of the word for flipped columns or of the other.
#[tactic(auto, unfolding(crate::specs::Kinds::tinted))]
fn tint(plain: u64, turned: u64, row: u64, j: usize, x: u8) -> u8
    requires { (j < 64) × (x < 64) }
    ensures { result ≡ tinted plain turned row j x }
{
    let colours = if bit_of(row, j) == 0 { plain } else { turned };
    bit_of(colours, usize::from(x))
}

// The colours of a row's kinds.
#[tactic(auto, using(basics::proofs::Build::build_put), unfolding(basics::specs::Build::build))]
fn tint_row(base: &[u8], out: &mut [u8], plain: u64, turned: u64, row: u64)
    requires { (length out.old ≡ length base.now) × ((length base.now ≤ 57) × AtMost 18 base.now) }
    ensures { out.new ≡ build (λ j. tinted plain turned row j (get_or base.now j 0)) (length base.now) }
{
    // `base` by its index: of a zipped loop the check does not know what was written
    for (j, colour) in out.iter_mut().enumerate() {
        *colour = tint(plain, turned, row, j, base[j]);
    }
}

// The symbol over a laid matrix.
pub fn finish(base: &[u8], v: usize, level: usize, mask: usize, out: &mut [u8])
    requires { Lawful v level × ((mask < 8) × ((length base.now ≡ side_of v * side_of v) × (AtMost 18 base.now × (side_of v * side_of v ≤ length out.old)))) }
    ensures { out.new ≡ finished v level mask base.now ++ drop (side_of v * side_of v) out.old }
{
    let s = tables::side(v);
    let word = u64::from(words::format_word(words::format_bits(level, mask))) * 16;
    for i in 0..s {
        // by ranges: of rows lent by `chunks_exact_mut` a proof knows only the length
        let a = i * s;
        let e = a + s;
        tint_row(
            &base[a..e],
            &mut out[a..e],
            word + PLAIN,
            word + TURNED,
            row_flips(mask, i),
        );
    }
}

// The kinds of a version's modules, the data modules filled by the codewords and the surplus by 0.
#[tactic(auto, using(crate::proofs::Filling::none_yet))]
pub fn lay(v: usize, codewords: &[u8], base: &mut [u8])
    requires { (1 ≤ v) × ((v ≤ last_version) × (side_of v * side_of v ≤ length base.old)) }
    ensures { base.new ≡ laid v codewords.now ++ drop (side_of v * side_of v) base.old }
{
    let s = tables::side(v);
    let matrix = &mut base[..s * s];
    let version = Version { v };
    version.patterns(matrix);
    let mut used = 0;
    for q in 0..2 * v + 8 {
        used = version.pair(codewords, matrix, q, used);
    }
}
