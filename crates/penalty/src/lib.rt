// The penalty of a finished symbol: runs and windows of each row and column, squares, the share of dark modules. Every place is looked at in one way, whatever
// stands there, so that the compiler counts sixteen places at a time and a score takes as long for one symbol as for another of its side.
#![tactic(auto)]

ghost use Rattle.std.specs.Prelude.{ℕ, Bool, ◌≡◌, ◌++◌, ◌+◌, ◌-◌, ◌*◌, ◌<◌, ◌≤◌, length, drop};
ghost use Rattle.basics.specs.Lists.{same, AtMost};
ghost use Rattle.basics.specs.Sums.{tally};
ghost use Rattle.penalty.specs.Penalty as paper;
ghost use Rattle.penalty.specs.Lines.{line, AnswersAs, lines_from, alike, turned, square, squares_from};

// The finder-like patterns, 10111010000 and 00001011101.
const PATTERNS: [[u8; 11]; 2] = [
    [1, 0, 1, 1, 1, 0, 1, 0, 0, 0, 0],
    [0, 0, 0, 0, 1, 0, 1, 1, 1, 0, 1],
];

// Whether two windows are equal. Module by module, since by `==` of arrays a score at side 57 takes 67,900 instructions in place of 64,000.
fn equal(w: &[u8; 11], p: &[u8; 11]) -> bool
    ensures { result ≡ same w.now p.now }
{
    w.iter().zip(p).all(|(x, y)| x == y)
}

// Whether a window is one pattern or the other.
#[tactic(auto, unfolding(crate::specs::Penalty::finder_like, crate::specs::Penalty::patterns))]
fn finder_like(w: [u8; 11]) -> bool
    ensures { result ≡ paper.finder_like w }
{
    PATTERNS.iter().any(|p| equal(&w, p))
}

// The window of N modules at start: a row's at stride 1, a column's at the side.
fn window<const N: usize>(m: &[u8], start: usize, stride: usize) -> [u8; N]
    requires { (stride ≤ 64) × ((N ≤ 64) × (start + N * stride < length m.now + stride)) }
    ensures { result ≡ line m.now start stride N }
{
    std::array::from_fn(|k| m[start + k * stride])
}

// Whether K modules are equal, the one at `at` and those after it.
fn equal_run<const K: usize>(m: &[u8], at: usize, stride: usize) -> bool
    requires { (stride ≤ 64) × ((1 ≤ K) × ((K ≤ 64) × (at + K * stride < length m.now + stride))) }
    ensures { result ≡ alike m.now at stride K }
{
    let run: [u8; K] = window(m, at, stride);
    let first = run[0];
    run.iter().all(|x| *x == first)
}

// How many of n places from start on, few enough for a byte, pass a test.
fn passing_among<F: Fn(usize) -> bool>(start: usize, n: usize, test: &F) -> u8
    requires { (n ≤ 64) × ((start ≤ 4096) × ((i : ℕ) → i < n → F.pre test.now (start + i))) }
    ensures { (g : ℕ → Bool) → AnswersAs (λ i b. F.post test.now (start + i) b) g n → result ≡ tally n g }
{
    let mut count: u8 = 0;
    for i in 0..n {
        if test(start + i) {
            count += 1;
        }
    }
    count
}

// How many of the first n places pass a test. Sixty-four at a time, since by one chain over all places a score takes 183,000 instructions and more.
fn passing<F: Fn(usize) -> bool>(n: usize, test: F) -> u32
    requires { (n ≤ 4096) × ((i : ℕ) → i < n → F.pre test i) }
    ensures { (g : ℕ → Bool) → AnswersAs (F.post test) g n → result ≡ tally n g }
{
    let mut count: u32 = 0;
    for block in 0..n / 64 {
        count += u32::from(passing_among(64 * block, 64, &test));
    }
    count + u32::from(passing_among(n - n % 64, n % 64, &test))
}

// What the columns add by their runs and their windows. Of a run of r ≥ 5 modules r - 4 begin five equal ones and r - 5 begin six, and
// 3(r - 4) - 2(r - 5) is r - 2.
fn columns_score(m: &[u8], s: usize) -> u32
    requires { (11 ≤ s) × ((s ≤ 57) × (s * s ≤ length m.now)) }
    ensures { result ≡ paper.lines (lines_from m.now 0 1 s s s) }
{
    let fives = passing((s - 4) * s, |at| equal_run::<5>(m, at, s));
    let sixes = passing((s - 5) * s, |at| equal_run::<6>(m, at, s));
    let windows = passing((s - 10) * s, |at| finder_like(window::<11>(m, at, s)));
    3 * fives - 2 * sixes + 40 * windows
}

// Copies a line into a lent part; `window` answers an array of a length that is known beforehand.
fn copy_line(m: &[u8], start: usize, stride: usize, out: &mut [u8])
    requires { (stride ≤ 64) × ((length out.old ≤ 64) × (start + length out.old * stride < length m.now + stride)) }
    ensures { out.new ≡ line m.now start stride (length out.old) }
{
    for (k, x) in out.iter_mut().enumerate() {
        *x = m[start + k * stride];
    }
}

// Turns a matrix: its columns are the rows of what is written.
fn turn(m: &[u8], s: usize, out: &mut [u8])
    requires { (s ≤ 64) × ((s * s ≤ length m.now) × (s * s ≤ length out.old)) }
    ensures { out.new ≡ turned s m.now ++ drop (s * s) out.old }
{
    for i in 0..s {
        // by ranges: of rows lent by `chunks_exact_mut` a proof knows only the length
        let a = i * s;
        let e = a + s;
        copy_line(m, i, s, &mut out[a..e]);
    }
}

// What a square of four modules adds.
#[tactic(auto, unfolding(crate::specs::Lines::square))]
fn square_score(a: u8, b: u8, c: u8, d: u8) -> u32
    ensures { result ≡ square a b c d }
{
    if a == b && a == c && a == d { 3 } else { 0 }
}

// What the squares add whose upper row starts at start.
fn row_squares(m: &[u8], start: usize, s: usize) -> u32
    requires { (1 ≤ s) × ((s ≤ 64) × (start + s + s ≤ length m.now)) }
    ensures { result ≡ squares_from s m.now start (s - 1) }
{
    (0..s - 1)
        .map(|j| {
            let upper = start + j;
            let lower = start + s + j;
            square_score(m[upper], m[upper + 1], m[lower], m[lower + 1])
        })
        .sum()
}

// What all squares add.
fn squares_score(m: &[u8], s: usize) -> u32
    requires { (1 ≤ s) × ((s ≤ 64) × (length m.now ≡ s * s)) }
    ensures { result ≡ paper.squares s (paper.rows s m.now) }
{
    (0..s - 1).map(|i| row_squares(m, i * s, s)).sum()
}

// The number of dark modules.
fn dark(m: &[u8]) -> u32
    requires { (length m.now ≤ 4096) × AtMost 1 m.now }
    ensures { result ≡ paper.dark m.now }
{
    m.iter().map(|x| u32::from(*x)).sum()
}

// What k dark modules of s·s add.
#[tactic(auto, unfolding(crate::specs::Penalty::share))]
fn share_score(s: u32, k: u32) -> u32
    requires { (1 ≤ s) × ((s ≤ 64) × (k ≤ 4096)) }
    ensures { result ≡ paper.share s k }
{
    let area = s * s;
    (20 * k).abs_diff(10 * area) / area * 10
}

// The score of a finished symbol of side s.
pub fn score(m: &[u8], s: usize) -> u32
    requires { (11 ≤ s) × ((s ≤ 57) × ((length m.now ≡ s * s) × AtMost 1 m.now)) }
    ensures { result ≡ paper.score s m.now }
{
    let mut turned = [0u8; 3249];
    turn(m, s, &mut turned);
    let rows = columns_score(&turned, s);
    let columns = columns_score(m, s);
    let squares = squares_score(m, s);
    rows + columns + squares + share_score(s as u32, dark(m))
}
