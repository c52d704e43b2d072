// The version table as constants, and what follows from it: sides, block lengths, count widths, alignment centres.
#![tactic(auto)]

ghost use Rattle.std.specs.Prelude.{◌≡◌, ◌≤◌, ◌<◌, length, get_or};
ghost use Rattle.tables.specs.Tables.{Lawful, last_version, side as side_of, total as total_of, check_count, block_count, data_count, short_length, short_blocks, block_data, block_start, block_length, room as room_of, count_width, centres, surplus as surplus_of};
ghost use Rattle.tables.specs.Largest.{largest_of};
ghost use Rattle.tables.specs.Version.{Fixes};

// The last version, and the most that any version and level has of each: sizes of buffers.
pub const LAST_VERSION: usize = 10;

pub const MOST_SIDE: usize = 57;

pub const MOST_MODULES: usize = 3249;

pub const MOST_CODEWORDS: usize = 346;

pub const MOST_DATA: usize = 274;

pub const MOST_PAYLOAD: usize = 652;

pub const MOST_LIST: usize = 308;

// What these constants are. A constant has no contract: by a result each is held to the definition.
#[derive(Clone, Copy)]
pub struct Largest {
    pub version: usize,
    pub side: usize,
    pub modules: usize,
    pub codewords: usize,
    pub held: usize,
    pub payload: usize,
    pub list: usize,
}

// Each constant is the definition's number.
pub fn most() -> Largest
    ensures { result ≡ largest_of }
{
    Largest {
        version: LAST_VERSION,
        side: MOST_SIDE,
        modules: MOST_MODULES,
        codewords: MOST_CODEWORDS,
        held: MOST_DATA,
        payload: MOST_PAYLOAD,
        list: MOST_LIST,
    }
}

// Total codewords, versions 1 to 10.
const TOTALS: [u16; 10] = [26, 44, 70, 100, 134, 172, 196, 242, 292, 346];

// Check codewords per block, levels L, M, Q, H.
const CHECKS: [[u8; 4]; 10] = [
    [7, 10, 13, 17],
    [10, 16, 22, 28],
    [15, 26, 18, 22],
    [20, 18, 26, 16],
    [26, 24, 18, 22],
    [18, 16, 24, 28],
    [20, 18, 18, 26],
    [24, 22, 22, 26],
    [30, 22, 20, 24],
    [18, 26, 24, 28],
];

// Blocks, levels L, M, Q, H.
const BLOCKS: [[u8; 4]; 10] = [
    [1, 1, 1, 1],
    [1, 1, 1, 1],
    [1, 1, 2, 2],
    [1, 2, 2, 4],
    [1, 2, 4, 4],
    [2, 4, 4, 4],
    [2, 4, 6, 5],
    [2, 4, 6, 6],
    [2, 5, 8, 8],
    [4, 5, 8, 8],
];

// Alignment centres, 0 where a version has no more, and `centre_count` beside them: rows of their own lengths would be slices, and a table of addresses is data
// that is written as the library is loaded, of which it has none.
const CENTRES: [[u8; 3]; 10] = [
    [0, 0, 0],
    [6, 18, 0],
    [6, 22, 0],
    [6, 26, 0],
    [6, 30, 0],
    [6, 34, 0],
    [6, 22, 38],
    [6, 24, 42],
    [6, 26, 46],
    [6, 28, 50],
];

// The side of a version's matrix.
pub fn side(v: usize) -> usize
    requires { v ≤ last_version }
    ensures { result ≡ side_of v }
{
    17 + 4 * v
}

// The codewords of a version.
pub fn total(v: usize) -> usize
    requires { (1 ≤ v) × (v ≤ last_version) }
    ensures { result ≡ total_of v }
{
    usize::from(TOTALS[v - 1])
}

// The check codewords of each block.
pub fn checks(v: usize, level: usize) -> usize
    requires { Lawful v level }
    ensures { result ≡ check_count v level }
{
    usize::from(CHECKS[v - 1][level])
}

// The blocks.
pub fn blocks(v: usize, level: usize) -> usize
    requires { Lawful v level }
    ensures { result ≡ block_count v level }
{
    usize::from(BLOCKS[v - 1][level])
}

// The data codewords of all blocks.
pub fn data(v: usize, level: usize) -> usize
    requires { Lawful v level }
    ensures { result ≡ data_count v level }
{
    let n = checks(v, level);
    let b = blocks(v, level);
    total(v) - n * b
}

// The data codewords of a short block.
pub fn short_length(v: usize, level: usize) -> usize
    requires { Lawful v level }
    ensures { result ≡ short_length v level }
{
    let b = blocks(v, level);
    data(v, level) / b
}

// How many blocks are short: the first ones.
pub fn short_blocks(v: usize, level: usize) -> usize
    requires { Lawful v level }
    ensures { result ≡ short_blocks v level }
{
    let b = blocks(v, level);
    b - data(v, level) % b
}

// The data codewords of block b.
pub fn block_data(v: usize, level: usize, b: usize) -> usize
    requires { Lawful v level }
    ensures { result ≡ block_data v level b }
{
    let short = short_length(v, level);
    if short_blocks(v, level) <= b {
        short + 1
    } else {
        short
    }
}

// The data codewords before block b.
pub fn block_start(v: usize, level: usize, b: usize) -> usize
    requires { Lawful v level × (b ≤ block_count v level) }
    ensures { result ≡ block_start v level b }
{
    let short = short_length(v, level);
    let first = short_blocks(v, level);
    b * short + b.saturating_sub(first)
}

// The codewords of block b, data and checks.
pub fn block_length(v: usize, level: usize, b: usize) -> usize
    requires { Lawful v level }
    ensures { result ≡ block_length v level b }
{
    let d = block_data(v, level, b);
    d + checks(v, level)
}

// The bound of 2t + e in each block.
pub fn room(v: usize, level: usize) -> usize
    requires { Lawful v level }
    ensures { result ≡ room_of v level }
{
    checks(v, level)
}

// The bits of a segment's count; 0 for a mode that has none.
pub fn count_width(v: usize, mode: usize) -> usize
    ensures { result ≡ count_width v mode }
{
    match mode {
        1 => if v <= 9 { 10 } else { 12 },
        2 => if v <= 9 { 9 } else { 11 },
        4 => if v <= 9 { 8 } else { 16 },
        _ => 0,
    }
}

// How many alignment centres a version lists.
pub fn centre_count(v: usize) -> usize
    requires { (1 ≤ v) × (v ≤ last_version) }
    ensures { result ≡ length (centres v) }
{
    match v {
        0..=1 => 0,
        2..=6 => 2,
        _ => 3,
    }
}

// Alignment centre k of a version, from 0; 0 where there are no more.
pub fn centre(v: usize, k: usize) -> usize
    requires { (1 ≤ v) × ((v ≤ last_version) × (k < 3)) }
    ensures { result ≡ get_or (centres v) k 0 }
{
    usize::from(CENTRES[v - 1][k])
}

// The data modules that no codeword bit fills.
pub fn surplus(v: usize) -> usize
    ensures { result ≡ surplus_of v }
{
    match v {
        2..=6 => 7,
        _ => 0,
    }
}

// The version whose matrix has this length, if there is one.
pub fn version_of(len: usize) -> Option<usize>
    ensures { Fixes len result }
{
    (1..=LAST_VERSION).find(|v| side(*v) * side(*v) == len)
}
