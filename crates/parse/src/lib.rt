// Data codewords back to a message, or the first fault.
#![tactic(auto)]

ghost use Rattle.std.specs.Prelude.{◌≡◌, false, ◌++◌, ◌+◌, ◌*◌, ◌≤◌, ◌<◌, length, take, drop};
ghost use Rattle.basics.specs.Bits.{byte_bits};
ghost use Rattle.tables.specs.Tables.{most_payload, most_list};
ghost use Rattle.stream.specs.Stream.{character as character_of};
ghost use Rattle.parse.specs.Parse.{ends as does_end, most_data, message};
ghost use Rattle.parse.specs.Answer.{fault_number, by_number, answer_of, payload_after, list_after};
ghost use Rattle.parse.specs.Steps.{HeadReads, BodyAsks, BodyReads, StepAsks, StepReads, FillReads};
ghost use Rattle.parse.specs.Groups.{group_of, group_characters, InGroup};

use cursor::Cursor;

// The characters in the order of their codes.
const ALPHABET: [u8; 45] = *b"0123456789ABCDEFGHIJKLMNOPQRSTUVWXYZ $%*+-./:";

// The next group of a body: how many characters, in how many bits, and the most that it may be.
#[derive(Clone, Copy)]
pub struct Group {
    pub size: usize,
    pub width: usize,
    pub most: usize,
}

// What is wrong with a stream: its first fault.
#[derive(Clone, Copy, Debug, PartialEq, Eq)]
pub enum Fault {
    // The mode of a segment is unknown.
    UnknownMode,
    // A count field or a body runs past the bits.
    RunsPast,
    // A group of a body is above the most that it may be.
    OutOfRange,
}

impl Fault {
    // The number of its refusal.
    pub fn number(self) -> u8
        ensures { result ≡ fault_number self }
    {
        match self {
            Fault::UnknownMode => 13,
            Fault::RunsPast => 14,
            Fault::OutOfRange => 15,
        }
    }
}

// A segment's head: its mode, its count, and the cursor at its body.
#[derive(Clone, Copy)]
pub struct Head {
    pub mode: usize,
    pub count: usize,
    pub body: Cursor,
}

// How far the reading is: the cursor, the characters and the segments before it.
#[derive(Clone, Copy)]
pub struct Progress {
    pub cursor: Cursor,
    pub used: usize,
    pub segments: usize,
}

// What the codewords hold: the length of the payload and the number of segments.
#[derive(Clone, Copy)]
pub struct Sizes {
    pub payload: usize,
    pub segments: usize,
}

// The character of a code.
fn character(x: usize) -> u8
    requires { x < 45 }
    ensures { result ≡ character_of x }
{
    ALPHABET[x]
}

// The next group where so many characters are left.
#[tactic(auto, unfolding(crate::specs::Groups::group_of))]
fn next_group(mode: usize, left: usize) -> Group
    ensures { result ≡ group_of mode left }
{
    let (size, width, most) = match mode {
        1 if 3 <= left => (3, 10, 999),
        1 if left == 2 => (2, 7, 99),
        1 => (1, 4, 9),
        2 if 2 <= left => (2, 11, 2024),
        2 => (1, 6, 44),
        _ => (1, 8, 255),
    };
    Group { size, width, most }
}

// A group's characters, written from p on.
fn put_group(payload: &mut [u8], p: usize, mode: usize, size: usize, x: usize)
    requires { InGroup mode size x × (p + size ≤ length payload.old) }
    ensures { take (p + size) payload.new ≡ take p payload.old ++ group_characters mode size x }
{
    match (size, mode) {
        (3, _) => payload[p..p + 3].copy_from_slice(&[
            character(x / 100),
            character(x / 10 % 10),
            character(x % 10),
        ]),
        (2, 1) => payload[p..p + 2].copy_from_slice(&[character(x / 10), character(x % 10)]),
        (2, _) => payload[p..p + 2].copy_from_slice(&[character(x / 45), character(x % 45)]),
        (_, 4) => payload[p] = x as u8,
        _ => payload[p] = character(x),
    }
}

// A body's characters, written after those used; or a group is out of range.
fn read_body(
    from: Cursor,
    codewords: &[u8],
    mode: usize,
    count: usize,
    payload: &mut [u8],
    used: usize,
) -> Result<Cursor, Fault>
    requires { BodyAsks codewords.now from.at mode count used (length payload.old) }
    ensures { BodyReads codewords.now from.at mode count used payload.old payload.new result }
{
    let mut cursor = from;
    let mut done: usize = 0;
    // No range: each turn goes as far as its own group, and the last may be shorter.
    while done < count {
        let group = next_group(mode, count - done);
        let taken = cursor.take(codewords, group.width);
        let x = taken.value as usize;
        if group.most < x {
            return Err(Fault::OutOfRange);
        }
        put_group(payload, used + done, mode, group.size, x);
        cursor = taken.next;
        done += group.size;
    }
    Ok(cursor)
}

// Fewer than four bits are left, or mode 0.
fn ends(from: Cursor, codewords: &[u8]) -> bool
    requires { (length codewords.now ≤ 274) × (from.at ≤ 8 * length codewords.now) }
    ensures { result ≡ does_end (drop from.at (byte_bits codewords.now)) }
{
    8 * codewords.len() - from.at < 4 || from.take(codewords, 4).value == 0
}

// The head of a segment that stands whole; or its mode is unknown, or it runs past the bits.
fn head_at(from: Cursor, codewords: &[u8], v: usize) -> Result<Head, Fault>
    requires { (length codewords.now ≤ 274) × (does_end (drop from.at (byte_bits codewords.now)) ≡ false) }
    ensures { HeadReads codewords.now v from.at result }
{
    let end = 8 * codewords.len();
    let first = from.take(codewords, 4);
    let mode = first.value as usize;
    if !stream::known(mode) {
        return Err(Fault::UnknownMode);
    }
    let field = first.next;
    let width = tables::count_width(v, mode);
    if end - field.at < width {
        return Err(Fault::RunsPast);
    }
    let second = field.take(codewords, width);
    let count = second.value as usize;
    let body = second.next;
    if end - body.at < stream::body_width(mode, count) {
        return Err(Fault::RunsPast);
    }
    Ok(Head { mode, count, body })
}

// One segment more: its characters after those used, its mode and count after the segments before it.
fn next_segment(
    p: Progress,
    codewords: &[u8],
    v: usize,
    payload: &mut [u8],
    list: &mut [u16],
) -> Result<Progress, Fault>
    requires { StepAsks codewords.now v p payload.old list.old }
    ensures { StepReads codewords.now v p payload.old list.old payload.new list.new result }
{
    let Head { mode, count, body } = head_at(p.cursor, codewords, v)?;
    let cursor = read_body(body, codewords, mode, count, payload, p.used)?;
    let i = 2 * p.segments;
    list[i] = mode as u16;
    list[i + 1] = count as u16;
    Ok(Progress {
        cursor,
        used: p.used + count,
        segments: p.segments + 1,
    })
}

// The whole message at the fronts of both buffers; or the first fault.
fn fill(codewords: &[u8], v: usize, payload: &mut [u8], list: &mut [u16]) -> Result<Sizes, Fault>
    requires { (length codewords.now ≤ most_data v) × ((most_payload ≤ length payload.old) × (most_list ≤ length list.old)) }
    ensures { FillReads codewords.now v payload.new list.new result }
{
    let mut p = Progress {
        cursor: Cursor { at: 0 },
        used: 0,
        segments: 0,
    };
    while !ends(p.cursor, codewords) {
        p = next_segment(p, codewords, v, payload, list)?;
    }
    Ok(Sizes {
        payload: p.used,
        segments: p.segments,
    })
}

// What the data codewords of a version hold, written to the fronts of payload and list; or the first fault, and both as they were.
pub fn parse(
    codewords: &[u8],
    v: usize,
    payload: &mut [u8],
    list: &mut [u16],
) -> Result<Sizes, Fault>
    requires { (length codewords.now ≤ most_data v) × ((most_payload ≤ length payload.old) × (most_list ≤ length list.old)) }
    ensures { (by_number result ≡ answer_of (message v codewords.now)) × ((payload.new ≡ payload_after (message v codewords.now) payload.old) × (list.new ≡ list_after (message v codewords.now) list.old)) }
{
    let mut bytes = [0u8; tables::MOST_PAYLOAD];
    let mut pairs = [0u16; tables::MOST_LIST];
    let sizes = fill(codewords, v, &mut bytes, &mut pairs)?;
    let n = sizes.payload;
    let m = 2 * sizes.segments;
    payload[..n].copy_from_slice(&bytes[..n]);
    list[..m].copy_from_slice(&pairs[..m]);
    Ok(sizes)
}
