// A message as bits and data codewords: what a message must meet, refusals 2 to 5, and the stream that the writer sends.
#![tactic(auto)]

ghost use Rattle.std.specs.Prelude.{◌≡◌, true, [], ◌∷◌, ◌++◌, ◌+◌, ◌-◌, ◌*◌, ◌/◌, ◌%◌, ◌≤◌, ◌<◌, min, eqb, length, get_or, take, replicate};
ghost use Rattle.basics.specs.Bits.{bits, byte_bits};
ghost use Rattle.std.specs.List.{list_all};
ghost use Rattle.tables.specs.Tables.{Lawful, data_count, count_width};
ghost use Rattle.stream.specs.BitWriter.{HasRoom, Puts};
ghost use Rattle.stream.specs.Put.{segment_bits, value, Grouping, group_bits};
ghost use Rattle.stream.specs.Stream.{code_of, known as is_known, in_mode, lawful_list, counts, lawful_characters, body_width, fits as does_fit, numeric_bits, alphanumeric_bits, body, segments, pads, data_codewords, LawfulMessage};

use cursor::Cursor;

// A character's code, 45 for one that has none.
#[tactic(auto, using(crate::proofs::Characters::codes), unfolding(crate::specs::Stream::code_of, crate::specs::Stream::alphabet, basics::specs::Lists::place_in))]
pub fn code_of(c: u8) -> u32
    ensures { result ≡ code_of c }
{
    match c {
        b'0'..=b'9' => u32::from(c - b'0'),
        b'A'..=b'Z' => u32::from(c - b'A') + 10,
        // the signs stand in a match of their own, so that digits and letters are found first
        _ => match c {
            b' ' => 36,
            b'$' => 37,
            b'%' => 38,
            b'*' => 39,
            b'+' => 40,
            b'-' => 41,
            b'.' => 42,
            b'/' => 43,
            b':' => 44,
            _ => 45,
        },
    }
}

// A character of its segment's mode.
#[tactic(auto, unfolding(crate::specs::Stream::in_mode))]
pub fn in_mode(mode: usize, c: u8) -> bool
    ensures { result ≡ in_mode mode c }
{
    match mode {
        1 => code_of(c) < 10,
        2 => code_of(c) < 45,
        _ => true,
    }
}

// A mode that the paper has. A mode stays a number, as a list has it: other numbers stand in lists too, and are refused.
#[tactic(auto, unfolding(crate::specs::Stream::known))]
pub fn known(mode: usize) -> bool
    ensures { result ≡ is_known mode }
{
    matches!(mode, 1 | 2 | 4)
}

// No odd length, and every mode known.
pub fn lawful_list(list: &[u16]) -> bool
    ensures { result ≡ lawful_list list.now }
{
    let mut pairs = list.chunks_exact(2);
    pairs.remainder().is_empty() && pairs.all(|pair| known(usize::from(pair[0])))
}

// The counts sum to the length of the payload: the sum is exact, for it stops before it passes the length.
#[tactic(auto, using(crate::proofs::Pairs::counting))]
pub fn counts_match(list: &[u16], len: usize) -> bool
    ensures { result ≡ eqb (counts list.now) len }
{
    let mut sum = 0;
    for pair in list.chunks_exact(2) {
        let count = usize::from(pair[1]);
        if len - sum < count {
            return false;
        }
        sum += count;
    }
    sum == len
}

// Every character is in the mode.
fn all_in_mode(mode: usize, chars: &[u8]) -> bool
    ensures { result ≡ list_all (in_mode mode) chars.now }
{
    chars.iter().all(|c| in_mode(mode, *c))
}

// Every character is in its segment's mode.
#[tactic(auto, using(crate::proofs::Pairs::characters))]
pub fn lawful_characters(list: &[u16], payload: &[u8]) -> bool
    requires { counts list.now ≡ length payload.now }
    ensures { result ≡ lawful_characters list.now payload.now }
{
    let mut left = payload;
    for pair in list.chunks_exact(2) {
        let (chars, rest) = left.split_at(usize::from(pair[1]));
        if !all_in_mode(usize::from(pair[0]), chars) {
            return false;
        }
        left = rest;
    }
    true
}

// The number of bits in a body of so many characters.
#[tactic(auto, unfolding(crate::specs::Stream::body_width))]
pub fn body_width(mode: usize, count: usize) -> usize
    requires { count < 65536 }
    ensures { result ≡ body_width mode count }
{
    match mode {
        1 => count / 3 * 10 + [0, 4, 7][count % 3],
        2 => count / 2 * 11 + count % 2 * 6,
        _ => 8 * count,
    }
}

// The number of bits in a segment: mode, count and body.
#[tactic(auto, using(crate::proofs::Widths::count_width_le, crate::proofs::Widths::body_width_le))]
fn segment_width(v: usize, mode: usize, count: usize) -> usize
    requires { count < 65536 }
    ensures { result ≡ 4 + count_width v mode + body_width mode count }
{
    4 + tables::count_width(v, mode) + body_width(mode, count)
}

// The message needs no more data bits than the version has at the level. The sum stops before it passes them.
#[tactic(auto, using(crate::proofs::Fitting::fitting))]
pub fn fits(v: usize, level: usize, list: &[u16]) -> bool
    requires { Lawful v level }
    ensures { result ≡ does_fit v level list.now }
{
    let most = 8 * tables::data(v, level);
    let mut sum = 0;
    for pair in list.chunks_exact(2) {
        let width = segment_width(v, usize::from(pair[0]), usize::from(pair[1]));
        if most - sum < width {
            return false;
        }
        sum += width;
    }
    true
}

// The characters of a group as one number, in a base of 10 or 45.
#[tactic(auto, using(crate::proofs::Characters::code_le))]
fn value_of(base: u32, group: &[u8]) -> u32
    requires { (base ≤ 45) × (length group.now ≤ 3) }
    ensures { result ≡ value base group.now }
{
    match group {
        [a] => code_of(*a),
        [a, b] => base * code_of(*a) + code_of(*b),
        [a, b, c] => base * (base * code_of(*a) + code_of(*b)) + code_of(*c),
        _ => 0,
    }
}

// A lent buffer and the cursor of its next free bit. Each method puts its bits from there on.
#[derive(Drop)]
struct BitWriter<'a> {
    out: &'a mut [u8],
    cursor: Cursor,
}

impl BitWriter<'_> {
    // The n lowest bits of a value.
    #[tactic(auto, using(basics::proofs::Bits::length_bits))]
    fn put_bits(&mut self, value: u32, n: usize)
        requires { (n ≤ 16) × HasRoom self.old (bits n value) }
        ensures { Puts self.old (bits n value) self.new }
    {
        self.cursor = self.cursor.put(self.out, value, n);
    }

    // A body of groups: each has as many characters as there are widths, only the last may have fewer. A group of n characters takes the n-th width.
    fn put_groups<const N: usize>(&mut self, base: u32, widths: &[usize; N], chars: &[u8])
        requires { Grouping base widths.now × HasRoom self.old (group_bits base widths.now chars.now) }
        ensures { Puts self.old (group_bits base widths.now chars.now) self.new }
    {
        let (groups, rest) = chars.as_chunks::<N>();
        for group in groups {
            self.put_bits(value_of(base, group), widths[N - 1]);
        }
        if !rest.is_empty() {
            self.put_bits(value_of(base, rest), widths[rest.len() - 1]);
        }
    }

    // A byte body.
    fn put_bytes(&mut self, chars: &[u8])
        requires { HasRoom self.old (byte_bits chars.now) }
        ensures { Puts self.old (byte_bits chars.now) self.new }
    {
        for c in chars {
            self.put_bits(u32::from(*c), 8);
        }
    }

    // A body in its mode: three digits in 10 bits, two left in 7, one left in 4; a pair in 11 bits, one left in 6; or bytes.
    #[tactic(auto, using(crate::proofs::Bodies::numeric_groups, crate::proofs::Bodies::alphanumeric_groups), unfolding(crate::specs::Stream::body))]
    fn put_body(&mut self, mode: usize, chars: &[u8])
        requires { HasRoom self.old (body mode chars.now) }
        ensures { Puts self.old (body mode chars.now) self.new }
    {
        match mode {
            1 => self.put_groups(10, &[4, 7, 10], chars),
            2 => self.put_groups(45, &[6, 11], chars),
            _ => self.put_bytes(chars),
        }
    }

    // A segment: 4-bit mode, count, body.
    fn put_segment(&mut self, v: usize, mode: u16, chars: &[u8])
        requires { (length chars.now < 65536) × HasRoom self.old (segment_bits v mode chars.now) }
        ensures { Puts self.old (segment_bits v mode chars.now) self.new }
    {
        self.put_bits(u32::from(mode), 4);
        let mode = usize::from(mode);
        self.put_bits(chars.len() as u32, tables::count_width(v, mode));
        self.put_body(mode, chars)
    }

    // All segments. The payload and the list stay two parameters, as in the public functions: a struct of both would be made for this one call.
    #[tactic(auto, using(crate::proofs::Pairs::counting))]
    fn put_segments(&mut self, payload: &[u8], list: &[u16], v: usize)
        requires { (counts list.now ≡ length payload.now) × HasRoom self.old (segments v list.now payload.now) }
        ensures { Puts self.old (segments v list.now payload.now) self.new }
    {
        let mut left = payload;
        for pair in list.chunks_exact(2) {
            let (chars, rest) = left.split_at(usize::from(pair[1]));
            self.put_segment(v, pair[0], chars);
            left = rest;
        }
    }
}

// How many bytes the segments take with up to four zero bits as fit and zeros to a whole byte.
fn front_count(most: usize, used: usize) -> usize
    requires { (most ≤ 4096) × (used ≤ 8 * most) }
    ensures { result ≡ (used + min 4 (8 * most - used) + 7) / 8 }
{
    (used + (8 * most - used).min(4)).div_ceil(8)
}

// 236 and 17 in turn.
fn pad_byte(k: usize) -> u8
    ensures { result ≡ get_or (236 ∷ 17 ∷ []) (k % 2) 0 }
{
    if k % 2 == 0 { 236 } else { 17 }
}

// The pads from a byte on.
fn put_pads(out: &mut [u8], front: usize)
    requires { front ≤ length out.old }
    ensures { out.new ≡ take front out.old ++ pads (length out.old - front) }
{
    for (k, byte) in out[front..].iter_mut().enumerate() {
        *byte = pad_byte(k);
    }
}

// The data codewords of a message that fits: its segments, the end mark, zeros to a whole byte, and pads.
pub fn encode(payload: &[u8], list: &[u16], v: usize, level: usize, out: &mut [u8])
    requires { Lawful v level × (LawfulMessage v level payload.now list.now × (length out.old ≡ data_count v level)) }
    ensures { out.new ≡ data_codewords v level list.now payload.now }
{
    out.fill(0);
    let mut writer = BitWriter {
        out,
        cursor: Cursor { at: 0 },
    };
    writer.put_segments(payload, list, v);
    let front = front_count(writer.out.len(), writer.cursor.at);
    put_pads(writer.out, front);
}
