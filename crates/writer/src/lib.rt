// The writer: the symbol that a request gets, or its refusal.
#![tactic(auto)]

ghost use Rattle.std.specs.Prelude.{◌≡◌, ◌+◌, ◌*◌, ◌<◌, ◌≤◌, length};
ghost use Rattle.tables.specs.Tables.{last_version, most_codewords, total, Lawful, side as side_of};
ghost use Rattle.stream.specs.Stream.{LawfulMessage, data_codewords};
ghost use Rattle.blocks.specs.Blocks.{sent};
ghost use Rattle.modules.specs.Kinds.{laid, finished};
ghost use Rattle.penalty.specs.Penalty.{score};
ghost use Rattle.writer.specs.Writer.{request, in_range, taken};
ghost use Rattle.writer.specs.Answer.{refusal_number, nonzero, Checks, Base, Beyond, least_mask, mask_drawn, LayingBuffers, Finishes, DrawingBuffers, DrawsAt, Writes};

use tables::{LAST_VERSION, MOST_CODEWORDS, MOST_MODULES};

// Why a request is refused.
#[derive(Clone, Copy, Debug, PartialEq, Eq)]
pub enum Refusal {
    BadNumber,
    BadList,
    BadCounts,
    BadCharacter,
    NoFit,
    ShortOutput,
}

impl Refusal {
    // Its number, 1 to 6, in the order of the checks.
    pub fn number(self) -> u8
        ensures { result ≡ refusal_number self }
    {
        match self {
            Refusal::BadNumber => 1,
            Refusal::BadList => 2,
            Refusal::BadCounts => 3,
            Refusal::BadCharacter => 4,
            Refusal::NoFit => 5,
            Refusal::ShortOutput => 6,
        }
    }
}

// The smallest version that fits.
fn smallest(level: usize, list: &[u16]) -> Option<usize>
    requires { level ≤ 3 }
    ensures { result ≡ nonzero (taken level 0 list.now) }
{
    for v in 1..=LAST_VERSION {
        if stream::fits(v, level, list) {
            return Some(v);
        }
    }
    None
}

// The version that is taken, where one fits.
fn version_taken(level: usize, version: usize, list: &[u16]) -> Option<usize>
    requires { (level ≤ 3) × (version ≤ last_version) }
    ensures { result ≡ nonzero (taken level version list.now) }
{
    if version == 0 {
        return smallest(level, list);
    }
    stream::fits(version, level, list).then_some(version)
}

// Whether the numbers are within the paper's: level to 3, version to 10, mask to 8.
#[tactic(auto, unfolding(crate::specs::Writer::in_range))]
fn in_range(level: usize, version: usize, mask: usize) -> bool
    ensures { result ≡ in_range level version mask }
{
    level <= 3 && version <= LAST_VERSION && mask <= 8
}

// Checks 1 to 6 in order; the output has `room` bytes. Where all pass, the version taken.
fn check(
    payload: &[u8],
    list: &[u16],
    level: usize,
    version: usize,
    mask: usize,
    room: usize,
) -> Result<usize, Refusal>
    ensures { Checks (request payload.now list.now level version mask) room result }
{
    if !in_range(level, version, mask) {
        return Err(Refusal::BadNumber);
    }
    if !stream::lawful_list(list) {
        return Err(Refusal::BadList);
    }
    if !stream::counts_match(list, payload.len()) {
        return Err(Refusal::BadCounts);
    }
    if !stream::lawful_characters(list, payload) {
        return Err(Refusal::BadCharacter);
    }
    let Some(v) = version_taken(level, version, list) else {
        return Err(Refusal::NoFit);
    };
    let s = tables::side(v);
    if room < s * s {
        return Err(Refusal::ShortOutput);
    }
    Ok(v)
}

// The codewords of a message as they are sent; `held` is for its data codewords and their checks on the way.
fn send_message(
    payload: &[u8],
    list: &[u16],
    v: usize,
    level: usize,
    held: &mut [u8],
    out: &mut [u8],
)
    requires { Lawful v level × (LawfulMessage v level payload.now list.now × ((length held.old ≡ most_codewords) × (length out.old ≡ total v))) }
    ensures { out.new ≡ sent v level (data_codewords v level list.now payload.now) }
{
    let count = tables::data(v, level);
    let all = tables::total(v);
    stream::encode(payload, list, v, level, &mut held[..count]);
    blocks::send(&mut held[..all], v, level, out);
}

// The score under a mask, whose symbol then stands in `out`.
fn score_under(base: &[u8], v: usize, level: usize, mask: usize, out: &mut [u8]) -> u32
    requires { Lawful v level × (Base v level base.now × ((mask < 8) × (side_of v * side_of v ≤ length out.old))) }
    ensures { (result ≡ score (side_of v) (finished v level mask base.now)) × Beyond v out.old out.new }
{
    let s = tables::side(v);
    let n = s * s;
    modules::finish(base, v, level, mask, out);
    penalty::score(&out[..n], s)
}

// The mask of the least score, the lowest among equals.
fn least_mask(base: &[u8], v: usize, level: usize, out: &mut [u8]) -> usize
    requires { Lawful v level × (Base v level base.now × (side_of v * side_of v ≤ length out.old)) }
    ensures { (result ≡ least_mask v level base.now) × Beyond v out.old out.new }
{
    let mut least = score_under(base, v, level, 0, out);
    let mut place: usize = 0;
    for k in 1..8 {
        let x = score_under(base, v, level, k, out);
        if x < least {
            least = x;
            place = k;
        }
    }
    place
}

// The mask that is drawn: the named one, or with 8 that of the least score.
fn mask_drawn(base: &[u8], v: usize, level: usize, mask: usize, out: &mut [u8]) -> usize
    requires { Lawful v level × (Base v level base.now × (side_of v * side_of v ≤ length out.old)) }
    ensures { (result ≡ mask_drawn v level mask base.now) × Beyond v out.old out.new }
{
    if mask == 8 {
        return least_mask(base, v, level, out);
    }
    mask
}

// What the codewords of a lawful message lay, once for all masks; `held` and `words` are for what comes on the way.
fn lay_message(
    payload: &[u8],
    list: &[u16],
    v: usize,
    level: usize,
    held: &mut [u8],
    words: &mut [u8],
    base: &mut [u8],
)
    requires { Lawful v level × (LawfulMessage v level payload.now list.now × LayingBuffers v held.old words.old base.old) }
    ensures { base.new ≡ laid v (sent v level (data_codewords v level list.now payload.now)) }
{
    let t = tables::total(v);
    send_message(payload, list, v, level, held, &mut words[..t]);
    modules::lay(v, &words[..t], base);
}

// The symbol that is finished with the mask drawn, and that mask.
fn finish_drawn(base: &[u8], v: usize, level: usize, mask: usize, out: &mut [u8]) -> usize
    requires { Lawful v level × (Base v level base.now × ((mask ≤ 8) × (side_of v * side_of v ≤ length out.old))) }
    ensures { Finishes v level mask base.now out.old result out.new }
{
    let drawn = mask_drawn(base, v, level, mask, out);
    modules::finish(base, v, level, drawn, out);
    drawn
}

// The symbol of a lawful message, and its mask; the first three buffers are for what comes on the way.
fn draw_at(
    payload: &[u8],
    list: &[u16],
    v: usize,
    level: usize,
    mask: usize,
    held: &mut [u8],
    words: &mut [u8],
    base: &mut [u8],
    out: &mut [u8],
) -> usize
    requires { Lawful v level × (LawfulMessage v level payload.now list.now × ((mask ≤ 8) × DrawingBuffers v held.old words.old base.old out.old)) }
    ensures { DrawsAt v level mask (sent v level (data_codewords v level list.now payload.now)) out.old result out.new }
{
    let s = tables::side(v);
    let n = s * s;
    lay_message(payload, list, v, level, held, words, &mut base[..n]);
    finish_drawn(&base[..n], v, level, mask, out)
}

// "Its answer: version, mask, side."
#[derive(Clone, Copy)]
pub struct Symbol {
    pub version: u32,
    pub mask: u32,
    pub side: u32,
}

// Draws the symbol of a request into the first s·s bytes of `out`, or refuses and leaves `out` as it was.
pub fn write(
    payload: &[u8],
    list: &[u16],
    level: usize,
    version: usize,
    mask: usize,
    out: &mut [u8],
) -> Result<Symbol, Refusal>
    ensures { Writes (request payload.now list.now level version mask) out.old result out.new }
{
    let v = check(payload, list, level, version, mask, out.len())?;
    let mut held = [0u8; MOST_CODEWORDS];
    let mut words = [0u8; MOST_CODEWORDS];
    let mut base = [0u8; MOST_MODULES];
    let drawn = draw_at(
        payload, list, v, level, mask, &mut held, &mut words, &mut base, out,
    );
    Ok(Symbol {
        version: v as u32,
        mask: drawn as u32,
        side: tables::side(v) as u32,
    })
}
