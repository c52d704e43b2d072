// The answer that a matrix gets: a straight line of steps, each a `Result`; the first refusal leaves.
#![tactic(auto)]

ghost use Rattle.std.specs.Prelude.{◌≡◌, ◌*◌, ◌≤◌, ◌<◌, length};
ghost use Rattle.basics.specs.Lists.{AtMost};
ghost use Rattle.tables.specs.Tables.{Lawful, side, total, data_count, most_payload, most_list};
ghost use Rattle.tables.specs.Version.{Square};
ghost use Rattle.modules.specs.Modules.{format_places, version_places};
ghost use Rattle.words.specs.Words.{level_of, mask_of};
ghost use Rattle.words.specs.Found.{FormatFound, VersionFound};
ghost use Rattle.scan.specs.Received.{copied, readable, received};
ghost use Rattle.reader.specs.declared.Refusal.TheVariants.{Stream};
ghost use Rattle.reader.specs.Refusals.{refusal_number};
ghost use Rattle.reader.specs.Steps.{SideRead, ModulesRead, BlocksMended, VersionCopy, VersionsRead, FormatsRead, Collected, DataMended};
ghost use Rattle.reader.specs.Answers.{Answers, Finished};

use corrector::Counts;
use parse::Fault;
use tables::{MOST_CODEWORDS, MOST_DATA, MOST_LIST, MOST_PAYLOAD};

// Why a matrix is refused.
#[derive(Clone, Copy, Debug, PartialEq, Eq)]
pub enum Refusal {
    // The payload or the list has too little room for what a symbol may hold.
    SmallBuffer,
    // No version has a matrix of this length.
    NoVersion,
    // A module is above 2.
    AboveTwo,
    // A version copy stands for another version.
    OtherVersion,
    // Neither format copy stands for anything.
    NoFormat,
    // The format copies stand for different words.
    TwoFormats,
    // A block has no codeword within its bound.
    NoCodeword,
    // The stream has a fault.
    Stream(Fault),
}

impl From<Fault> for Refusal {
    ghost from_gives = { λ fault refusal. refusal ≡ Stream fault };

    fn from(fault: Fault) -> Refusal {
        Refusal::Stream(fault)
    }
}

impl Refusal {
    // Its number.
    pub fn number(self) -> u8
        ensures { result ≡ refusal_number self }
    {
        match self {
            Refusal::SmallBuffer => 16,
            Refusal::NoVersion => 7,
            Refusal::AboveTwo => 8,
            Refusal::OtherVersion => 9,
            Refusal::NoFormat => 10,
            Refusal::TwoFormats => 11,
            Refusal::NoCodeword => 12,
            Refusal::Stream(fault) => fault.number(),
        }
    }
}

// The version that the side length fixes.
fn check_side(m: &[u8]) -> Result<usize, Refusal>
    ensures { SideRead m.now result }
{
    tables::version_of(m.len()).ok_or(Refusal::NoVersion)
}

// The largest module.
const UNREADABLE: u8 = 2;

// Every module is light, dark or unreadable; or one is above 2.
fn check_modules(m: &[u8]) -> Result<(), Refusal>
    ensures { ModulesRead m.now result }
{
    let mut most: u8 = 0;
    for module in m {
        most = most.max(*module);
    }
    if UNREADABLE < most {
        return Err(Refusal::AboveTwo);
    }
    Ok(())
}

// Corrects each of the blocks, which stand one after the other; the first that has no codeword within its bound leaves. Answers the sums over all
// blocks of the readable codewords that differed and of the unreadable ones.
fn mend_blocks(words: &mut [u8], flags: &[u8], v: usize, level: usize) -> Result<Counts, Refusal>
    requires { Lawful v level × ((length words.old ≡ total v) × (length flags.now ≡ total v)) }
    ensures { BlocksMended v level words.old flags.now words.new result }
{
    let count = tables::blocks(v, level);
    let n = tables::checks(v, level);
    let room = tables::room(v, level);
    let mut differing: usize = 0;
    let mut unreadable: usize = 0;
    let mut a: usize = 0;
    for b in 0..count {
        let e = a + tables::block_length(v, level, b);
        let Some(k) = corrector::correct(&mut words[a..e], &flags[a..e], n, room) else {
            return Err(Refusal::NoCodeword);
        };
        differing += k.differing;
        unreadable += k.unreadable;
        a = e;
    }
    Ok(Counts {
        differing,
        unreadable,
    })
}

// A level and a mask.
#[derive(Clone, Copy)]
pub struct Meta {
    pub level: usize,
    pub mask: usize,
}

// The level and the mask of five bits.
fn meta_of(bits: u32) -> Meta
    requires { bits < 32 }
    ensures { (result.level ≡ level_of bits) × (result.mask ≡ mask_of bits) }
{
    Meta {
        level: words::level_of(bits),
        mask: words::mask_of(bits),
    }
}

// A matrix and the version that its length fixes.
#[derive(Clone, Copy)]
struct Matrix<'a> {
    m: &'a [u8],
    v: usize,
    ghost square: { Square (length m.now) v },
}

impl Matrix<'_> {
    // What a copy of the version word stands for.
    fn version_found(self, copy: usize) -> Option<u32>
        requires { (7 ≤ self.v) × (copy < 2) }
        ensures { let x = self.entry in VersionFound (copied x.m.now (version_places x.v copy)) (readable x.m.now (version_places x.v copy)) result }
    {
        let c = scan::version_copy(self.m, self.v, copy);
        words::find_version(c.bits, c.readable)
    }

    // Refuses a copy of the version word that stands for another version than the side fixes.
    fn check_copy(self, copy: usize) -> Result<(), Refusal>
        requires { (7 ≤ self.v) × (copy < 2) }
        ensures { let x = self.entry in VersionCopy x.v x.m.now copy result }
    {
        match self.version_found(copy) {
            Some(x) if x as usize != self.v => Err(Refusal::OtherVersion),
            _ => Ok(()),
        }
    }

    // The same of both copies of the version word, drawn from version 7 on.
    fn check_versions(self) -> Result<(), Refusal>
        ensures { let x = self.entry in VersionsRead x.v x.m.now result }
    {
        if self.v < 7 {
            return Ok(());
        }
        self.check_copy(0)?;
        self.check_copy(1)
    }

    // What a copy of the format word stands for.
    fn format_found(self, copy: usize) -> Option<u32>
        requires { copy < 2 }
        ensures { let x = self.entry in FormatFound (copied x.m.now (format_places x.v copy)) (readable x.m.now (format_places x.v copy)) result }
    {
        let c = scan::format_copy(self.m, self.v, copy);
        words::find_format(c.bits, c.readable)
    }

    // The level and the mask that the format copies stand for; or neither stands for anything, or they stand for different words.
    fn find_format(self) -> Result<Meta, Refusal>
        ensures { let x = self.entry in FormatsRead x.v x.m.now result }
    {
        let first = self.format_found(0);
        let second = self.format_found(1);
        match (first, second) {
            (None, None) => Err(Refusal::NoFormat),
            (Some(x), None) => Ok(meta_of(x)),
            (None, Some(y)) => Ok(meta_of(y)),
            (Some(x), Some(y)) => if x == y {
                Ok(meta_of(x))
            } else {
                Err(Refusal::TwoFormats)
            },
        }
    }
}

// Version, level and mask; the lengths of what was read; the sums over all blocks.
#[derive(Clone, Copy)]
pub struct Reading {
    pub version: usize,
    pub level: usize,
    pub mask: usize,
    pub payload: usize,
    pub segments: usize,
    pub differing: usize,
    pub unreadable: usize,
}

// A matrix with no module above 2, the version that its length fixes, and the level and the mask that a format copy names.
#[derive(Clone, Copy)]
struct Symbol<'a> {
    m: &'a [u8],
    v: usize,
    level: usize,
    mask: usize,
    ghost lawful: { Lawful v level },
    ghost masked: { mask < 8 },
    ghost long: { length m.now ≡ side v * side v },
    ghost plain: { AtMost 2 m.now },
}

impl Symbol<'_> {
    // The codewords of the matrix and their flags, block after block.
    #[tactic(auto, using(crate::proofs::Data::rooms))]
    fn collect(self, blocks: &mut [u8], lost: &mut [u8])
        requires { (length blocks.old ≡ total self.v) × (length lost.old ≡ total self.v) }
        ensures { let x = self.entry in Collected x.v x.level (received x.v x.mask x.m.now) blocks.new lost.new }
    {
        let n = tables::total(self.v);
        let mut words = [0u8; MOST_CODEWORDS];
        let mut flags = [0u8; MOST_CODEWORDS];
        scan::codewords(self.m, self.v, self.mask, &mut words[..n], &mut flags[..n]);
        blocks::gather(&words[..n], self.v, self.level, blocks);
        blocks::gather(&flags[..n], self.v, self.level, lost);
    }

    // The data codewords of the matrix, each block corrected, in block order; or a block has no codeword within its bound. `blocks` and `lost` are
    // room for the codewords and their flags: `mend_blocks` writes the one and reads the other, so they are lent one by one.
    fn mend_in(self, blocks: &mut [u8], lost: &mut [u8], data: &mut [u8]) -> Result<Counts, Refusal>
        requires blocks_len { (length blocks.old ≡ total self.v) × (length lost.old ≡ total self.v) }
        requires data_len { length «data».old ≡ data_count self.v self.level }
        ensures { let x = self.entry in DataMended x.v x.level (received x.v x.mask x.m.now) «data».new result }
    {
        self.collect(blocks, lost);
        let sums = mend_blocks(blocks, lost, self.v, self.level)?;
        blocks::take_data(blocks, self.v, self.level, data);
        Ok(sums)
    }

    // The same, with room of its own.
    #[tactic(auto, using(crate::proofs::Data::rooms))]
    fn mend(self, data: &mut [u8]) -> Result<Counts, Refusal>
        requires { length «data».old ≡ data_count self.v self.level }
        ensures { let x = self.entry in DataMended x.v x.level (received x.v x.mask x.m.now) «data».new result }
    {
        let n = tables::total(self.v);
        let mut blocks = [0u8; MOST_CODEWORDS];
        let mut lost = [0u8; MOST_CODEWORDS];
        self.mend_in(&mut blocks[..n], &mut lost[..n], data)
    }

    // The last two steps: the blocks, and the stream of their data codewords, which are put into `held`.
    fn finish(
        self,
        held: &mut [u8],
        payload: &mut [u8],
        list: &mut [u16],
    ) -> Result<Reading, Refusal>
        requires held_len { length held.old ≡ data_count self.v self.level }
        requires most_payload_in_bounds { (most_payload ≤ length payload.old) × (most_list ≤ length list.old) }
        ensures { let x = self.entry in Finished x.v x.level x.mask x.m.now payload.old list.old result payload.new list.new }
    {
        let sums = self.mend(held)?;
        let sizes = parse::parse(held, self.v, payload, list)?;
        Ok(Reading {
            version: self.v,
            level: self.level,
            mask: self.mask,
            payload: sizes.payload,
            segments: sizes.segments,
            differing: sums.differing,
            unreadable: sums.unreadable,
        })
    }
}

// The answer that a matrix gets; its payload and its segments at the fronts of the buffers. A refusal leaves both as they were.
#[tactic(auto, using(crate::proofs::Data::rooms))]
pub fn read(m: &[u8], payload: &mut [u8], list: &mut [u16]) -> Result<Reading, Refusal>
    ensures { Answers m.now payload.old list.old result payload.new list.new }
{
    if payload.len() < MOST_PAYLOAD || list.len() < MOST_LIST {
        return Err(Refusal::SmallBuffer);
    }
    let v = check_side(m)?;
    check_modules(m)?;
    let matrix = Matrix { m, v };
    matrix.check_versions()?;
    let Meta { level, mask } = matrix.find_format()?;
    let d = tables::data(v, level);
    let mut held = [0u8; MOST_DATA];
    let symbol = Symbol { m, v, level, mask };
    symbol.finish(&mut held[..d], payload, list)
}
