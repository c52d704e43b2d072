// The format word and the version word, and which one a copy stands for where some of its bits are wrong or unreadable.
#![tactic(auto)]

ghost use Rattle.std.specs.Prelude.{◌≡◌, ◌+◌, ◌*◌, ◌<◌, ◌≤◌, ◌^◌, ℕ, count_ones, Decides};
ghost use Rattle.std.specs.Int.Bits.{bit_and, bit_xor};
ghost use Rattle.words.specs.Words.{reduced, format_bits, format_word, version_word, level_of, mask_of, Near};
ghost use Rattle.words.specs.Found.{FormatFound, VersionFound, FoundAmong};

// Words that are made alike: the data bits, and behind them as check bits their remainder by a generator.
#[derive(Clone, Copy)]
struct Code {
    data_bits: u32,
    check_bits: u32,
    generator: u32,
    ghost few_data_bits: { data_bits ≤ 6 },
    ghost few_check_bits: { check_bits ≤ 12 },
    ghost small_generator: { generator < 2 ^ 13 },
}

const FORMAT: Code = Code {
    data_bits: 5,
    check_bits: 10,
    generator: 0x537,
};

const FORMAT_MASK: u32 = 0x5412;

const VERSION: Code = Code {
    data_bits: 6,
    check_bits: 12,
    generator: 0x1F25,
};

const FORMAT_BITS: u32 = FORMAT.data_bits + FORMAT.check_bits;

const VERSION_BITS: u32 = VERSION.data_bits + VERSION.check_bits;

// The format words are those of 0 to 31, the version words those of 7 to 40.
const FORMATS: u32 = 32;

const FIRST_CODED: u32 = 7;

const LAST_CODED: u32 = 40;

// A copy stands for a word when twice the differing readable bits and the unreadable ones are at most this many.
const BOUND: u32 = 6;

// The level codes of L, M, Q, H; the same table takes a code back to its level.
const CODES: [u8; 4] = [1, 0, 3, 2];

impl Code {
    // The remainder of n, which has the bits of a word.
    fn remainder(self, n: u32) -> u32
        ensures { result ≡ reduced self.check_bits self.generator self.data_bits n }
    {
        let mut rest = n;
        for i in (0..self.data_bits).rev() {
            rest ^= ((rest >> (self.check_bits + i)) % 2) * (self.generator << i);
        }
        rest
    }

    // The word of some data bits.
    fn word(self, bits: u32) -> u32
        requires { bits * 2 ^ self.check_bits + reduced self.check_bits self.generator self.data_bits (bits * 2 ^ self.check_bits) < 2 ^ 18 }
        ensures { result ≡ bits * 2 ^ self.check_bits + reduced self.check_bits self.generator self.data_bits (bits * 2 ^ self.check_bits) }
    {
        let high = bits << self.check_bits;
        high + self.remainder(high)
    }
}

// The five data bits of a format word.
#[tactic(auto, unfolding(crate::specs::Words::format_bits))]
pub fn format_bits(level: usize, mask: usize) -> u32
    requires { (level < 4) × (mask < 8) }
    ensures { result ≡ format_bits level mask }
{
    u32::from(CODES[level]) * 8 + mask as u32
}

// The level and the mask that the data bits of a format word name.
#[tactic(auto, unfolding(crate::specs::Words::level_of))]
pub fn level_of(bits: u32) -> usize
    requires { bits < 32 }
    ensures { result ≡ level_of bits }
{
    usize::from(CODES[(bits / 8) as usize])
}

#[tactic(auto, unfolding(crate::specs::Words::mask_of))]
pub fn mask_of(bits: u32) -> usize
    ensures { result ≡ mask_of bits }
{
    (bits % 8) as usize
}

// The format word of five data bits.
pub fn format_word(bits: u32) -> u32
    requires { bits < 32 }
    ensures { result ≡ format_word bits }
{
    FORMAT.word(bits) ^ FORMAT_MASK
}

// The version word of a version.
pub fn version_word(v: u32) -> u32
    requires { v < 64 }
    ensures { result ≡ version_word v }
{
    VERSION.word(v)
}

// How many of the readable bits of a copy differ from a word.
fn apart(copy: u32, word: u32, readable: u32) -> u32
    ensures { (result ≡ count_ones (bit_and (bit_xor copy word) readable)) × (result ≤ 32) }
{
    ((copy ^ word) & readable).count_ones()
}

// Whether a copy of so many bits stands for a word; the bits of the copy that could be read are those set in `readable`.
fn stands_for(copy: u32, readable: u32, bits: u32, word: u32) -> bool
    requires { (bits ≤ 18) × (readable < 2 ^ bits) }
    ensures { Decides result (Near bits copy readable word) }
{
    2 * apart(copy, word, readable) + (bits - readable.count_ones()) <= BOUND
}

// The first of some numbers whose word a copy stands for; the words have so many bits, and the bits of the copy that could be read are those set in `readable`.
fn find<F: Fn(u32) -> u32>(
    copy: u32,
    readable: u32,
    bits: u32,
    first: u32,
    end: u32,
    word: F,
) -> Option<u32>
    requires few { (bits ≤ 18) × (readable < 2 ^ bits) }
    requires callable { (x : ℕ) → first ≤ x → x < end → F.pre word x }
    ensures { FoundAmong (F.post word) bits copy readable first end result }
{
    // This loop is vectorised, as `find` over the range is not: where no format word fits it takes 483 instructions, and `find` 1,257.
    for x in first..end {
        if stands_for(copy, readable, bits, word(x)) {
            return Some(x);
        }
    }
    None
}

// The bits of the one format word that a copy stands for; the bits of the copy that could be read are those set in `readable`.
pub fn find_format(copy: u32, readable: u32) -> Option<u32>
    requires { readable < 2 ^ 15 }
    ensures { FormatFound copy readable result }
{
    find(copy, readable, FORMAT_BITS, 0, FORMATS, format_word)
}

// The version of the one version word that a copy stands for.
pub fn find_version(copy: u32, readable: u32) -> Option<u32>
    requires { readable < 2 ^ 18 }
    ensures { VersionFound copy readable result }
{
    find(
        copy,
        readable,
        VERSION_BITS,
        FIRST_CODED,
        LAST_CODED + 1,
        version_word,
    )
}
