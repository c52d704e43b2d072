// Tries the corrector on blocks of every size of the version table, with damage at the bound and past it.
#![tactic(auto)]

ghost use Rattle.std.specs.Prelude.{◌≡◌, ◌+◌, ◌<◌, ◌≤◌, length};

use corrector::Counts;
use std::io;

// The data codewords and the checks of each kind of block.
const KINDS: [(u8, u8); 47] = [
    (19, 7),
    (16, 10),
    (13, 13),
    (9, 17),
    (34, 10),
    (28, 16),
    (22, 22),
    (16, 28),
    (55, 15),
    (44, 26),
    (17, 18),
    (13, 22),
    (80, 20),
    (32, 18),
    (24, 26),
    (9, 16),
    (108, 26),
    (43, 24),
    (15, 18),
    (16, 18),
    (11, 22),
    (12, 22),
    (68, 18),
    (27, 16),
    (19, 24),
    (15, 28),
    (78, 20),
    (31, 18),
    (14, 18),
    (13, 26),
    (14, 26),
    (97, 24),
    (38, 22),
    (39, 22),
    (18, 22),
    (19, 22),
    (15, 26),
    (116, 30),
    (36, 22),
    (37, 22),
    (16, 20),
    (17, 20),
    (12, 24),
    (13, 24),
    (69, 18),
    (43, 26),
    (20, 24),
];

// Bytes that look like chance.
fn noise(seed: u8) -> [u8; 255] {
    let mut r: [u8; 255] = [0; 255];
    let mut x = u32::from(seed);
    for byte in &mut r {
        x = (x * 75 + 74) % 65537;
        *byte = (x % 256) as u8;
    }
    r
}

// The first d bytes, and their checks after them.
fn codeword(held: [u8; 255], d: usize, n: usize) -> [u8; 255]
    requires { (d ≤ 200) × (n ≤ 30) }
{
    let mut r = held;
    code::checks_into(&held[..d], &mut r[d..d + n]);
    r
}

// The first count bytes changed.
fn spoiled(word: [u8; 255], count: usize) -> [u8; 255]
    requires { count ≤ 255 }
{
    let mut r = word;
    for byte in &mut r[..count] {
        *byte ^= 90;
    }
    r
}

// The flags of the places from a up to b.
fn marked(a: usize, b: usize) -> [u8; 255]
    requires { (a ≤ b) × (b ≤ 255) }
{
    let mut r: [u8; 255] = [0; 255];
    r[a..b].fill(1);
    r
}

// The word, with the other's bytes from a up to b.
fn between(word: [u8; 255], other: [u8; 255], a: usize, b: usize) -> [u8; 255]
    requires { (a ≤ b) × (b ≤ 255) }
{
    let mut r = word;
    r[a..b].copy_from_slice(&other[a..b]);
    r
}

// What the corrector answers, and whether the word is the one that was sent.
fn answer(
    rt: &impl Print,
    word: &mut [u8],
    flags: &[u8],
    sent: &[u8],
    n: usize,
    room: usize,
) -> io::Result<()>
    requires { (length flags.now ≡ length word.old) × (length word.old ≤ 255) × (n ≤ 30) × (room ≤ n) }
{
    let Some(counts) = corrector::correct(word, flags, n, room) else {
        return println!(rt; "none");
    };
    let Counts {
        differing,
        unreadable,
    } = counts;
    let found = if *word == *sent { "as sent" } else { "another" };
    print!(rt; "{differing} wrong {unreadable}")?;
    println!(rt; " unreadable, {found}")
}

// A codeword of d data codewords and n checks, the first of them wrong and those after them unreadable.
fn attempt(
    rt: &impl Print,
    d: usize,
    n: usize,
    room: usize,
    wrong: usize,
    unread: usize,
    seed: u8,
) -> io::Result<()>
    requires { (d ≤ 200) × (n ≤ 30) × (room ≤ n) × (wrong + unread ≤ 255) }
{
    let len = d + n;
    let sent = codeword(noise(seed), d, n);
    let mut word = spoiled(sent, wrong + unread);
    let flags = marked(wrong, wrong + unread);
    answer(rt, &mut word[..len], &flags[..len], &sent[..len], n, room)
}

// Two codewords of 19 data codewords and 7 checks that differ at 8 places, and the first with 5 of them taken from the second: the second is nearer.
fn nearer(rt: &impl Print) -> io::Result<()> {
    let held = noise(5);
    let mut other = held;
    other[18] = held[18] ^ 1;
    let first = codeword(held, 19, 7);
    let second = codeword(other, 19, 7);
    let mut word = between(first, second, 18, 23);
    let flags: [u8; 255] = [0; 255];
    answer(rt, &mut word[..26], &flags[..26], &second[..26], 7, 7)
}

// A kind of block with all that its bound takes: unreadable codewords alone, wrong ones alone, and both.
fn kind(rt: &impl Print, d: usize, n: usize, seed: u8) -> io::Result<()>
    requires { (d ≤ 200) × (n ≤ 30) }
{
    attempt(rt, d, n, n, 0, n, seed)?;
    attempt(rt, d, n, n, n / 2, 0, seed)?;
    let third = n / 3;
    attempt(rt, d, n, n, third, n - third * 2, seed)
}

// Each kind of block.
fn every(rt: &impl Print) -> io::Result<()> {
    for (data, checks) in KINDS {
        let d = usize::from(data);
        let n = usize::from(checks);
        if d <= 200 && n <= 30 {
            kind(rt, d, n, data)?;
        }
    }
    Ok(())
}

fn main(rt: HostRuntime) -> io::Result<()> {
    attempt(&rt, 19, 7, 7, 0, 0, 1)?;
    attempt(&rt, 19, 7, 7, 0, 7, 1)?;
    attempt(&rt, 19, 7, 7, 0, 8, 1)?;
    attempt(&rt, 19, 7, 7, 3, 1, 2)?;
    attempt(&rt, 19, 7, 7, 3, 2, 2)?;
    attempt(&rt, 19, 7, 6, 3, 1, 2)?;
    attempt(&rt, 19, 7, 6, 2, 2, 2)?;
    attempt(&rt, 16, 10, 10, 6, 0, 3)?;
    nearer(&rt)?;
    every(&rt)
}
