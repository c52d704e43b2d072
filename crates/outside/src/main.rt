// Draws the symbols that other programs drew, one of each version and level, with the same mask, and reads each back; then reads a symbol after damage at its
// bounds and past them. The file `symbols` has, for each: version, level, mask, mode, the payload's and the matrix's length (high byte first), the payload, and
// the modules, eight to a byte from its highest bit on. Twenty are libqrencode 4.1.1's, drawn alike by python-qrcode 7.4.2.
#![tactic(auto)]

ghost use Rattle.std.specs.Prelude.{◌≡◌, ◌+◌, ◌<◌, ◌≤◌, length, IfOk};

use std::fs::File;
use std::io;
use std::io::Read;

const SYMBOLS: usize = 40;

// Whether a matrix reads to a payload.
fn read_back(rt: &impl Print, modules: &[u8], payload: &[u8]) -> io::Result<()> {
    let mut bytes = [0u8; 652];
    let mut list = [0u16; 308];
    match reader::read(modules, &mut bytes, &mut list) {
        Err(refusal) => println!(rt; "refused {}", refusal.number()),
        Ok(reading) => {
            if bytes.get(..reading.payload) == Some(payload) {
                println!(rt; "read back")
            } else {
                println!(rt; "read otherwise")
            }
        }
    }
}

// Whether a request is drawn as these modules.
fn draw_alike(
    rt: &impl Print,
    payload: &[u8],
    list: &[u16],
    level: usize,
    version: usize,
    mask: usize,
    modules: &[u8],
) -> io::Result<()> {
    let mut out = [2u8; 3249];
    match writer::write(payload, list, level, version, mask, &mut out) {
        Err(_) => print!(rt; "refused, "),
        Ok(_) => {
            if out.starts_with(modules) {
                print!(rt; "drawn alike, ")
            } else {
                print!(rt; "drawn otherwise, ")
            }
        }
    }
}

// A byte of the file; 0 past its end.
fn byte_at(file: &[u8], at: usize) -> u8 {
    file.get(at).copied().unwrap_or(0)
}

// A number of two bytes, the high one first.
fn number_at(file: &[u8], at: usize) -> usize
    requires { at ≤ 65542 }
    ensures { result < 65536 }
{
    usize::from(u16::from_be_bytes([byte_at(file, at), byte_at(file, at + 1)]))
}

// The modules that stand eight to a byte; 0 past their end.
fn unpack(bits: &[u8], modules: &mut [u8]) {
    for (k, module) in modules.iter_mut().enumerate() {
        *module = (byte_at(bits, k / 8) >> (7 - k % 8)) & 1;
    }
}

fn level_name(level: usize) -> &'static str {
    match level {
        0 => "L",
        1 => "M",
        2 => "Q",
        _ => "H",
    }
}

// Whether a symbol of so many modules is drawn alike and read back.
fn try_symbol(
    rt: &impl Print,
    version: usize,
    level: usize,
    mask: usize,
    mode: u16,
    payload: &[u8],
    bits: &[u8],
    size: usize,
) -> io::Result<()>
    requires { (size ≤ 3249) × (length payload.now < 65536) }
{
    let mut modules = [0u8; 3249];
    unpack(bits, &mut modules);
    let list = [mode, payload.len() as u16];
    print!(rt; "{version}")?;
    print!(rt; "-{}: ", level_name(level))?;
    draw_alike(rt, payload, &list, level, version, mask, &modules[..size])?;
    read_back(rt, &modules[..size], payload)
}

// The symbol at a place of the file; the place of the next.
fn try_one(rt: &impl Print, file: &[u8], at: usize) -> io::Result<usize>
    requires { (at ≤ length file.now) × (length file.now ≤ 65536) }
    ensures { IfOk result (λ next. next ≤ length file.now) }
{
    let size = number_at(file, at + 6);
    let p = at + 8;
    let q = p + number_at(file, at + 4);
    let e = q + size.div_ceil(8);
    if file.len() < e || size > 3249 {
        return Ok(file.len());
    }
    let version = usize::from(byte_at(file, at));
    let level = usize::from(byte_at(file, at + 1));
    let mask = usize::from(byte_at(file, at + 2));
    let mode = u16::from(byte_at(file, at + 3));
    try_symbol(
        rt,
        version,
        level,
        mask,
        mode,
        &file[p..q],
        &file[q..e],
        size,
    )?;
    Ok(e)
}

// Each symbol of the file.
fn try_all(rt: &impl Print, file: &[u8]) -> io::Result<()>
    requires { length file.now ≤ 65536 }
{
    let mut at: usize = 0;
    for _ in 0..SYMBOLS {
        at = try_one(rt, file, at)?;
    }
    Ok(())
}

// Turns over the modules at the first places, so many of them, and makes those at the others unreadable.
fn touch(m: &mut [u8], places: &[usize], turned: usize) {
    for (k, place) in places.iter().enumerate() {
        if let Some(module) = m.get_mut(*place) {
            *module = if k < turned { *module ^ 1 } else { 2 };
        }
    }
}

// Draws a symbol of this version and size at level L, touches it and reads it.
fn attempt(
    rt: &impl Print,
    text: &str,
    version: usize,
    size: usize,
    places: &[usize],
    turned: usize,
) -> io::Result<()>
    requires { size ≤ 3249 }
{
    let mut m = [0u8; 3249];
    let list = [2u16, 13];
    if writer::write(b"LOOP 7 SP 124", &list, 0, version, 2, &mut m).is_err() {
        return println!(rt; "{text}not drawn");
    }
    touch(&mut m, places, turned);
    print!(rt; "{text}")?;
    read_back(rt, &m[..size], b"LOOP 7 SP 124")
}

// At version 1: the first modules of the first nine codewords.
const CODEWORDS: [usize; 9] = [440, 356, 272, 207, 291, 375, 436, 352, 268];

// Seven places of each format copy.
const FORMATS: [usize; 14] = [
    8, 29, 50, 71, 92, 113, 155, 188, 187, 186, 185, 184, 183, 182,
];

// The places of a format copy where the words of masks 2 and 3 differ.
const OTHER_MASK: [usize; 7] = [188, 187, 186, 184, 183, 302, 344];

// At version 7: the places of a version copy where the words of versions 7 and 8 differ.
const OTHER_VERSION: [usize; 8] = [79, 81, 126, 171, 214, 215, 216, 259];

// A block at its bound and past it.
fn block_bounds(rt: &impl Print) -> io::Result<()> {
    attempt(rt, "7 unreadable: ", 1, 441, &CODEWORDS[..7], 0)?;
    attempt(rt, "8 unreadable: ", 1, 441, &CODEWORDS[..8], 0)?;
    attempt(rt, "3 wrong, 1 unreadable: ", 1, 441, &CODEWORDS[..4], 3)?;
    attempt(rt, "3 wrong, 2 unreadable: ", 1, 441, &CODEWORDS[..5], 3)?;
    attempt(rt, "4 wrong: ", 1, 441, &CODEWORDS[..4], 4)
}

// Format copies at their bounds and past them.
fn format_bounds(rt: &impl Print) -> io::Result<()> {
    attempt(rt, "3 flips in a format copy: ", 1, 441, &FORMATS[..3], 3)?;
    attempt(
        rt,
        "2 flips, 2 unreadable in a format copy: ",
        1,
        441,
        &FORMATS[..4],
        2,
    )?;
    attempt(
        rt,
        "7 unreadable in one, 6 in the other: ",
        1,
        441,
        &FORMATS[..13],
        0,
    )?;
    attempt(rt, "7 unreadable in both: ", 1, 441, &FORMATS, 0)?;
    attempt(
        rt,
        "a format copy of another mask: ",
        1,
        441,
        &OTHER_MASK,
        7,
    )
}

// Version copies at their bounds and past them.
fn version_bounds(rt: &impl Print) -> io::Result<()> {
    attempt(
        rt,
        "3 flips in a version copy: ",
        7,
        2025,
        &OTHER_VERSION[..3],
        3,
    )?;
    attempt(
        rt,
        "4 flips in a version copy: ",
        7,
        2025,
        &OTHER_VERSION[..4],
        4,
    )?;
    attempt(
        rt,
        "3 flips from another version: ",
        7,
        2025,
        &OTHER_VERSION[..5],
        5,
    )?;
    attempt(
        rt,
        "a version copy of another version: ",
        7,
        2025,
        &OTHER_VERSION,
        8,
    )
}

// Reads until the buffer is full or the file ends, since a read may give fewer bytes than asked; how many stand at the front then.
fn read_full(file: &mut impl Read, buf: &mut [u8]) -> io::Result<usize>
    ensures long { length buf.new ≡ length buf.old }
    ensures within { IfOk result (λ n. n ≤ length buf.old) }
{
    let mut done: usize = 0;
    while done < buf.len() {
        let more = file.read(&mut buf[done..])?;
        if more == 0 {
            return Ok(done);
        }
        done += more;
    }
    Ok(done)
}

fn main(rt: HostRuntime) -> io::Result<()> {
    let mut opened = File::open(&rt, "symbols")?;
    let mut file = [0u8; 65536];
    let n = read_full(&mut opened, &mut file)?;
    try_all(&rt, &file[..n])?;
    block_bounds(&rt)?;
    format_bounds(&rt)?;
    version_bounds(&rt)
}
