// Reads symbol files as `kqs` does, by the same calls, and prints each one's text under its name.
#![tactic(auto)]

use std::io;
use std::io::Write;

fn show(rt: &HostRuntime, name: &[u8]) -> io::Result<()> {
    let mut file = [0u8; 65536];
    let mut out = [0u8; 65536];
    let loaded = load::load_file(rt, name, &mut file);
    let n = load::print_loaded(loaded, &file, &mut out);
    let mut to = io::writer(rt);
    to.write_all(name)?;
    to.write_all(b"\n")?;
    to.write_all(&out[..n])
}

// Version 10 with damage; damage past a block's bound (12); a file that is none, one a byte short, one that is missing and a folder (17); the longest
// lawful file, of side 255 (7), and one a byte longer (17).
fn main(rt: HostRuntime) -> io::Result<()> {
    show(&rt, b"damaged.kqs")?;
    show(&rt, b"beyond.kqs")?;
    show(&rt, b"other.kqs")?;
    show(&rt, b"short.kqs")?;
    show(&rt, b"missing.kqs")?;
    show(&rt, b".")?;
    show(&rt, b"side255.kqs")?;
    show(&rt, b"longer.kqs")
}
