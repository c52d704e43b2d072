// Reads `symbol.kqs` in the folder that it is started in, and prints its text.
#![tactic(auto)]

use std::io;
use std::io::Write;

// Both buffers have 65536 bytes: more than the longest lawful file, and room for every text.
fn main(rt: HostRuntime) -> io::Result<()> {
    let mut file = [0u8; 65536];
    let mut out = [0u8; 65536];
    let loaded = load::load_file(&rt, b"symbol.kqs", &mut file);
    let n = load::print_loaded(loaded, &file, &mut out);
    io::writer(&rt).write_all(&out[..n])
}
