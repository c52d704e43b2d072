// A symbol file, loaded from the system, and its text: what a program over such files calls.
#![tactic(auto)]

ghost use Rattle.std.specs.Prelude.{◌≡◌, ◌-◌, ◌<◌, ◌≤◌, length, IfOk};
ghost use Rattle.io.specs.Counts.{IsPrefixLen};
ghost use Rattle.text.specs.Text.{most_text};
ghost use Rattle.symbolfile.specs.SymbolFile.{most_file};
ghost use Rattle.load.specs.Loaded.{Within, LoadedPrinted};
ghost use Rattle.load.specs.Pieces.{opened_file, Moved, PieceEnd, after_read, Follows};

use std::fs::File;
use std::io;
use std::io::Read;
use std::rt::Files;

// What follows a read that moved bytes or none: the file goes on behind so many bytes, or it ends there, or the buffer does.
#[derive(Clone, Copy)]
pub enum Next {
    Behind(usize),
    Ended(usize),
}

// The most bytes that a read asks for.
const PIECE: usize = 4096;

// The file that was opened, on whatever descriptor, 0 too.
fn file_of(opened: io::Result<File>) -> Option<File>
    ensures { result ≡ opened_file opened }
{
    opened.ok()
}

// Where the piece behind the first n bytes of a buffer ends.
fn piece_end(n: usize, room: usize) -> usize
    requires { n < room }
    ensures { PieceEnd n room result }
{
    n + PIECE.min(room - n)
}

// What follows a read behind the first n bytes, by what it answered.
fn after(got: io::Result<usize>, n: usize, room: usize) -> io::Result<Next>
    requires { (n ≤ room) × Moved (room - n) got }
    ensures { result ≡ after_read got n room }
{
    let more = got?;
    let held = n + more;
    if more == 0 || held == room {
        Ok(Next::Ended(held))
    } else {
        Ok(Next::Behind(held))
    }
}

// Reads a piece behind the first n bytes, which stay as they are; what follows.
fn piece<R: Read>(file: &mut R, buf: &mut [u8], n: usize) -> io::Result<Next>
    requires { n < length buf.old }
    ensures { Follows n buf.old result buf.new }
{
    let room = buf.len();
    let end = piece_end(n, room);
    let got = file.read(&mut buf[n..end]);
    after(got, n, room)
}

// A file's bytes, from its front, as many as the buffer holds.
fn load<R: Read>(file: &mut R, buf: &mut [u8]) -> io::Result<usize>
    requires { most_file < length buf.old }
    ensures { IfOk result (λ n. n ≤ length buf.new) }
{
    let mut n = 0;
    loop {
        match piece(file, buf, n)? {
            Next::Ended(held) => return Ok(held),
            Next::Behind(held) => n = held,
        }
    }
}

// How many bytes of the file of this name were loaded, or none if it cannot be opened or read. The buffer is longer than any lawful file, so that a longer one is
// seen to be longer. A name that is no text is none of a file.
pub fn load_file(files: &impl Files<File = File>, name: &[u8], buf: &mut [u8]) -> Option<usize>
    requires { most_file < length buf.old }
    ensures { Within result buf.new }
{
    let text = str::from_utf8(name).ok()?;
    let mut file = file_of(File::open(files, text))?;
    load(&mut file, buf).ok()
}

// The text of what was loaded, at the front of the buffer; its length comes back.
pub fn print_loaded(loaded: Option<usize>, file: &[u8], out: &mut [u8]) -> usize
    requires { (most_text ≤ length out.old) × Within loaded file.now }
    ensures loaded_printed { LoadedPrinted loaded file.now out.old result out.new }
    ensures prefix_len { IsPrefixLen result out.new }
{
    match loaded {
        None => symbolfile::answer_closed(out),
        Some(n) => symbolfile::answer(&file[..n], out),
    }
}
