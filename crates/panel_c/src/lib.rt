// The entries of `panel`, exported to C as include/kqs.h says, each with the same promise. They stand twice, since a crate is a library or a static library.
#![tactic(auto)]

ghost use Rattle.std.specs.Prelude.{◌≡◌, length};
ghost use Rattle.writer.specs.Writer.{request};
ghost use Rattle.part.specs.Part.{span_of};
ghost use Rattle.panel.specs.Panel.{WriteAnswers, ReadAnswers};

use panel::{KqsDrawn, KqsReading};
use part::Span;

// Draws the symbol of a message into the first side · side bytes of `out`.
#[unsafe(no_mangle)]
pub extern "C" fn kqs_write(
    payload: &[u8],
    list: &[u16],
    level: u32,
    version: u32,
    mask: u32,
    out: &mut [u8],
) -> KqsDrawn
    ensures { WriteAnswers (request payload.now list.now level version mask) out.old result out.new }
{
    panel::kqs_write(payload, list, level, version, mask, out)
}

// Reads a matrix; its payload and its segments at the fronts of the buffers.
#[unsafe(no_mangle)]
pub extern "C" fn kqs_read(matrix: &[u8], payload: &mut [u8], list: &mut [u16]) -> KqsReading
    ensures { ReadAnswers matrix.now payload.old list.old result payload.new list.new }
{
    panel::kqs_read(matrix, payload, list)
}

// Where the k-th segment, counted from 0, stands in the payload.
#[unsafe(no_mangle)]
pub extern "C" fn kqs_part(payload: &[u8], list: &[u16], k: usize) -> Span
    ensures { result ≡ span_of list.now (length payload.now) k }
{
    panel::kqs_part(payload, list, k)
}
