// The entries for the panel's firmware, as include/kqs.h says: numbers and slices in, a struct by value out. Each answers every input. `panel_c` exports them to C.
#![tactic(auto)]

ghost use Rattle.std.specs.Prelude.{◌≡◌, length};
ghost use Rattle.writer.specs.Writer.{request};
ghost use Rattle.part.specs.Part.{span_of};
ghost use Rattle.panel.specs.Panel.{WriteAnswers, ReadAnswers};

use part::Span;

// What `kqs_write` answers: a refusal has zeros behind its number, and a symbol has 0 in front.
#[repr(C)]
#[derive(Clone, Copy, Default)]
pub struct KqsDrawn {
    pub refusal: u32,
    pub version: u32,
    pub mask: u32,
    pub side: u32,
}

// What `kqs_read` answers, in the same way.
#[repr(C)]
#[derive(Clone, Copy, Default)]
pub struct KqsReading {
    pub refusal: u32,
    pub version: u32,
    pub level: u32,
    pub mask: u32,
    pub payload: u32,
    pub segments: u32,
    pub differing: u32,
    pub unreadable: u32,
}

// Draws the symbol of a message into the first side · side bytes of `out`.
pub fn kqs_write(
    payload: &[u8],
    list: &[u16],
    level: u32,
    version: u32,
    mask: u32,
    out: &mut [u8],
) -> KqsDrawn
    ensures { WriteAnswers (request payload.now list.now level version mask) out.old result out.new }
{
    // the library has no `From` of `u32` into `usize`: each number keeps its value
    match writer::write(
        payload,
        list,
        level as usize,
        version as usize,
        mask as usize,
        out,
    ) {
        Ok(s) => KqsDrawn {
            refusal: 0,
            version: s.version,
            mask: s.mask,
            side: s.side,
        },
        Err(refusal) => KqsDrawn {
            refusal: u32::from(refusal.number()),
            ..KqsDrawn::default()
        },
    }
}

// Reads a matrix; its payload and its segments at the fronts of the buffers.
pub fn kqs_read(matrix: &[u8], payload: &mut [u8], list: &mut [u16]) -> KqsReading
    ensures { ReadAnswers matrix.now payload.old list.old result payload.new list.new }
{
    // a cast and no `try_from`, which could not fail: each number of a reading is one of 32 bits
    match reader::read(matrix, payload, list) {
        Ok(r) => KqsReading {
            refusal: 0,
            version: r.version as u32,
            level: r.level as u32,
            mask: r.mask as u32,
            payload: r.payload as u32,
            segments: r.segments as u32,
            differing: r.differing as u32,
            unreadable: r.unreadable as u32,
        },
        Err(refusal) => KqsReading {
            refusal: u32::from(refusal.number()),
            ..KqsReading::default()
        },
    }
}

// Where the k-th segment, counted from 0, stands in the payload.
pub fn kqs_part(payload: &[u8], list: &[u16], k: usize) -> Span
    ensures { result ≡ span_of list.now (length payload.now) k }
{
    part::span_of(list, payload.len(), k)
}
