// The part of the caller's payload that the k-th segment fills, counted from 0.
#![tactic(auto)]

ghost use Rattle.std.specs.Prelude.{◌≡◌, unwrap_or};
ghost use Rattle.part.specs.Part.{part_of, span_of, nowhere};

// A part of a payload: its first byte's place and its length.
#[repr(C)]
#[derive(Clone, Copy)]
pub struct Span {
    pub start: usize,
    pub len: usize,
}

// The empty span at the start.
const NOWHERE: Span = Span { start: 0, len: 0 };

// Where the k-th segment stands in a payload of n bytes, if the list is even and has such a segment, and the span does not run past the
// payload. The counts in front of it alone are looked at, and none where the list has no such segment.
fn find_span(list: &[u16], n: usize, k: usize) -> Option<Span>
    ensures { unwrap_or result nowhere ≡ span_of list.now n k }
{
    let (segments, []) = list.as_chunks::<2>() else {
        return None;
    };
    let [_, last] = segments.get(k)?;
    let mut start: usize = 0;
    for [_, count] in &segments[..k] {
        let len = usize::from(*count);
        if n - start < len {
            return None;
        }
        start += len;
    }
    let len = usize::from(*last);
    if n - start < len {
        return None;
    }
    Some(Span { start, len })
}

// Where the k-th segment stands in a payload of n bytes; the empty span at the start where the list is odd or has no such segment, or the
// span would run past the payload. Sums are exact.
pub fn span_of(list: &[u16], n: usize, k: usize) -> Span
    ensures { result ≡ span_of list.now n k }
{
    find_span(list, n, k).unwrap_or(NOWHERE)
}

// The bytes of the k-th segment: a part of the lent payload.
pub fn part<'a>(payload: &'a [u8], list: &[u16], k: usize) -> &'a [u8]
    ensures { result.now ≡ part_of payload.now list.now k }
{
    let Span { start, len } = span_of(list, payload.len(), k);
    &payload[start..start + len]
}
