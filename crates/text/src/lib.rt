// The text that is printed, in a lent buffer.
// It is put there by hand, and not by `write!` and `Display`: their clauses give the text only where they answer `Ok`, and never say that they do.
#![tactic(auto)]

ghost use Rattle.std.specs.Prelude.{◌≡◌, [], ◌∷◌, ◌++◌, ◌≤◌, ◌<◌, length};
ghost use Rattle.tables.specs.Tables.{most_payload, most_list};
ghost use Rattle.part.specs.Part.{Fills};
ghost use Rattle.text.specs.Page.{HasRoom, Writes};
ghost use Rattle.text.specs.Paste.{Printed};
ghost use Rattle.text.specs.Text.{decimal, shown, hex_digit, hex, letter, first_line, second_line, segment_line, segment_text, segment_lines, reading_text, refusal_text, most_text};

// The most digits of a number of 64 bits.
const MOST_DIGITS: usize = 20;

const LINE_FEED: u8 = 10;

// A hex digit, lower case.
fn hex_digit(x: u8) -> u8
    requires { x < 16 }
    ensures { result ≡ hex_digit x }
{
    if x < 10 { b'0' + x } else { b'a' - 10 + x }
}

// A level's letter.
fn letter_of(level: usize) -> u8
    requires { level < 4 }
    ensures { result ≡ letter level }
{
    match level {
        0 => b'L',
        1 => b'M',
        2 => b'Q',
        _ => b'H',
    }
}

// A lent buffer and its next free place. Each method writes its text from there on.
#[derive(Drop)]
struct Page<'a> {
    out: &'a mut [u8],
    at: usize,
}

impl Page<'_> {
    fn put_byte(&mut self, b: u8)
        requires { HasRoom self.old (b ∷ []) }
        ensures { Writes self.old (b ∷ []) self.new }
    {
        self.out[self.at] = b;
        self.at += 1;
    }

    fn put_bytes(&mut self, s: &[u8])
        requires { HasRoom self.old s.now }
        ensures { Writes self.old s.now self.new }
    {
        let next = self.at + s.len();
        self.out[self.at..next].copy_from_slice(s);
        self.at = next;
    }

    // A number in decimal, n digits at the most.
    fn put_digits(&mut self, n: usize, x: usize)
        requires { HasRoom self.old (decimal n x) }
        ensures { Writes self.old (decimal n x) self.new }
    {
        if n == 0 {
            return;
        }
        if x >= 10 {
            self.put_digits(n - 1, x / 10);
        }
        self.put_byte(b'0' + (x % 10) as u8)
    }

    // A name and a number.
    fn put_field(&mut self, name: &[u8], x: usize)
        requires { HasRoom self.old (name.now ++ shown x) }
        ensures { Writes self.old (name.now ++ shown x) self.new }
    {
        self.put_bytes(name);
        self.put_digits(MOST_DIGITS, x)
    }

    // The bytes in hex.
    fn put_hex(&mut self, bytes: &[u8])
        requires { HasRoom self.old (hex bytes.now) }
        ensures { Writes self.old (hex bytes.now) self.new }
    {
        for byte in bytes {
            self.put_byte(hex_digit(*byte / 16));
            self.put_byte(hex_digit(*byte % 16));
        }
    }

    fn put_first_line(&mut self, version: usize, level: usize, mask: usize)
        requires { (level < 4) × HasRoom self.old (first_line version level mask) }
        ensures { Writes self.old (first_line version level mask) self.new }
    {
        self.put_field(b"version ", version);
        self.put_bytes(b" level ");
        self.put_byte(letter_of(level));
        self.put_field(b" mask ", mask);
        self.put_byte(LINE_FEED)
    }

    fn put_second_line(&mut self, differing: usize, unreadable: usize)
        requires { HasRoom self.old (second_line differing unreadable) }
        ensures { Writes self.old (second_line differing unreadable) self.new }
    {
        self.put_field(b"differing ", differing);
        self.put_field(b" unreadable ", unreadable);
        self.put_byte(LINE_FEED)
    }

    fn put_segment_line(&mut self, k: usize, mode: usize, count: usize)
        requires { HasRoom self.old (segment_line k mode count) }
        ensures { Writes self.old (segment_line k mode count) self.new }
    {
        self.put_field(b"segment ", k);
        self.put_field(b" mode ", mode);
        self.put_field(b" count ", count);
        self.put_byte(LINE_FEED)
    }

    // Segment k: its line, and its bytes in hex.
    fn put_segment(&mut self, k: usize, mode: usize, count: usize, bytes: &[u8])
        requires { HasRoom self.old (segment_text k mode count bytes.now) }
        ensures { Writes self.old (segment_text k mode count bytes.now) self.new }
    {
        self.put_segment_line(k, mode, count);
        self.put_hex(bytes);
        self.put_byte(LINE_FEED)
    }

    // The lines of all segments: of each its line and its part of the payload.
    fn put_segments(&mut self, payload: &[u8], list: &[u16])
        requires { Fills list.now (length payload.now) × HasRoom self.old (segment_lines 1 payload.now list.now) }
        ensures { Writes self.old (segment_lines 1 payload.now list.now) self.new }
    {
        for k in 0..list.len() / 2 {
            let mode = usize::from(list[2 * k]);
            let count = usize::from(list[2 * k + 1]);
            self.put_segment(k + 1, mode, count, part::part(payload, list, k));
        }
    }
}

// The whole output for a reading, at the front of the buffer; its length comes back.
pub fn print_reading(
    out: &mut [u8],
    version: usize,
    level: usize,
    mask: usize,
    payload: &[u8],
    list: &[u16],
    differing: usize,
    unreadable: usize,
) -> usize
    requires { (level < 4) × (Fills list.now (length payload.now) × ((length payload.now ≤ most_payload) × ((length list.now ≤ most_list) × (most_text ≤ length out.old)))) }
    ensures { Printed (reading_text version level mask payload.now list.now differing unreadable) out.old result out.new }
{
    let mut page = Page { out, at: 0 };
    page.put_first_line(version, level, mask);
    page.put_second_line(differing, unreadable);
    page.put_segments(payload, list);
    page.put_bytes(b"end");
    page.put_byte(LINE_FEED);
    page.at
}

// The whole output for a refusal, at the front of the buffer; its length comes back.
pub fn print_refusal(out: &mut [u8], n: usize) -> usize
    requires { most_text ≤ length out.old }
    ensures { Printed (refusal_text n) out.old result out.new }
{
    let mut page = Page { out, at: 0 };
    page.put_field(b"refused ", n);
    page.put_byte(LINE_FEED);
    page.at
}
