// A bit cursor by value: its methods take `self` and return the moved cursor. Bits go most significant first.
#![tactic(auto)]

ghost use Rattle.std.specs.Prelude.{◌≡◌, ◌++◌, ◌+◌, ◌-◌, ◌*◌, ◌/◌, ◌%◌, ◌^◌, ◌<◌, ◌≤◌, length, take, drop};
ghost use Rattle.basics.specs.Bits.{bits};
ghost use Rattle.cursor.specs.Cursor.{field, with_bits};

#[derive(Clone, Copy)]
pub struct Cursor {
    pub at: usize,
}

#[derive(Clone, Copy)]
pub struct Taken {
    pub value: u32,
    pub next: Cursor,
}

// 2 to the power of a number up to 16.
fn power(k: usize) -> u32
    requires { k ≤ 16 }
    ensures { result ≡ 2 ^ k }
{
    1 << k
}

// The m bits of a byte above its lowest `low`, as a number.
fn part_of(x: u8, low: usize, m: usize) -> u32
    requires { low + m ≤ 8 }
    ensures { result ≡ x / 2 ^ low % 2 ^ m }
{
    u32::from(x) / power(low) % power(m)
}

// A byte whose m bits above its lowest `low` are the lowest of a number.
fn with_part(x: u8, low: usize, m: usize, value: u32) -> u8
    requires { low + m ≤ 8 }
    ensures { bits 8 result ≡ take (8 - low - m) (bits 8 x) ++ (bits m value ++ drop (8 - low) (bits 8 x)) }
{
    let unit = power(low);
    let size = power(m);
    let byte = u32::from(x);
    let changed = (byte / unit / size * size + value % size) * unit + byte % unit;
    changed as u8
}

impl Cursor {
    // The next n bits as a number, and the cursor past them. A turn takes what is left of a byte, or of the field.
    pub fn take(self, bytes: &[u8], n: usize) -> Taken
        requires { (n ≤ 16) × ((length bytes.now ≤ 4096) × (self.at + n ≤ 8 * length bytes.now)) }
        ensures { (result.value ≡ field bytes.now self.at n) × (result.next.at ≡ self.at + n) }
    {
        let at = self.at;
        let mut v: u32 = 0;
        let mut k: usize = 0;
        // a `while`, since the bits of a turn are as many as the byte has left
        while k < n {
            let p = at + k;
            let room = 8 - p % 8;
            let m = room.min(n - k);
            v = v * power(m) + part_of(bytes[p / 8], room - m, m);
            k += m;
        }
        Taken {
            value: v,
            next: Cursor { at: at + n },
        }
    }

    // The n bits of a value, written; every other bit as it was.
    pub fn put(self, out: &mut [u8], value: u32, n: usize) -> Cursor
        requires { (n ≤ 16) × ((length out.old ≤ 4096) × (self.at + n ≤ 8 * length out.old)) }
        ensures { (result.at ≡ self.at + n) × (out.new ≡ with_bits out.old self.at (bits n value)) }
    {
        let at = self.at;
        let mut k: usize = 0;
        // a `while`, since the bits of a turn are as many as the byte has left
        while k < n {
            let p = at + k;
            let room = 8 - p % 8;
            let m = room.min(n - k);
            let i = p / 8;
            out[i] = with_part(out[i], room - m, m, value >> (n - k - m));
            k += m;
        }
        Cursor { at: at + n }
    }
}
