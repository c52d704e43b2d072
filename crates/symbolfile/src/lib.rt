// The text that the program prints for a symbol file.
#![tactic(auto)]

ghost use Rattle.std.specs.Prelude.{◌≡◌, ◌≤◌, length, MatchOption};
ghost use Rattle.text.specs.Text.{most_text};
ghost use Rattle.symbolfile.specs.SymbolFile.{opened, Symbol, NoSymbol, Closed, Holds, SymbolPrinted, FilePrinted};
ghost use Rattle.tables.specs.Tables.{most_payload, most_list};

use tables::{MOST_LIST, MOST_PAYLOAD};

// The refusal of a file that is no symbol file, as the number that is printed.
const NO_SYMBOL: usize = 17;

// The modules in a file, if it has the mark, the version and the length that its side asks for.
fn modules_of(file: &[u8]) -> Option<&[u8]>
    ensures { MatchOption result (opened (Holds file.now) ≡ NoSymbol) (λ modules. opened (Holds file.now) ≡ Symbol modules.now) }
{
    let [b'K', b'Q', b'S', 0, 1, side, modules @ ..] = file else {
        return None;
    };
    let side = usize::from(*side);
    if modules.len() == side * side {
        Some(modules)
    } else {
        None
    }
}

// The text of a file that cannot be opened or read.
pub fn answer_closed(out: &mut [u8]) -> usize
    requires { most_text ≤ length out.old }
    ensures { FilePrinted Closed out.old result out.new }
{
    text::print_refusal(out, NO_SYMBOL)
}

// The text of the answer that modules get; the buffers are the reader's.
fn print_answer(modules: &[u8], payload: &mut [u8], list: &mut [u16], out: &mut [u8]) -> usize
    requires { (length payload.old ≡ most_payload) × ((length list.old ≡ most_list) × (most_text ≤ length out.old)) }
    ensures { SymbolPrinted modules.now out.old result out.new }
{
    match reader::read(modules, payload, list) {
        Ok(r) => text::print_reading(
            out,
            r.version,
            r.level,
            r.mask,
            &payload[..r.payload],
            &list[..2 * r.segments],
            r.differing,
            r.unreadable,
        ),
        Err(refusal) => text::print_refusal(out, usize::from(refusal.number())),
    }
}

// The text of a file that holds these bytes, at the front of the buffer; its length comes back.
pub fn answer(file: &[u8], out: &mut [u8]) -> usize
    requires { most_text ≤ length out.old }
    ensures { FilePrinted (Holds file.now) out.old result out.new }
{
    let Some(modules) = modules_of(file) else {
        return text::print_refusal(out, NO_SYMBOL);
    };
    let mut payload = [0u8; MOST_PAYLOAD];
    let mut list = [0u16; MOST_LIST];
    print_answer(modules, &mut payload, &mut list, out)
}
