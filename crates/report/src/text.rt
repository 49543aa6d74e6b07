// Pieces of text, written into an area from a position on; each function answers the position behind what it wrote.
ghost use Rattle.std.specs.Prelude.{◌+◌, ◌≤◌, ◌<◌, ◌∷◌, length};
ghost use Rattle.trees.specs.Refusal as refusals;
ghost use Rattle.codes.specs.Codes.{symbol_code};
ghost use Rattle.report.specs.Text.{number_text, separated, place_text, refused_line, sizes_line, alike_line, differ_line};
ghost use Rattle.formats.specs.Inner.Written.{Wrote};

use codes::symbol::symbol_code;
use formats::file::write_word;
use trees::refusal::Refusal;

// A number below 10,000 in decimal.
// Stays: it calls itself for the digits in front, since there is no buffer for them (nothing is allocated, docs/AREAS.md).
pub(crate) fn write_number(text: &mut [u8], at: usize, n: usize) -> usize
    requires { (n < 10000) × (at + length (number_text n) ≤ length text.old) }
    ensures { Wrote text.old text.new at result (number_text n) }
{
    if n < 10 {
        text[at] = (48 + n) as u8;
        return at + 1;
    }
    let to = write_number(text, at, n / 10);
    text[to] = (48 + n % 10) as u8;
    to + 1
}

// Bytes as numbers in decimal, with the byte s between them.
pub(crate) fn write_separated(text: &mut [u8], at: usize, s: u8, items: &[u8]) -> usize
    requires { at + length (separated s items.now) ≤ length text.old }
    ensures { Wrote text.old text.new at result (separated s items.now) }
{
    if items.is_empty() {
        return at;
    }
    let mut to = write_number(text, at, usize::from(items[0]));
    for item in &items[1..] {
        text[to] = s;
        to = write_number(text, to + 1, usize::from(*item));
    }
    to
}

// An address: its numbers with dots, a dash for the root.
pub(crate) fn write_address(text: &mut [u8], at: usize, address: &[u8]) -> usize
    requires { at + length (place_text address.now) ≤ length text.old }
    ensures { Wrote text.old text.new at result (place_text address.now) }
{
    if address.is_empty() {
        text[at] = b'-';
        return at + 1;
    }
    write_separated(text, at, b'.', address)
}

// A space and the code of an output symbol.
pub(crate) fn write_symbol(text: &mut [u8], at: usize, k: usize) -> usize
    requires { (k < 64) × (at + 3 ≤ length text.old) }
    ensures { Wrote text.old text.new at result (32 ∷ symbol_code k) }
{
    text[at] = b' ';
    let code = symbol_code(k);
    write_word(text, at + 1, &code)
}

// The line of a refusal.
pub(crate) fn write_refused(text: &mut [u8], r: Refusal) -> usize
    requires { 11 ≤ length text.old }
    ensures { Wrote text.old text.new 0 result (refused_line (refusals.refusal_number r)) }
{
    let a = write_word(text, 0, b"refused ");
    let b = write_number(text, a, u32::from(r) as usize);
    write_word(text, b, b"\n")
}

// The line of a normal form: a word, how many states and how many marks it has.
pub(crate) fn write_sizes(
    text: &mut [u8],
    at: usize,
    word: &[u8],
    states: usize,
    marks: usize,
) -> usize
    requires { (states < 10000) × (marks < 10000) × (at + length (sizes_line word.now states marks) ≤ length text.old) }
    ensures { Wrote text.old text.new at result (sizes_line word.now states marks) }
{
    let a = write_word(text, at, word);
    let b = write_number(text, a, states);
    let c = write_word(text, b, b" ");
    let d = write_number(text, c, marks);
    write_word(text, d, b"\n")
}

// The third line of two transducers that are equivalent.
pub(crate) fn write_alike(text: &mut [u8], at: usize) -> usize
    requires { at + 6 ≤ length text.old }
    ensures { Wrote text.old text.new at result alike_line }
{
    write_word(text, at, b"alike\n")
}

// The third line of two that are not: the symbols of a tree, an address and the two output symbols there.
pub(crate) fn write_differ(
    text: &mut [u8],
    at: usize,
    tree: &[u8],
    address: &[u8],
    left: usize,
    right: usize,
) -> usize
    requires { (left < 64) × (right < 64) × (at + length (separated 44 tree.now) + length (place_text address.now) + 18 ≤ length text.old) }
    ensures { Wrote text.old text.new at result (differ_line tree.now address.now left right) }
{
    let a = write_word(text, at, b"differ ");
    let b = write_separated(text, a, b',', tree);
    let c = write_word(text, b, b" at ");
    let d = write_address(text, c, address);
    let e = write_symbol(text, d, left);
    let f = write_symbol(text, e, right);
    write_word(text, f, b"\n")
}
