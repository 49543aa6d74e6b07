// The library for Rust and C: numbers and slices of numbers only. Each function returns 0, or the refusal's number in the
// table of documents 01 and 02, and gives its values through its last parameters, which a refusal leaves as they were. The two
// that hand out a part of what is lent say what they return.
// Stays: 1 and 0 for yes and no, and for whether values are given, since the interface has numbers only.
#![tactic(auto)]

ghost use Rattle.exports.specs.Exported.{ExportsAlphabets, ExportsTree, ExportsFile, ExportsWriting, ExportsLinear, ExportsTranslation, ExportsSymbol, ExportsEarliest, ExportsClean, ExportsJoin, ExportsComparison, ExportsShorter, ExportsCodes, ExportsXmlWriting, ExportsXmlReading};

mod answer;
pub mod registered;

use crate::answer::{tell_done, tell_form, tell_number};
use canonical::normal::clean;
use codes::symbol::write_codes;
use comparison::compare::compare;
use comparison::shorter::shorter;
use earliest::earliest::earliest_form;
use formats::file::{counts_end, read_transducer, transducer_marks, write_transducer};
use join::join::join;
use queries::address::symbol_at;
use queries::linear::is_linear;
use transducer::translate::translate;
use trees::alphabet::read_alphabets;
use trees::tree::read_tree;
use xml::read::read_xml;
use xml::write::write_xml;

// Reads two alphabets (01: stock): how many input and output symbols there are.
#[unsafe(no_mangle)]
pub extern "C" fn caplune_read_alphabets(
    stock: &[u8],
    inputs: &mut usize,
    outputs: &mut usize,
) -> u32
    ensures { ExportsAlphabets stock.now (inputs.old, outputs.old) (inputs.new, outputs.new) result }
{
    match read_alphabets(stock) {
        Ok(sizes) => {
            *inputs = sizes.inputs;
            *outputs = sizes.outputs;
            0
        }
        Err(refusal) => u32::from(refusal),
    }
}

// Reads an input tree (01: design): how many nodes and levels it has.
#[unsafe(no_mangle)]
pub extern "C" fn caplune_read_tree(
    stock: &[u8],
    tree: &[u8],
    nodes: &mut usize,
    levels: &mut usize,
) -> u32
    ensures { ExportsTree stock.now tree.now (nodes.old, levels.old) (nodes.new, levels.new) result }
{
    match read_tree(stock, tree) {
        Ok(size) => {
            *nodes = size.nodes;
            *levels = size.levels;
            0
        }
        Err(refusal) => u32::from(refusal),
    }
}

// Reads a transducer (01: sheet): how many states it has, and how long its parts are. The counts stand from byte 1 on, and
// the marks behind them.
#[unsafe(no_mangle)]
pub extern "C" fn caplune_read_transducer(
    stock: &[u8],
    file: &[u8],
    states: &mut usize,
    counts: &mut usize,
    marks: &mut usize,
) -> u32
    ensures { ExportsFile stock.now file.now (states.old, counts.old, marks.old) (states.new, counts.new, marks.new) result }
{
    match read_transducer(stock, file) {
        Ok(n) => {
            let end = counts_end(stock, n);
            *states = n;
            *counts = end - 1;
            *marks = file.len() - end;
            0
        }
        Err(refusal) => u32::from(refusal),
    }
}

// Writes a transducer from its parts to the start of the area: how long its file is.
#[unsafe(no_mangle)]
pub extern "C" fn caplune_write_transducer(
    stock: &[u8],
    states: usize,
    counts: &[u8],
    marks: &[u8],
    area: &mut [u8],
    length: &mut usize,
) -> u32
    ensures { ExportsWriting stock.now states counts.now marks.now area.old area.new length.old length.new result }
{
    tell_number(write_transducer(stock, states, counts, marks, area), length)
}

// Whether a transducer is linear (01: single): 1 or 0.
#[unsafe(no_mangle)]
pub extern "C" fn caplune_is_linear(stock: &[u8], file: &[u8], linear: &mut usize) -> u32
    ensures { ExportsLinear stock.now file.now linear.old linear.new result }
{
    match is_linear(stock, file) {
        Ok(is_so) => {
            *linear = usize::from(is_so);
            0
        }
        Err(refusal) => u32::from(refusal),
    }
}

// Writes the output tree of a transducer on an input tree (01: plan) to the start of the area: how many symbols it has.
#[unsafe(no_mangle)]
pub extern "C" fn caplune_translate(
    stock: &[u8],
    file: &[u8],
    tree: &[u8],
    area: &mut [u8],
    length: &mut usize,
) -> u32
    ensures { ExportsTranslation stock.now file.now tree.now area.old area.new length.old length.new result }
{
    tell_number(translate(stock, file, tree, area), length)
}

// The symbol at an address of the output tree (01: the block at a place): 1 and the symbol; or 0 where there is no such
// address, and the symbol stays as it was.
#[unsafe(no_mangle)]
pub extern "C" fn caplune_symbol_at(
    stock: &[u8],
    file: &[u8],
    tree: &[u8],
    address: &[u8],
    there: &mut usize,
    symbol: &mut usize,
) -> u32
    ensures { ExportsSymbol stock.now file.now tree.now address.now (there.old, symbol.old) (there.new, symbol.new) result }
{
    match symbol_at(stock, file, tree, address) {
        Ok(Some(found)) => {
            *there = 1;
            *symbol = found;
            0
        }
        Ok(None) => {
            *there = 0;
            0
        }
        Err(refusal) => u32::from(refusal),
    }
}

// Writes the earliest form of a transducer (01: the trimmed sheet) to the start of the area: its states and marks, and how
// long its file is.
#[unsafe(no_mangle)]
pub extern "C" fn caplune_earliest_form(
    stock: &[u8],
    file: &[u8],
    area: &mut [u8],
    states: &mut usize,
    marks: &mut usize,
    length: &mut usize,
) -> u32
    ensures { ExportsEarliest stock.now file.now area.old area.new (states.old, marks.old, length.old) (states.new, marks.new, length.new) result }
{
    tell_form(earliest_form(stock, file, area), states, marks, length)
}

// Writes the normal form of a transducer (01: the clean sheet) to the start of the area: its states and marks, and how long
// its file is.
#[unsafe(no_mangle)]
pub extern "C" fn caplune_clean(
    stock: &[u8],
    file: &[u8],
    area: &mut [u8],
    states: &mut usize,
    marks: &mut usize,
    length: &mut usize,
) -> u32
    ensures { ExportsClean stock.now file.now area.old area.new (states.old, marks.old, length.old) (states.new, marks.new, length.new) result }
{
    tell_form(clean(stock, file, area), states, marks, length)
}

// Writes the transducer of the second file after that of the first (02: the joined sheet) to the start of the area: its states
// and marks, and how long its file is. It is over the input symbols of the first stock and the output symbols of the second.
#[unsafe(no_mangle)]
pub extern "C" fn caplune_join(
    first: &[u8],
    second: &[u8],
    file1: &[u8],
    file2: &[u8],
    area: &mut [u8],
    states: &mut usize,
    marks: &mut usize,
    length: &mut usize,
) -> u32
    ensures { ExportsJoin first.now second.now file1.now file2.now area.old area.new (states.old, marks.old, length.old) (states.new, marks.new, length.new) result }
{
    tell_form(
        join(first, second, file1, file2, area),
        states,
        marks,
        length,
    )
}

// Compares two transducers: `alike` is 1 if they are equivalent (01: sew alike), and the other numbers stay as they were. If
// not, `alike` is 0; `tree` begins with an input tree (01: design) of so many nodes and `address` with an address (01: place)
// of so many numbers, and `left` and `right` are the symbols there of the first and of the second output tree.
#[unsafe(no_mangle)]
pub extern "C" fn caplune_compare(
    stock: &[u8],
    first: &[u8],
    second: &[u8],
    tree: &mut [u8],
    address: &mut [u8],
    alike: &mut usize,
    nodes: &mut usize,
    numbers: &mut usize,
    left: &mut usize,
    right: &mut usize,
) -> u32
    ensures { ExportsComparison stock.now first.now second.now tree.old tree.new address.old address.new (alike.old, nodes.old, numbers.old, left.old, right.old) (alike.new, nodes.new, numbers.new, left.new, right.new) result }
{
    match compare(stock, first, second, tree, address) {
        Ok(None) => {
            *alike = 1;
            0
        }
        Ok(Some(shown)) => {
            *alike = 0;
            *nodes = shown.nodes;
            *numbers = shown.numbers;
            *left = shown.left;
            *right = shown.right;
            0
        }
        Err(refusal) => u32::from(refusal),
    }
}

// The marks of the one with fewer of two equivalent transducers, of the first if both have as many: 1 if they are a part of
// the first file and 2 if of the second, where they start in it and how long they are. 0, 0 and 0 for an empty part: of two
// that differ, and on a refusal.
#[unsafe(no_mangle)]
pub extern "C" fn caplune_shorter<'a>(
    stock: &[u8],
    first: &'a [u8],
    second: &'a [u8],
    start: &mut usize,
    size: &mut usize,
) -> usize
    ensures { ExportsShorter stock.now first.now second.now start.new size.new result }
{
    let part = shorter(stock, first, second).len();
    *size = part;
    if part == 0 {
        *start = 0;
        return 0;
    }
    if transducer_marks(stock, first).len() == part {
        *start = first.len() - part;
        return 1;
    }
    *start = second.len() - part;
    2
}

// Writes the codes of all 64 output symbols (01: of blocks), A1 to H8, to the start of the area, two bytes each.
#[unsafe(no_mangle)]
pub extern "C" fn caplune_write_codes(area: &mut [u8]) -> u32
    ensures { ExportsCodes area.old area.new result }
{
    tell_done(write_codes(area))
}

// Writes an output tree (01: plan) as XML to the start of the area `text`: how long the text is.
#[unsafe(no_mangle)]
pub extern "C" fn caplune_write_xml(
    stock: &[u8],
    tree: &[u8],
    text: &mut [u8],
    length: &mut usize,
) -> u32
    ensures { ExportsXmlWriting stock.now tree.now text.old text.new length.old length.new result }
{
    tell_number(write_xml(stock, tree, text), length)
}

// Reads the XML of an output tree (01: plan), and writes the tree to the start of the area: how many symbols it has.
#[unsafe(no_mangle)]
pub extern "C" fn caplune_read_xml(
    stock: &[u8],
    text: &[u8],
    area: &mut [u8],
    length: &mut usize,
) -> u32
    ensures { ExportsXmlReading stock.now text.now area.old area.new length.old length.new result }
{
    tell_number(read_xml(stock, text, area), length)
}
