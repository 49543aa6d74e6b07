// The calls, each with its answer.
use crate::answer;
use canonical::normal::clean;
use comparison::compare::compare;
use comparison::shorter::shorter;
use earliest::earliest::earliest_form;
use formats::file::{read_transducer, write_transducer};
use join::join::join;
use queries::address::symbol_at;
use queries::linear::is_linear;
use std::io;
use transducer::translate::translate;
use trees::alphabet::{AlphabetSizes, read_alphabets};
use trees::refusal::Refusal;
use trees::tree::{TreeSize, read_tree};
use witness::witness::Shown;
use xml::read::read_xml;
use xml::write::write_xml;

pub(crate) fn stock(rt: &impl Print, stock: &[u8]) -> io::Result<()> {
    match read_alphabets(stock) {
        Ok(AlphabetSizes { inputs, outputs }) => {
            println!(rt; "part kinds {inputs}, block kinds {outputs}")
        }
        Err(r) => answer::refused(rt, r),
    }
}

pub(crate) fn design(rt: &impl Print, stock: &[u8], design: &[u8]) -> io::Result<()> {
    match read_tree(stock, design) {
        Ok(TreeSize { nodes, levels }) => println!(rt; "parts {nodes}, levels {levels}"),
        Err(r) => answer::refused(rt, r),
    }
}

pub(crate) fn sheet(rt: &impl Print, stock: &[u8], sheet: &[u8]) -> io::Result<()> {
    answer::count(rt, "passes", read_transducer(stock, sheet))
}

pub(crate) fn place(
    rt: &impl Print,
    stock: &[u8],
    sheet: &[u8],
    design: &[u8],
    place: &[u8],
) -> io::Result<()> {
    match symbol_at(stock, sheet, design, place) {
        Ok(Some(block)) => println!(rt; "block {block}"),
        Ok(None) => println!(rt; "no such place"),
        Err(r) => answer::refused(rt, r),
    }
}

pub(crate) fn single(rt: &impl Print, stock: &[u8], sheet: &[u8]) -> io::Result<()> {
    match is_linear(stock, sheet) {
        Ok(true) => println!(rt; "yes"),
        Ok(false) => println!(rt; "no"),
        Err(r) => answer::refused(rt, r),
    }
}

pub(crate) fn writing(
    rt: &impl Print,
    stock: &[u8],
    counts: &[u8],
    marks: &[u8],
    n: usize,
    area: &mut [u8],
    shown: usize,
) -> io::Result<()> {
    let written = write_transducer(stock, n, counts, marks, area);
    answer::count(rt, "bytes", written)?;
    answer::area_starts(rt, area, shown)
}

pub(crate) fn sewing(
    rt: &impl Print,
    stock: &[u8],
    sheet: &[u8],
    design: &[u8],
    area: &mut [u8],
) -> io::Result<()> {
    answer::count(rt, "blocks", translate(stock, sheet, design, area))?;
    answer::bytes(rt, "its area", area)
}

pub(crate) fn cleaning(
    rt: &impl Print,
    stock: &[u8],
    sheet: &[u8],
    trimmed: &mut [u8],
    cleaned: &mut [u8],
    shown: usize,
) -> io::Result<()> {
    answer::form(rt, "trimmed", earliest_form(stock, sheet, trimmed))?;
    answer::form(rt, "; clean", clean(stock, sheet, cleaned))?;
    println!(rt;)?;
    answer::area_starts(rt, trimmed, shown)
}

// The verdict, and how long the bodies of the shorter one are; or the two symbols, then the tree and the address.
pub(crate) fn pair(
    rt: &impl Print,
    stock: &[u8],
    first: &[u8],
    second: &[u8],
    tree: &mut [u8],
    address: &mut [u8],
) -> io::Result<()> {
    match compare(stock, first, second, tree, address) {
        Ok(None) => {
            let bytes = shorter(stock, first, second).len();
            println!(rt; "alike, bodies of the shorter {bytes}")
        }
        Ok(Some(shown)) => answer::difference(rt, shown, tree, address),
        Err(r) => answer::refused(rt, r),
    }
}

// The second sheet after the first.
pub(crate) fn joining(
    rt: &impl Print,
    first: &[u8],
    second: &[u8],
    sheet1: &[u8],
    sheet2: &[u8],
    area: &mut [u8],
    shown: usize,
) -> io::Result<()> {
    answer::form(rt, "joined", join(first, second, sheet1, sheet2, area))?;
    println!(rt;)?;
    answer::area_starts(rt, area, shown)
}

// A plan as XML.
pub(crate) fn xml(
    rt: &impl Print,
    stock: &[u8],
    plan: &[u8],
    area: &mut [u8],
    shown: usize,
) -> io::Result<()> {
    answer::count(rt, "bytes", write_xml(stock, plan, area))?;
    answer::area_starts(rt, area, shown)
}

// The plan whose XML a text is.
pub(crate) fn plan(
    rt: &impl Print,
    stock: &[u8],
    text: &[u8],
    area: &mut [u8],
    shown: usize,
) -> io::Result<()> {
    answer::count(rt, "blocks", read_xml(stock, text, area))?;
    answer::area_starts(rt, area, shown)
}
