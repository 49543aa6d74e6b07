// What is printed: the parts of an answer.
use forms::write::Form;
use std::io;
use trees::refusal::Refusal;
use witness::witness::Shown;

fn refusal(rt: &impl Print, r: Refusal) -> io::Result<()> {
    print!(rt; "refused {}", u32::from(r))
}

// The end of a line: why there is no answer.
pub(crate) fn refused(rt: &impl Print, r: Refusal) -> io::Result<()> {
    refusal(rt, r)?;
    println!(rt;)
}

// The end of a line: how many there are of what has this name.
pub(crate) fn count(rt: &impl Print, name: &str, n: Result<usize, Refusal>) -> io::Result<()> {
    match n {
        Ok(n) => println!(rt; "{name} {n}"),
        Err(r) => refused(rt, r),
    }
}

// How many states and marks a form has, and how long its file is.
pub(crate) fn form(rt: &impl Print, name: &str, made: Result<Form, Refusal>) -> io::Result<()> {
    print!(rt; "{name} ")?;
    match made {
        Ok(
            Form {
                states,
                marks,
                bytes,
            },
        ) => print!(rt; "passes {states}, marks {marks}, bytes {bytes}"),
        Err(r) => refusal(rt, r),
    }
}

// The end of a line: bytes in decimal.
pub(crate) fn bytes(rt: &impl Print, name: &str, s: &[u8]) -> io::Result<()> {
    print!(rt; "{name}:")?;
    for b in s {
        print!(rt; " {b}")?;
    }
    println!(rt;)
}

// The first n of these bytes, or all where there are fewer.
fn start(rt: &impl Print, name: &str, s: &[u8], n: usize) -> io::Result<()> {
    bytes(rt, name, s.get(..n).unwrap_or(s))
}

pub(crate) fn area_starts(rt: &impl Print, s: &[u8], n: usize) -> io::Result<()> {
    if n > 0 {
        start(rt, "its area starts", s, n)?;
    }
    Ok(())
}

// Two symbols, and the tree and the address that show them.
pub(crate) fn difference(
    rt: &impl Print,
    shown: Shown,
    tree: &[u8],
    address: &[u8],
) -> io::Result<()> {
    let Shown {
        nodes,
        numbers,
        left,
        right,
    } = shown;
    println!(rt; "differ, blocks {left} and {right}")?;
    start(rt, "its design", tree, nodes)?;
    start(rt, "its place", address, numbers)
}

// A part that was handed out: its length, and its bytes.
pub(crate) fn handed(rt: &impl Print, s: &[u8]) -> io::Result<()> {
    print!(rt; "bytes {}", s.len())?;
    bytes(rt, "", s)
}
