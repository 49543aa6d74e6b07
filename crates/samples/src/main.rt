// Document 01's small inputs and samples, a line for each: its name, and the answer. The cases stand in the file `stdin`, and what
// they print in `stdout`; `reader.rt` says how to add one.
// What is printed is in the document's words: stock (alphabets), design (input tree), sheet (transducer), pass (state), block
// (output symbol), place (address), single (linear), trimmed (earliest form), clean (normal form), joined (the second transducer after the first), XML (the text of a plan).
#![tactic(auto)]

mod answer;
mod calls;
mod fault;
mod line;
mod reader;

ghost use Rattle.std.specs.Prelude.{◌≤◌, length};

use crate::fault::Fault;
use crate::reader::Names;
use std::io::{self, Read};

// The cases, line by line. A line may name bytes, which those behind it use.
fn run(rt: &impl Print, text: &[u8]) -> io::Result<()> {
    let mut names = Names::new();
    for s in text.split(|b| *b == b'\n') {
        match line::answer_line(rt, s, &mut names) {
            Ok(()) => {}
            Err(Fault::BadLine) => rt.println("bad line")?,
            Err(Fault::Io(e)) => return Err(e),
        }
    }
    Ok(())
}

// Reads the input into `text`, as far as it goes and the text has room, and answers how many bytes came: those before a read that fails.
fn read_text(input: &mut impl Read, text: &mut [u8]) -> usize
    ensures { result ≤ length text.new }
{
    let mut done = 0;
    // Stays: a `while`, since a read may give fewer bytes than there are; std's `read_to_end` reads into what it allocates.
    while done < text.len() {
        match input.read(&mut text[done..]) {
            Ok(0) | Err(_) => return done,
            Ok(n) => done += n,
        }
    }
    done
}

fn main(rt: HostRuntime) -> io::Result<()> {
    // Stays: an array of fixed size, since nothing is allocated, so that memory cannot run out.
    let mut text = [0u8; 65_536];
    let n = read_text(&mut rt.reader(), &mut text);
    run(&rt, &text[..n])
}
