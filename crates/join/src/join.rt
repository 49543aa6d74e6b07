// The transducer of one file after that of another, as a file.
ghost use Rattle.std.specs.Prelude.{◌≤◌, ◌≡◌, length};
ghost use Rattle.trees.specs.Alphabets.{Alphabets, inputs, outputs};
ghost use Rattle.formats.specs.Sheet.{longest};
ghost use Rattle.join.specs.Answers.{Joins};
ghost use Rattle.join.specs.Inner.Parts.{JoinsSheets};
ghost use Rattle.join.specs.Inner.Sheets.{JoinableOf, JoinsPartsOf, JoinsFileOf};

use crate::discover::Product;
use crate::stock::join_stocks;
use discovery::discover::discover;
use formats::bodies::fill_starts;
use formats::file::{counts_end, read_transducer};
use forms::write::{Form, write_found};
use trees::alphabet::{alphabets_right, input_ranks, output_ranks};
use trees::refusal::Refusal;

// One of the two transducers: its alphabets, how many states it has, and the counts and the marks of its file.
#[derive(Clone, Copy)]
struct Sheet<'a> {
    stock: &'a [u8],
    states: usize,
    counts: &'a [u8],
    marks: &'a [u8],
}

// The second transducer after the first: `starts` says where its bodies start in `out`.
fn join_parts(first: &Sheet, second: &Sheet, starts: &mut [u16], out: &mut [u8]) -> Option<usize>
    requires { JoinableOf first.now second.now × (2050 ≤ length starts.old) × (length out.old ≡ 16384) }
    ensures { JoinsPartsOf first.now second.now starts.new out.new result }
{
    let mut starts1 = [0u16; 2050];
    let mut starts2 = [0u16; 2050];
    let bodies1 = 1 + first.states * input_ranks(first.stock).len();
    let bodies2 = 1 + second.states * input_ranks(second.stock).len();
    fill_starts(first.counts, bodies1, &mut starts1);
    fill_starts(second.counts, bodies2, &mut starts2);
    let product = Product {
        first: first.stock,
        second: second.stock,
        starts1: &starts1,
        marks1: first.marks,
        starts2: &starts2,
        marks2: second.marks,
    };
    discover(&product, starts, out)
}

// The file of the second transducer after the first.
fn join_file(first: &Sheet, second: &Sheet, area: &mut [u8]) -> Result<Form, Refusal>
    requires { JoinableOf first.now second.now × (longest ≤ length area.old) }
    ensures { JoinsFileOf first.now second.now area.old area.new result }
{
    let mut stock = [0u8; 82];
    let size = join_stocks(first.stock, second.stock, &mut stock);
    let mut starts = [0u16; 2050];
    let mut out = [0u8; 16384];
    let states = join_parts(first, second, &mut starts, &mut out).ok_or(Refusal::JoinOverLimits)?;
    write_found(&stock[..size], Some(states), &starts, &out, area)
}

// Joins the transducers of two files whose alphabets are right and fit.
fn join_sheets(
    first: &[u8],
    second: &[u8],
    sheet1: &[u8],
    sheet2: &[u8],
    area: &mut [u8],
) -> Result<Form, Refusal>
    requires { Alphabets first.now × Alphabets second.now × (outputs first.now ≡ inputs second.now) × (longest ≤ length area.old) }
    ensures { JoinsSheets first.now second.now sheet1.now sheet2.now area.old area.new result }
{
    let n1 = read_transducer(first, sheet1)?;
    let n2 = read_transducer(second, sheet2)?;
    let from1 = counts_end(first, n1);
    let from2 = counts_end(second, n2);
    join_file(
        &Sheet {
            stock: first,
            states: n1,
            counts: &sheet1[1..from1],
            marks: &sheet1[from1..],
        },
        &Sheet {
            stock: second,
            states: n2,
            counts: &sheet2[1..from2],
            marks: &sheet2[from2..],
        },
        area,
    )
}

// Writes the file of the transducer of the file `sheet2` after that of the file `sheet1` (02: the joined sheet).
pub fn join(
    first: &[u8],
    second: &[u8],
    sheet1: &[u8],
    sheet2: &[u8],
    area: &mut [u8],
) -> Result<Form, Refusal>
    ensures { Joins first.now second.now sheet1.now sheet2.now area.old area.new result }
{
    if area.len() < 20483 {
        return Err(Refusal::ShortArea);
    }
    if !alphabets_right(first) {
        return Err(Refusal::BadAlphabets);
    }
    if !alphabets_right(second) {
        return Err(Refusal::BadAlphabets);
    }
    if output_ranks(first) != input_ranks(second) {
        return Err(Refusal::OtherAlphabet);
    }
    join_sheets(first, second, sheet1, sheet2, area)
}
