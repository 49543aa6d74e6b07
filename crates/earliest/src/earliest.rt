// The earliest form of the transducer of a file, as a file.
ghost use Rattle.std.specs.Prelude.{◌≤◌, ◌≡◌, length};
ghost use Rattle.transducer.specs.Inner.Machine.{Machine};
ghost use Rattle.earliest.specs.Answers.{EarliestFile, MakesEarliest};
ghost use Rattle.earliest.specs.Inner.Loaded.{EarliestOf, FormOfParts, earliest_whole};

use crate::discover::form_of_table;
use crate::kinds::{FormKind, form_of_file};
use formats::bodies::fill_starts;
use forms::write::Form;
use trees::alphabet::{input_ranks, output_ranks};
use trees::refusal::Refusal;

// The earliest form of the transducer whose n, counts and marks these are: `starts` says where its bodies start in `out`.
// What stands in both behind the last body is scratch, and all of it where the answer is `None`.
pub fn form_of_parts(
    stock: &[u8],
    n: usize,
    counts: &[u8],
    marks: &[u8],
    starts: &mut [u16],
    out: &mut [u8],
) -> Option<usize>
    requires { Machine stock.now n counts.now marks.now × (2050 ≤ length starts.old) × (length out.old ≡ 16384) }
    ensures { FormOfParts stock.now n counts.now marks.now starts.new out.new result }
{
    let ins = input_ranks(stock);
    let mut from = [0u16; 2050];
    fill_starts(counts, 1 + n * ins.len(), &mut from);
    form_of_table(ins, output_ranks(stock), &from, marks, n, starts, out)
}

// The earliest form, as a kind of form.
struct Earliest;

impl FormKind for Earliest {
    ghost parts = { EarliestOf };

    ghost file = { EarliestFile };

    fn make(
        stock: &[u8],
        n: usize,
        counts: &[u8],
        marks: &[u8],
        starts: &mut [u16],
        out: &mut [u8],
    ) -> Option<usize> {
        form_of_parts(stock, n, counts, marks, starts, out)
    }

    ghost whole = { earliest_whole };
}

// Writes the file of the earliest form of the transducer of the file `sheet` (01: the trimmed sheet).
pub fn earliest_form(stock: &[u8], sheet: &[u8], area: &mut [u8]) -> Result<Form, Refusal>
    ensures { MakesEarliest stock.now sheet.now area.old area.new result }
{
    form_of_file::<Earliest>(stock, sheet, area)
}
