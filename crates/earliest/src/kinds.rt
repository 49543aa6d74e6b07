// A form of the transducer of a file, as a file: for any kind of form that is made of the parts of a file.
ghost use Rattle.std.specs.Prelude.{ℕ, ◌≤◌, List, ◌≡◌, length};
ghost use Rattle.formats.specs.Sheet.{longest};
ghost use Rattle.transducer.specs.Inner.Machine.{Machine};
ghost use Rattle.earliest.specs.Answers.{MakesForm};
ghost use Rattle.earliest.specs.Inner.Loaded.{FormMade, FormsFile, Whole};

use formats::file::{counts_end, read_transducer};
use forms::write::{Form, write_found};
use trees::refusal::Refusal;

// A kind of form of transducers, as the earliest form is one.
pub trait FormKind {
    // Which states, counts and marks are a form of the transducer with these n, counts and marks, and which of the transducer of a file.
    ghost parts: { List ℕ → ℕ → List ℕ → List ℕ → ℕ → List ℕ → List ℕ → Type 0 };

    ghost file: { List ℕ → List ℕ → ℕ → List ℕ → List ℕ → Type 0 };

    // Puts the form of the transducer whose n, counts and marks these are into a table: `starts` says where its bodies start in `out`.
    fn make(
        stock: &[u8],
        n: usize,
        counts: &[u8],
        marks: &[u8],
        starts: &mut [u16],
        out: &mut [u8],
    ) -> Option<usize>
        requires { Machine stock.now n counts.now marks.now × (2050 ≤ length starts.old) × (length out.old ≡ 16384) }
        ensures { FormMade parts stock.now n counts.now marks.now starts.new out.new result };

    // A form of the parts of a file is one of the file.
    ghost whole: { Whole parts file };
}

// The file of the form of the transducer whose n, counts and marks these are.
fn form_file<F: FormKind>(
    stock: &[u8],
    n: usize,
    counts: &[u8],
    marks: &[u8],
    area: &mut [u8],
) -> Result<Form, Refusal>
    requires { Machine stock.now n counts.now marks.now × (longest ≤ length area.old) }
    ensures { FormsFile (F.parts stock.now n counts.now marks.now) stock.now n counts.now marks.now area.old area.new result }
{
    let mut starts = [0u16; 2050];
    let mut out = [0u8; 16384];
    let found = F::make(stock, n, counts, marks, &mut starts, &mut out);
    write_found(stock, found, &starts, &out, area)
}

// Writes the file of the form of the transducer of the file `sheet`.
pub fn form_of_file<F: FormKind>(
    stock: &[u8],
    sheet: &[u8],
    area: &mut [u8],
) -> Result<Form, Refusal>
    ensures { MakesForm (F.file stock.now sheet.now) stock.now sheet.now area.old area.new result }
{
    if area.len() < 20483 {
        return Err(Refusal::ShortArea);
    }
    let n = read_transducer(stock, sheet)?;
    let from = counts_end(stock, n);
    form_file::<F>(stock, n, &sheet[1..from], &sheet[from..], area)
}
