// A form in a table of starts and marks, written as a file.
ghost use Rattle.std.specs.Prelude.{ℕ, ◌+◌, ◌*◌, ◌≤◌, ◌<◌, length, get_or};
ghost use Rattle.forms.specs.Inner.Writing.{FillsCounts, Writable, WritesForm, FoundWritable, WritesFound};

use formats::file::write_transducer;
use trees::alphabet::input_ranks;
use trees::refusal::Refusal;

// How many states and marks a form has, and how long its file is.
#[derive(Clone, Copy, Debug, PartialEq, Eq)]
pub struct Form {
    pub states: usize,
    pub marks: usize,
    pub bytes: usize,
}

// Writes the counts of m bodies, two bytes each, the high byte first.
fn fill_counts(starts: &[u16], m: usize, counts: &mut [u8])
    requires { (m < length starts.now) × (2 * m ≤ length counts.old) × ((j : ℕ) → j < m → get_or starts.now j 0 ≤ get_or starts.now (j + 1) 0) }
    ensures { FillsCounts starts.now m counts.new }
{
    for j in 0..m {
        let size = starts[j + 1] - starts[j];
        counts[2 * j] = (size / 256) as u8;
        counts[2 * j + 1] = (size % 256) as u8;
    }
}

// Writes the file of the form with k states whose bodies start in `marks` where `starts` says, and says how long it is.
fn write_form(stock: &[u8], starts: &[u16], marks: &[u8], k: usize, area: &mut [u8]) -> usize
    requires { Writable stock.now starts.now marks.now k area.old }
    ensures { WritesForm stock.now starts.now marks.now k area.old area.new result }
{
    let m = 1 + k * input_ranks(stock).len();
    let mut counts = [0u8; 4098];
    fill_counts(starts, m, &mut counts);
    let end = 2 * usize::from(starts[m]);
    write_transducer(stock, k, &counts[..2 * m], &marks[..end], area).unwrap()
}

// Writes the file of the form that was found, whose bodies start in `marks` where `starts` says; refusal 7 where it is over the limits.
pub fn write_found(
    stock: &[u8],
    found: Option<usize>,
    starts: &[u16],
    marks: &[u8],
    area: &mut [u8],
) -> Result<Form, Refusal>
    requires { FoundWritable stock.now found starts.now marks.now area.old }
    ensures { WritesFound stock.now found starts.now marks.now area.old area.new result }
{
    let states = found.ok_or(Refusal::OverLimits)?;
    let bytes = write_form(stock, starts, marks, states, area);
    let bodies = 1 + states * input_ranks(stock).len();
    Ok(Form {
        states,
        marks: usize::from(starts[bodies]),
        bytes,
    })
}
