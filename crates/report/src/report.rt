// What the program `sheets` prints.
ghost use Rattle.std.specs.Prelude.{◌+◌, ◌≤◌, length};
ghost use Rattle.trees.specs.Refusal.{Holds};
ghost use Rattle.comparison.specs.Answers.{pair_check};
ghost use Rattle.report.specs.Answers.{Reports};
ghost use Rattle.report.specs.Inner.Writing.{clean_check, WroteNormal, WroteBoth};

use crate::text::{write_alike, write_differ, write_refused, write_sizes};
use canonical::normal::clean;
use comparison::compare::compare;
use trees::refusal::Refusal;

// Writes the line of the normal form of the transducer of the file `sheet`, behind a word.
fn write_normal(stock: &[u8], sheet: &[u8], text: &mut [u8], at: usize, word: &[u8]) -> usize
    requires { Holds (clean_check stock.now sheet.now) × (at + length word.now + 9 ≤ length text.old) }
    ensures { WroteNormal stock.now sheet.now word.now text.old text.new at result }
{
    // Stays: an array of fixed size, since nothing is allocated (docs/AREAS.md).
    let mut normal = [0u8; 20483];
    let form = clean(stock, sheet, &mut normal).unwrap();
    write_sizes(text, at, word, form.states, form.marks)
}

// Writes the lines of both normal forms.
fn write_both(stock: &[u8], first: &[u8], second: &[u8], text: &mut [u8]) -> usize
    requires { Holds (pair_check stock.now first.now second.now) × (31 ≤ length text.old) }
    ensures { WroteBoth stock.now first.now second.now text.old text.new result }
{
    let at = write_normal(stock, first, text, 0, b"first ");
    write_normal(stock, second, text, at, b"second ")
}

// Writes the lines for two files to the start of the area: the states and marks of each normal form, and whether the two transducers are equivalent; or that one was refused.
pub fn report(stock: &[u8], first: &[u8], second: &[u8], area: &mut [u8]) -> Result<usize, Refusal>
    ensures { Reports stock.now first.now second.now area.old area.new result }
{
    if area.len() < 36911 {
        return Err(Refusal::ShortArea);
    }
    // Stays: arrays of fixed size, since nothing is allocated (docs/AREAS.md).
    let mut tree = [0u8; 1536];
    let mut address = [0u8; 16128];
    match compare(stock, first, second, &mut tree, &mut address) {
        Ok(None) => {
            let at = write_both(stock, first, second, area);
            Ok(write_alike(area, at))
        }
        Ok(Some(shown)) => {
            let at = write_both(stock, first, second, area);
            Ok(write_differ(
                area,
                at,
                &tree[..shown.nodes],
                &address[..shown.numbers],
                shown.left,
                shown.right,
            ))
        }
        Err(refusal) => Ok(write_refused(area, refusal)),
    }
}
