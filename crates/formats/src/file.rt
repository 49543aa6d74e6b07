// The file of a transducer (01: sheet): reading and writing N, the counts and the marks.
ghost use Rattle.std.specs.Prelude.{◌≡◌, ◌+◌, ◌*◌, ◌≤◌, length};
ghost use Rattle.std.proofs.lemmas.List.Edits.{sets};
ghost use Rattle.trees.specs.Alphabets.{Alphabets, inputs};
ghost use Rattle.formats.specs.Answers.{ReadsFile, HandsCounts, HandsMarks, WritesFile};
ghost use Rattle.formats.specs.Inner.Layout.{body_count};
ghost use Rattle.formats.specs.Inner.Judging.{JudgesParts, JudgesFile, Put};
ghost use Rattle.formats.specs.Inner.Written.{Wrote};
ghost use Rattle.formats.specs.Sheet.{file};

use crate::bodies::{bodies_whole, counts_right, fill_starts};
use trees::alphabet::{alphabets_right, input_ranks, output_ranks};
use trees::refusal::Refusal;

// Where the counts end in a file with n states.
pub fn counts_end(stock: &[u8], n: usize) -> usize
    requires { Alphabets stock.now × (n ≤ 255) }
    ensures { result ≡ 1 + 2 * body_count (inputs stock.now) n }
{
    let ins = input_ranks(stock);
    3 + 2 * (n * ins.len())
}

// Whether N, the counts and the marks are those of a transducer; else the refusal, 4 before 5.
pub(crate) fn judge_parts(
    stock: &[u8],
    n: usize,
    counts: &[u8],
    marks: &[u8],
) -> Result<usize, Refusal>
    requires { Alphabets stock.now }
    ensures { JudgesParts stock.now n counts.now marks.now result }
{
    let ins = input_ranks(stock);
    if n > 128 {
        return Err(Refusal::BadContents);
    }
    let bodies = 1 + n * ins.len();
    if counts.len() != 2 * bodies || !counts_right(counts, bodies, marks) {
        return Err(Refusal::BadContents);
    }
    // Stays: an array of fixed size, since nothing is allocated (docs/AREAS.md).
    let mut starts = [0u16; 2050];
    fill_starts(counts, bodies, &mut starts);
    if !bodies_whole(ins, output_ranks(stock), n, &starts, marks) {
        return Err(Refusal::BadBody);
    }
    Ok(n)
}

// The same of a file.
fn judge_file(stock: &[u8], sheet: &[u8]) -> Result<usize, Refusal>
    requires { Alphabets stock.now }
    ensures { JudgesFile stock.now sheet.now result }
{
    let first = sheet.first().ok_or(Refusal::BadContents)?;
    let n = usize::from(*first);
    let from = counts_end(stock, n);
    let marks = sheet.get(from..).ok_or(Refusal::BadContents)?;
    judge_parts(stock, n, &sheet[1..from], marks)
}

// Reads the file of a transducer.
pub fn read_transducer(stock: &[u8], sheet: &[u8]) -> Result<usize, Refusal>
    ensures { ReadsFile stock.now sheet.now result }
{
    if !alphabets_right(stock) {
        return Err(Refusal::BadAlphabets);
    }
    judge_file(stock, sheet)
}

// The counts of an accepted file, as a part of it; an empty part of a refused one.
pub fn transducer_counts<'a>(stock: &[u8], sheet: &'a [u8]) -> &'a [u8]
    ensures { HandsCounts stock.now sheet.now result.now }
{
    match read_transducer(stock, sheet) {
        Ok(n) => &sheet[1..counts_end(stock, n)],
        Err(_) => &[],
    }
}

// The marks of an accepted file, as a part of it; an empty part of a refused one.
pub fn transducer_marks<'a>(stock: &[u8], sheet: &'a [u8]) -> &'a [u8]
    ensures { HandsMarks stock.now sheet.now result.now }
{
    match read_transducer(stock, sheet) {
        Ok(n) => &sheet[counts_end(stock, n)..],
        Err(_) => &[],
    }
}

// Copies `from` into `area`, from `at` on.
// Stays: a loop, since std's copy of a slice is C's `memmove`, which callers in C need not have (include/caplune.h).
pub fn copy_at(from: &[u8], area: &mut [u8], at: usize)
    requires { at + length from.now ≤ length area.old }
    ensures { area.new ≡ sets area.old at from.now }
{
    for (j, x) in from.iter().enumerate() {
        area[at + j] = *x;
    }
}

// Writes a word as it stands to `text`, from `at` on, and says which position is behind it.
pub fn write_word(text: &mut [u8], at: usize, word: &[u8]) -> usize
    requires { at + length word.now ≤ length text.old }
    ensures { Wrote text.old text.new at result word.now }
{
    copy_at(word, text, at);
    at + word.len()
}

// Writes N, the counts and the marks, and says how many bytes that are.
fn put_file(n: usize, counts: &[u8], marks: &[u8], area: &mut [u8]) -> usize
    requires { (n ≤ 255) × (1 + length counts.now + length marks.now ≤ length area.old) }
    ensures { Put (file n counts.now marks.now) area.old area.new result }
{
    area[0] = n as u8;
    copy_at(counts, area, 1);
    let at = 1 + counts.len();
    copy_at(marks, area, at);
    at + marks.len()
}

// Writes the file of a transducer.
pub fn write_transducer(
    stock: &[u8],
    n: usize,
    counts: &[u8],
    marks: &[u8],
    area: &mut [u8],
) -> Result<usize, Refusal>
    ensures { WritesFile stock.now n counts.now marks.now area.old area.new result }
{
    if area.len() < 20483 {
        return Err(Refusal::ShortArea);
    }
    if !alphabets_right(stock) {
        return Err(Refusal::BadAlphabets);
    }
    let states = judge_parts(stock, n, counts, marks)?;
    Ok(put_file(states, counts, marks, area))
}
