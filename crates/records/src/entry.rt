// Entry, question and commit: the normal form of a transducer is found or added, or the number is told that it would get.
ghost use Rattle.std.specs.Prelude.{ℕ, ◌≤◌, ◌<◌, List, ◌≡◌, length};
ghost use Rattle.std.proofs.lemmas.List.Edits.{sets};
ghost use Rattle.formats.specs.Sheet.{longest};
ghost use Rattle.records.specs.Answers.{Room, Questions};
ghost use Rattle.records.specs.Book.{answers_of, too_many, counted_head, Chained};
ghost use Rattle.records.specs.Inner.Steps.{Finds, Ready, Numbers, Cleaned, Asks, TakesFile, any_number, this_number, claimed_by, counted_entry, added_entry, Places};
ghost use Rattle.records.specs.declared.book.Record.{Record as Records};

use crate::book::{Entry, Foretold, Head, Record, Submission};
use crate::chain::chained;
use crate::search::body_of;
use canonical::normal::clean;
use formats::file::copy_at;
use trees::refusal::Refusal;

// Cleans the file `sheet` into `file` under the alphabets of the registry, and says how long the clean file is.
pub fn ask(
    h: Head,
    records: &[Record],
    area: &[u8],
    sheet: &[u8],
    file: &mut [u8],
) -> Result<usize, Refusal>
    requires { longest ≤ length file.old }
    ensures { Asks sheet.now h records.now area.now file.new result }
{
    if !chained(h, records, area) {
        return Err(Refusal::BadRegistry);
    }
    let form = clean(body_of(records[0], area), sheet, file)?;
    Ok(form.bytes)
}

// The question: the number that the clean file `bytes` would get, which was found or was not. It changes nothing.
fn number_for(h: Head, found: Option<usize>, area: &[u8], bytes: &[u8]) -> Result<usize, Refusal>
    requires { Ready h (length area.now) }
    ensures { (rs : List Records) → Finds h.held rs area.now bytes.now found → Numbers h rs area.now bytes.now result }
{
    if let Some(number) = found {
        return Ok(number);
    }
    if h.held == 32 {
        return Err(Refusal::FullRegistry);
    }
    if bytes.len() > area.len() - h.used {
        return Err(Refusal::FullRegistry);
    }
    Ok(h.held + 1)
}

// The number where any is claimed or this one; else refusal 13.
fn claimed(n: usize, claim: Option<usize>) -> Result<usize, Refusal>
    ensures { result ≡ claimed_by claim n }
{
    match claim {
        None => Ok(n),
        Some(m) => {
            if n == m {
                return Ok(n);
            }
            Err(Refusal::OtherNumber)
        }
    }
}

// The head with one answer more.
fn count_answer(h: Head) -> Head
    requires { answers_of h < too_many }
    ensures { result ≡ counted_head h }
{
    Head {
        answered: h.answered + 1,
        ..h
    }
}

// These bytes are put behind what is held, and get the next number.
fn append(h: Head, area: &mut [u8], bytes: &[u8]) -> Entry
    requires { Room h area.old bytes.now × (answers_of h < too_many) }
    ensures { (result ≡ added_entry h bytes.now) × (area.new ≡ sets area.old h.used bytes.now) }
{
    copy_at(bytes, area, h.used);
    let size = bytes.len();
    let next = h.held + 1;
    let head = Head {
        held: next,
        used: h.used + size,
        ..h
    };
    Entry {
        head: count_answer(head),
        number: next,
        new: Record {
            start: h.used,
            size,
            count: 1,
        },
    }
}

// The answer n, whose record is r, is counted.
fn count(h: Head, n: usize, r: Record) -> Entry
    requires { (answers_of h < too_many) × (r.count < too_many) }
    ensures { result ≡ counted_entry h n r }
{
    Entry {
        head: count_answer(h),
        number: n,
        new: Record {
            count: r.count + 1,
            ..r
        },
    }
}

// The editor's area takes every clean file; else refusal 1.
pub fn takes_file(out: &[u8]) -> Result<(), Refusal>
    ensures { TakesFile out.now result }
{
    if out.len() < 20483 {
        return Err(Refusal::ShortArea);
    }
    Ok(())
}

// The end of a question, after the search for the clean file `bytes`.
pub fn reply(
    h: Head,
    found: Option<usize>,
    area: &[u8],
    bytes: &[u8],
    out: &mut [u8],
) -> Result<Foretold, Refusal>
    requires { Ready h (length area.now) × (length bytes.now ≤ longest) }
    ensures { (s : List ℕ) (rs : List Records) → Cleaned s h rs area.now bytes.now → Finds h.held rs area.now bytes.now found → Questions s h rs area.now out.old out.new result }
{
    takes_file(out)?;
    let number = number_for(h, found, area, bytes)?;
    copy_at(bytes, out, 0);
    Ok(Foretold {
        number,
        size: bytes.len(),
    })
}

// What an entry says: it may get any number.
pub fn any_number() -> Submission
    ensures { result ≡ any_number }
{
    Submission { claim: None }
}

// What a commit says: it has to get this number.
pub fn this_number(m: usize) -> Submission
    ensures { result ≡ this_number m }
{
    Submission { claim: Some(m) }
}

// The end of an entry or a commit, after the search for the clean file `bytes`: question, claim and commit.
pub fn place(
    h: Head,
    records: &[Record],
    submission: Submission,
    found: Option<usize>,
    area: &mut [u8],
    bytes: &[u8],
) -> Result<Entry, Refusal>
    requires { Chained h records.now area.old × Finds h.held records.now area.old bytes.now found }
    ensures { (s : List ℕ) → Cleaned s h records.now area.old bytes.now → Places s submission h records.now area.old result area.new }
{
    let would = number_for(h, found, area, bytes)?;
    let number = claimed(would, submission.claim)?;
    match found {
        Some(_) => Ok(count(h, number, records[number])),
        None => Ok(append(h, area, bytes)),
    }
}
