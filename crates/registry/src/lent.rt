// The registry as lent: the head behind a reference, the records as a slice of structs. Thin functions find and add a record.
ghost use Rattle.std.specs.Prelude.{◌+◌, ◌≤◌, ◌<◌, ◌∷◌, ◌++◌, ◌≡◌, length, drop, set, replicate};
ghost use Rattle.records.specs.Answers.{Makes, Registers, Questions, HandsBody};
ghost use Rattle.records.specs.Book.{no_record, stock_record};
ghost use Rattle.records.specs.Inner.Steps.{Placed, Finds};

use records::book::{Foretold, Head, Record, Submission};
use records::entry::{ask, place, reply, takes_file};
use records::making::{held_body, start};
use records::search::body_of;
use trees::refusal::Refusal;

// The lowest number, from 1 on, whose body is these bytes.
pub(crate) fn find(records: &[Record], held: usize, area: &[u8], bytes: &[u8]) -> Option<usize>
    requires { Placed held records.now area.now }
    ensures { Finds held records.now area.now bytes.now result }
{
    for number in 1..held + 1 {
        if body_of(records[number], area) == bytes {
            return Some(number);
        }
    }
    None
}

// Writes the record with number n.
fn add(records: &mut [Record], n: usize, r: Record)
    requires { n < length records.old }
    ensures { records.new ≡ set records.old n r }
{
    records[n] = r;
}

// Makes the first 33 records those of a registry that holds nothing but alphabets of this size.
fn renew(records: &mut [Record], size: usize)
    requires { 33 ≤ length records.old }
    ensures { records.new ≡ stock_record size ∷ (replicate 32 no_record ++ drop 33 records.old) }
{
    records[..33].fill(Record::UNUSED);
    records[0].size = size;
}

// An entry or a commit, as the submission says, of the transducer of the file `sheet`: its normal form is found or added. A commit is refused where that would get another number.
pub fn enter(
    head: &mut Head,
    records: &mut [Record],
    area: &mut [u8],
    sheet: &[u8],
    submission: Submission,
) -> Result<usize, Refusal>
    ensures { Registers sheet.now submission head.old records.old area.old head.new records.new area.new result }
{
    let h = *head;
    let mut file = [0u8; 20483];
    let size = ask(h, records, area, sheet, &mut file)?;
    let bytes = &file[..size];
    let found = find(records, h.held, area, bytes);
    let entry = place(h, records, submission, found, area, bytes)?;
    *head = entry.head;
    add(records, entry.number, entry.new);
    Ok(entry.number)
}

// A question: the number that an entry of the file `sheet` would get, with its clean file at the start of `out`. It is cleaned into a file of its own, since it can be refused after that.
pub fn question<'r, 'a, 's, 'o>(
    head: Head,
    records: &'r [Record],
    area: &'a [u8],
    sheet: &'s [u8],
    out: &'o mut [u8],
) -> Result<Foretold, Refusal>
    ensures { Questions sheet.now head records.now area.now out.old out.new result }
{
    takes_file(out)?;
    let mut file = [0u8; 20483];
    let size = ask(head, records, area, sheet, &mut file)?;
    let bytes = &file[..size];
    let found = find(records, head.held, area, bytes);
    reply(head, found, area, bytes, out)
}

// Makes a registry with the alphabets `stock`.
pub fn make(
    head: &mut Head,
    records: &mut [Record],
    area: &mut [u8],
    stock: &[u8],
) -> Result<(), Refusal>
    ensures { Makes stock.now head.old records.old area.old head.new records.new area.new result }
{
    *head = start(records.len(), area, stock)?;
    renew(records, stock.len());
    Ok(())
}

// The body with this number, as a part of the area; an empty part for 0, for a number that is not held, and on a refusal.
pub fn body<'r, 'a>(head: Head, records: &'r [Record], area: &'a [u8], number: usize) -> &'a [u8]
    ensures { HandsBody head records.now area.now number result.now }
{
    held_body(head, records, area, number)
}
