// The registry (01: book) for Rust and C: the head behind a reference, the records as a run of structs. Thin functions over
// those of `registry`, which answer by a `Result`; here the answer is a number, as in the other exported functions.
ghost use Rattle.std.specs.Prelude.{◌≡◌};
ghost use Rattle.records.specs.Book.{record_at};
ghost use Rattle.exports.specs.Registered.{TellsReply, start_of, ExportsMaking, ExportsEntry, ExportsQuestion, ExportsCommit, ExportsBody};

use crate::answer::{tell_done, tell_number};
use records::book::{Foretold, Head, Record};
use records::entry::{any_number, this_number};
use registry::lent::{body, enter, make, question};
use trees::refusal::Refusal;

// The number of an answer to a question; the number that an entry would get and the length of the clean file are left behind
// the references.
fn tell_reply(answer: Result<Foretold, Refusal>, number: &mut usize, size: &mut usize) -> u32
    ensures { TellsReply answer (number.old, size.old) (number.new, size.new) result }
{
    match answer {
        Ok(foretold) => {
            *number = foretold.number;
            *size = foretold.size;
            0
        }
        Err(refusal) => u32::from(refusal),
    }
}

// The length of a part that a record tells; where the part starts is left behind the reference, 0 for an empty one.
fn tell_body(r: Record, size: usize, start: &mut usize) -> usize
    ensures { (result ≡ size) × (start.new ≡ start_of r size) }
{
    *start = if size == 0 { 0 } else { r.start };
    size
}

// The record with this number, or an unused one where there are fewer.
fn record_at(records: &[Record], i: usize) -> Record
    ensures { result ≡ record_at records.now i }
{
    records.get(i).copied().unwrap_or(Record::UNUSED)
}

// Makes a registry with the alphabets `stock`.
#[unsafe(no_mangle)]
pub extern "C" fn caplune_make_registry(
    head: &mut Head,
    records: &mut [Record],
    area: &mut [u8],
    stock: &[u8],
) -> u32
    ensures { ExportsMaking stock.now head.old records.old area.old head.new records.new area.new result }
{
    let answer = make(head, records, area, stock);
    tell_done(answer)
}

// Enters the transducer of a file: its normal form is found or added, and gets this number.
#[unsafe(no_mangle)]
pub extern "C" fn caplune_enter(
    head: &mut Head,
    records: &mut [Record],
    area: &mut [u8],
    file: &[u8],
    number: &mut usize,
) -> u32
    ensures { ExportsEntry file.now head.old records.old area.old head.new records.new area.new number.old number.new result }
{
    let entry = any_number();
    let answer = enter(head, records, area, file, entry);
    tell_number(answer, number)
}

// A question: the number that an entry of the transducer of a file would get, and how long its clean file is, which is
// written to the start of `out`. The registry stays as it is.
#[unsafe(no_mangle)]
pub extern "C" fn caplune_question(
    head: &Head,
    records: &[Record],
    area: &[u8],
    file: &[u8],
    out: &mut [u8],
    number: &mut usize,
    size: &mut usize,
) -> u32
    ensures { ExportsQuestion file.now head.now records.now area.now out.old out.new (number.old, size.old) (number.new, size.new) result }
{
    let answer = question(*head, records, area, file, out);
    tell_reply(answer, number, size)
}

// A commit of the transducer of a file with the number that a question answered; refused by 13 where an entry would get
// another.
#[unsafe(no_mangle)]
pub extern "C" fn caplune_commit(
    head: &mut Head,
    records: &mut [Record],
    area: &mut [u8],
    file: &[u8],
    claim: usize,
    number: &mut usize,
) -> u32
    ensures { ExportsCommit file.now claim head.old records.old area.old head.new records.new area.new number.old number.new result }
{
    let commit = this_number(claim);
    let answer = enter(head, records, area, file, commit);
    tell_number(answer, number)
}

// The body with this number: its length, and where it starts in the area; 0 and 0 for an empty part, which is that of 0, of a
// number that is not held, and of what is no registry.
#[unsafe(no_mangle)]
pub extern "C" fn caplune_body(
    head: &Head,
    records: &[Record],
    area: &[u8],
    number: usize,
    start: &mut usize,
) -> usize
    ensures { ExportsBody head.now records.now area.now number start.new result }
{
    let part = body(*head, records, area, number);
    let r = record_at(records, number);
    tell_body(r, part.len(), start)
}
