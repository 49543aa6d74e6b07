// Making a registry, and a body by its number.
ghost use Rattle.std.specs.Prelude.{length};
ghost use Rattle.records.specs.Answers.{HandsBody};
ghost use Rattle.records.specs.Inner.Steps.{Starts};

use crate::book::{Head, Record};
use crate::chain::chained;
use crate::search::body_of;
use formats::file::copy_at;
use trees::alphabet::alphabets_right;
use trees::refusal::Refusal;

// Begins a registry of n records with the alphabets `stock`: its head.
pub fn start(n: usize, area: &mut [u8], stock: &[u8]) -> Result<Head, Refusal>
    ensures { Starts stock.now n area.old area.new result }
{
    if n < 33 {
        return Err(Refusal::BadRegistry);
    }
    if !alphabets_right(stock) {
        return Err(Refusal::BadAlphabets);
    }
    let size = stock.len();
    if size > area.len() {
        return Err(Refusal::FullRegistry);
    }
    copy_at(stock, area, 0);
    Ok(Head {
        held: 0,
        used: size,
        answered: 0,
    })
}

// The body with this number, as a part of the area.
pub fn held_body<'r, 'a>(h: Head, records: &'r [Record], area: &'a [u8], number: usize) -> &'a [u8]
    ensures { HandsBody h records.now area.now number result.now }
{
    if !chained(h, records, area) {
        return &area[..0];
    }
    if number == 0 {
        return &area[..0];
    }
    if number > h.held {
        return &area[..0];
    }
    body_of(records[number], area)
}
