// Whether head, records and area are a registry.
ghost use Rattle.std.specs.Prelude.{ℕ, ◌≤◌, ◌<◌, min, ◌≡◌, length};
ghost use Rattle.trees.specs.Refusal.{Decides};
ghost use Rattle.records.specs.Book.{no_record, record_at, tally, too_many, Sound, Chained};
ghost use Rattle.records.specs.Inner.Steps.{Passed};

use crate::book::{Head, Record};
use crate::search::body_of;
use trees::alphabet::alphabets_right;

// Whether each body starts where the one before ends, the first at byte 0, and the last ends at byte `used`.
fn follow(records: &[Record], used: usize) -> bool
    ensures { Decides (Passed records.now (length records.now) used) result }
{
    let mut end = 0;
    for record in records {
        if record.start != end {
            return false;
        }
        if record.size > used - end {
            return false;
        }
        end += record.size;
    }
    end == used
}

// Whether these records are unused.
fn unused(records: &[Record]) -> bool
    ensures { Decides ((i : ℕ) → i < length records.now → record_at records.now i ≡ no_record) result }
{
    records.iter().all(|record| *record == Record::UNUSED)
}

// What the records count together, and 18,446,744,073,709,551,615 for as many and more.
fn counted(records: &[Record]) -> u64
    ensures { result ≡ min (tally records.now (length records.now)) too_many }
{
    let mut sum: u64 = 0;
    for record in records {
        sum = sum.saturating_add(record.count);
    }
    sum
}

// Whether the counts are sound.
fn sound(h: Head, records: &[Record]) -> bool
    requires { 33 ≤ length records.now }
    ensures { Decides (Sound h records.now) result }
{
    if h.answered == u64::MAX {
        return false;
    }
    if records[0].count != 0 {
        return false;
    }
    counted(&records[..33]) == h.answered
}

// Whether the head, the records and the area are a registry.
pub(crate) fn chained(h: Head, records: &[Record], area: &[u8]) -> bool
    ensures { Decides (Chained h records.now area.now) result }
{
    if records.len() < 33 {
        return false;
    }
    if h.held > 32 {
        return false;
    }
    if h.used > area.len() {
        return false;
    }
    if !follow(&records[..h.held + 1], h.used) {
        return false;
    }
    if !unused(&records[h.held + 1..33]) {
        return false;
    }
    if !sound(h, records) {
        return false;
    }
    alphabets_right(body_of(records[0], area))
}
