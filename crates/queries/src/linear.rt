// Whether a transducer is linear (01: a single sheet; 02: by the lines that can be met).
ghost use Rattle.std.specs.Prelude.{◌+◌, ◌*◌, ◌≤◌, ◌≡◌, length, get_or};
ghost use Rattle.formats.specs.Inner.Marked.{part};
ghost use Rattle.discovery.specs.Inner.Queue.{Queue as Queued, met_of};
ghost use Rattle.discovery.specs.Inner.Bodies.{counted};
ghost use Rattle.queries.specs.Answers.{TestsLinear};
ghost use Rattle.queries.specs.Inner.Uses.{Once, Low, LowBodies};
ghost use Rattle.queries.specs.Inner.Reading.{ReadMarks, ReadBodies, NotOnce, Reads, ReadsTable};

use discovery::queue::Queue;
use formats::bodies::fill_starts;
use formats::file::{counts_end, read_transducer};
use trees::alphabet::input_ranks;
use trees::refusal::Refusal;

// Reads the marks number `from` up to `to`: enters the states that they call, unless they call a child twice.
fn read_marks(marks: &[u8], from: usize, to: usize, queue: &mut Queue<128>) -> Option<()>
    requires { Queued queue.old.list queue.old.place queue.old.met × (length queue.old.place ≡ 128) × (2 * to ≤ length marks.now) × Low 128 (part marks.now from to) }
    ensures { Reads (Once (part marks.now from to) → ⊥) (ReadMarks (part marks.now from to) (met_of queue.old.list queue.old.met)) queue.new.list queue.new.place (counted result queue.new.met) }
{
    let mut seen = [false; 5];
    for j in from..to {
        let i = usize::from(marks[2 * j]);
        if i > 0 {
            if seen[i] {
                return None;
            }
            seen[i] = true;
            queue.enter(usize::from(marks[2 * j + 1]));
        }
    }
    Some(())
}

// Reads k bodies from number b on.
fn read_bodies(
    b: usize,
    k: usize,
    starts: &[u16],
    marks: &[u8],
    queue: &mut Queue<128>,
) -> Option<()>
    requires { Queued queue.old.list queue.old.place queue.old.met × (length queue.old.place ≡ 128) × LowBodies (b + k) 128 starts.now marks.now }
    ensures { Reads (NotOnce (λ j. get_or starts.now j 0) marks.now b k) (ReadBodies (λ j. get_or starts.now j 0) marks.now b (met_of queue.old.list queue.old.met) k) queue.new.list queue.new.place (counted result queue.new.met) }
{
    for j in 0..k {
        let from = usize::from(starts[b + j]);
        let to = usize::from(starts[b + j + 1]);
        read_marks(marks, from, to, queue)?;
    }
    Some(())
}

// Reads the initial term, and the right-hand sides of every one of n states that is met, and says whether none of them calls a child twice.
fn read_reached(n: usize, inputs: usize, starts: &[u16], marks: &[u8]) -> bool
    requires { LowBodies (1 + n * inputs) n starts.now marks.now }
    ensures { ReadsTable inputs (λ j. get_or starts.now j 0) marks.now result }
{
    let mut queue: Queue<128> = Queue::new();
    let Some(_) = read_bodies(0, 1, starts, marks, &mut queue) else {
        return false;
    };
    let mut p = 0;
    // The queue grows while its states are read.
    while p < queue.met {
        let q = usize::from(queue.list[p]);
        let Some(_) = read_bodies(1 + q * inputs, inputs, starts, marks, &mut queue) else {
            return false;
        };
        p += 1;
    }
    true
}

// Tests the transducer of the file, as it is read: the initial term and the right-hand sides of the states that are reached from it count.
pub fn is_linear(stock: &[u8], sheet: &[u8]) -> Result<bool, Refusal>
    ensures { TestsLinear stock.now sheet.now result }
{
    let n = read_transducer(stock, sheet)?;
    let from = counts_end(stock, n);
    let inputs = input_ranks(stock).len();
    let mut starts = [0u16; 2050];
    fill_starts(&sheet[1..from], 1 + n * inputs, &mut starts);
    Ok(read_reached(n, inputs, &starts, &sheet[from..]))
}
