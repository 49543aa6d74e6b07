// The counts and the bodies of a transducer's file: whether they are right, and where each body starts.
ghost use Rattle.std.specs.Prelude.{◌≡◌, ◌+◌, ◌*◌, ◌≤◌, ◌<◌, length, get_or};
ghost use Rattle.trees.specs.Inner.Decode.{forest, Whole};
ghost use Rattle.formats.specs.Inner.Layout.{count_at, offset, mark_of, Summed, Starts, KeptBehind, InBounds, Short, Wholes};
ghost use Rattle.trees.specs.Inner.Measured.{measured, MeasuredWhole};
ghost use Rattle.formats.specs.Inner.Marked.{part};
ghost use Rattle.trees.specs.Refusal.{Decides};

use trees::levels::most_levels;
use trees::tree::Extent;

// The count of body number `j`: two bytes, the high one first.
fn count(counts: &[u8], j: usize) -> usize
    requires { 2 * j + 1 < length counts.now }
    ensures { result ≡ count_at counts.now j }
{
    256 * usize::from(counts[2 * j]) + usize::from(counts[2 * j + 1])
}

// Whether the counts of `bodies` bodies are right, and the marks as many as they say.
pub(crate) fn counts_right(counts: &[u8], bodies: usize, marks: &[u8]) -> bool
    requires { length counts.now ≡ 2 * bodies }
    ensures { Decides (Summed counts.now marks.now bodies) result }
{
    let mut sum = 0;
    for j in 0..bodies {
        let c = count(counts, j);
        if c == 0 || c > 64 {
            return false;
        }
        sum += c;
        if sum > 8192 {
            return false;
        }
    }
    marks.len() == 2 * sum
}

// Notes where each body starts, counted in marks; and where the last one ends.
pub fn fill_starts(counts: &[u8], bodies: usize, starts: &mut [u16])
    requires { (2 * bodies ≤ length counts.now) × (bodies < length starts.old) × (offset counts.now bodies < 65536) }
    ensures starts { Starts counts.now starts.new bodies }
    ensures kept_behind { KeptBehind starts.old starts.new bodies }
{
    let mut sum = 0;
    starts[0] = 0;
    for j in 0..bodies {
        sum += count(counts, j);
        starts[j + 1] = sum as u16;
    }
}

// Measures the tree of marks that begins with mark number `at`, in a body that ends at `to`, of at most
// `room` levels: where it ends and how many levels it has. There are `n` states, and calls on `r`
// children; a call has no level.
pub fn measure_marks(
    outs: &[u8],
    n: usize,
    r: usize,
    marks: &[u8],
    at: usize,
    to: usize,
    room: usize,
) -> Option<Extent>
    requires { 2 * to ≤ length marks.now }
    ensures { result ≡ measured room at (forest (mark_of outs.now n r) (part marks.now at to)) }
{
    if at >= to {
        return None;
    }
    let i = usize::from(marks[2 * at]);
    let x = usize::from(marks[2 * at + 1]);
    if i > 0 {
        if i > r || x >= n {
            return None;
        }
        return Some(Extent {
            end: at + 1,
            levels: 0,
        });
    }
    if room == 0 || x >= outs.len() {
        return None;
    }
    let mut end = at + 1;
    let mut levels = 0;
    for _ in 0..outs[x] {
        let child = measure_marks(outs, n, r, marks, end, to, room - 1)?;
        end = child.end;
        levels = levels.max(child.levels);
    }
    Some(Extent {
        end,
        levels: levels + 1,
    })
}

// Measures the marks number `from` up to `to` as one tree: where it ends and how many levels it has.
// From the last mark back, each symbol takes its children from the trees behind it, whose levels the
// table has; a call has none.
fn measure_body(
    outs: &[u8],
    n: usize,
    r: usize,
    marks: &[u8],
    from: usize,
    to: usize,
) -> Option<Extent>
    requires { (from ≤ to) × (to ≤ from + 64) × (2 * to ≤ length marks.now) }
    ensures { MeasuredWhole (mark_of outs.now n r) (part marks.now from to) from result }
{
    // Stays: an array of fixed size, since nothing is allocated (docs/AREAS.md).
    let mut levels = [0u16; 64];
    let mut behind = 0;
    for j in (from..to).rev() {
        let i = usize::from(marks[2 * j]);
        let x = usize::from(marks[2 * j + 1]);
        if i > 0 {
            if i > r || x >= n {
                return None;
            }
            levels[behind] = 0;
        } else {
            if x >= outs.len() {
                return None;
            }
            let m = usize::from(outs[x]);
            if m > behind {
                return None;
            }
            let deep = most_levels(&levels, behind, m);
            behind -= m;
            levels[behind] = (deep + 1) as u16;
        }
        behind += 1;
    }
    if behind != 1 {
        return None;
    }
    Some(Extent {
        end: to,
        levels: usize::from(levels[0]),
    })
}

// Whether the marks number `from` up to `to` are one tree.
fn one_body(outs: &[u8], n: usize, r: usize, marks: &[u8], from: usize, to: usize) -> bool
    requires { (from ≤ to) × (to ≤ from + 64) × (2 * to ≤ length marks.now) }
    ensures { Decides (Whole (mark_of outs.now n r) (part marks.now from to)) result }
{
    measure_body(outs, n, r, marks, from, to).is_some()
}

// Whether every body is one tree of known marks.
pub(crate) fn bodies_whole(ins: &[u8], outs: &[u8], n: usize, starts: &[u16], marks: &[u8]) -> bool
    requires { InBounds ins.now n starts.now marks.now × Short ins.now n starts.now }
    ensures { Decides (Wholes ins.now outs.now n (λ j. get_or starts.now j 0) marks.now) result }
{
    if !one_body(
        outs,
        n,
        1,
        marks,
        usize::from(starts[0]),
        usize::from(starts[1]),
    ) {
        return false;
    }
    for q in 0..n {
        for (a, rank) in ins.iter().enumerate() {
            let b = 1 + q * ins.len() + a;
            let from = usize::from(starts[b]);
            let to = usize::from(starts[b + 1]);
            if !one_body(outs, n, usize::from(*rank), marks, from, to) {
                return false;
            }
        }
    }
    true
}
