// An input tree on which a state's output has a root symbol other than b: the distances of the states, and the steps along which they decrease.
ghost use Rattle.std.specs.Prelude.{◌+◌, ◌*◌, ◌≤◌, ◌<◌, ◌≡◌, length};
ghost use Rattle.witness.specs.Inner.Other.{step_distance, IsDistance, DistanceTableAt, FindsDistance, Settable, SetsDistance, Sweepable, SweepsDistances, Fillable, FillsDistances, Steppable, FindsStep, PutsStep, PathAsked, DecreasingPath};

use pairs::pairs::Tables;

// How far the right-hand side of q for a is from a root symbol other than b: 1 if it has one, one more than the state called if it is a call alone.
fn step_distance(
    ins: &[u8],
    form: Tables,
    dist: &[u8],
    q: usize,
    a: usize,
    b: usize,
) -> Option<usize>
    requires { DistanceTableAt ins.now form.starts.now form.marks.now dist.now q × (a < length ins.now) }
    ensures { IsDistance (step_distance ins.now form.entry.starts.now form.entry.marks.now dist.now b q a) result }
{
    let at = 2 * usize::from(form.starts[1 + q * ins.len() + a]);
    let x = usize::from(form.marks[at + 1]);
    if form.marks[at] == 0 {
        if x == b {
            return None;
        }
        return Some(1);
    }
    // Stays: 0 for none in the table, a fixed array with one byte for a state.
    let d = usize::from(dist[x]);
    if d == 0 {
        return None;
    }
    Some(d + 1)
}

// The distance of the first right-hand side of q that has one.
fn find_distance(ins: &[u8], form: Tables, dist: &[u8], q: usize, b: usize) -> Option<usize>
    requires { DistanceTableAt ins.now form.starts.now form.marks.now dist.now q }
    ensures { FindsDistance ins.now form.entry.starts.now form.entry.marks.now dist.now q b result }
{
    for a in 0..ins.len() {
        if let Some(d) = step_distance(ins, form, dist, q, a, b) {
            return Some(d);
        }
    }
    None
}

// Gives state q its distance, if it has none and one of its right-hand sides has one; says whether it did.
fn set_distance(ins: &[u8], form: Tables, dist: &mut [u8], q: usize, b: usize) -> bool
    requires { Settable ins.now form.starts.now form.marks.now dist.old q b }
    ensures { SetsDistance ins.now form.entry.starts.now form.entry.marks.now dist.old q b dist.new result }
{
    if dist[q] > 0 {
        return false;
    }
    match find_distance(ins, form, dist, q, b) {
        Some(d) => {
            dist[q] = d as u8;
            true
        }
        None => false,
    }
}

// Does so for each state, and says whether any got a distance.
fn sweep_distances(ins: &[u8], form: Tables, b: usize, dist: &mut [u8]) -> bool
    requires { Sweepable ins.now form.starts.now form.marks.now form.states b dist.old }
    ensures { SweepsDistances ins.now form.entry.starts.now form.entry.marks.now form.entry.states b dist.old dist.new result }
{
    let mut any = false;
    for q in 0..form.states {
        if set_distance(ins, form, dist, q, b) {
            any = true;
        }
    }
    any
}

// The distances of all states, from zeros: sweeps over the states until one finds nothing.
pub(crate) fn fill_distances(ins: &[u8], form: Tables, b: usize, dist: &mut [u8])
    requires { Fillable ins.now form.starts.now form.marks.now form.states dist.old }
    ensures { FillsDistances ins.now form.entry.starts.now form.entry.marks.now form.entry.states b dist.new }
{
    let mut more = true;
    // Stays `while`: until a sweep finds nothing.
    while more {
        more = sweep_distances(ins, form, b, dist);
    }
}

// The first symbol for which the right-hand side of q is as far as q.
fn find_step(ins: &[u8], form: Tables, dist: &[u8], q: usize, b: usize) -> usize
    requires { Steppable ins.now form.starts.now form.marks.now dist.now q b }
    ensures { FindsStep ins.now form.entry.starts.now form.entry.marks.now dist.now q b result }
{
    let d = Some(usize::from(dist[q]));
    let mut a = 0;
    // Stays `while`: one symbol is as far, so no end is tested.
    while step_distance(ins, form, dist, q, a, b) != d {
        a += 1;
    }
    a
}

// Writes the step from q, the symbol and the child called, 0 if there is none, as step k; answers the state called, or the root symbol if there is none.
fn put_step(
    ins: &[u8],
    form: Tables,
    dist: &[u8],
    q: usize,
    b: usize,
    steps: &mut [u8],
    k: usize,
) -> usize
    requires { Steppable ins.now form.starts.now form.marks.now dist.now q b × (2 * k + 1 < length steps.old) }
    ensures { PutsStep ins.now form.entry.starts.now form.entry.marks.now dist.now q b steps.old k steps.new result }
{
    let a = find_step(ins, form, dist, q, b);
    let at = 2 * usize::from(form.starts[1 + q * ins.len() + a]);
    steps[2 * k] = a as u8;
    steps[2 * k + 1] = form.marks[at];
    usize::from(form.marks[at + 1])
}

// How many steps a path has, and the root symbol at its end.
#[derive(Clone, Copy, Debug, PartialEq, Eq)]
pub struct PathEnd {
    pub count: usize,
    pub symbol: usize,
}

// The steps from q along which the distances decrease, two bytes each: a symbol, and the child that the next step goes on with, 0 at the last.
pub(crate) fn write_path(
    ins: &[u8],
    form: Tables,
    dist: &[u8],
    q: usize,
    b: usize,
    steps: &mut [u8],
) -> PathEnd
    requires { PathAsked ins.now form.starts.now form.marks.now dist.now q b steps.old }
    ensures { DecreasingPath ins.now form.entry.starts.now form.entry.marks.now dist.now q b steps.new result.count result.symbol }
{
    let count = usize::from(dist[q]);
    let last = count - 1;
    let mut p = q;
    for k in 0..last {
        p = put_step(ins, form, dist, p, b, steps, k);
    }
    let symbol = put_step(ins, form, dist, p, b, steps, last);
    PathEnd { count, symbol }
}
