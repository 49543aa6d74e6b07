// A shown difference, from a clash of two bodies: the input tree, the address and the two symbols there.
ghost use Rattle.std.specs.Prelude.{◌+◌, ◌-◌, ◌≤◌, ◌<◌, ◌*◌, ◌≡◌, length, get_or};
ghost use Rattle.forms.specs.Inner.Tables.{machine};
ghost use Rattle.witness.specs.Inner.Bottoms.{Bodied, PathFromAsked, PathFromFound, RootOnLeafAsked, RootOnLeaf, BottomAsked, BottomFound, Upable, Upped, RootAsked, RootFound, Leading, Roomy, StepsBack, TracesBack, Tracing, Traces};
ghost use Rattle.pairs.specs.Inner.Pairs.{sides, pair_state, body_of, Clashes};
ghost use Rattle.witness.specs.Inner.Forms.{Comparable, Shows};

use crate::other::{PathEnd, fill_distances, write_path};
use crate::shown::{add_step, write_address, write_steps};
use formats::file::copy_at;
use forms::leaf::leaf_symbol;
use pairs::pairs::{Clash, Pair, Side, Tables};
use trees::bytes::Span;

// A mark: the child that it calls and the state, or 0 and a symbol.
#[derive(Clone, Copy, Debug, PartialEq, Eq)]
struct Mark {
    child: usize,
    name: usize,
}

// Below a clash: the child that matters, 0 if none does, the number of steps of its tree, and the root symbols of the two outputs.
// Stays: 0 for no child, as in the two bytes of a step.
#[derive(Clone, Copy, Debug, PartialEq, Eq)]
pub struct Bottom {
    pub child: usize,
    pub count: usize,
    pub left: usize,
    pub right: usize,
}

// Where the tree of a clash stands in its buffer, and the root symbols of the two outputs.
#[derive(Drop)]
pub struct Rooted {
    pub span: Span,
    pub left: usize,
    pub right: usize,
}

// Where the tree stands in its buffer, and where the address begins.
#[derive(Drop)]
pub struct Placed {
    pub span: Span,
    pub at: usize,
}

// The same, and the two symbols at the address.
#[derive(Drop)]
pub struct Traced {
    pub span: Span,
    pub at: usize,
    pub left: usize,
    pub right: usize,
}

// How many nodes and numbers the tree and the address have, and the two symbols.
#[derive(Clone, Copy, Debug, PartialEq, Eq)]
pub struct Shown {
    pub nodes: usize,
    pub numbers: usize,
    pub left: usize,
    pub right: usize,
}

// The number of the body of parent q for symbol a, on one side.
fn body_of(ins: &[u8], pairs: &[Pair; 256], q: usize, a: usize, side: Side) -> usize
    requires { Bodied ins.now q a (pair_state pairs.now side (q - 1)) }
    ensures { result ≡ body_of ins.now pairs.now side q a }
{
    if q == 0 {
        return 0;
    }
    let x = usize::from(pairs[q - 1].state(side));
    1 + x * ins.len() + a
}

// The steps from state q down to a root symbol other than b.
fn path_from(ins: &[u8], form: Tables, q: usize, b: usize, steps: &mut [u8]) -> PathEnd
    requires { PathFromAsked ins.now form.starts.now form.marks.now form.states q steps.old }
    ensures { PathFromFound ins.now form.entry.starts.now form.entry.marks.now q b steps.new result.count result.symbol }
{
    let mut dist = [0u8; 128];
    fill_distances(ins, form, b, &mut dist);
    write_path(ins, form, &dist, q, b, steps)
}

// Mark number j.
fn mark_of(marks: &[u8], j: usize) -> Mark
    requires { 2 * j + 2 ≤ length marks.now }
    ensures { (result.child ≡ get_or marks.now (2 * j) 0) × (result.name ≡ get_or marks.now (2 * j + 1) 0) }
{
    Mark {
        child: usize::from(marks[2 * j]),
        name: usize::from(marks[2 * j + 1]),
    }
}

// The root symbol of a mark, a call reading the leaf e.
fn root_on_leaf(ins: &[u8], form: Tables, e: usize, mark: Mark) -> usize
    requires { RootOnLeafAsked ins.now form.starts.now form.marks.now e mark.child mark.name }
    ensures { RootOnLeaf ins.now form.entry.starts.now form.entry.marks.now e mark.child mark.name result }
{
    if mark.child == 0 {
        return mark.name;
    }
    let at = 2 * usize::from(form.starts[1 + mark.name * ins.len() + e]);
    usize::from(form.marks[at + 1])
}

// What lies below two marks that clash: a path from the call, or from the first of two calls.
fn find_bottom(
    ins: &[u8],
    left: Tables,
    right: Tables,
    e: usize,
    first: Mark,
    second: Mark,
    steps: &mut [u8],
) -> Bottom
    requires { BottomAsked ins.now left.starts.now left.marks.now left.states right.starts.now right.marks.now right.states e first.child first.name second.child second.name steps.old }
    ensures { BottomFound ins.now left.entry.starts.now left.entry.marks.now right.entry.starts.now right.entry.marks.now e first.child first.name second.child second.name steps.new result.child result.count result.left result.right }
{
    if first.child > 0 {
        let b = root_on_leaf(ins, right, e, second);
        let f = path_from(ins, left, first.name, b, steps);
        return Bottom {
            child: first.child,
            count: f.count,
            left: f.symbol,
            right: b,
        };
    }
    if second.child > 0 {
        let f = path_from(ins, right, second.name, first.name, steps);
        return Bottom {
            child: second.child,
            count: f.count,
            left: first.name,
            right: f.symbol,
        };
    }
    Bottom {
        child: 0,
        count: 0,
        left: first.name,
        right: second.name,
    }
}

// The tree that parent q reads, if the one of the bytes of `span` is child number i of its symbol a.
fn step_up(
    ins: &[u8],
    e: usize,
    q: usize,
    a: usize,
    i: usize,
    buffer: &mut [u8],
    span: Span,
) -> Span
    requires { Upable ins.now e q a i buffer.old span.from span.to }
    ensures { Upped ins.now e q a i buffer.old span.from span.to buffer.new result.from result.to }
{
    if q > 0 {
        return add_step(ins, e, a, i, buffer, span);
    }
    span
}

// Writes the tree on which parent q, for symbol a, shows that mark number i of the first and mark number j of the second clash.
fn root_tree(
    ins: &[u8],
    left: Tables,
    right: Tables,
    e: usize,
    i: usize,
    j: usize,
    q: usize,
    a: usize,
    buffer: &mut [u8],
) -> Rooted
    requires { RootAsked ins.now left.starts.now left.marks.now left.states right.starts.now right.marks.now right.states e i j q a buffer.old }
    ensures { RootFound ins.now left.entry.starts.now left.entry.marks.now right.entry.starts.now right.entry.marks.now e i j q a buffer.new result.span.from result.span.to result.left result.right }
{
    let mut steps = [0u8; 256];
    let first = mark_of(left.marks, i);
    let second = mark_of(right.marks, j);
    let f = find_bottom(ins, left, right, e, first, second, &mut steps);
    let tree = write_steps(ins, e, &steps, f.count, buffer);
    let span = step_up(ins, e, q, a, f.child, buffer, tree);
    Rooted {
        span,
        left: f.left,
        right: f.right,
    }
}

// One step back, from pair p to its parent: its symbol above the tree, and what leads to the pair in the left body before the address.
fn step_back(
    ins: &[u8],
    outs: &[u8],
    left: Tables,
    pairs: &[Pair; 256],
    e: usize,
    p: usize,
    buffer: &mut [u8],
    span: Span,
    place: &mut [u8],
    at: usize,
) -> Placed
    requires { Leading ins.now outs.now left.starts.now left.marks.now pairs.now e (p + 1) × Roomy (p + 1) buffer.old span.from span.to place.old at }
    ensures { StepsBack ins.now outs.now left.entry.starts.now left.entry.marks.now pairs.now e p buffer.old span.from span.to place.old at buffer.new result.span.from result.span.to place.new result.at }
{
    let pair = pairs[p];
    let q = usize::from(pair.parent);
    let a = usize::from(pair.symbol);
    let m = usize::from(pair.mark);
    let i = usize::from(pair.child);
    let from = usize::from(left.starts[body_of(ins, pairs, q, a, Side::Left)]);
    let at = write_address(outs, left.marks, from, m, place, at);
    let span = step_up(ins, e, q, a, i, buffer, span);
    Placed { span, at }
}

// The way back from parent q to the initial terms.
fn trace_back(
    ins: &[u8],
    outs: &[u8],
    left: Tables,
    pairs: &[Pair; 256],
    e: usize,
    q: usize,
    buffer: &mut [u8],
    span: Span,
    place: &mut [u8],
    at: usize,
) -> Placed
    requires { Leading ins.now outs.now left.starts.now left.marks.now pairs.now e q × Roomy q buffer.old span.from span.to place.old at }
    ensures { TracesBack ins.now outs.now left.entry.starts.now left.entry.marks.now pairs.now e q buffer.old span.from span.to place.old at buffer.new result.span.from result.span.to place.new result.at }
{
    let mut placed = Placed { span, at };
    let mut r = q;
    // Stays `while`: r goes from a pair to its parent.
    while r > 0 {
        placed = step_back(
            ins,
            outs,
            left,
            pairs,
            e,
            r - 1,
            buffer,
            placed.span,
            place,
            placed.at,
        );
        r = usize::from(pairs[r - 1].parent);
    }
    placed
}

// What shows that two bodies clash, as the list of pairs leads there: the tree in `buffer`, the address at the end of `place`.
fn trace(
    ins: &[u8],
    outs: &[u8],
    left: Tables,
    right: Tables,
    pairs: &[Pair; 256],
    e: usize,
    clash: Clash,
    buffer: &mut [u8],
    place: &mut [u8],
) -> Traced
    requires { Comparable ins.now outs.now left.starts.now left.marks.now left.states right.starts.now right.marks.now right.states × Clashes (sides ins.now left.starts.now left.marks.now right.starts.now right.marks.now) left.states right.states pairs.now clash.parent clash.symbol clash.mark × Tracing ins.now e buffer.old place.old }
    ensures { Traces ins.now outs.now (machine ins.now outs.now left.entry.starts.now left.entry.marks.now left.entry.states) (machine ins.now outs.now right.entry.starts.now right.entry.marks.now right.entry.states) buffer.new result.span.from result.span.to place.new result.at result.left result.right }
{
    let q = clash.parent;
    let a = clash.symbol;
    let m = clash.mark;
    let i = usize::from(left.starts[body_of(ins, pairs, q, a, Side::Left)]);
    let j = usize::from(right.starts[body_of(ins, pairs, q, a, Side::Right)]);
    let f = root_tree(ins, left, right, e, i + m, j + m, q, a, buffer);
    let w = write_address(outs, left.marks, i, m, place, 16128);
    let s = trace_back(ins, outs, left, pairs, e, q, buffer, f.span, place, w);
    Traced {
        span: s.span,
        at: s.at,
        left: f.left,
        right: f.right,
    }
}

// The tree and the address that show that two bodies clash, and the two symbols.
pub fn show(
    ins: &[u8],
    outs: &[u8],
    starts1: &[u16],
    marks1: &[u8],
    n1: usize,
    starts2: &[u16],
    marks2: &[u8],
    n2: usize,
    pairs: &[Pair; 256],
    clash: Clash,
    tree: &mut [u8],
    address: &mut [u8],
) -> Shown
    requires { Comparable ins.now outs.now starts1.now marks1.now n1 starts2.now marks2.now n2 × Clashes (sides ins.now starts1.now marks1.now starts2.now marks2.now) n1 n2 pairs.now clash.parent clash.symbol clash.mark × (1536 ≤ length tree.old) × (16128 ≤ length address.old) }
    ensures { Shows ins.now outs.now (machine ins.now outs.now starts1.now marks1.now n1) (machine ins.now outs.now starts2.now marks2.now n2) tree.old tree.new address.old address.new result.nodes result.numbers result.left result.right }
{
    let mut buffer = [0u8; 3584];
    let mut place = [0u8; 16128];
    let e = leaf_symbol(ins);
    let left = Tables {
        starts: starts1,
        marks: marks1,
        states: n1,
    };
    let right = Tables {
        starts: starts2,
        marks: marks2,
        states: n2,
    };
    let s = trace(
        ins,
        outs,
        left,
        right,
        pairs,
        e,
        clash,
        &mut buffer,
        &mut place,
    );
    let from = s.span.from;
    let to = s.span.to;
    let at = s.at;
    copy_at(&buffer[from..to], tree, 0);
    copy_at(&place[at..16128], address, 0);
    Shown {
        nodes: to - from,
        numbers: 16128 - at,
        left: s.left,
        right: s.right,
    }
}
