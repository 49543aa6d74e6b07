// The tree and the address of a shown difference, written from the bottom up.
ghost use Rattle.std.specs.Prelude.{◌+◌, ◌*◌, ◌≤◌, ◌≡◌, length, replicate};
ghost use Rattle.std.proofs.lemmas.List.Edits.{sets};
ghost use Rattle.formats.specs.Inner.Layout.{mark_at};
ghost use Rattle.witness.specs.Inner.Shown.{SymbolAsked, SymbolWritten, Wrappable, Wrapped, Addable, Added, StepsAsked, StepsWritten, rank_of, AddressAsked, AddressWritten};

use trees::bytes::Span;

// Writes n times the byte e, from position `at` on.
fn fill(buffer: &mut [u8], at: usize, n: usize, e: u8)
    requires { at + n ≤ length buffer.old }
    ensures { buffer.new ≡ sets buffer.old at (replicate n e) }
{
    buffer[at..at + n].fill(e);
}

// Writes the symbol a with leaves e for all its children, from position `at` on.
fn write_symbol(ins: &[u8], e: usize, a: usize, buffer: &mut [u8], at: usize) -> Span
    requires { SymbolAsked ins.now e a buffer.old at }
    ensures { SymbolWritten ins.now e a at buffer.new result.from result.to }
{
    let rank = usize::from(ins[a]);
    buffer[at] = a as u8;
    fill(buffer, at + 1, rank, e as u8);
    Span {
        from: at,
        to: at + 1 + rank,
    }
}

// Puts the tree of the bytes of `span` under the symbol a, as its child number i; the other children are leaves e.
fn wrap(ins: &[u8], e: usize, a: usize, i: usize, buffer: &mut [u8], span: Span) -> Span
    requires { Wrappable ins.now e a i buffer.old span.from span.to }
    ensures { Wrapped ins.now e a i buffer.old span.from span.to buffer.new result.from result.to }
{
    let behind = usize::from(ins[a]) - i;
    let from = span.from - i;
    buffer[from] = a as u8;
    fill(buffer, from + 1, i - 1, e as u8);
    fill(buffer, span.to, behind, e as u8);
    Span {
        from,
        to: span.to + behind,
    }
}

// One step more above the tree of the bytes of `span`; with child number 0 the symbol stands there with leaves alone.
pub(crate) fn add_step(
    ins: &[u8],
    e: usize,
    a: usize,
    i: usize,
    buffer: &mut [u8],
    span: Span,
) -> Span
    requires { Addable ins.now e a i buffer.old span.from span.to }
    ensures { Added ins.now e a i buffer.old span.from span.to buffer.new result.from result.to }
{
    if i == 0 {
        return write_symbol(ins, e, a, buffer, span.from);
    }
    wrap(ins, e, a, i, buffer, span)
}

// Writes the tree of the first `count` steps, two bytes each: a symbol, and the number of the child that goes on.
pub(crate) fn write_steps(
    ins: &[u8],
    e: usize,
    steps: &[u8],
    count: usize,
    buffer: &mut [u8],
) -> Span
    requires { StepsAsked ins.now e steps.now count buffer.old }
    ensures { StepsWritten ins.now e steps.now count buffer.new result.from result.to }
{
    buffer[1792] = e as u8;
    let mut span = Span {
        from: 1792,
        to: 1793,
    };
    for k in (0..count).rev() {
        let a = usize::from(steps[2 * k]);
        let i = usize::from(steps[2 * k + 1]);
        span = add_step(ins, e, a, i, buffer, span);
    }
    span
}

// The rank of mark number k; a call has rank 0.
fn mark_rank(outs: &[u8], marks: &[u8], k: usize) -> usize
    requires { 2 * k + 2 ≤ length marks.now }
    ensures { result ≡ rank_of outs.now (mark_at marks.now k) }
{
    let i = usize::from(marks[2 * k]);
    let b = usize::from(marks[2 * k + 1]);
    if i > 0 {
        return 0;
    }
    if b >= outs.len() {
        return 0;
    }
    usize::from(outs[b])
}

// Writes the address of letter m of the body that starts with mark number `from`, so that it ends before position `at`; says where it begins.
pub(crate) fn write_address(
    outs: &[u8],
    marks: &[u8],
    from: usize,
    m: usize,
    place: &mut [u8],
    at: usize,
) -> usize
    requires { AddressAsked outs.now marks.now from m place.old at }
    ensures { AddressWritten outs.now marks.now from m place.old at place.new result }
{
    let mut w = at;
    let mut between = 0;
    for j in (0..m).rev() {
        let rank = mark_rank(outs, marks, from + j);
        if between < rank {
            w -= 1;
            place[w] = (between + 1) as u8;
            between = 0;
        } else {
            between = between + 1 - rank;
        }
    }
    w
}
