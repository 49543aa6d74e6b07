// The symbol at an address of the output (01: the block at a place), which is never built.
ghost use Rattle.std.specs.Prelude.{◌≡◌, ◌*◌, ◌≤◌, ◌<◌, length, get_or};
ghost use Rattle.theory.specs.Term.{count, symbol_at};
ghost use Rattle.theory.specs.Transducer.{translate};
ghost use Rattle.trees.specs.Inner.Decode.{forest, rests};
ghost use Rattle.formats.specs.Inner.Layout.{mark_of, transducer};
ghost use Rattle.trees.specs.Inner.Symbols.{tree};
ghost use Rattle.formats.specs.Inner.Marked.{part};
ghost use Rattle.transducer.specs.Inner.Machine.{Machine};
ghost use Rattle.queries.specs.Answers.{FindsSymbol};
ghost use Rattle.queries.specs.Inner.Machine.{FindsBy};
ghost use Rattle.queries.specs.Inner.Placed.{placed, Followed};

use formats::bodies::{fill_starts, measure_marks};
use formats::file::{counts_end, read_transducer};
use transducer::children::{fill_ends, skip};
use trees::alphabet::{input_ranks, output_ranks};
use trees::refusal::Refusal;
use trees::tree::measure_all;

// The mark at which the term begins that stands `c` terms behind the one at mark number `at`.
fn skip_marks(
    outs: &[u8],
    n: usize,
    r: usize,
    marks: &[u8],
    at: usize,
    to: usize,
    c: usize,
) -> usize
    requires { (2 * to ≤ length marks.now) × (c < count (forest (mark_of outs.now n r) (part marks.now at to))) }
    ensures { forest (mark_of outs.now n r) (part marks.now result to) ≡ rests c (forest (mark_of outs.now n r) (part marks.now at to)) }
{
    let mut p = at;
    for _ in 0..c {
        p = measure_marks(outs, n, r, marks, p, to, to - p).unwrap().end;
    }
    p
}

// Follows the address `v` through the output, which is never built.
fn follow(
    ins: &[u8],
    outs: &[u8],
    n: usize,
    starts: &[u16],
    marks: &[u8],
    s: &[u8],
    ends: &[u16],
    v: &[u8],
) -> Result<Option<usize>, Refusal>
    requires { Followed ins.now outs.now n starts.now marks.now s.now ends.now }
    ensures { result ≡ placed (symbol_at (translate (transducer ins.now outs.now n (λ j. get_or starts.now j 0) marks.now) (tree ins.now s.now)) v.now) }
{
    let mut j = usize::from(starts[0]);
    let mut to = usize::from(starts[1]);
    let mut r = 1;
    let mut below = 0;
    let mut k = 0;
    // A call goes to the mark of another body, and an address may end early: no count says how far.
    loop {
        let i = usize::from(marks[2 * j]);
        let x = usize::from(marks[2 * j + 1]);
        if i > 0 {
            let p = skip(ends, below, i - 1);
            let a = usize::from(s[p]);
            let b = 1 + x * ins.len() + a;
            j = usize::from(starts[b]);
            to = usize::from(starts[b + 1]);
            r = usize::from(ins[a]);
            below = p + 1;
        } else {
            if k >= v.len() {
                return Ok(Some(x));
            }
            let c = usize::from(v[k]);
            if c == 0 {
                return Ok(None);
            }
            if c > usize::from(outs[x]) {
                return Ok(None);
            }
            j = skip_marks(outs, n, r, marks, j + 1, to, c - 1);
            k += 1;
        }
    }
}

// Follows the address through the output of the transducer whose n, counts and marks these are.
fn symbol_by(
    stock: &[u8],
    n: usize,
    counts: &[u8],
    marks: &[u8],
    s: &[u8],
    address: &[u8],
) -> Result<Option<usize>, Refusal>
    requires { Machine stock.now n counts.now marks.now }
    ensures { FindsBy stock.now n counts.now marks.now s.now address.now result }
{
    let ins = input_ranks(stock);
    let mut ends = [0u16; 4096];
    let mut starts = [0u16; 2050];
    fill_starts(counts, 1 + n * ins.len(), &mut starts);
    measure_all(ins, s).ok_or(Refusal::BadTree)?;
    fill_ends(ins, s, &mut ends);
    follow(
        ins,
        output_ranks(stock),
        n,
        &starts,
        marks,
        s,
        &ends,
        address,
    )
}

// The symbol at `address` in what the transducer of the file `sheet` gives on the tree of the file `design`.
pub fn symbol_at(
    stock: &[u8],
    sheet: &[u8],
    design: &[u8],
    address: &[u8],
) -> Result<Option<usize>, Refusal>
    ensures { FindsSymbol stock.now sheet.now design.now address.now result }
{
    let n = read_transducer(stock, sheet)?;
    let from = counts_end(stock, n);
    symbol_by(stock, n, &sheet[1..from], &sheet[from..], design, address)
}
