// The depth of each mark of a right-hand side: how many symbols stand above it.
ghost use Rattle.std.specs.Prelude.{[], ◌≡◌, ℕ, ◌+◌, ◌*◌, ◌≤◌, ◌<◌, length};
ghost use Rattle.std.proofs.lemmas.List.Edits.{sets};
ghost use Rattle.std.proofs.Math.Seq.{slice};
ghost use Rattle.formats.specs.Inner.Layout.{pairs};
ghost use Rattle.transducer.specs.Inner.Depth.{children_of, closed, depths_of, stack, DepthsAt, Known, BodiesIn};

// How many terms stand under the mark (i, x): as many as the symbol x has places, and none under a call.
pub fn children(ranks: &[u8], i: u8, x: u8) -> u8
    requires { i ≡ 0 → x < length ranks.now }
    ensures { result ≡ children_of ranks.now (i, x) }
{
    if i > 0 { 0 } else { ranks[usize::from(x)] }
}

// A term was read to its end, below `d` symbols: how many stand above the next one. `owed` has for each
// of them how many terms under it are still to be read, this one included.
fn close(owed: &mut [u8; 64], d: usize) -> usize
    requires { (length owed.old ≡ 64) × (d ≤ 64) }
    ensures few { result ≤ d }
    ensures owes { stack owed.new result ≡ closed (stack owed.old d) }
    ensures long { length owed.new ≡ 64 }
{
    for k in (0..d).rev() {
        if owed[k] > 1 {
            owed[k] -= 1;
            return k + 1;
        }
    }
    0
}

// Notes the depths of the marks number `from` up to `to`, of one right-hand side.
fn note_depths(outs: &[u8], marks: &[u8], from: usize, to: usize, depths: &mut [u8; 8192])
    requires { (from ≤ to) × (to ≤ from + 64) × (to ≤ 8192) × (2 * to ≤ length marks.now) × Known outs.now marks.now from to × (length depths.old ≡ 8192) }
    ensures { depths.new ≡ sets depths.old from (depths_of outs.now [] (slice from to (pairs marks.now))) }
{
    // Stays: an array of fixed size, since nothing is allocated (docs/AREAS.md).
    let mut owed = [0u8; 64];
    let mut d = 0;
    for j in from..to {
        depths[j] = d as u8;
        let n = children(outs, marks[2 * j], marks[2 * j + 1]);
        if n == 0 {
            d = close(&mut owed, d);
        } else {
            owed[d] = n;
            d += 1;
        }
    }
}

// Notes the depths of the marks of so many right-hand sides.
pub(crate) fn fill_depths(
    outs: &[u8],
    starts: &[u16; 2050],
    bodies: usize,
    marks: &[u8],
    depths: &mut [u8; 8192],
)
    requires { BodiesIn outs.now starts.now bodies marks.now × (length depths.old ≡ 8192) }
    ensures noted { (j : ℕ) → j < bodies → DepthsAt outs.now starts.now marks.now depths.new j }
    ensures long { length depths.new ≡ 8192 }
{
    for b in 0..bodies {
        let from = usize::from(starts[b]);
        let to = usize::from(starts[b + 1]);
        note_depths(outs, marks, from, to, depths);
    }
}
