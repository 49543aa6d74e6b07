// Right-hand sides with the common prefix of each state put for its calls, as lists of letters: a number below 64 is a symbol,
// CALL * i + c the call of state c on child i, where state c is the ⊤ at byte c of the table of prefixes.
ghost use Rattle.std.specs.Prelude.{◌+◌, ◌≤◌, ◌<◌, ◌≡◌, length};
ghost use Rattle.std.proofs.lemmas.List.Edits.{sets};
ghost use Rattle.formats.specs.Inner.Judging.{Put};
ghost use Rattle.earliest.specs.Inner.Letters.{labeled, expanded, Expandable, Locatable, LocatedAt};

use discovery::queue::CALL;
use prefixes::pattern::{SLOT, tree_end};

// Writes a pattern as letters: the ⊤ at byte m becomes the call `base + m`.
fn label_head(head: &[u8], base: usize, out: &mut [u32], at: usize)
    requires { (length head.now ≤ 64) × (base + 64 ≤ 4294967296) × (at + length head.now ≤ length out.old) }
    ensures { out.new ≡ sets out.old at (labeled base head.now) }
{
    for (m, x) in head.iter().enumerate() {
        if *x == 255 {
            out[at + m] = (base + m) as u32;
        } else {
            out[at + m] = u32::from(*x);
        }
    }
}

// Writes the right-hand side of the marks number `from` up to `to` as letters, with the pattern of each state for its calls, and says how long that is.
// Stays: a loop beside that of `Patterns::graft`. A ⊤ becomes another letter at each place here, so one loop for both would take a function for it.
pub(crate) fn expand(
    heads: &[u8],
    sizes: &[u8],
    marks: &[u8],
    from: usize,
    to: usize,
    out: &mut [u32],
) -> usize
    requires { Expandable heads.now sizes.now marks.now from to out.old }
    ensures { Put (expanded heads.now sizes.now marks.now from to) out.old out.new result }
{
    let mut w = 0;
    for j in from..to {
        let i = usize::from(marks[2 * j]);
        let x = usize::from(marks[2 * j + 1]);
        if i == 0 {
            out[w] = x as u32;
            w += 1;
        } else {
            let start = SLOT * x;
            let end = start + usize::from(sizes[x]);
            label_head(&heads[start..end], CALL * i + start, out, w);
            w += end - start;
        }
    }
    w
}

// Where in a tree of letters the subtree stands that byte m of a prefix of it stands for.
pub(crate) fn locate(outs: &[u8], head: &[u8], s: &[u32], m: usize) -> usize
    requires { Locatable outs.now head.now s.now m }
    ensures { LocatedAt outs.now head.now s.now m result }
{
    let mut p = 0;
    for x in &head[..m] {
        if usize::from(*x) < outs.len() {
            p += 1;
        } else {
            p = tree_end(outs, s, p);
        }
    }
    p
}
