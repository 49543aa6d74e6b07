// Where each subtree of an input tree ends, and the trees that stand behind one another.
ghost use Rattle.std.specs.Prelude.{◌≡◌, ℕ, ◌≤◌, ◌<◌, length};
ghost use Rattle.trees.specs.Inner.Measured.{WholeTree};
ghost use Rattle.transducer.specs.Inner.Written.{hop, Input};

// The tree that stands n trees behind the one at `from`.
pub fn skip(ends: &[u16], from: usize, n: usize) -> usize
    requires { (k : ℕ) → k < n → hop ends.now k from < length ends.now }
    ensures { result ≡ hop ends.now n from }
{
    let mut p = from;
    for _ in 0..n {
        p = usize::from(ends[p]);
    }
    p
}

// Notes where each subtree of the input tree `s` ends: from the last node to the first, each behind its children.
pub fn fill_ends(ins: &[u8], s: &[u8], ends: &mut [u16])
    requires { WholeTree ins.now s.now × (4096 ≤ length ends.old) }
    ensures { Input ins.now s.now ends.new }
{
    for k in (0..s.len()).rev() {
        let rank = usize::from(ins[usize::from(s[k])]);
        ends[k] = skip(ends, k + 1, rank) as u16;
    }
}
