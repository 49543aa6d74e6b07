// Patterns as bytes: a symbol, or 255 for ⊤, where anything may stand; in preorder, one byte each.
ghost use Rattle.std.specs.Prelude.{ℕ, ◌*◌, ◌+◌, ◌≤◌, ◌<◌, true, ◌≡◌, length, Some, is_some, nat_eq};
ghost use Rattle.std.specs.List.{common_prefix_len};
ghost use Rattle.prefixes.specs.Inner.Patterns.{IsPattern, end_of, CutPattern, size_after, Begins, Graftable, grafted};

use formats::file::copy_at;

// How many bytes of the table of patterns each state has: that of state q stands from byte SLOT * q on.
pub const SLOT: usize = 64;

// A letter of a word, read as a number.
pub trait Letter: Copy {
    ghost number: { Self → ℕ };

    fn number(self) -> usize
        ensures { result ≡ number self };
}

impl Letter for u8 {
    ghost number = { λ x. x };

    fn number(self) -> usize {
        usize::from(self)
    }
}

impl Letter for u32 {
    ghost number = { λ x. x };

    fn number(self) -> usize {
        self as usize
    }
}

// The end of the tree at `at`: a letter below the number of ranks takes as many of the trees behind it as its rank says, and another none.
pub fn tree_end<L: Letter>(outs: &[u8], s: &[L], at: usize) -> usize
    requires { is_some (end_of outs.now L.number s.now at) ≡ true }
    ensures { end_of outs.now L.number s.now at ≡ Some result }
{
    let mut owed = 1;
    let mut p = at;
    // Stays: a `while`, which ends where nothing is owed any more, not after a count.
    while owed > 0 {
        let x = s[p].number();
        if x < outs.len() {
            owed += usize::from(outs[x]);
        }
        owed -= 1;
        p += 1;
    }
    p
}

// How many letters at the front of two words are equal.
fn equal_letters(x: &[u8], y: &[u8]) -> usize
    ensures { result ≡ common_prefix_len nat_eq x.now y.now }
{
    let len = x.len().min(y.len());
    let mut n = 0;
    // Stays: a `while`, which takes eight letters at a time, compared as one word of the machine, and ends where they differ.
    while n + 8 <= len && y[n..n + 8].starts_with(&x[n..n + 8]) {
        n += 8;
    }
    // Stays: a `while`, which ends at the first letter that differs.
    while n < len && x[n] == y[n] {
        n += 1;
    }
    n
}

// Cuts the pattern `x` to its largest common prefix with the pattern `y`, where it stands, and says how long that is if the cut took anything away.
pub(crate) fn cut_pattern(outs: &[u8], x: &mut [u8], y: &[u8]) -> Option<usize>
    requires { IsPattern outs.now x.old × IsPattern outs.now y.now }
    ensures { CutPattern outs.now x.old y.now x.new (size_after x.old result) (is_some result) }
{
    let mut i = 0;
    let mut j = 0;
    let mut w = 0;
    let mut cut = false;
    // Stays: a `while`, which passes a pattern that differs as a whole.
    while i < x.len() {
        let k = x[i];
        if k == y[j] {
            // Equal letters that stay where they stand are passed at once.
            let n = if w == i {
                equal_letters(&x[i..], &y[j..])
            } else {
                1
            };
            x[w] = k;
            i += n;
            j += n;
            w += n;
        } else {
            cut |= usize::from(k) < outs.len();
            i = tree_end(outs, x, i);
            j = tree_end(outs, y, j);
            x[w] = 255;
            w += 1;
        }
    }
    cut.then_some(w)
}

// A table of patterns: SLOT bytes for each state, of which `sizes` says how many are its pattern.
#[derive(Drop)]
pub(crate) struct Patterns<'a> {
    pub heads: &'a mut [u8],
    pub sizes: &'a mut [u8],
}

impl Patterns<'_> {
    // Writes the right-hand side of the marks number `from` up to `to` with the pattern of each state for its calls, and says how long that is.
    pub(crate) fn graft(&self, marks: &[u8], from: usize, to: usize, out: &mut [u8]) -> usize
        requires { Graftable self.now.heads.now self.now.sizes.now marks.now from to out.old }
        ensures { Begins (grafted self.now.heads.now self.now.sizes.now marks.now from to) out.new result }
    {
        let mut w = 0;
        for j in from..to {
            let i = marks[2 * j];
            let x = marks[2 * j + 1];
            if i == 0 {
                out[w] = x;
                w += 1;
            } else {
                let q = usize::from(x);
                let start = SLOT * q;
                let size = usize::from(self.sizes[q]);
                copy_at(&self.heads[start..start + size], out, w);
                w += size;
            }
        }
        w
    }
}
