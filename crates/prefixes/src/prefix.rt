// The common prefixes of the states (01: heads): a table of patterns, cut until no right-hand side cuts any more.
ghost use Rattle.std.specs.Prelude.{◌<◌, length};
ghost use Rattle.prefixes.specs.Inner.Heads.{of_tables, of_cut, Stays, Cuttable, CutBy, Bodies, CutRhs, CutState, Swept, Followed, Settled, Startable, Started, AllStartable, AllStarted, Prefixable, Prefixes};

use crate::callers::{Flags, find_callers};
use crate::pattern::{Patterns, SLOT, cut_pattern};
use crate::tables::Tables;
use forms::leaf::leaf_symbol;
use trees::bytes::Span;

impl Patterns<'_> {
    // Cuts the pattern of state q by a right-hand side, and says whether that took anything away.
    pub(crate) fn cut_by(&mut self, tables: &Tables, body: Span, q: usize, other: &mut [u8]) -> bool
        requires { Cuttable tables.now.outs.now self.old.heads.now self.old.sizes.now tables.now.marks.now body.from body.to q other.old }
        ensures same { Stays self.old self.new }
        ensures cut { CutBy tables.now.outs.now tables.now.marks.now body.from body.to q self.old.heads.now self.old.sizes.now self.new.heads.now self.new.sizes.now result }
    {
        let len = self.graft(tables.marks, body.from, body.to, other);
        let start = SLOT * q;
        let end = start + usize::from(self.sizes[q]);
        let Some(size) = cut_pattern(tables.outs, &mut self.heads[start..end], &other[..len]) else {
            return false;
        };
        self.sizes[q] = size as u8;
        true
    }

    // Cuts the pattern of state q by its right-hand side for symbol a, unless a is the leaf, and says whether that took anything away.
    fn cut_rhs(&mut self, tables: &Tables, q: usize, a: usize, other: &mut [u8]) -> bool
        requires { of_tables Bodies tables.now self.old.heads.now self.old.sizes.now other.old × (q < length self.old.sizes.now) × (a < length tables.now.ins.now) }
        ensures same { Stays self.old self.new }
        ensures cut { of_cut (of_tables CutRhs tables.now tables.now.leaf q a) self.old self.new result }
    {
        if a == tables.leaf {
            return false;
        }
        let body = tables.body(q, a);
        self.cut_by(tables, body, q, other)
    }

    // Cuts the pattern of state q by each of its right-hand sides but that for the leaf, and says whether that took anything away.
    fn cut_state(&mut self, tables: &Tables, q: usize, other: &mut [u8]) -> bool
        requires { of_tables Bodies tables.now self.old.heads.now self.old.sizes.now other.old × (q < length self.old.sizes.now) }
        ensures same { Stays self.old self.new }
        ensures cut { of_cut (of_tables CutState tables.now tables.now.leaf q) self.old self.new result }
    {
        if self.heads[SLOT * q] == 255 {
            return false;
        }
        let mut any = false;
        for a in 0..tables.ins.len() {
            any |= self.cut_rhs(tables, q, a, other);
        }
        any
    }

    // Cuts the pattern of every state once, from the last state to the first: states are often numbered as they are called.
    fn sweep(&mut self, tables: &Tables, other: &mut [u8]) -> bool
        requires { of_tables Bodies tables.now self.old.heads.now self.old.sizes.now other.old }
        ensures same { Stays self.old self.new }
        ensures cut { of_cut (of_tables Swept tables.now tables.now.leaf) self.old self.new result }
    {
        let mut any = false;
        for q in (0..self.sizes.len()).rev() {
            any |= self.cut_state(tables, q, other);
        }
        any
    }

    // Cuts the pattern of every state, and then, round after round, those of the states that call one whose pattern was cut in the round before.
    // The flags, of which number f is that of state n - 1 - f, save cuts that take nothing away, and no pattern hangs on them. Rounds are fair: were
    // the first flag always the next, states with many callees would be cut again for each symbol that is cut of one of these.
    fn follow(&mut self, tables: &Tables, other: &mut [u8])
        requires { of_tables Bodies tables.now self.old.heads.now self.old.sizes.now other.old }
        ensures same { Stays self.old self.new }
        ensures cut { of_cut (of_tables Followed tables.now) self.old self.new }
    {
        let n = self.sizes.len();
        let callers = find_callers(tables, n);
        let mut flags = Flags {
            round: u128::MAX,
            next: 0,
        };
        while let Some(f) = flags.take_first(n) {
            let q = n - 1 - f;
            if self.cut_state(tables, q, other) {
                flags = flags.with(callers[q]);
            }
        }
    }

    // Cuts until no right-hand side cuts any more: the states whose callees changed, and then all of them, which shows that nothing is left to cut.
    pub(crate) fn settle(&mut self, tables: &Tables, other: &mut [u8])
        requires { of_tables Bodies tables.now self.old.heads.now self.old.sizes.now other.old }
        ensures same { Stays self.old self.new }
        ensures cut { of_cut (of_tables Settled tables.now tables.now.leaf) self.old self.new }
    {
        self.follow(tables, other);
        while self.sweep(tables, other) {
            self.follow(tables, other);
        }
    }

    // Makes a body, whose marks are symbols, the pattern of state q.
    fn start_state(&mut self, tables: &Tables, body: Span, q: usize)
        requires { Startable tables.now.marks.now body.from body.to self.old.heads.now self.old.sizes.now q }
        ensures same { Stays self.old self.new }
        ensures started { Started tables.now.marks.now body.from body.to self.old.heads.now self.old.sizes.now q self.new.heads.now self.new.sizes.now }
    {
        let mut w = SLOT * q;
        for j in body.from..body.to {
            self.heads[w] = tables.marks[2 * j + 1];
            w += 1;
        }
        self.sizes[q] = (body.to - body.from) as u8;
    }

    // Makes the right-hand side of each state for the leaf its pattern: a leaf has no children to call a state on.
    fn start_heads(&mut self, tables: &Tables)
        requires { AllStartable tables.now.ins.now tables.now.starts.now tables.now.marks.now tables.now.leaf self.old.heads.now self.old.sizes.now }
        ensures same { Stays self.old self.new }
        ensures started { AllStarted tables.now.ins.now tables.now.starts.now tables.now.marks.now tables.now.leaf self.old.sizes.now self.new.heads.now self.new.sizes.now }
    {
        for q in 0..self.sizes.len() {
            let body = tables.body(q, tables.leaf);
            self.start_state(tables, body, q);
        }
    }
}

// The common prefixes of all states. Scratch: `other`, and what stands in `heads` behind the pattern of a state.
pub fn prefixes(
    ins: &[u8],
    outs: &[u8],
    starts: &[u16],
    marks: &[u8],
    heads: &mut [u8],
    sizes: &mut [u8],
    other: &mut [u8],
)
    requires { Prefixable ins.now outs.now starts.now marks.now heads.old sizes.old other.old }
    ensures { Prefixes ins.now outs.now starts.now marks.now sizes.old heads.new sizes.new }
{
    let tables = Tables {
        ins,
        outs,
        starts,
        marks,
        leaf: leaf_symbol(ins),
    };
    let mut patterns = Patterns { heads, sizes };
    patterns.start_heads(&tables);
    patterns.settle(&tables, other);
}
