// The pair search of Hopcroft and Karp: states of two transducers are joined into classes, pair by pair, until all right-hand sides
// agree up to classes, or two of them clash.
ghost use Rattle.std.specs.Prelude.{ℕ, ◌+◌, ◌*◌, ◌≤◌, ◌<◌, ◌≡◌, length, get_or};
ghost use Rattle.pairs.specs.Inner.Pairs.{sides, sides_of, table, state_of, Forms, FirstClash, Joined, Merging, JoinsStates, Joinable, JoinsMarks, Searching, Walkable, Walks, WalksPair, WalksAll, Searches};

// A transducer in tables: where its bodies start, their marks, and how many states it has.
#[derive(Clone, Copy)]
pub struct Tables<'a> {
    pub starts: &'a [u16],
    pub marks: &'a [u8],
    pub states: usize,
}

// One of the two transducers.
#[derive(Clone, Copy, Debug, PartialEq, Eq)]
pub enum Side {
    Left,
    Right,
}

// Two states that are joined; their parent (0: the initial terms; p + 1: pair p), the symbol and the mark at which they were found, and the child called there.
// Bytes, since the list is a fixed array: nothing is allocated.
#[derive(Clone, Copy, Debug, Default, PartialEq, Eq)]
pub struct Pair {
    pub left: u8,
    pub right: u8,
    pub parent: u8,
    pub symbol: u8,
    pub mark: u8,
    pub child: u8,
}

impl Pair {
    // Its state on one side.
    pub fn state(self, side: Side) -> u8
        ensures { result ≡ state_of self side }
    {
        match side {
            Side::Left => self.left,
            Side::Right => self.right,
        }
    }
}

// Two bodies that clash: those of a parent for a symbol, at a mark.
// Stays: 0 for the initial terms as a parent, p + 1 for pair p, since the bytes of a pair say it so.
#[derive(Clone, Copy, Debug, PartialEq, Eq)]
pub struct Clash {
    pub parent: usize,
    pub symbol: usize,
    pub mark: usize,
}

// Each state is in a class of its own.
fn start_classes(classes: &mut [u8], base: usize)
    requires { base + length classes.old ≤ 256 }
    ensures { (x : ℕ) → x < length classes.old → get_or classes.new x 0 ≡ base + x }
{
    for (x, class) in classes.iter_mut().enumerate() {
        *class = (base + x) as u8;
    }
}

// The states of class c come into class d.
fn join(classes: &mut [u8], c: u8, d: u8)
    ensures { Joined classes.old classes.new c d }
{
    for class in classes.iter_mut() {
        if *class == c {
            *class = d;
        }
    }
}

// Joins the classes of the pair's states, if they are two, and lists it.
// Stays: classes, pairs and count side by side here and below. They are lent by the caller, and each contract with a struct of `&mut` has to speak of its borrows.
fn join_states(
    classes1: &mut [u8],
    classes2: &mut [u8],
    pairs: &mut [Pair; 256],
    count: usize,
    pair: Pair,
) -> usize
    requires { Merging (table classes1.old classes2.old pairs.old count) × (pair.left < length classes1.old) × (pair.right < length classes2.old) }
    ensures { JoinsStates (table classes1.old classes2.old pairs.old count) (table classes1.new classes2.new pairs.new result) pair.parent pair.symbol pair.mark pair.child pair.left pair.right }
{
    let c = classes1[usize::from(pair.left)];
    let d = classes2[usize::from(pair.right)];
    if c == d {
        return count;
    }
    pairs[count] = pair;
    join(classes1, c, d);
    join(classes2, c, d);
    count + 1
}

// The first of n marks, from number i of the first and from number j of the second on, at which the two clash.
fn first_clash(marks1: &[u8], i: usize, marks2: &[u8], j: usize, n: usize) -> Option<usize>
    requires { (2 * (i + n) ≤ length marks1.now) × (2 * (j + n) ≤ length marks2.now) }
    ensures { FirstClash marks1.now marks2.now i j n result }
{
    for k in 0..n {
        let c = marks1[2 * (i + k)];
        if c != marks2[2 * (j + k)] {
            return Some(k);
        }
        if c == 0 && marks1[2 * (i + k) + 1] != marks2[2 * (j + k) + 1] {
            return Some(k);
        }
    }
    None
}

// Joins the states that are called at the same of n marks that go in step.
fn join_marks(
    marks1: &[u8],
    i: usize,
    marks2: &[u8],
    j: usize,
    n: usize,
    classes1: &mut [u8],
    classes2: &mut [u8],
    pairs: &mut [Pair; 256],
    count: usize,
    parent: usize,
    a: usize,
) -> usize
    requires { Joinable (table classes1.old classes2.old pairs.old count) marks1.now marks2.now i j n × (parent < 256) × (a < 256) }
    ensures { JoinsMarks (table classes1.old classes2.old pairs.old count) (table classes1.new classes2.new pairs.new result) marks1.now marks2.now i j n parent a }
{
    let mut r = count;
    for k in 0..n {
        let c = marks1[2 * (i + k)];
        if c > 0 {
            let pair = Pair {
                left: marks1[2 * (i + k) + 1],
                right: marks2[2 * (j + k) + 1],
                parent: parent as u8,
                symbol: a as u8,
                mark: k as u8,
                child: c,
            };
            r = join_states(classes1, classes2, pairs, r, pair);
        }
    }
    r
}

// Walks body i of the first and body j of the second, those of a parent for symbol a.
fn walk_pair(
    ins: &[u8],
    left: Tables,
    i: usize,
    right: Tables,
    j: usize,
    classes1: &mut [u8],
    classes2: &mut [u8],
    pairs: &mut [Pair; 256],
    count: usize,
    parent: usize,
    a: usize,
) -> Result<usize, Clash>
    requires { Walkable (sides_of ins.now left right) (table classes1.old classes2.old pairs.old count) parent a i j }
    ensures { Walks (sides_of ins.now left.entry right.entry) (table classes1.old classes2.old pairs.old count) classes1.new classes2.new pairs.new i j result }
{
    let from = usize::from(left.starts[i]);
    let other = usize::from(right.starts[j]);
    let size = usize::from(left.starts[i + 1]) - from;
    let n = size.min(usize::from(right.starts[j + 1]) - other);
    let clash = first_clash(left.marks, from, right.marks, other, n);
    match clash {
        Some(mark) => Err(Clash {
            parent,
            symbol: a,
            mark,
        }),
        None => {
            let r = join_marks(
                left.marks,
                from,
                right.marks,
                other,
                n,
                classes1,
                classes2,
                pairs,
                count,
                parent,
                a,
            );
            Ok(r)
        }
    }
}

// Walks the right-hand sides of pair p, symbol by symbol.
fn walk_symbols(
    ins: &[u8],
    left: Tables,
    right: Tables,
    classes1: &mut [u8],
    classes2: &mut [u8],
    pairs: &mut [Pair; 256],
    count: usize,
    p: usize,
) -> Result<usize, Clash>
    requires { Searching (sides_of ins.now left right) (table classes1.old classes2.old pairs.old count) × (p < count) }
    ensures { WalksPair (sides_of ins.now left.entry right.entry) (table classes1.old classes2.old pairs.old count) classes1.new classes2.new pairs.new p result }
{
    let x = usize::from(pairs[p].left);
    let y = usize::from(pairs[p].right);
    let mut n = count;
    for a in 0..ins.len() {
        let i = 1 + x * ins.len() + a;
        let j = 1 + y * ins.len() + a;
        n = walk_pair(
            ins,
            left,
            i,
            right,
            j,
            classes1,
            classes2,
            pairs,
            n,
            p + 1,
            a,
        )?;
    }
    Ok(n)
}

// Walks the right-hand sides of the listed pairs, from the first on.
fn walk_pairs(
    ins: &[u8],
    left: Tables,
    right: Tables,
    classes1: &mut [u8],
    classes2: &mut [u8],
    pairs: &mut [Pair; 256],
    count: usize,
) -> Result<(), Clash>
    requires { Searching (sides_of ins.now left right) (table classes1.old classes2.old pairs.old count) }
    ensures { WalksAll (sides_of ins.now left.entry right.entry) (table classes1.old classes2.old pairs.old count) classes1.new classes2.new pairs.new result }
{
    let mut n = count;
    let mut p = 0;
    // Stays `while`: walking a pair lists more pairs.
    while p < n {
        n = walk_symbols(ins, left, right, classes1, classes2, pairs, n, p)?;
        p += 1;
    }
    Ok(())
}

// Whether the two transducers are equivalent, or where two of their bodies clash; the list of pairs leads there.
pub fn search(
    ins: &[u8],
    starts1: &[u16],
    marks1: &[u8],
    starts2: &[u16],
    marks2: &[u8],
    classes1: &mut [u8],
    classes2: &mut [u8],
    pairs: &mut [Pair; 256],
) -> Result<(), Clash>
    requires { Forms (sides ins.now starts1.now marks1.now starts2.now marks2.now) (length classes1.old) (length classes2.old) × (256 ≤ length pairs.old) }
    ensures { Searches (sides ins.now starts1.now marks1.now starts2.now marks2.now) (length classes1.old) (length classes2.old) pairs.new result }
{
    start_classes(classes1, 0);
    start_classes(classes2, 128);
    let left = Tables {
        starts: starts1,
        marks: marks1,
        states: classes1.len(),
    };
    let right = Tables {
        starts: starts2,
        marks: marks2,
        states: classes2.len(),
    };
    let n = walk_pair(ins, left, 0, right, 0, classes1, classes2, pairs, 0, 0, 0)?;
    walk_pairs(ins, left, right, classes1, classes2, pairs, n)
}
