// Classes of equivalent states: those with like right-hand sides are one class at first, and are refined until states of one class have
// the same right-hand sides, up to the classes of the states called.
// A state is looked at again only if a state that it calls has another class than before.
ghost use Rattle.std.specs.Prelude.{ℕ, Option, Some, ◌+◌, ◌*◌, ◌≤◌, ◌<◌, ◌≡◌, length, get_or, set};
ghost use Rattle.trees.specs.Refusal.{Decides};
ghost use Rattle.classes.specs.Inner.Classes.{Classed, SameStates};
ghost use Rattle.merging.specs.Inner.Refining.{of_bodies, standing, Placed, FindsPlaced, PlacedMember, Member, Represents, FindsClass, Round, Places, Listed, Rounded, Flagged, StillFlagged, FlaggedCalls, Callers, Queue, FlagsCallers, Moved, FlagsMoved, AllPending, Continues, Refined, Startable, Stable, Refines, Settles};
ghost use Rattle.forms.specs.Inner.Tables.{Bounded};

use classes::classes::{number_classes, pattern_classes, same_states};
use formats::file::copy_at;

// The ranks of the input symbols, where the bodies of a transducer start, and their marks.
#[derive(Clone, Copy)]
struct Bodies<'a> {
    ins: &'a [u8],
    starts: &'a [u16],
    marks: &'a [u8],
}

impl Bodies<'_> {
    // Whether states p and q have the same right-hand sides up to classes.
    fn same_states(&self, classes: &[u8], p: usize, q: usize) -> bool
        requires { of_bodies Classed self.now classes.now × (p < length classes.now) × (q < length classes.now) }
        ensures { Decides (of_bodies SameStates self.now classes.now p q) result }
    {
        same_states(self.ins, self.starts, self.marks, classes, p, q)
    }
}

// A list of states. Stays: fixed arrays here and below, since the library allocates nothing.
#[derive(Drop)]
struct States {
    bytes: [u8; 128],
    len: usize,
}

const NO_STATES: States = States {
    bytes: [0; 128],
    len: 0,
};

impl States {
    // Lists state p too.
    fn push(&mut self, p: usize)
        requires { (self.old.len < 128) × (p < 128) }
        ensures { self.new ≡ record { bytes = set self.old.bytes self.old.len p; len = self.old.len + 1 } }
    {
        self.bytes[self.len] = p as u8;
        self.len += 1;
    }
}

// The first state of class c from number `from` on and below `to`.
fn find_member(classes: &[u8], c: u8, from: usize, to: usize) -> Option<usize>
    requires { to ≤ length classes.now }
    ensures { (q : ℕ) → result ≡ Some q → Member classes.now c q }
{
    for q in from..to {
        if classes[q] == c {
            return Some(q);
        }
    }
    None
}

// Where the representative of a class is looked for: halfway between p and n (from p on, the worst time is 15.7 times that of the independent version).
fn middle(p: usize, n: usize) -> usize
    requires { (p < n) × (n ≤ 128) }
{
    (p + n) / 2
}

// Which states are to be placed, and which placed state stands for each class.
#[derive(Drop)]
struct Placing {
    pending: [bool; 128],
    reps: [Option<u8>; 128],
}

impl Placing {
    // Makes all of n states pending, with no state that stands for a class.
    fn all_pending(&mut self, list: &mut States, n: usize)
        requires { n ≤ 128 }
        ensures { AllPending self.new.pending self.new.reps list.new.bytes n × (list.new.len ≡ n) }
    {
        list.len = 0;
        for q in 0..n {
            self.pending[q] = true;
            list.push(q);
        }
        self.reps = [None; 128];
    }

    // The first placed state of class c from number `from` on and below `to`.
    fn find_placed(&self, classes: &[u8], c: u8, from: usize, to: usize) -> Option<usize>
        requires { (to ≤ length classes.now) × (length classes.now ≤ 128) }
        ensures { FindsPlaced classes.now self.now.pending c from to result }
    {
        for q in from..to {
            if classes[q] == c && !self.pending[q] {
                return Some(q);
            }
        }
        None
    }

    // A placed state of class c, looked for from `start` on and then from 0 on.
    fn placed_member(&self, classes: &[u8], c: u8, start: usize) -> Option<usize>
        requires { (length classes.now ≤ 128) × (start ≤ length classes.now) }
        ensures { PlacedMember classes.now self.now.pending c result }
    {
        let behind = self.find_placed(classes, c, start, classes.len());
        if behind.is_some() {
            return behind;
        }
        self.find_placed(classes, c, 0, start)
    }

    // The representative of class c, of which p is: a placed state; where there is none, the first of those from the middle behind p on, which is placed from now on.
    fn represent(&mut self, classes: &[u8], c: u8, p: usize) -> usize
        requires { Member classes.now c p × (length classes.now ≤ 128) × (c < 128) × ((s : ℕ) → standing self.old.reps c ≡ Some s → s < length classes.now) }
        ensures { Represents classes.now self.old.pending self.old.reps c self.new.pending self.new.reps result }
    {
        let n = classes.len();
        let placed = match self.reps[usize::from(c)] {
            Some(r) => self.placed_member(classes, c, usize::from(r)),
            None => None,
        };
        let q = match placed {
            Some(q) => q,
            None => {
                let q = find_member(classes, c, middle(p, n), n).unwrap_or(p);
                self.pending[q] = false;
                q
            }
        };
        self.reps[usize::from(c)] = Some(q as u8);
        q
    }

    // The first class from `base` on and below `count` whose state was in the old class of p and has the same right-hand sides up to old classes.
    fn find_class(
        &self,
        bodies: &Bodies,
        old: &[u8],
        base: usize,
        count: usize,
        p: usize,
    ) -> Option<usize>
        requires { of_bodies Classed bodies.now old.now × (p < length old.now) × (count ≤ 128) × ((k s : ℕ) → standing self.now.reps k ≡ Some s → s < length old.now) }
        ensures { of_bodies FindsClass bodies.now old.now self.now.reps base count p result }
    {
        for k in base..count {
            if let Some(rep) = self.reps[k] {
                let q = usize::from(rep);
                if old[q] == old[p] && bodies.same_states(old, q, p) {
                    return Some(k);
                }
            }
        }
        None
    }

    // Places the pending state p: with the state that stands for its class, or in a class made in this round, or in one of its own. Says how many classes there are then.
    fn place(
        &mut self,
        bodies: &Bodies,
        old: &[u8],
        new: &mut [u8],
        base: usize,
        count: usize,
        p: usize,
    ) -> usize
        requires { of_bodies Classed bodies.now old.now × of_bodies Round bodies.now old.now new.old self.old.pending self.old.reps base count × (p < length old.now) × (Placed self.old.pending p → ⊥) }
        ensures { of_bodies Places bodies.now old.now new.old self.old.pending base count p new.new self.new.pending self.new.reps result }
    {
        let rep = self.represent(new, old[p], p);
        if !self.pending[p] {
            return count;
        }
        self.pending[p] = false;
        if bodies.same_states(old, rep, p) {
            return count;
        }
        match self.find_class(bodies, old, base, count, p) {
            Some(k) => {
                new[p] = k as u8;
                count
            }
            None => {
                new[p] = count as u8;
                self.reps[count] = Some(p as u8);
                count + 1
            }
        }
    }
}

// One round: places the pending states, which are among those of `list`, and lists in `moved` those that have another class then. Says how many classes there are then.
fn refine_round(
    bodies: &Bodies,
    old: &[u8],
    new: &mut [u8],
    placing: &mut Placing,
    list: &States,
    moved: &mut States,
    base: usize,
) -> usize
    requires { of_bodies Classed bodies.now old.now × of_bodies Round bodies.now old.now new.old placing.old.pending placing.old.reps base base × Listed placing.old.pending list.now.bytes (length old.now) list.now.len × ((q : ℕ) → q < length old.now → get_or new.old q 0 ≡ get_or old.now q 0) }
    ensures { of_bodies Rounded bodies.now old.now new.new placing.new.pending placing.new.reps moved.new.bytes base result moved.new.len }
{
    let mut count = base;
    moved.len = 0;
    for i in 0..list.len {
        let p = usize::from(list.bytes[i]);
        if placing.pending[p] {
            count = placing.place(bodies, old, new, base, count, p);
            if new[p] != old[p] {
                moved.push(p);
            }
        }
    }
    count
}

// Which states call a state, and bounds of these callers (without them the worst time is 3.9 times that of the independent version).
#[derive(Clone, Copy)]
struct Row {
    flags: [bool; 128],
    first: u8,
    end: u8,
}

// A row without callers.
const NO_CALLERS: Row = Row {
    flags: [false; 128],
    first: 128,
    end: 0,
};

// Flags state p as a caller of state r.
fn flag_call(callers: &mut [Row; 128], r: usize, p: usize)
    requires { (r < 128) × (p < 128) }
    ensures { StillFlagged callers.old callers.new × Flagged callers.new r p }
{
    let row = &mut callers[r];
    row.flags[p] = true;
    row.first = row.first.min(p as u8);
    row.end = row.end.max(p as u8 + 1);
}

// Flags state p as a caller of each state that the marks number `from` up to `to` call.
fn flag_calls(marks: &[u8], from: usize, to: usize, p: usize, callers: &mut [Row; 128])
    requires { (2 * to ≤ length marks.now) × (p < 128) }
    ensures { StillFlagged callers.old callers.new × FlaggedCalls marks.now from to p callers.new }
{
    for j in from..to {
        let r = usize::from(marks[2 * j + 1]);
        if marks[2 * j] > 0 && r < 128 {
            flag_call(callers, r, p);
        }
    }
}

// Flags the callers of all states; the right-hand sides of a state stand one after the other.
fn find_callers(bodies: &Bodies, n: usize, callers: &mut [Row; 128])
    requires { of_bodies Bounded bodies.now n }
    ensures { (length callers.new ≡ 128) × of_bodies Callers bodies.now n callers.new }
{
    for p in 0..n {
        let b = 1 + p * bodies.ins.len();
        let from = usize::from(bodies.starts[b]);
        let to = usize::from(bodies.starts[b + bodies.ins.len()]);
        flag_calls(bodies.marks, from, to, p, callers);
    }
}

// Makes the callers of state r among n states pending and lists those that were placed.
fn flag_callers(
    callers: &[Row; 128],
    r: usize,
    n: usize,
    pending: &mut [bool; 128],
    list: &mut States,
)
    requires { (r < 128) × (n ≤ 128) × Queue pending.old list.old.bytes n list.old.len }
    ensures { FlagsCallers callers.now r n pending.old pending.new list.new.bytes list.new.len }
{
    let row = &callers[r];
    for q in usize::from(row.first)..usize::from(row.end).min(n) {
        if row.flags[q] && !pending[q] {
            pending[q] = true;
            list.push(q);
        }
    }
}

// Gives the moved states their new classes and lists their callers as pending. No state is pending before.
fn flag_moved(
    callers: &[Row; 128],
    old: &mut [u8],
    new: &[u8],
    pending: &mut [bool; 128],
    list: &mut States,
    moved: &States,
)
    requires { Moved old.old new.now moved.now.bytes moved.now.len × (length new.now ≡ length old.old) × (length old.old ≤ 128) × ((q : ℕ) → q < length old.old → Placed pending.old q) }
    ensures { FlagsMoved callers.now old.old new.now old.new pending.new list.new.bytes list.new.len }
{
    list.len = 0;
    for j in 0..moved.len {
        let p = usize::from(moved.bytes[j]);
        old[p] = new[p];
        flag_callers(callers, p, old.len(), pending, list);
    }
}

// The callers of moved states are placed alone where they are at most 1 in 4 states (without this limit the worst time is 12.6 times that of the independent version).
const LISTED: usize = 4;

// Gives the moved states their new classes and lists the states to place in the next round: the callers of those, or all states where the callers are too many.
fn next_round(
    callers: &[Row; 128],
    old: &mut [u8],
    new: &[u8],
    placing: &mut Placing,
    list: &mut States,
    moved: &States,
)
    requires { Moved old.old new.now moved.now.bytes moved.now.len × (length new.now ≡ length old.old) × (length old.old ≤ 128) × ((q : ℕ) → q < length old.old → Placed placing.old.pending q) }
    ensures { Continues callers.now old.old new.now placing.old.reps old.new placing.new.pending placing.new.reps list.new.bytes list.new.len }
{
    let n = old.len();
    flag_moved(callers, old, new, &mut placing.pending, list, moved);
    if LISTED * list.len > n {
        placing.all_pending(list, n);
    }
}

// Refines the states round by round, after one in which states were moved, until none is.
fn refine_more(
    bodies: &Bodies,
    old: &mut [u8],
    new: &mut [u8],
    placing: &mut Placing,
    list: &mut States,
    moved: &mut States,
    count: usize,
)
    requires { of_bodies Refined bodies.now old.old new.old placing.old.pending placing.old.reps list.old.bytes moved.old.bytes count moved.old.len }
    ensures { of_bodies Stable bodies.now (length old.old) old.new }
{
    let mut callers = [NO_CALLERS; 128];
    find_callers(bodies, old.len(), &mut callers);
    let mut base = count;
    // Stays: rounds go on until one moves no state.
    while moved.len > 0 {
        next_round(&callers, old, new, placing, list, moved);
        base = refine_round(bodies, old, new, placing, list, moved, base);
    }
}

// Refines the states of each of `count` classes, which `old` and `new` hold, until states of one class have the same right-hand sides up to classes; says whether any was moved.
fn refine_classes(bodies: &Bodies, old: &mut [u8], new: &mut [u8], count: usize) -> bool
    requires { of_bodies Startable bodies.now old.old new.old count }
    ensures { of_bodies Refines bodies.now old.old old.new new.new result }
{
    let mut placing = Placing {
        pending: [false; 128],
        reps: [None; 128],
    };
    let mut list = NO_STATES;
    let mut moved = NO_STATES;
    placing.all_pending(&mut list, old.len());
    let classes = refine_round(bodies, old, new, &mut placing, &list, &mut moved, count);
    if moved.len == 0 {
        return false;
    }
    refine_more(
        bodies,
        old,
        new,
        &mut placing,
        &mut list,
        &mut moved,
        classes,
    );
    true
}

// The classes of equivalent states, and the least member of each; says how many classes there are. `old` has a byte for each state.
pub fn settle_classes(
    ins: &[u8],
    starts: &[u16],
    marks: &[u8],
    old: &mut [u8],
    new: &mut [u8],
    least: &mut [u8],
) -> usize
    requires { Classed ins.now starts.now marks.now old.old × (length new.old ≡ length old.old) × (128 ≤ length least.old) }
    ensures { Settles ins.now starts.now marks.now new.new least.new (length old.old) result }
{
    let bodies = Bodies { ins, starts, marks };
    pattern_classes(ins, starts, marks, old);
    let count = number_classes(old, new, least);
    copy_at(new, old, 0);
    if refine_classes(&bodies, old, new, count) {
        return number_classes(old, new, least);
    }
    count
}
