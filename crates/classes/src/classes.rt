// States by classes: whether two have the same right-hand sides up to the classes of the states called, the classes to start from,
// and their numbers.
ghost use Rattle.std.specs.Prelude.{◌+◌, ◌*◌, ◌≤◌, ◌<◌, ◌≡◌, length};
ghost use Rattle.formats.specs.Inner.Layout.{body_count};
ghost use Rattle.formats.specs.Inner.Marked.{part};
ghost use Rattle.trees.specs.Refusal.{Decides};
ghost use Rattle.classes.specs.Inner.Classes.{keyed, Keyable, SameBodies, SameStates, Classed, pattern_byte, Patterned, Numbers};

// Whether the n marks from number i on and those from number j on are the same up to classes.
fn same_marks(classes: &[u8], marks: &[u8], i: usize, j: usize, n: usize) -> bool
    requires { Keyable classes.now marks.now i n × Keyable classes.now marks.now j n }
    ensures { Decides (keyed classes.now (part marks.now i (i + n)) ≡ keyed classes.now (part marks.now j (j + n))) result }
{
    for k in 0..n {
        let c = marks[2 * (i + k)];
        if c != marks[2 * (j + k)] {
            return false;
        }
        let x = marks[2 * (i + k) + 1];
        let y = marks[2 * (j + k) + 1];
        if x != y {
            if c == 0 {
                return false;
            }
            if classes[usize::from(x)] != classes[usize::from(y)] {
                return false;
            }
        }
    }
    true
}

// Whether bodies i and j are the same up to classes.
fn same_bodies(ins: &[u8], starts: &[u16], marks: &[u8], classes: &[u8], i: usize, j: usize) -> bool
    requires { Classed ins.now starts.now marks.now classes.now × (i < body_count ins.now (length classes.now)) × (j < body_count ins.now (length classes.now)) }
    ensures { Decides (SameBodies starts.now marks.now classes.now i j) result }
{
    let from = usize::from(starts[i]);
    let other = usize::from(starts[j]);
    let size = usize::from(starts[i + 1]) - from;
    if usize::from(starts[j + 1]) - other != size {
        return false;
    }
    same_marks(classes, marks, from, other, size)
}

// Whether states p and q have the same right-hand sides up to classes.
pub fn same_states(
    ins: &[u8],
    starts: &[u16],
    marks: &[u8],
    classes: &[u8],
    p: usize,
    q: usize,
) -> bool
    requires { Classed ins.now starts.now marks.now classes.now × (p < length classes.now) × (q < length classes.now) }
    ensures { Decides (SameStates ins.now starts.now marks.now classes.now p q) result }
{
    for a in 0..ins.len() {
        let i = 1 + p * ins.len() + a;
        let j = 1 + q * ins.len() + a;
        if !same_bodies(ins, starts, marks, classes, i, j) {
            return false;
        }
    }
    true
}

// A byte of the marks number `from` up to `to`, which does not depend on the states called.
fn pattern_byte(marks: &[u8], from: usize, to: usize) -> u8
    requires { (from ≤ to) × (2 * to ≤ length marks.now) }
    ensures { result ≡ pattern_byte marks.now from to }
{
    let mut h: usize = 0;
    for j in from..to {
        let i = usize::from(marks[2 * j]);
        let x = if i > 0 {
            0
        } else {
            usize::from(marks[2 * j + 1])
        };
        h = (31 * h + 7 * i + x) % 256;
    }
    h as u8
}

// Gives each state the byte of its right-hand sides, which stand one after the other, for its class.
pub fn pattern_classes(ins: &[u8], starts: &[u16], marks: &[u8], classes: &mut [u8])
    requires { Classed ins.now starts.now marks.now classes.old }
    ensures { Patterned ins.now starts.now marks.now (length classes.old) classes.new }
{
    for p in 0..classes.len() {
        let b = 1 + p * ins.len();
        let from = usize::from(starts[b]);
        let to = usize::from(starts[b + ins.len()]);
        classes[p] = pattern_byte(marks, from, to);
    }
}

// Numbers the classes of `old` in the order of their least members: the new classes, and the least member of each. Says how many there are.
pub fn number_classes(old: &[u8], new: &mut [u8], least: &mut [u8]) -> usize
    requires { (length old.now ≤ 128) × (length new.old ≡ length old.now) × (128 ≤ length least.old) }
    ensures { Numbers old.now new.new least.new result }
{
    let mut numbers: [Option<u8>; 256] = [None; 256];
    let mut count = 0;
    for p in 0..old.len() {
        let c = usize::from(old[p]);
        new[p] = match numbers[c] {
            Some(number) => number,
            None => {
                let number = count as u8;
                numbers[c] = Some(number);
                least[count] = p as u8;
                count += 1;
                number
            }
        };
    }
    count
}
