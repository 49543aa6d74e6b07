// The quotient of a transducer by classes of its states: the initial term and the right-hand sides of the least members, with classes for states.
ghost use Rattle.std.specs.Prelude.{◌+◌, ◌*◌, ◌≤◌, length};
ghost use Rattle.classes.specs.Inner.Classes.{Keyable};
ghost use Rattle.canonical.specs.Inner.Quotients.{Keys, Copyable, Copies, StateMergeable, MergesState, Mergeable, Merges};

// Writes the n marks from number `from` on, with classes for states, from mark number `at` on.
fn copy_keys(classes: &[u8], marks: &[u8], from: usize, n: usize, out: &mut [u8], at: usize)
    requires { Keyable classes.now marks.now from n × (2 * (at + n) ≤ length out.old) }
    ensures { Keys classes.now marks.now from (from + n) out.old at out.new }
{
    for k in 0..n {
        let i = marks[2 * (from + k)];
        let mut x = marks[2 * (from + k) + 1];
        if i > 0 {
            x = classes[usize::from(x)];
        }
        out[2 * (at + k)] = i;
        out[2 * (at + k) + 1] = x;
    }
}

// Copies body j, with classes for states, as body b of the new file.
fn add_keys(
    starts: &[u16],
    marks: &[u8],
    classes: &[u8],
    j: usize,
    b: usize,
    starts2: &mut [u16],
    out: &mut [u8],
)
    requires { Copyable starts.now marks.now classes.now j b starts2.old out.old }
    ensures { Copies starts.now marks.now classes.now j b starts2.old out.old starts2.new out.new }
{
    let at = usize::from(starts2[b]);
    let from = usize::from(starts[j]);
    let n = usize::from(starts[j + 1]) - from;
    copy_keys(classes, marks, from, n, out, at);
    starts2[b + 1] = (at + n) as u16;
}

// Writes the right-hand sides of class k: those of its least member.
fn merge_state(
    ins: &[u8],
    starts: &[u16],
    marks: &[u8],
    classes: &[u8],
    least: &[u8],
    k: usize,
    starts2: &mut [u16],
    out: &mut [u8],
)
    requires { StateMergeable ins.now starts.now marks.now classes.now least.now k starts2.old out.old }
    ensures { MergesState ins.now starts.now marks.now classes.now least.now k (length ins.now) starts2.old out.old starts2.new out.new }
{
    let p = usize::from(least[k]);
    for a in 0..ins.len() {
        let j = 1 + p * ins.len() + a;
        let b = 1 + k * ins.len() + a;
        add_keys(starts, marks, classes, j, b, starts2, out);
    }
}

// Writes the quotient: `starts2` says where its bodies start in `out`.
pub(crate) fn merge(
    ins: &[u8],
    outs: &[u8],
    starts: &[u16],
    marks: &[u8],
    classes: &[u8],
    least: &[u8],
    count: usize,
    starts2: &mut [u16],
    out: &mut [u8],
)
    requires { Mergeable ins.now outs.now starts.now marks.now classes.now least.now (length classes.now) count starts2.old out.old }
    ensures { Merges ins.now outs.now starts.now marks.now classes.now least.now (length classes.now) count starts2.new out.new }
{
    starts2[0] = 0;
    add_keys(starts, marks, classes, 0, 0, starts2, out);
    for k in 0..count {
        merge_state(ins, starts, marks, classes, least, k, starts2, out);
    }
}
