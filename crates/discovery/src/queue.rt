// A transducer, body by body: its states are numbered as they are met.
ghost use Rattle.std.specs.Prelude.{◌+◌, ◌*◌, ◌≤◌, ◌<◌, [], ◌∷◌, ◌≡◌, length, get_or};
ghost use Rattle.discovery.specs.Inner.Queue.{Queue as Queued, Entered, Sayable, Copied};
ghost use Rattle.discovery.specs.Inner.Bodies.{counted, AddsBody};

// The letters of the calls on a child.
pub const CALL: usize = 65536;

// The states met, numbered in the order of first meeting.
// Stays: fixed arrays, since the library allocates nothing; a place is 0 for a state that has none, else its number and 1.
#[derive(Drop)]
pub struct Queue<const W: usize> {
    pub list: [u16; 192],
    pub place: [u8; W],
    pub met: usize,
}

impl<const W: usize> Queue<W> {
    // No state has been met.
    pub fn new() -> Queue<W>
        ensures { Queued result.list result.place result.met × (length result.place ≡ W) × (result.met ≡ 0) }
    {
        Queue {
            list: [0; 192],
            place: [0; W],
            met: 0,
        }
    }

    // Gives state c the next number, unless it has one.
    pub fn enter(&mut self, c: usize)
        requires { Queued self.old.list self.old.place self.old.met × (self.old.met < 192) × (c < length self.old.place) × (c < 65536) }
        ensures { Entered self.old.list self.old.place self.old.met c self.new.list self.new.place self.new.met }
    {
        if self.place[c] > 0 {
            return;
        }
        self.list[self.met] = c as u16;
        self.met += 1;
        self.place[c] = self.met as u8;
    }
}

// Writes the letter x as the mark number `at`.
fn copy_mark<const W: usize>(x: usize, queue: &mut Queue<W>, out: &mut [u8], at: usize)
    requires { Queued queue.old.list queue.old.place queue.old.met × (queue.old.met < 192) × Sayable (length queue.old.place) (x ∷ []) × (2 * at + 2 ≤ length out.old) }
    ensures { Copied (x ∷ []) queue.old.list queue.old.place queue.old.met out.old at queue.new.list queue.new.place queue.new.met out.new }
{
    if x < CALL {
        out[2 * at] = 0;
        out[2 * at + 1] = x as u8;
        return;
    }
    let c = x % CALL;
    queue.enter(c);
    out[2 * at] = (x / CALL) as u8;
    out[2 * at + 1] = queue.place[c] - 1;
}

// Writes the letters as marks, from mark number `at` on, calls by the numbers of the states called.
fn copy_marks<const W: usize>(s: &[u32], queue: &mut Queue<W>, out: &mut [u8], at: usize)
    requires { Queued queue.old.list queue.old.place queue.old.met × (queue.old.met + length s.now ≤ 192) × Sayable (length queue.old.place) s.now × (2 * (at + length s.now) ≤ length out.old) }
    ensures { Copied s.now queue.old.list queue.old.place queue.old.met out.old at queue.new.list queue.new.place queue.new.met out.new }
{
    for (j, x) in s.iter().enumerate() {
        copy_mark(*x as usize, queue, out, at + j);
    }
}

// Adds the letters as body b, unless that is over the limits.
pub fn add_body<const W: usize>(
    s: &[u32],
    b: usize,
    starts: &mut [u16],
    out: &mut [u8],
    queue: &mut Queue<W>,
) -> Option<()>
    requires { Queued queue.old.list queue.old.place queue.old.met × (queue.old.met ≤ 128) × Sayable (length queue.old.place) s.now × (b + 1 < length starts.old) × (get_or starts.old b 0 ≤ 8192) × (length out.old ≡ 16384) }
    ensures { AddsBody s.now b starts.old out.old queue.old.list queue.old.place queue.old.met starts.new out.new queue.new.list queue.new.place (counted result queue.new.met) }
{
    let at = usize::from(starts[b]);
    if s.len() > 64 {
        return None;
    }
    if at + s.len() > 8192 {
        return None;
    }
    copy_marks(s, queue, out, at);
    if queue.met > 128 {
        return None;
    }
    starts[b + 1] = (at + s.len()) as u16;
    Some(())
}
