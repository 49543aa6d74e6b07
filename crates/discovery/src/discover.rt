// The states of a transducer, numbered as they are first met, and its bodies put into a table: for any transducer whose states
// are numbers and whose right-hand sides can be spelt.
ghost use Rattle.std.specs.Prelude.{ℕ, ◌+◌, ◌≤◌, ◌<◌, List, ◌≡◌, length};
ghost use Rattle.theory.specs.Transducer.{Transducer};
ghost use Rattle.discovery.specs.Inner.Discovering.{Numbered, Spells, Empty, Found, Adds, AddsAll, Discovers};
ghost use Rattle.discovery.specs.Inner.Bodies.{counted};

use crate::queue::{Queue, add_body};
use trees::bytes::Span;

// A transducer whose states are numbers below W, and whose right-hand sides are spelt into an area of L letters.
pub trait Spelled<const W: usize, const L: usize> {
    // Which transducer it is, its alphabets, which numbers are its states, and what has to hold of what it is read from.
    ghost transducer: { Self → Transducer ℕ };

    ghost ins: { Self → List ℕ };

    ghost outs: { Self → List ℕ };

    ghost valid: { Self → ℕ → Type 0 };

    ghost ready: { Self → Type 0 };

    // How many input symbols there are.
    fn symbols(&self) -> usize
        requires { ready self.now }
        ensures { result ≡ length (ins self.now) };

    // Spells the initial term: where its letters stand, or that they are more than a body has.
    fn spell_initial(&self, letters: &mut [u32; L]) -> Option<Span>
        requires { ready self.now }
        ensures { Spells (transducer self.now).initial letters.new result };

    // Spells the right-hand side of state c for symbol a likewise.
    fn spell_rhs(&self, c: usize, a: usize, letters: &mut [u32; L]) -> Option<Span>
        requires { ready self.now × valid self.now c × (a < length (ins self.now)) }
        ensures { Spells ((transducer self.now).rhs c a) letters.new result };
}

// Adds the initial term.
fn add_initial<S: Spelled<W, L>, const W: usize, const L: usize>(
    source: &S,
    letters: &mut [u32; L],
    starts: &mut [u16],
    out: &mut [u8],
    queue: &mut Queue<W>,
) -> Option<()>
    requires { S.ready source.now × Numbered (S.ins source.now) (S.outs source.now) W (S.transducer source.now) (S.valid source.now) × Empty W starts.old out.old queue.old.list queue.old.place × (queue.old.met ≡ 0) }
    ensures { Adds (S.ins source.now) (S.outs source.now) (S.transducer source.now) W 0 starts.new out.new queue.new.list queue.new.place (counted result queue.new.met) }
{
    let span = source.spell_initial(letters)?;
    let spelt = &letters[..];
    add_body(&spelt[span.from..span.to], 0, starts, out, queue)
}

// Adds the right-hand sides of the state number p.
fn add_state<S: Spelled<W, L>, const W: usize, const L: usize>(
    source: &S,
    letters: &mut [u32; L],
    p: usize,
    starts: &mut [u16],
    out: &mut [u8],
    queue: &mut Queue<W>,
) -> Option<()>
    requires { S.ready source.now × Numbered (S.ins source.now) (S.outs source.now) W (S.transducer source.now) (S.valid source.now) × Found (S.ins source.now) (S.transducer source.now) W p starts.old out.old queue.old.list queue.old.place queue.old.met × (p < queue.old.met) }
    ensures { Adds (S.ins source.now) (S.outs source.now) (S.transducer source.now) W (p + 1) starts.new out.new queue.new.list queue.new.place (counted result queue.new.met) }
{
    let symbols = source.symbols();
    let c = usize::from(queue.list[p]);
    for a in 0..symbols {
        let span = source.spell_rhs(c, a, letters)?;
        let b = 1 + p * symbols + a;
        let spelt = &letters[..];
        add_body(&spelt[span.from..span.to], b, starts, out, queue)?;
    }
    Some(())
}

// Adds the right-hand sides of every state that is met.
fn add_states<S: Spelled<W, L>, const W: usize, const L: usize>(
    source: &S,
    letters: &mut [u32; L],
    starts: &mut [u16],
    out: &mut [u8],
    queue: &mut Queue<W>,
) -> Option<()>
    requires { S.ready source.now × Numbered (S.ins source.now) (S.outs source.now) W (S.transducer source.now) (S.valid source.now) × Found (S.ins source.now) (S.transducer source.now) W 0 starts.old out.old queue.old.list queue.old.place queue.old.met }
    ensures { AddsAll (S.ins source.now) (S.outs source.now) (S.transducer source.now) W starts.new out.new queue.new.list queue.new.place (counted result queue.new.met) }
{
    let mut p = 0;
    // The queue grows while its states are read.
    while p < queue.met {
        add_state(source, letters, p, starts, out, queue)?;
        p += 1;
    }
    Some(())
}

// Puts the bodies into a table: `starts` says where they start in `out`. How many states there are, or that the form is over the limits of a file.
pub fn discover<S: Spelled<W, L>, const W: usize, const L: usize>(
    source: &S,
    starts: &mut [u16],
    out: &mut [u8],
) -> Option<usize>
    requires { S.ready source.now × Numbered (S.ins source.now) (S.outs source.now) W (S.transducer source.now) (S.valid source.now) × (L ≤ 4096) × (2050 ≤ length starts.old) × (length out.old ≡ 16384) }
    ensures { Discovers (S.ins source.now) (S.outs source.now) (S.transducer source.now) starts.new out.new result }
{
    let mut letters = [0u32; L];
    let mut queue = Queue::new();
    starts[0] = 0;
    add_initial(source, &mut letters, starts, out, &mut queue)?;
    add_states(source, &mut letters, starts, out, &mut queue)?;
    Some(queue.met)
}
