// Which states call a state, and which states are to be cut again: 128 flags in one word.
ghost use Rattle.std.specs.Prelude.{◌*◌, ◌^◌, ◌≤◌, ◌<◌, length, MatchOption};
ghost use Rattle.forms.specs.Inner.Tables.{Bounded};
ghost use Rattle.prefixes.specs.Inner.Heads.{weight};

use crate::tables::Tables;

// Sets the flag `bit` for each state that the marks number `from` up to `to` call.
fn flag_calls(marks: &[u8], from: usize, to: usize, bit: u128, callers: &mut [u128; 128])
    requires { 2 * to ≤ length marks.now }
{
    for j in from..to {
        let q = usize::from(marks[2 * j + 1]);
        if marks[2 * j] > 0 && q < 128 {
            callers[q] |= bit;
        }
    }
}

// The flags of the callers of each of n states, of which the state p has flag n - 1 - p. The right-hand sides of a state stand one after the other.
pub(crate) fn find_callers(tables: &Tables, n: usize) -> [u128; 128]
    requires { Bounded tables.now.ins.now tables.now.starts.now tables.now.marks.now n }
{
    let mut callers = [0; 128];
    for p in 0..n {
        let b = 1 + p * tables.ins.len();
        let from = usize::from(tables.starts[b]);
        let to = usize::from(tables.starts[b + tables.ins.len()]);
        flag_calls(tables.marks, from, to, 1 << (n - 1 - p), &mut callers);
    }
    callers
}

// The flags that are set of 128: in this round and in the next.
#[derive(Clone, Copy, Debug, PartialEq, Eq)]
pub struct Flags {
    pub round: u128,
    pub next: u128,
}

impl Flags {
    // Takes away the first flag that is set in this round and says which it is; if none of the first n is set, this round becomes the next.
    pub(crate) fn take_first(&mut self, n: usize) -> Option<usize>
        requires { n ≤ 128 }
        ensures { MatchOption result (Unit {0}) (λ f. (f < n) × (weight self.new.round self.new.next < weight self.old.round self.old.next)) }
    {
        if self.round.trailing_zeros() as usize >= n {
            self.round = self.next;
            self.next = 0;
        }
        let first = self.round.trailing_zeros() as usize;
        if first >= n {
            return None;
        }
        self.round &= self.round - 1;
        Some(first)
    }

    // The flags with those of a word in the next round.
    pub(crate) fn with(self, word: u128) -> Flags
        ensures { weight result.round result.next < 2 ^ 129 }
    {
        Flags {
            round: self.round,
            next: self.next | word,
        }
    }
}
