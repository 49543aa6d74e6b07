// What a state of the second transducer gives on a right-hand side of the first, as letters: symbols, and calls of pairs of states.
ghost use Rattle.std.specs.Prelude.{◌≡◌, ◌+◌, ◌*◌, ◌^◌, ◌≤◌, ◌<◌, List, [], ◌∷◌, length};
ghost use Rattle.trees.specs.Alphabets.{Alphabets, inputs};
ghost use Rattle.formats.specs.Inner.Layout.{body_number};
ghost use Rattle.runs.specs.Inner.Walked.{IsBody, Ended, WroteLetters};
ghost use Rattle.runs.specs.Inner.Tables.{applied_by, walked_by, CanApply, CanWalk};

use discovery::queue::CALL;
use transducer::children::skip;
use transducer::depth::children;
use trees::alphabet::input_ranks;

// The number of a pair of states is PAIR times the first's and the second's.
pub const PAIR: usize = 128;

// What stays as it is while a right-hand side is written: the second transducer, by its alphabets, where
// its bodies start, and its marks; the body `s` of the first, and where its terms end.
#[derive(Clone, Copy)]
pub struct Tables<'a> {
    pub stock: &'a [u8],
    pub starts: &'a [u16; 2050],
    pub marks: &'a [u8],
    pub s: &'a [u8],
    pub ends: &'a [u16; 64],
}

// The number of the right-hand side of state q for symbol a, under the alphabets of the stock.
pub fn body_of(stock: &[u8], q: usize, a: usize) -> usize
    requires { Alphabets stock.now × (q < 128) × (a < 256) }
    ensures { result ≡ body_number (inputs stock.now) q a }
{
    1 + q * input_ranks(stock).len() + a
}

// Notes where the term at each mark of the body `s` ends: from the last mark to the first, each behind its children.
pub fn note_ends(stock: &[u8], s: &[u8], ends: &mut [u16; 64])
    requires { Alphabets stock.now × IsBody (inputs stock.now) s.now × (length ends.old ≡ 64) }
    ensures { Ended (inputs stock.now) s.now ends.new }
{
    let ranks = input_ranks(stock);
    for k in (0..s.len() / 2).rev() {
        let n = usize::from(children(ranks, s[2 * k], s[2 * k + 1]));
        ends[k] = skip(ends, k + 1, n) as u16;
    }
}

// Writes one letter at `at` and says where it ends, or `None` where there is no room for it.
fn put(letters: &mut [u32; 64], at: usize, x: usize) -> Option<usize>
    requires { (at ≤ 64) × (x < 2 ^ 32) }
    ensures { WroteLetters (x ∷ []) at letters.old letters.new result }
{
    if at == 64 {
        return None;
    }
    letters[at] = x as u32;
    Some(at + 1)
}

impl Tables<'_> {
    // Writes what state p gives on the term at mark number k of the body, from `at` on, and says where
    // that ends, or `None` where there are more than 64 letters.
    #[cycle(apply_walk)]
    pub fn apply(&self, p: usize, k: usize, letters: &mut [u32; 64], at: usize) -> Option<usize>
        requires { CanApply self.now p k × (at ≤ 64) }
        ensures { WroteLetters (applied_by self.now p k) at letters.old letters.new result }
    {
        let i = usize::from(self.s[2 * k]);
        let x = usize::from(self.s[2 * k + 1]);
        if i > 0 {
            return put(letters, at, CALL * i + PAIR * x + p);
        }
        let b = body_of(self.stock, p, x);
        let from = usize::from(self.starts[b]);
        let to = usize::from(self.starts[b + 1]);
        self.walk(from, to, k + 1, letters, at)
    }

    // The same of the marks number `from` up to `to`, over the terms that stand from mark number `below`
    // of the body on: each call applies its state.
    #[cycle(apply_walk)]
    pub fn walk(
        &self,
        from: usize,
        to: usize,
        below: usize,
        letters: &mut [u32; 64],
        at: usize,
    ) -> Option<usize>
        requires { CanWalk self.now from to below × (at ≤ 64) }
        ensures { WroteLetters (walked_by self.now below from to) at letters.old letters.new result }
    {
        let ends = self.ends;
        let mut end = at;
        for j in from..to {
            let i = usize::from(self.marks[2 * j]);
            let x = usize::from(self.marks[2 * j + 1]);
            end = if i == 0 {
                put(letters, end, x)?
            } else {
                self.apply(x, skip(ends, below, i - 1), letters, end)?
            };
        }
        Some(end)
    }
}
