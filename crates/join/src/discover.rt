// The joined transducer: the right-hand sides of its states, which are pairs, spelt for the discovery.
ghost use Rattle.trees.specs.Alphabets.{inputs, outputs};
ghost use Rattle.join.specs.Inner.Discovering.{product_of, TablesOf, IsPairOf};

use discovery::discover::Spelled;
use runs::walk::{PAIR, Tables, body_of, note_ends};
use trees::alphabet::input_ranks;
use trees::bytes::Span;

// Two transducers, the second after the first: their alphabets, where their bodies start, and their marks.
#[derive(Clone, Copy)]
pub(crate) struct Product<'a> {
    pub first: &'a [u8],
    pub second: &'a [u8],
    pub starts1: &'a [u16; 2050],
    pub marks1: &'a [u8],
    pub starts2: &'a [u16; 2050],
    pub marks2: &'a [u8],
}

impl Spelled<16384, 64> for Product<'_> {
    ghost transducer = { product_of };

    ghost ins = { λ s. inputs s.first.now };

    ghost outs = { λ s. outputs s.second.now };

    ghost valid = { IsPairOf };

    ghost ready = { TablesOf };

    fn symbols(&self) -> usize {
        input_ranks(self.first).len()
    }

    fn spell_rhs(&self, c: usize, a: usize, letters: &mut [u32; 64]) -> Option<Span> {
        let b = body_of(self.first, c / PAIR, a);
        let from = 2 * usize::from(self.starts1[b]);
        let to = 2 * usize::from(self.starts1[b + 1]);
        let s = &self.marks1[from..to];
        let mut ends = [0u16; 64];
        note_ends(self.second, s, &mut ends);
        let tables = Tables {
            stock: self.second,
            starts: self.starts2,
            marks: self.marks2,
            s,
            ends: &ends,
        };
        let to = tables.apply(c % PAIR, 0, letters, 0)?;
        Some(Span { from: 0, to })
    }

    fn spell_initial(&self, letters: &mut [u32; 64]) -> Option<Span> {
        let from = 2 * usize::from(self.starts1[0]);
        let to = 2 * usize::from(self.starts1[1]);
        let s = &self.marks1[from..to];
        let mut ends = [0u16; 64];
        note_ends(self.second, s, &mut ends);
        let tables = Tables {
            stock: self.second,
            starts: self.starts2,
            marks: self.marks2,
            s,
            ends: &ends,
        };
        let start = usize::from(self.starts2[0]);
        let end = usize::from(self.starts2[1]);
        let to = tables.walk(start, end, 0, letters, 0)?;
        Some(Span { from: 0, to })
    }
}
