// Translation (01: sewing): what the transducer of a file gives on an input tree.
ghost use Rattle.std.specs.Prelude.{Option, Some, None, ◌≡◌, ◌+◌, ◌/◌, ◌%◌, ◌^◌, ◌≤◌, ◌<◌, max, length, get_or, set, take, drop, replicate};
ghost use Rattle.std.proofs.lemmas.List.Edits.{sets};
ghost use Rattle.formats.specs.Inner.Layout.{body_number};
ghost use Rattle.transducer.specs.Answers.{Translates};
ghost use Rattle.transducer.specs.Inner.Machine.{Machine, TranslatesBy};
ghost use Rattle.transducer.specs.Inner.Written.{few_levels, note_key, Counted, Emitted};
ghost use Rattle.transducer.specs.Inner.Tables.{applied_by, walked_by, applied_levels_by, walked_levels_by, CanApply, CanWalk, NotedBy, Stands, EmittedBy};

use crate::children::{fill_ends, skip};
use crate::depth::fill_depths;
use formats::bodies::fill_starts;
use formats::file::{copy_at, counts_end, read_transducer};
use trees::alphabet::{input_ranks, output_ranks};
use trees::refusal::Refusal;
use trees::tree::measure_all;

// Where what was written ends, and how many levels it has, or 257 where there are more.
// Stays: 257, since an output of more levels that has room is refused by 10, and one that has none by 6.
#[derive(Clone, Copy, Debug, PartialEq, Eq)]
struct Emission {
    end: usize,
    levels: usize,
}

// What stays as it is during a translation: the ranks of the input symbols, the right-hand sides, where
// each of them starts, and the depths of their marks; the input tree, and where its subtrees end.
#[derive(Clone, Copy)]
struct Tables<'a> {
    ins: &'a [u8],
    starts: &'a [u16; 2050],
    marks: &'a [u8],
    depths: &'a [u8; 8192],
    s: &'a [u8],
    ends: &'a [u16; 4096],
}

// What is noted of states and trees: keys with levels, sizes, and where the output of each ends.
// Stay: tables of fixed size, and 0 for what is not noted, since nothing is allocated (docs/AREAS.md).
#[derive(Drop)]
struct Notes {
    keys: [u32; 4096],
    sizes: [u32; 4096],
    places: [u32; 4096],
}

// Where what is noted of state `q` and the tree at `p` stands.
fn slot(q: usize, p: usize) -> usize
    requires { (q < 256) × (p < 4096) }
    ensures { result < 4096 }
{
    (p + 61 * q) % 4096
}

// The key under which it is noted: 0 is none.
fn note_key(q: usize, p: usize) -> u32
    requires { (q < 256) × (p < 4096) }
    ensures { result ≡ note_key q p }
{
    (4096 * (q + 1) + p) as u32
}

// The key with the levels of what is noted under it.
fn noted(key: u32, levels: usize) -> u32
    requires { (key < 4194304) × (levels < 512) }
    ensures { (result / 512 ≡ key) × (result % 512 ≡ levels) }
{
    512 * key + levels as u32
}

// The larger of `levels` and of `more` levels at this depth, or 257 where that is more.
fn deeper(levels: usize, depth: u8, more: usize) -> usize
    requires { (levels ≤ 257) × (more ≤ 257) }
    ensures { result ≡ few_levels (max levels (depth + more)) }
{
    levels.max((usize::from(depth) + more).min(257))
}

// `have` and `n` more, or `None` where that passes `limit`.
fn added(have: usize, n: usize, limit: usize) -> Option<usize>
    requires { have ≤ limit }
    ensures { Counted have n limit result }
{
    if n > limit - have {
        return None;
    }
    Some(have + n)
}

// Copies the `n` symbols from `from` on to `at`, behind them.
// Stays: a loop, from the front. std's `copy_within` goes from the back here and takes a quarter more time, and its copy
// of a slice is C's `memmove`, which callers in C need not have (include/caplune.h).
fn copy_back(out: &mut [u8], from: usize, n: usize, at: usize)
    requires { (from + n ≤ at) × (at + n ≤ length out.old) }
    ensures { out.new ≡ sets out.old at (take n (drop from out.old)) }
{
    for k in 0..n {
        out[at + k] = out[from + k];
    }
}

// Writes one symbol at `at`, where there is room for it.
fn put(out: &mut [u8], at: usize, x: u8)
    ensures { out.new ≡ set out.old at x }
{
    if at < out.len() {
        out[at] = x;
    }
}

impl Tables<'_> {
    // The number of the right-hand side of the state `q` and of the symbol at `p` of the input tree.
    fn body_at(&self, q: usize, p: usize) -> usize
        requires { (p < length self.now.s.now) × (body_number self.now.ins.now q (get_or self.now.s.now p 0) < 2 ^ 64) }
        ensures { result ≡ body_number self.now.ins.now q (get_or self.now.s.now p 0) }
    {
        1 + q * self.ins.len() + usize::from(self.s[p])
    }

    // Writes what state `q` gives on the tree at `p`, from `at` on, if there is room for it, and says where
    // that ends and its levels, or `None` where it passes `limit`. What is noted to stand in `out` is copied
    // from there. The tree has at most `left` levels.
    #[cycle(apply_walk)]
    fn apply(
        &self,
        q: usize,
        p: usize,
        left: usize,
        at: usize,
        notes: &mut Notes,
        out: &mut [u8],
        limit: usize,
    ) -> Option<Emission>
        requires { CanApply self.now q p left × Stands self.now notes.old out.old at × (at ≤ limit) }
        ensures { EmittedBy self.now (applied_by self.now q p) (applied_levels_by self.now q p) at limit out.old out.new notes.new result }
    {
        let k = slot(q, p);
        let key = note_key(q, p);
        let note = notes.keys[k];
        if note / 512 == key {
            let n = notes.sizes[k] as usize;
            let end = added(at, n, limit)?;
            let levels = (note % 512) as usize;
            if end > out.len() {
                return Some(Emission { end, levels });
            }
            let place = notes.places[k] as usize;
            if place > 0 {
                copy_back(out, place - n, n, at);
                return Some(Emission { end, levels });
            }
        }
        let b = self.body_at(q, p);
        let from = usize::from(self.starts[b]);
        let to = usize::from(self.starts[b + 1]);
        let w = self.walk(from, to, p + 1, left - 1, at, notes, out, limit)?;
        if w.end <= u32::MAX as usize {
            notes.keys[k] = noted(key, w.levels);
            notes.sizes[k] = (w.end - at) as u32;
            notes.places[k] = w.end as u32;
        }
        Some(w)
    }

    // The same of the marks number `from` up to `to`, over the trees that stand from `below` on: each call
    // applies its state.
    #[cycle(apply_walk)]
    fn walk(
        &self,
        from: usize,
        to: usize,
        below: usize,
        left: usize,
        at: usize,
        notes: &mut Notes,
        out: &mut [u8],
        limit: usize,
    ) -> Option<Emission>
        requires { CanWalk self.now from to below left × Stands self.now notes.old out.old at × (at ≤ limit) }
        ensures { EmittedBy self.now (walked_by self.now below from to) (walked_levels_by self.now below from to) at limit out.old out.new notes.new result }
    {
        let ends = self.ends;
        let mut end = at;
        let mut levels = 0;
        for j in from..to {
            let i = usize::from(self.marks[2 * j]);
            let x = self.marks[2 * j + 1];
            let d = self.depths[j];
            if i == 0 {
                put(out, end, x);
                end = added(end, 1, limit)?;
                levels = deeper(levels, d, 1);
                continue;
            }
            let p = skip(ends, below, i - 1);
            let part = self.apply(usize::from(x), p, left, end, notes, out, limit)?;
            end = part.end;
            levels = deeper(levels, d, part.levels);
        }
        Some(Emission { end, levels })
    }

    // Walks the marks number 0 up to `to` over the whole input tree of `left` levels, where nothing is noted
    // to stand in `out` yet.
    fn fill(
        &self,
        to: usize,
        left: usize,
        notes: &mut Notes,
        out: &mut [u8],
        limit: usize,
    ) -> Option<Emission>
        requires { CanWalk self.now 0 to 0 left × NotedBy self.now notes.old × (notes.old.places ≡ replicate 4096 0) }
        ensures { EmittedBy self.now (walked_by self.now 0 0 to) (walked_levels_by self.now 0 0 to) 0 limit out.old out.new notes.new result }
    {
        self.walk(0, to, 0, left, 0, notes, out, limit)
    }

    // Writes what they give, if there is room and it has at most 256 levels, and says where that ends: to a
    // place of its own first, where an output of at most 8,192 symbols is copied from.
    fn emit(&self, to: usize, left: usize, out: &mut [u8]) -> Result<usize, Refusal>
        requires { CanWalk self.now 0 to 0 left }
        ensures { Emitted (walked_by self.now 0 0 to) (walked_levels_by self.now 0 0 to) out.old out.new result }
    {
        let mut notes = Notes {
            keys: [0; 4096],
            sizes: [0; 4096],
            places: [0; 4096],
        };
        let mut short = [0u8; 8192];
        let w = self
            .fill(to, left, &mut notes, &mut short, out.len().max(8192))
            .ok_or(Refusal::LongOutput)?;
        if w.end > out.len() {
            return Err(Refusal::LongOutput);
        }
        if w.levels > 256 {
            return Err(Refusal::DeepOutput);
        }
        if w.end <= 8192 {
            copy_at(&short[..w.end], out, 0);
            return Ok(w.end);
        }
        notes.places = [0; 4096];
        // It ends where it ended before: there is room for it.
        let again = self
            .fill(to, left, &mut notes, out, out.len())
            .ok_or(Refusal::LongOutput)?;
        Ok(again.end)
    }
}

// Translates by the transducer whose n, counts and marks these are.
fn translate_by(
    stock: &[u8],
    n: usize,
    counts: &[u8],
    marks: &[u8],
    s: &[u8],
    out: &mut [u8],
) -> Result<usize, Refusal>
    requires { Machine stock.now n counts.now marks.now }
    ensures { TranslatesBy stock.now n counts.now marks.now s.now out.old out.new result }
{
    let ins = input_ranks(stock);
    let bodies = 1 + n * ins.len();
    // Stay: arrays of fixed size, since nothing is allocated (docs/AREAS.md).
    let mut ends = [0u16; 4096];
    let mut starts = [0u16; 2050];
    let mut depths = [0u8; 8192];
    fill_starts(counts, bodies, &mut starts);
    let tree = measure_all(ins, s).ok_or(Refusal::BadTree)?;
    fill_ends(ins, s, &mut ends);
    fill_depths(output_ranks(stock), &starts, bodies, marks, &mut depths);
    let to = usize::from(starts[1]);
    let tables = Tables {
        ins,
        starts: &starts,
        marks,
        depths: &depths,
        s,
        ends: &ends,
    };
    tables.emit(to, tree.levels, out)
}

// Translates the tree of the file `design` by the transducer of the file `sheet`, into `out`.
pub fn translate(
    stock: &[u8],
    sheet: &[u8],
    design: &[u8],
    out: &mut [u8],
) -> Result<usize, Refusal>
    ensures { Translates stock.now sheet.now design.now out.old out.new result }
{
    let n = read_transducer(stock, sheet)?;
    let from = counts_end(stock, n);
    translate_by(stock, n, &sheet[1..from], &sheet[from..], design, out)
}
