// Input trees as preorder bytes (01: design): where a tree ends, its levels, and the file of one tree.
ghost use Rattle.std.specs.Prelude.{◌≡◌, drop};
ghost use Rattle.trees.specs.Answers.{ReadsTree};
ghost use Rattle.trees.specs.Inner.Symbols.{trees};
ghost use Rattle.trees.specs.Inner.Measured.{measured, MeasuredAll};

use crate::alphabet::{alphabets_right, input_ranks};
use crate::refusal::Refusal;

// Where a tree ends and how many levels it has.
#[derive(Clone, Copy, Debug, PartialEq, Eq)]
pub struct Extent {
    pub end: usize,
    pub levels: usize,
}

// How many nodes and levels a tree has.
#[derive(Clone, Copy, Debug, PartialEq, Eq)]
pub struct TreeSize {
    pub nodes: usize,
    pub levels: usize,
}

// Measures the tree at `at`, of at most `room` levels: where it ends and how many levels it has.
fn measure(ranks: &[u8], s: &[u8], at: usize, room: usize) -> Option<Extent>
    ensures { result ≡ measured room at (trees ranks.now (drop at s.now)) }
{
    if at >= s.len() {
        return None;
    }
    if room == 0 {
        return None;
    }
    let symbol = usize::from(s[at]);
    if symbol >= ranks.len() {
        return None;
    }
    let mut end = at + 1;
    let mut levels = 0;
    for _ in 0..ranks[symbol] {
        let child = measure(ranks, s, end, room - 1)?;
        end = child.end;
        levels = levels.max(child.levels);
    }
    Some(Extent {
        end,
        levels: levels + 1,
    })
}

// Measures the bytes as one input tree within the limits.
pub fn measure_all(ins: &[u8], s: &[u8]) -> Option<Extent>
    ensures { MeasuredAll ins.now s.now result }
{
    if s.len() > 4096 {
        return None;
    }
    let tree = measure(ins, s, 0, 512)?;
    if tree.end != s.len() {
        return None;
    }
    Some(tree)
}

// Reads the file of an input tree.
pub fn read_tree(stock: &[u8], design: &[u8]) -> Result<TreeSize, Refusal>
    ensures { ReadsTree stock.now design.now result }
{
    if !alphabets_right(stock) {
        return Err(Refusal::BadAlphabets);
    }
    let tree = measure_all(input_ranks(stock), design).ok_or(Refusal::BadTree)?;
    Ok(TreeSize {
        nodes: tree.end,
        levels: tree.levels,
    })
}
