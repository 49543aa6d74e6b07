// The file of the two ranked alphabets (01: stock).
ghost use Rattle.std.specs.Prelude.{◌≡◌, ℕ, ◌<◌, ◌≤◌, length, get_or};
ghost use Rattle.trees.specs.Alphabets.{Ranks, Leaf, Alphabets, inputs, outputs};
ghost use Rattle.trees.specs.Answers.{ReadsAlphabets};
ghost use Rattle.trees.specs.Refusal.{Decides};

use crate::refusal::Refusal;

// How many input and output symbols there are.
#[derive(Clone, Copy, Debug, PartialEq, Eq)]
pub struct AlphabetSizes {
    pub inputs: usize,
    pub outputs: usize,
}

// Whether every rank is at most 4.
fn ranks_low(rs: &[u8]) -> bool
    ensures { Decides ((k : ℕ) → k < length rs.now → get_or rs.now k 0 ≤ 4) result }
{
    rs.iter().all(|rank| *rank <= 4)
}

// Whether some rank is 0.
fn has_leaf(rs: &[u8]) -> bool
    ensures { Decides (Leaf rs.now) result }
{
    rs.contains(&0)
}

// Whether these are the ranks of an alphabet of at most `most` symbols.
fn ranks_right(rs: &[u8], most: usize) -> bool
    ensures { Decides (Ranks most rs.now) result }
{
    if rs.len() < 1 {
        return false;
    }
    if rs.len() > most {
        return false;
    }
    ranks_low(rs)
}

// Whether the file is one of two alphabets.
pub fn alphabets_right(stock: &[u8]) -> bool
    ensures { Decides (Alphabets stock.now) result }
{
    if stock.len() < 2 {
        return false;
    }
    let p = usize::from(stock[0]);
    if stock.len() < p + 2 {
        return false;
    }
    if usize::from(stock[p + 1]) != stock.len() - (p + 2) {
        return false;
    }
    let ins = &stock[1..p + 1];
    if !ranks_right(ins, 16) {
        return false;
    }
    if !ranks_right(&stock[p + 2..], 64) {
        return false;
    }
    has_leaf(ins)
}

// The ranks of the input symbols, as a part of the file.
pub fn input_ranks(stock: &[u8]) -> &[u8]
    requires { Alphabets stock.now }
    ensures { result.now ≡ inputs stock.now }
{
    let p = usize::from(stock[0]);
    &stock[1..p + 1]
}

// The ranks of the output symbols, as a part of the file.
pub fn output_ranks(stock: &[u8]) -> &[u8]
    requires { Alphabets stock.now }
    ensures { result.now ≡ outputs stock.now }
{
    let p = usize::from(stock[0]);
    &stock[p + 2..]
}

// Reads the file of two alphabets.
pub fn read_alphabets(stock: &[u8]) -> Result<AlphabetSizes, Refusal>
    ensures { ReadsAlphabets stock.now result }
{
    if !alphabets_right(stock) {
        return Err(Refusal::BadAlphabets);
    }
    let ins = input_ranks(stock);
    let outs = output_ranks(stock);
    Ok(AlphabetSizes {
        inputs: ins.len(),
        outputs: outs.len(),
    })
}
