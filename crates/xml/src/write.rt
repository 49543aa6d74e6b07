// The writer: an output tree (01: plan) as XML.
ghost use Rattle.std.specs.Prelude.{◌≤◌, ◌≡◌, length};
ghost use Rattle.formats.specs.Inner.Judging.{Put};
ghost use Rattle.trees.specs.Inner.Symbols.{tree};
ghost use Rattle.xml.specs.Xml.{xml};
ghost use Rattle.xml.specs.Answers.{WritesXml};
ghost use Rattle.xml.specs.Inner.Measured.{WholeOutput, node_size};

use crate::measure::measure_output;
use crate::tag::write_tag;
use crate::walk::TagWalk;
use trees::alphabet::{alphabets_right, output_ranks};
use trees::refusal::Refusal;

// How many bytes the tags of a node with so many children have.
fn node_size(rank: usize) -> usize
    ensures { result ≡ node_size rank }
{
    if rank == 0 { 5 } else { 9 }
}

// How many bytes the text of the tree has whose code is s: those of the tags of each node.
fn text_size(ranks: &[u8], s: &[u8]) -> usize
    requires { WholeOutput ranks.now s.now }
    ensures { result ≡ length (xml (tree ranks.now s.now)) }
{
    let mut size = 0;
    for symbol in s {
        size += node_size(usize::from(ranks[usize::from(*symbol)]));
    }
    size
}

// Writes the text of the tree whose code is s to the start of `text`, and says how long it is.
fn put_xml(ranks: &[u8], s: &[u8], text: &mut [u8]) -> usize
    requires { WholeOutput ranks.now s.now × (length ranks.now ≤ 64) × (length (xml (tree ranks.now s.now)) ≤ length text.old) }
    ensures { Put (xml (tree ranks.now s.now)) text.old text.new result }
{
    let mut walk = TagWalk::start();
    let mut end = 0;
    while let Some(tag) = walk.next_tag(ranks, s) {
        end = write_tag(text, end, tag);
    }
    end
}

// Writes an output tree as XML to the start of the area `text`: how long its text is.
pub fn write_xml(stock: &[u8], plan: &[u8], text: &mut [u8]) -> Result<usize, Refusal>
    ensures { WritesXml stock.now plan.now text.old text.new result }
{
    if !alphabets_right(stock) {
        return Err(Refusal::BadAlphabets);
    }
    let ranks = output_ranks(stock);
    if measure_output(ranks, plan).is_none() {
        return Err(Refusal::BadOutput);
    }
    let size = text_size(ranks, plan);
    if text.len() < size {
        return Err(Refusal::ShortTarget);
    }
    Ok(put_xml(ranks, plan, text))
}
