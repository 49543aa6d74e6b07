// The reader: the output tree (01: plan) whose XML a text is. It collects the output symbols of the tags, but for those that close, and compares
// the text, tag by tag, with the text of the tree that they are.
ghost use Rattle.std.specs.Prelude.{◌≤◌, ◌≡◌, length, get_or};
ghost use Rattle.trees.specs.Inner.Symbols.{tree};
ghost use Rattle.trees.specs.Refusal.{Decides};
ghost use Rattle.xml.specs.Xml.{xml};
ghost use Rattle.xml.specs.Answers.{ReadsXml};
ghost use Rattle.xml.specs.Inner.Kinds.{opens, Collects, Both};
ghost use Rattle.xml.specs.Inner.Measured.{WholeOutput};

use crate::measure::measure_output;
use crate::tag::{tag_size, tag_stands};
use crate::walk::TagWalk;
use codes::symbol::symbol_of;
use formats::file::copy_at;
use trees::alphabet::{alphabets_right, output_ranks};
use trees::refusal::Refusal;

// The byte at this place, or 0 where there is none.
fn byte_at(s: &[u8], i: usize) -> u8
    ensures { result ≡ get_or s.now i 0 }
{
    s.get(i).copied().unwrap_or(0)
}

// Whether a tag begins here that does not close a node.
fn tag_opens(text: &[u8]) -> bool
    ensures { result ≡ opens text.now }
{
    byte_at(text, 0) == b'<' && byte_at(text, 1) != b'/'
}

// Writes the output symbols of the text's tags, but for those that close, to the table, and says how many there are, or 4,096 if there are more. Where a tag has no symbol's
// code it writes 64, which is no symbol of any alphabet.
fn collect(text: &[u8], table: &mut [u8; 4096]) -> usize
    requires { length table.old ≡ 4096 }
    ensures { Collects text.now table.new result }
{
    let mut n = 0;
    for i in 0..text.len() {
        if n == 4096 {
            return n;
        }
        let tail = &text[i..];
        if tag_opens(tail) {
            table[n] = symbol_of(byte_at(tail, 1), byte_at(tail, 2)).unwrap_or(64);
            n += 1;
        }
    }
    n
}

// Whether the text is that of the tree whose code is s.
fn xml_stands(ranks: &[u8], s: &[u8], text: &[u8]) -> bool
    requires { WholeOutput ranks.now s.now × (length ranks.now ≤ 64) }
    ensures { Decides (xml (tree ranks.now s.now) ≡ text.now) result }
{
    let mut walk = TagWalk::start();
    let mut end = 0;
    while let Some(tag) = walk.next_tag(ranks, s) {
        if !tag_stands(text, end, tag) {
            return false;
        }
        end += tag_size(tag);
    }
    end == text.len()
}

// Whether s is the code of an output tree, and the text its XML.
fn is_xml(ranks: &[u8], s: &[u8], text: &[u8]) -> bool
    requires { length ranks.now ≤ 64 }
    ensures { Decides (Both ranks.now s.now text.now) result }
{
    measure_output(ranks, s).is_some() && xml_stands(ranks, s, text)
}

// Reads the XML of an output tree, and writes the tree to the start of the area `plan`: how many symbols it has.
pub fn read_xml(stock: &[u8], text: &[u8], plan: &mut [u8]) -> Result<usize, Refusal>
    ensures { ReadsXml stock.now text.now plan.old plan.new result }
{
    if !alphabets_right(stock) {
        return Err(Refusal::BadAlphabets);
    }
    // Stays: a table with its length, since nothing is allocated.
    let mut table = [0u8; 4096];
    let n = collect(text, &mut table);
    let kinds = &table[..n];
    let right = is_xml(output_ranks(stock), kinds, text);
    if !right {
        return Err(Refusal::BadOutput);
    }
    if plan.len() < n {
        return Err(Refusal::ShortTarget);
    }
    copy_at(kinds, plan, 0);
    Ok(n)
}
