// The tags of XML: fixed byte strings around the code of an output symbol, written to a text and compared with it at a position.
ghost use Rattle.std.specs.Prelude.{◌+◌, ◌<◌, ◌≤◌, ◌≡◌, length, drop};
ghost use Rattle.trees.specs.Refusal.{Decides};
ghost use Rattle.formats.specs.Inner.Written.{Wrote};
ghost use Rattle.xml.specs.Inner.Tags.{tag_text, Known, parts_text, HasParts, Begins};
ghost use Rattle.xml.specs.declared.tag.Tag.TheVariants as tags;

use codes::symbol::symbol_code;
use formats::file::write_word;

// A tag, with its output symbol: that of a node with no children, and those before and behind the children of another.
#[derive(Clone, Copy, Debug, PartialEq, Eq)]
pub enum Tag {
    Empty(u8),
    Opening(u8),
    Closing(u8),
}

// The output symbol of a tag, and what stands before and behind its code. How many bytes these are is part of the type, so that each kind of tag is written and compared by copies of fixed length.
#[derive(Clone, Copy, Debug, PartialEq, Eq)]
pub struct TagParts<const B: usize, const E: usize> {
    before: [u8; B],
    symbol: u8,
    behind: [u8; E],
}

impl<const B: usize, const E: usize> TagParts<B, E> {
    // Writes them to the text from `at` on, one behind the other, and says where they end.
    fn write(&self, text: &mut [u8], at: usize) -> usize
        requires { (self.now.symbol < 64) × (at + length (parts_text self.now) ≤ length text.old) }
        ensures { Wrote text.old text.new at result (parts_text self.now) }
    {
        let code = symbol_code(usize::from(self.symbol));
        let p = write_word(text, at, &self.before);
        let q = write_word(text, p, &code);
        write_word(text, q, &self.behind)
    }

    // Whether the text has them from `at` on, one behind the other.
    fn stand(&self, text: &[u8], at: usize) -> bool
        requires { (self.now.symbol < 64) × (at ≤ length text.now) }
        ensures { Decides (Begins (parts_text self.now) (drop at text.now)) result }
    {
        let code = symbol_code(usize::from(self.symbol));
        let before: &[u8] = &self.before;
        if !stands(text, at, before) {
            return false;
        }
        let p = at + before.len();
        stands(text, p, &code) && stands(text, p + 2, &self.behind)
    }
}

// `<A1/>`
fn empty(symbol: u8) -> TagParts<1, 2>
    ensures { HasParts (tags.Empty symbol) result }
{
    TagParts {
        before: *b"<",
        symbol,
        behind: *b"/>",
    }
}

// `<A1>`
fn opening(symbol: u8) -> TagParts<1, 1>
    ensures { HasParts (tags.Opening symbol) result }
{
    TagParts {
        before: *b"<",
        symbol,
        behind: *b">",
    }
}

// `</A1>`
fn closing(symbol: u8) -> TagParts<2, 1>
    ensures { HasParts (tags.Closing symbol) result }
{
    TagParts {
        before: *b"</",
        symbol,
        behind: *b">",
    }
}

// Writes a tag to the text from `at` on, and says where it ends.
pub(crate) fn write_tag(text: &mut [u8], at: usize, tag: Tag) -> usize
    requires { Known tag × (at + length (tag_text tag) ≤ length text.old) }
    ensures { Wrote text.old text.new at result (tag_text tag) }
{
    match tag {
        Tag::Empty(symbol) => empty(symbol).write(text, at),
        Tag::Opening(symbol) => opening(symbol).write(text, at),
        Tag::Closing(symbol) => closing(symbol).write(text, at),
    }
}

// Whether the text has the word from `at` on.
fn stands(text: &[u8], at: usize, word: &[u8]) -> bool
    requires { at ≤ length text.now }
    ensures { Decides (Begins word.now (drop at text.now)) result }
{
    text[at..].starts_with(word)
}

// Whether it has the tag there.
pub(crate) fn tag_stands(text: &[u8], at: usize, tag: Tag) -> bool
    requires { Known tag × (at ≤ length text.now) }
    ensures { Decides (Begins (tag_text tag) (drop at text.now)) result }
{
    match tag {
        Tag::Empty(symbol) => empty(symbol).stand(text, at),
        Tag::Opening(symbol) => opening(symbol).stand(text, at),
        Tag::Closing(symbol) => closing(symbol).stand(text, at),
    }
}

// How many bytes a tag has.
pub(crate) fn tag_size(tag: Tag) -> usize
    ensures { result ≡ length (tag_text tag) }
{
    match tag {
        Tag::Empty(_) => 5,
        Tag::Opening(_) => 4,
        Tag::Closing(_) => 5,
    }
}
