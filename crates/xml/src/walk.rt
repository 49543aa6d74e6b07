// A walk over the code of an output tree, which gives its tags in the order of the text.
ghost use Rattle.std.specs.Prelude.{◌<◌, ◌≤◌, length, drop};
ghost use Rattle.trees.specs.Inner.Symbols.{trees};
ghost use Rattle.xml.specs.Inner.Walk.{frames, rest_behind, Starts, Walk, tags_left, Steps, NextTag};

use crate::tag::Tag;

// An open node: its symbol, and how many of its children are still to come.
#[derive(Clone, Copy, Debug, PartialEq, Eq)]
pub struct OpenNode {
    symbol: u8,
    to_come: u8,
}

// Which symbol comes next, and the nodes that are open, the last behind the others.
// Stays: an array with its length, since nothing is allocated.
#[derive(Drop)]
pub struct TagWalk {
    at: usize,
    depth: usize,
    nodes: [OpenNode; 4096],
}

impl TagWalk {
    // A walk at its start.
    pub(crate) fn start() -> TagWalk
        ensures { Starts result }
    {
        TagWalk {
            at: 0,
            depth: 0,
            nodes: [OpenNode {
                symbol: 0,
                to_come: 0,
            }; 4096],
        }
    }

    // The tag of the next symbol, the first of its node's tags.
    fn enter(&mut self, ranks: &[u8], s: &[u8]) -> Tag
        requires { Walk ranks.now s.now self.old × (self.old.at < length s.now) }
        ensures { Steps ranks.now s.now (rest_behind (frames self.old.nodes self.old.depth) (trees ranks.now (drop self.old.at s.now))) (tags_left s.now self.old) self.new result }
    {
        let symbol = s[self.at];
        let rank = ranks[usize::from(symbol)];
        self.at += 1;
        if rank == 0 {
            return Tag::Empty(symbol);
        }
        self.nodes[self.depth] = OpenNode {
            symbol,
            to_come: rank,
        };
        self.depth += 1;
        Tag::Opening(symbol)
    }

    // The next tag: that of the next symbol, or the one that closes the last open node, whose children have all come. There is none at the end.
    pub(crate) fn next_tag(&mut self, ranks: &[u8], s: &[u8]) -> Option<Tag>
        requires { Walk ranks.now s.now self.old }
        ensures { NextTag ranks.now s.now self.old self.new result }
    {
        if self.depth == 0 {
            if self.at == s.len() {
                return None;
            }
            return Some(self.enter(ranks, s));
        }
        let last = self.depth - 1;
        if self.at < s.len() && self.nodes[last].to_come > 0 {
            self.nodes[last].to_come -= 1;
            return Some(self.enter(ranks, s));
        }
        self.depth = last;
        Some(Tag::Closing(self.nodes[last].symbol))
    }
}
