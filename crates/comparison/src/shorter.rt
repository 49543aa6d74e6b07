// The bodies of the alike one with fewer marks, as a part of the caller's own file.
ghost use Rattle.comparison.specs.Answers.{HandsShorter};

use crate::compare::compare;
use formats::file::transducer_marks;

// Of two transducers that are equivalent, the marks of the one with fewer, of the first if both have as many; an empty part of two that differ, and on a refusal.
pub fn shorter<'a>(stock: &[u8], first: &'a [u8], second: &'a [u8]) -> &'a [u8]
    ensures { HandsShorter stock.now first.now second.now result.now }
{
    let mut tree = [0u8; 1536];
    let mut address = [0u8; 16128];
    match compare(stock, first, second, &mut tree, &mut address) {
        Ok(None) => {
            let left = transducer_marks(stock, first);
            let right = transducer_marks(stock, second);
            if right.len() < left.len() {
                right
            } else {
                left
            }
        }
        Ok(Some(_)) => &first[..0],
        Err(_) => &first[..0],
    }
}
