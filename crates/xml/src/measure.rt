// Whether bytes are the code of one output tree (01: plan): where it ends and how many levels it has. They are read from the last symbol to the first, with a table
// of the levels of each tree that stands behind: a tree may have 4,096 levels, and no function calls itself.
ghost use Rattle.xml.specs.Inner.Measured.{MeasuredOutput};

use trees::levels::most_levels;
use trees::tree::Extent;

// Measures the bytes as one output tree of at most 4,096 nodes. A symbol takes as many of the trees behind it as its rank says, and is one, a level higher.
pub(crate) fn measure_output(ranks: &[u8], s: &[u8]) -> Option<Extent>
    ensures { MeasuredOutput ranks.now s.now result }
{
    if s.len() > 4096 {
        return None;
    }
    // Stays: a table with its length, since nothing is allocated.
    let mut levels = [0u16; 4096];
    let mut behind: usize = 0;
    for symbol in s.iter().rev() {
        let rank = usize::from(*ranks.get(usize::from(*symbol))?);
        if rank > behind {
            return None;
        }
        let deep = most_levels(&levels, behind, rank);
        behind -= rank;
        levels[behind] = (deep + 1) as u16;
        behind += 1;
    }
    if behind != 1 {
        return None;
    }
    Some(Extent {
        end: s.len(),
        levels: usize::from(levels[0]),
    })
}
