// The alphabets of the joined transducer: the inputs of the first stock and the outputs of the second.
ghost use Rattle.trees.specs.Alphabets.{Alphabets};
ghost use Rattle.join.specs.Inner.Parts.{StockJoined};

use formats::file::copy_at;
use trees::alphabet::{input_ranks, output_ranks};

// Writes them as a file to the start of the area, and says how long it is.
pub(crate) fn join_stocks(first: &[u8], second: &[u8], area: &mut [u8; 82]) -> usize
    requires { Alphabets first.now × Alphabets second.now }
    ensures { StockJoined first.now second.now area.new result }
{
    let ins = input_ranks(first);
    let outs = output_ranks(second);
    let at = 2 + ins.len();
    area[0] = ins.len() as u8;
    copy_at(ins, area, 1);
    area[at - 1] = outs.len() as u8;
    copy_at(outs, area, at);
    at + outs.len()
}
