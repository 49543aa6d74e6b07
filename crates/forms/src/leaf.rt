// The first leaf of an input alphabet.
ghost use Rattle.std.specs.Prelude.{◌≤◌, ◌<◌, ◌≡◌, length, get_or};
ghost use Rattle.trees.specs.Alphabets.{Leaf};

// The first input symbol of rank 0.
pub fn leaf_symbol(ins: &[u8]) -> usize
    requires { Leaf ins.now }
    ensures { (result < length ins.now) × (get_or ins.now result 0 ≡ 0) × ((l : Leaf ins.now) → result ≤ l.symbol) }
{
    ins.iter().position(|rank| *rank == 0).unwrap()
}
