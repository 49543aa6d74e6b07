// The levels of trees that stand one behind another, noted in a table as they are read from the last to the first.
ghost use Rattle.std.specs.Prelude.{◌≤◌, ◌≡◌, length};
ghost use Rattle.trees.specs.Inner.Measured.{noted, most};

// The most levels of the n trees that were noted last, of `behind`.
pub fn most_levels(levels: &[u16], behind: usize, n: usize) -> usize
    requires { (n ≤ behind) × (behind ≤ length levels.now) }
    ensures { result ≡ most n (noted levels.now behind) }
{
    let mut deep = 0;
    for level in &levels[behind - n..behind] {
        deep = deep.max(usize::from(*level));
    }
    deep
}
