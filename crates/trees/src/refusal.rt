// Why an input is refused: the table of document 01, and the numbers that 02 adds. `refusal_number` of specs/Refusal.antt gives the number of each.
ghost use Rattle.std.specs.Prelude.{◌≡◌};
ghost use Rattle.trees.specs.Refusal.{refusal_number};

#[derive(Clone, Copy, Debug, PartialEq, Eq)]
pub enum Refusal {
    ShortArea,
    BadAlphabets,
    BadTree,
    BadContents,
    BadBody,
    LongOutput,
    OverLimits,
    FullRegistry,
    BadRegistry,
    DeepOutput,
    BadOutput,
    ShortTarget,
    OtherNumber,
    OtherAlphabet,
    JoinOverLimits,
}

// The number of a refusal in that table.
impl From<Refusal> for u32 {
    ghost from_gives = { λ r n. n ≡ refusal_number r };

    fn from(r: Refusal) -> u32 {
        match r {
            Refusal::ShortArea => 1,
            Refusal::BadAlphabets => 2,
            Refusal::BadTree => 3,
            Refusal::BadContents => 4,
            Refusal::BadBody => 5,
            Refusal::LongOutput => 6,
            Refusal::OverLimits => 7,
            Refusal::FullRegistry => 8,
            Refusal::BadRegistry => 9,
            Refusal::DeepOutput => 10,
            Refusal::BadOutput => 11,
            Refusal::ShortTarget => 12,
            Refusal::OtherNumber => 13,
            Refusal::OtherAlphabet => 16,
            Refusal::JoinOverLimits => 17,
        }
    }
}
