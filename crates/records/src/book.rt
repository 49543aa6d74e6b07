// The head and the records of a registry, what its calls answer, and what an entry leaves.

// How many transducers are held, how many bytes of the area are used, how many entries were answered.
#[repr(C)]
#[derive(Clone, Copy, Debug, PartialEq, Eq)]
pub struct Head {
    pub held: usize,
    pub used: usize,
    pub answered: u64,
}

// Where a body starts in the area, how many bytes it has, and how many entries were answered with its number.
#[repr(C)]
#[derive(Clone, Copy, Debug, PartialEq, Eq)]
pub struct Record {
    pub start: usize,
    pub size: usize,
    pub count: u64,
}

impl Record {
    // That of no body.
    pub const UNUSED: Record = Record {
        start: 0,
        size: 0,
        count: 0,
    };
}

// What an entry or a commit says beside its file: a commit, the number that it has to get.
#[derive(Clone, Copy, Debug, PartialEq, Eq)]
pub struct Submission {
    pub claim: Option<usize>,
}

// What a question answers: the number that an entry would get, and how long the clean file is.
#[derive(Clone, Copy, Debug, PartialEq, Eq)]
pub struct Foretold {
    pub number: usize,
    pub size: usize,
}

// What an accepted entry leaves: the head, and the record that is written with the number answered.
#[derive(Clone, Copy, Debug, PartialEq, Eq)]
pub struct Entry {
    pub head: Head,
    pub number: usize,
    pub new: Record,
}
