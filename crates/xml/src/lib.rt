// Output trees (01: plans) as XML (02, F-4): the measure, the tags, the writer and the reader.
#![tactic(auto)]

pub mod measure;
pub mod read;
pub mod tag;
pub mod walk;
pub mod write;
