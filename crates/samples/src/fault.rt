// Why a line is not answered.
use std::io;

#[derive(Debug, Drop)]
pub(crate) enum Fault {
    BadLine,
    Io(io::Error),
}

impl From<io::Error> for Fault {
    fn from(e: io::Error) -> Fault {
        Fault::Io(e)
    }
}
