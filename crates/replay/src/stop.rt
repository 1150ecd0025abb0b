// Why a run stops before its input ends.
use std::io;

// A case that is cut off, goes beyond a limit, or is none.
#[derive(Clone, Copy, Debug)]
pub struct BadCase;

#[derive(Debug, Drop)]
pub enum Stop {
    BadCase,
    NotPrinted(io::Error),
}

impl From<BadCase> for Stop {
    fn from(_: BadCase) -> Stop {
        Stop::BadCase
    }
}

impl From<io::Error> for Stop {
    fn from(error: io::Error) -> Stop {
        Stop::NotPrinted(error)
    }
}
