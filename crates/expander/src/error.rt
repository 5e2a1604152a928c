use std::alloc::{AllocError, AllocFailed};
use std::error::Error;
use std::fmt;

// Why there are no rows.
#[derive(Clone, Copy, Debug, PartialEq)]
pub enum ExpandError {
    BadRequest,
    BadTree,
    BadPoint,
    NoMemory,
}

impl fmt::Display for ExpandError {
    fn fmt<W: fmt::Write>(&self, f: &mut fmt::Formatter<W>) -> fmt::Result {
        f.write_str(match self {
            ExpandError::BadRequest => "the request is malformed",
            ExpandError::BadTree => "the tree is malformed",
            ExpandError::BadPoint => "the decision point is malformed",
            ExpandError::NoMemory => "out of memory",
        })
    }
}

impl Error for ExpandError {}

impl From<AllocError> for ExpandError {
    fn from(_error: AllocError) -> ExpandError {
        ExpandError::NoMemory
    }
}

impl<T: Drop> From<AllocFailed<T>> for ExpandError {
    fn from(_refused: AllocFailed<T>) -> ExpandError {
        ExpandError::NoMemory
    }
}

// Why some bytes were not read.
#[derive(Clone, Copy, Debug, PartialEq)]
pub enum Unread {
    Malformed,
    NoMemory,
}

impl Unread {
    // What a file that was not read is called, if it is malformed.
    pub(crate) fn named(self, malformed: ExpandError) -> ExpandError {
        match self {
            Unread::Malformed => malformed,
            Unread::NoMemory => ExpandError::NoMemory,
        }
    }
}

impl From<AllocError> for Unread {
    fn from(_error: AllocError) -> Unread {
        Unread::NoMemory
    }
}

impl<T: Drop> From<AllocFailed<T>> for Unread {
    fn from(_refused: AllocFailed<T>) -> Unread {
        Unread::NoMemory
    }
}
