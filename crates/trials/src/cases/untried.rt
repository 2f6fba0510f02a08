//! Why cases can't be tried.
use std::alloc::{AllocError, AllocFailed};
use std::fmt;
use tb_base::Memory;

/// Why a file of cases can't be tried.
#[derive(Clone, Copy, PartialEq, Eq, Debug)]
pub enum Untried {
    /// There was no memory.
    Memory,
    /// The file, or one of a feed that it names, can't be read.
    NoFile,
    /// The file isn't UTF-8.
    NoText,
    /// The line with this number, from 1, has no meaning where it stands.
    BadLine(usize),
}

impl fmt::Display for Untried {
    fn fmt<W: fmt::Write>(&self, f: &mut fmt::Formatter<W>) -> fmt::Result {
        match self {
            Untried::Memory => f.write_str("out of memory"),
            Untried::NoFile => f.write_str("it can't be read"),
            Untried::NoText => f.write_str("it isn't UTF-8"),
            Untried::BadLine(number) => write!(f, "line {number} has no meaning where it stands"),
        }
    }
}

impl From<Memory> for Untried {
    fn from(_memory: Memory) -> Untried {
        Untried::Memory
    }
}

impl From<AllocError> for Untried {
    fn from(_refused: AllocError) -> Untried {
        Untried::Memory
    }
}

impl<T: Drop> From<AllocFailed<T>> for Untried {
    fn from(_refused: AllocFailed<T>) -> Untried {
        Untried::Memory
    }
}
