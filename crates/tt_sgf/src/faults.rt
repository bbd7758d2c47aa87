//! What goes wrong: bytes that are no tree, entries that are no points, memory that was refused.

use std::alloc::{AllocError, AllocFailed};

/// Why `read_tree` answers no main line.
#[derive(Clone, Copy, Debug, PartialEq, Eq)]
pub enum SgfFault {
    /// There is no `(`, or what begins at the first one is no game tree.
    Syntax,
    /// The input has more than 1,048,576 bytes.
    TooLong,
    /// Memory was refused.
    NoMemory,
}

impl SgfFault {
    ghost use Rattle.std.specs.Prelude.{◌≡◌, ◌≢◌, []};
    ghost use Rattle.tt_sgf.specs.Faults.{code_of};

    /// The number of the refusal: 1 or 2, or 40 for want of memory.
    pub fn code(&self) -> u8
        ensures { result ≡ code_of self.now }
    {
        match self {
            SgfFault::Syntax => 1,
            SgfFault::TooLong => 2,
            SgfFault::NoMemory => 40,
        }
    }

    /// Why there is no main line, and how to go on, in English words. No newline ends them.
    pub fn reason(&self) -> &'static [u8]
        ensures { result.now ≢ [] }
    {
        match self {
            SgfFault::Syntax => {
                b"no game tree can be read: a bracket is missing, or the ] of a value"
            }
            SgfFault::TooLong => {
                b"the input has more than 1,048,576 bytes: give each problem a file of its own"
            }
            SgfFault::NoMemory => b"memory was refused",
        }
    }
}

impl From<AllocError> for SgfFault {
    ghost use Rattle.std.specs.Prelude.{◌≡◌};
    ghost use Rattle.tt_sgf.specs.declared.faults.SgfFault.TheVariants.{NoMemory};

    ghost from_gives = { λ _ e. e ≡ NoMemory };

    fn from(_: AllocError) -> SgfFault {
        SgfFault::NoMemory
    }
}

impl<T: Drop> From<AllocFailed<T>> for SgfFault {
    ghost use Rattle.std.specs.Prelude.{◌≡◌};
    ghost use Rattle.tt_sgf.specs.declared.faults.SgfFault.TheVariants.{NoMemory};

    ghost from_gives = { λ _ e. e ≡ NoMemory };

    fn from(_: AllocFailed<T>) -> SgfFault {
        SgfFault::NoMemory
    }
}

/// Memory was refused.
#[derive(Clone, Copy, Debug, PartialEq, Eq)]
pub struct NoMemory;

impl From<AllocError> for NoMemory {
    fn from(_: AllocError) -> NoMemory {
        NoMemory
    }
}

impl<T: Drop> From<AllocFailed<T>> for NoMemory {
    fn from(_: AllocFailed<T>) -> NoMemory {
        NoMemory
    }
}

/// A value of a point list is neither a point nor a rectangle of the board.
#[derive(Clone, Copy, Debug, PartialEq, Eq)]
pub struct BadPoint;
