//! What is written of a tree or an input, and what is said of it beside.

ghost use Rattle.std.specs.Prelude.{◌≡◌, ◌++◌, ℕ, List, [], false, if◌then◌else◌, IfOk};
ghost use Rattle.tsumego_show.specs.Written.{IsWrittenOnNoTree};

use crate::mode::Mode;
use std::alloc::{AllocError, AllocFailed, Global};
use std::io;
use tt_sgf::NoMemory;

/// Why nothing is written.
#[derive(Clone, Copy, Debug, PartialEq, Eq)]
pub enum ShowFault {
    /// Memory was refused.
    NoMemory,
    /// A game tree would have been written that reads as another problem than the one that is meant. No input is known with which this
    /// happens.
    OtherProblem,
}

impl From<NoMemory> for ShowFault {
    fn from(_fault: NoMemory) -> ShowFault {
        ShowFault::NoMemory
    }
}

impl From<AllocError> for ShowFault {
    fn from(_fault: AllocError) -> ShowFault {
        ShowFault::NoMemory
    }
}

impl<T: Drop> From<AllocFailed<T>> for ShowFault {
    fn from(_fault: AllocFailed<T>) -> ShowFault {
        ShowFault::NoMemory
    }
}

/// Writing to memory fails for want of memory alone.
impl From<io::Error> for ShowFault {
    fn from(_fault: io::Error) -> ShowFault {
        ShowFault::NoMemory
    }
}

/// What is written on standard output of a tree or of all of an input, what is said of it on standard error, and whether something was
/// refused.
#[derive(Drop)]
pub struct Shown {
    pub text: Vec<u8>,
    pub said: Vec<u8>,
    pub refused: bool,
}

impl Shown {
    /// Nothing so far.
    pub fn nothing(alloc: Global) -> Shown
        ensures refused { result.refused ≡ false }
        ensures text { result.text.items ≡ [] }
    {
        Shown {
            text: Vec::new(alloc),
            said: Vec::new(alloc),
            refused: false,
        }
    }

    /// The exit status: 1 where something is refused, else 0.
    pub fn status(&self) -> u8
        ensures { result ≡ (if self.now.refused then 1 else 0) }
    {
        if self.refused { 1 } else { 0 }
    }

    /// Adds the words of a refusal: in front of a picture, which is for people, and else beside the text.
    pub fn add_words(&mut self, mode: Mode, words: &[u8]) -> Result<(), ShowFault>
        ensures { IfOk result (λ _. (text : List ℕ) × IsWrittenOnNoTree mode text
            × (self.new.text.items ≡ self.old.text.items ++ text)) }
    {
        match mode {
            Mode::Picture => self.text.extend_from_slice(words)?,
            Mode::Diagram | Mode::Variations(_) | Mode::Marks(_) => {
                self.said.extend_from_slice(words)?
            }
        }
        Ok(())
    }
}
