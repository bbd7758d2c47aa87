//! Why a run ended without its whole answer.
use thiserror::Error;

/// A run's failure. Its text is one word, for a program to put behind its name.
#[derive(Clone, Copy, Debug, PartialEq, Eq, Error)]
pub enum RunFault {
    /// A read failed.
    #[error("input")]
    Input,
    /// A write failed or took no byte.
    #[error("output")]
    Output,
    /// Memory was refused.
    #[error("memory")]
    Memory,
}
