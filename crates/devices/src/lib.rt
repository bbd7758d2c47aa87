//! Reads standard input up to a limit and writes bytes, and says what failed. The programs stand on it.
//!
//! | Module | What it holds |
//! |---|---|
//! | `watched` | `Watched`: a reader or writer that remembers whether a call on it failed |
//! | `input` | `read_input`: the whole input, or as much as tells that it is too long |
//! | `output` | `write_bytes`: all bytes, or a beginning of them |
//! | `fault` | `RunFault`: why a run ended without its whole answer |
//! | `tests` | the words of each fault |
#![tactic(auto)]

mod fault;
mod input;
mod output;
mod watched;

pub use fault::RunFault;
pub use input::read_input;
pub use output::write_bytes;
pub use watched::Watched;

#[cfg(test)]
mod tests;
