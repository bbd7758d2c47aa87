//! df-pn by several workers, without locks: each has a finder of its own in a thread of its own, over one table, and then a certifier of
//! its own, over one store of proofs. The caller's thread puts the whole proof together.
//!
//! | Module | What it has |
//! |---|---|
//! | `certifying` | parts of the proof, as certifiers make them together |
//! | `rounds` | `Workers`: who wins, as they find in rounds, between which the table grows |

#![tactic(auto)]

mod certifying;
mod rounds;

pub use rounds::Workers;
