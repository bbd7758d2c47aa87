//! The text on a game tree: what is said of a record, of a problem, of a certificate.
//!
//! | Module | What it has |
//! |---|---|
//! | `solving` | solves a tree's problem |
//! | `checking` | what is found on a certificate |
//! | `verdict`, `outcome` | the text of a verdict; the lines of a tree |
//! | `reasons` | the words of each refusal |
//! | `laws` | what the lines say of the definitions |

#![tactic(auto)]

mod checking;
pub mod laws;
mod outcome;
mod reasons;
mod solving;
mod verdict;

pub use checking::{CheckOutcome, check_input};
pub use outcome::{TreeOutcome, outcome_line, score};
pub use reasons::reason_of_refusal;
pub use solving::{solve, solve_alone};
