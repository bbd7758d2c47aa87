//! Solves a problem by engines in order: df-pn where it is asked for, and then a search, in the caller's thread or by workers.
//!
//! | Module | What it has |
//! |---|---|
//! | `options` | how problems are solved |
//! | `solution` | what solving a problem gives |
//! | `solving` | `solve`: the problem, and each position after a legal turn if asked for, within one total; `solve_alone` without threads |
//! | `dfpn` | the solution that df-pn finds, first: in the caller's thread, or by workers |
//! | `searches` | the search that comes next: in the caller's thread, or by workers |
//! | `certificate_kinds` | the solution that a proof is, with a certificate of the kind that is asked for |

#![tactic(auto)]

mod certificate_kinds;
mod dfpn;
mod options;
mod searches;
mod solution;
mod solving;

pub use options::{CertKind, MOST_TOTAL, Options};
pub use solution::{Solution, Solved};
pub use solving::{solve, solve_alone};
