//! Solving: the legal turns of a problem are searched each by itself, and their results make the answer.
//!
//! `solve_one` searches them one after the other; `solve` by workers in threads, which share a `CertLog` of proofs. Each
//! answer that is settled holds a proof that stands at the problem's line, whatever the schedule of threads.
//!
//! | Module | What it has |
//! |---|---|
//! | `together`, `alone` | `solve`, with workers; `solve_one` and `solve_one_within_total`, without |
//! | `jobs` | a job for each legal turn, and its result |
//! | `results` | the results of all jobs |
//! | `answer` | the answer. In its folder: `conclude` makes it from results, `root_proof` from a kept proof |
//! | `workers` | threads that draw and search jobs |
//! | `gate` | the trait `Gate`: workers call it when a job begins and ends |
//! | `desk` | gives out jobs. In its folder: `rule`, its invariant; `grants`, how a seat gets grants |
//! | `log` | proofs that threads share. In its folder: `view` and `taken`, a thread's index of the log; `log_store`, a view as a `Store` |
//! | `table` | proofs by key, for other callers: no program here uses one. In its folder: `locked`, a table under a lock |
//! | `capacity` | the most workers, the most proofs that a store keeps |
//! | `laws` | facts about the definitions |

#![tactic(auto)]

mod alone;
mod answer;
mod capacity;
mod desk;
mod gate;
mod jobs;
pub mod laws;
mod log;
mod results;
mod table;
mod together;
mod workers;

pub use alone::{solve_one, solve_one_within_total};
pub use answer::{Answer, Stuck};
pub use capacity::MOST_WORKERS;
pub use desk::{Closed, Desk, Seat};
pub use gate::{Gate, NoGate};
pub use log::log_store::LogStore;
pub use log::view::View;
pub use log::{CertLog, Token};
pub use table::TableState;
pub use table::locked::{LockedStore, Table};
pub use together::{solve, solve_counting_grants};
