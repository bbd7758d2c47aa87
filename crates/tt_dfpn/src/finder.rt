//! The finder: depth-first proof-number search over one table for all histories. What it says is advice.
//!
//! Within the finder points are numbers, as in a `Point`; colours are small numbers inside the board alone, where enums cost
//! time.
//!
//! | Module | What it has |
//! |---|---|
//! | `search` | the search: `Finder`, its numbers and thresholds |
//! | `simulation`, `threats`, `life` | what the search tries first or may leave out: replies that refuted another turn, threats of life, life itself |
//! | `board`, `region` | a board whose moves are undone in place; region and targets on it |
//! | `zobrist`, `hash_history` | hashes of boards, and those of the boards so far |
//! | `transpositions`, `shared_table` | what is known of positions: a table that grows, over one that threads share |
//! | `workers` | a search that workers share |
//! | `advisor` | what the certifier is told along a line |

mod advisor;
mod board;
mod hash_history;
mod life;
mod region;
mod search;
mod shared_table;
mod simulation;
mod threats;
mod transpositions;
mod workers;
mod zobrist;

pub use advisor::Advisor;
pub use shared_table::MOST_DFPN_WORKERS;
pub use workers::{Finding, Guess, SharedSearch, SharedWork};
