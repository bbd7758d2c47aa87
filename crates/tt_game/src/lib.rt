//! The game of Go problems under Tromp-Taylor rules: histories of colourings with positional superko, legal turns, who
//! has won, and how the main line of an SGF game tree becomes a record or a problem. Its tests stand in `tt_tests`:
//! `record_tests`, `problem_tests`, `fault_tests` and `turn_tests`.
//!
//! | Module | What it has |
//! |---|---|
//! | `nodes`, `reading` | what the properties of a node say, and which of them can't be read |
//! | `records`, `problems` | what a main line comes to: a record, a problem |
//! | `faults`, `least_points` | why a turn or a main line is refused, and where |
//! | `frame`, `line` | what a problem fixes; `Line`, a problem and its game so far |
//! | `game`, `history` | a game without a region; the boards so far, superko |
//! | `turns`, `plays` | the legal turns as a list; all plays one after the other, `MoveGenerator` |
//! | `keys` | `Key` of a position, for tables |
//! | `laws` | facts about the definitions |

#![tactic(auto)]

mod faults;
mod frame;
mod game;
mod history;
mod keys;
pub mod laws;
mod least_points;
mod line;
mod nodes;
mod plays;
mod problems;
mod reading;
mod records;
mod turns;

pub use faults::{GameFault, Refused, Why, reason_of_code};
pub use frame::{Frame, Side};
pub use game::Game;
pub use history::bloom_filter::{BloomFilter, HASH_DIVISOR, board_hash};
pub use history::snapshot::Snapshot;
pub use keys::Key;
pub use line::Line;
pub use nodes::{first_value, has_move, has_value, said_size, sets_up};
pub use plays::LegalPlays;
pub use problems::{game_before_solution, node_count_before_solution, problem};
pub use records::{Record, play_record};
pub use turns::{MOST_LEGAL, Turn, Turns};
