//! Strategy trees, their exact replay, proofs that win with their footprints, and certificates. Their tests
//! stand in `tt_tests`: `proof_tests`, `footprint_tests` and `certificate_stop_tests`.
//!
//! | Module | What it has |
//! |---|---|
//! | `tree`, `tree_builders`, `measures`, `measured_tree` | `Tree`, a strategy; its depth and number of nodes |
//! | `replays` | whether a tree wins at a line |
//! | `footprints` | on which boards of the history that rests |
//! | `board_set`, `board_set_bounds`, `shared_board_set`, `shared_list` | sets of boards, which share them |
//! | `proven`, `life_proof` | `Proof`: a tree that wins. `LifeProof`: one that may end at life |
//! | `certificate_read`, `certificate_write` | a tree as text |
//! | `certificate_stops` | where the reading of a certificate stops |
//! | `laws` | facts about trees and certificates |
#![tactic(auto)]

mod board_set;
mod board_set_bounds;
mod certificate_read;
mod certificate_stops;
mod certificate_write;
mod footprints;
pub mod laws;
mod life_proof;
mod measured_tree;
mod measures;
mod proven;
mod replays;
mod shared_board_set;
mod shared_list;
mod tree;
mod tree_builders;

pub use board_set::BoardSet;
pub use board_set_bounds::BoardSetBound;
pub use certificate_read::{CertFault, read_cert, read_turn, split_side, strip_reply_end};
pub use certificate_stops::certificate_stop;
pub use certificate_write::{put_readable_turn, put_turn, write_cert};
pub use footprints::{Footprint, footprint_of};
pub use life_proof::LifeProof;
pub use measured_tree::{MeasuredTree, ReplyBuilder};
pub use proven::{Proof, Rejected};
pub use replays::{awaits_other_side, replay};
pub use shared_board_set::SharedBoardSet;
pub use tree::{MOST_DEPTH, Tree};
