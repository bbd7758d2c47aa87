//! What solving answers.

pub(crate) mod conclude;
pub(crate) mod root_proof;

use std::sync::Arc;
use tt_game::Turn;
use tt_proof::Proof;
use tt_search::{Reason, Search};

/// The answer to a line.
#[derive(Drop)]
pub enum Answer {
    /// A proof that stands at the line, and the turn that its side plays first, exactly where that side is to move.
    Settled {
        proof: Arc<Proof>,
        first: Option<Turn>,
    },
    /// What is stuck.
    Unsettled(Stuck),
}

/// The least turn that is stuck, and why. Where memory was refused outside a job the turn is a pass, with no search.
#[derive(Drop)]
pub struct Stuck {
    /// A legal turn; after each lesser legal one the side that isn't to move can force its win.
    pub turn: Turn,
    /// `Budget`, `Depth`, `Total` or `Memory`.
    pub reason: Reason,
    /// The search behind the turn: there for `Budget`, `Depth` and `Total`, and for `Memory` where one is held.
    pub search: Option<Search>,
    /// For `Total` each legal turn, in rising order, with how many nodes its search expanded: all together they are the
    /// total. Empty for every other reason.
    pub spent: Vec<(Turn, u32)>,
}
