//! What a search may use, and what its steps answer.

ghost use Rattle.std.specs.Prelude.{◌≡◌, ◌≤◌, ◌↔◌, IsSome, IfSome};
ghost use Rattle.tt_proof.specs.declared.tree.TheConstants.{MOST_DEPTH};
ghost use Rattle.tt_search.specs.declared.limits.TheConstants.{MOST_EXPANDED};

use tt_proof::MOST_DEPTH;

/// The greatest budget.
pub const MOST_EXPANDED: u32 = 1_000_000;

/// How many nodes a search may expand, and how many turns deep it may go from its own line.
#[derive(Clone, Copy, Debug, PartialEq, Eq)]
pub struct Limits {
    budget: u32,
    depth: u16,
    ghost budget_in: { (1 ≤ budget) × (budget ≤ MOST_EXPANDED) },
    ghost depth_in: { depth ≤ MOST_DEPTH },
}

impl Limits {
    /// These limits, where the budget is 1 to `MOST_EXPANDED` and the depth at most `MOST_DEPTH`.
    pub fn new(budget: u32, depth: u16) -> Option<Limits>
        ensures made { IsSome result
            ↔ ((1 ≤ budget) × (budget ≤ MOST_EXPANDED) × (depth ≤ MOST_DEPTH)) }
        ensures limits { IfSome result (λ l. (l.budget ≡ budget) × (l.depth ≡ depth)) }
    {
        if budget >= 1 && budget <= MOST_EXPANDED && depth <= MOST_DEPTH {
            Some(Limits { budget, depth })
        } else {
            None
        }
    }

    /// How many nodes may be expanded.
    pub fn budget(self) -> u32
        ensures budget { result ≡ self.budget }
        ensures least { 1 ≤ result }
        ensures most { result ≤ MOST_EXPANDED }
    {
        self.budget
    }

    /// How many turns deep the search may go.
    pub fn depth(self) -> u16
        ensures depth { result ≡ self.depth }
        ensures most { result ≤ MOST_DEPTH }
    {
        self.depth
    }
}

/// Why a search is stuck: its budget is spent, its next leaf is as deep as it may go, its expansion isn't granted, or memory
/// was refused.
#[derive(Clone, Copy, Debug, PartialEq, Eq)]
pub enum Reason {
    Budget,
    Depth,
    Total,
    Memory,
}

/// What a step did: it expanded the most-proving leaf, or closed it by a kept proof; or nothing, since the root is
/// settled or the search is stuck.
#[derive(Clone, Copy, Debug, PartialEq, Eq)]
pub enum Step {
    Expanded,
    Closed,
    Settled,
    Stuck(Reason),
}
