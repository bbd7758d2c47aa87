//! How a problem is solved.
ghost use Rattle.std.specs.Prelude.{◌≡◌, ◌≢◌, ◌≤◌, IfSome, false};
ghost use Rattle.std.proofs.Props.{props};
ghost use Rattle.tt_dfpn.specs.declared.attempts.TheConstants.{MOST_POSITIONS};
ghost use Rattle.tt_share.specs.declared.capacity.TheConstants.{MOST_WORKERS};
ghost use Rattle.tt_solve.specs.declared.options.CertKind.{CertKind};
ghost use Rattle.tt_solve.specs.declared.options.TheConstants.{MOST_TOTAL};

use tt_game::MOST_LEGAL;
use tt_search::{Limits, MOST_EXPANDED};

/// The greatest total: the greatest budget behind each first turn.
pub const MOST_TOTAL: u32 = MOST_LEGAL as u32 * MOST_EXPANDED;

/// Which certificate of each verdict is written.
#[derive(Clone, Copy, Debug, PartialEq, Eq)]
pub enum CertKind {
    /// None.
    Unasked,
    /// That of the proof's tree.
    Plain,
    /// One with shared parts.
    Shared,
}

/// How problems are solved. Each option lies in its range.
#[derive(Clone, Copy, Debug)]
pub struct Options {
    /// How many expansions each first turn may take, and how many turns deep the search may go from the
    /// problem: at least 1.
    pub limits: Limits,
    /// How many expansions all first turns may take together, where there is such a total: 1 to `MOST_TOTAL`.
    pub total: Option<u32>,
    /// How many positions df-pn may visit before the search begins, where it is asked for: 1 to `MOST_POSITIONS`.
    pub dfpn: Option<u32>,
    /// How many workers df-pn and the search may have: 1 to `MOST_WORKERS`. `solve_alone` has none.
    pub workers: usize,
    /// Which certificate of each verdict is written.
    pub cert: CertKind,
    /// Whether the value behind each legal turn is written. Then no certificate is.
    pub turns: bool,
    ghost depth_in: { 1 ≤ limits.depth },
    ghost total_in: { IfSome total (λ n. (1 ≤ n) × (n ≤ MOST_TOTAL)) } by { Prim.hlevel props },
    ghost dfpn_in: { IfSome dfpn (λ n. (1 ≤ n) × (n ≤ MOST_POSITIONS)) } by { Prim.hlevel props },
    ghost workers_in: { (1 ≤ workers) × (workers ≤ MOST_WORKERS) },
    ghost apart: { cert ≢ CertKind.Unasked → turns ≡ false } by { Prim.hlevel props },
}
