//! The searches that solve a problem where df-pn doesn't: in the caller's thread, or by workers.
ghost use Rattle.std.specs.Prelude.{◌≡◌, IfOk, None};
ghost use Rattle.tt_game.specs.Game.{winner_of};
ghost use Rattle.tt_share.specs.Answers.{IsAnswer};
ghost use Rattle.tt_solve.specs.Totals.{HoldsByGrants};

use crate::options::Options;
use std::alloc::Global;
use std::sync::Wait;
use std::thread::Threads;
use tt_game::Line;
use tt_search::PrivateStore;
use tt_sgf::NoMemory;
use tt_share::{Answer, CertLog, Gate, solve_counting_grants, solve_one_within_total};

/// The answer of a search in the caller's thread, over a store of its own.
pub(crate) fn search_alone(alloc: Global, line: &Line, options: Options) -> Answer
    requires { winner_of line.now.frame line.now.state ≡ None }
    ensures { IsAnswer line.now options.limits options.total result }
{
    let mut store = PrivateStore::new(alloc);
    solve_one_within_total(alloc, line, &options.limits, options.total, &mut store)
}

/// The answer of a search by workers, over a log of their own; and how many expansions were granted of the total.
#[tactic(auto, using(crate::proofs::Totals::counted))]
pub(crate) fn search_by_workers<X: Threads + Wait + Sync, G: Gate>(
    rt: &X,
    alloc: Global,
    line: &Line,
    options: Options,
    total: Option<u32>,
    gate: &G,
) -> Result<(Answer, u64), NoMemory>
    requires { winner_of line.now.frame line.now.state ≡ None }
    ensures { IfOk result
        (λ r. HoldsByGrants line.now options.limits
        (λ t. IsAnswer line.now options.limits t r.0) total r.1) }
{
    let log = CertLog::new(alloc)?;
    let (limits, workers) = (options.limits, options.workers);
    let (answer, granted) = solve_counting_grants(
        rt, alloc, line, &limits, total, workers, &log, gate,
    );
    Ok((answer, granted))
}
