//! Solving by workers in threads.

ghost use Rattle.std.specs.Prelude.{◌≡◌, ◌≤◌, None, Some, IfOk, IfSome, MatchOption};
ghost use Rattle.tt_game.specs.Game.{winner_of};
ghost use Rattle.tt_share.specs.declared.capacity.TheConstants.{MOST_WORKERS};
ghost use Rattle.tt_share.specs.Answers.{IsAnswer, IsExpandedInAll};
ghost use Rattle.tt_share.specs.inside.Results.{KnowsNothing, IsReady, SpendsTotal};

use crate::alone::{conclude_and_offer, new_results_or_answer};
use crate::answer::Answer;
use crate::answer::conclude::no_memory_answer;
use crate::desk::Desk;
use crate::desk::grants::SeatGrants;
use crate::gate::Gate;
use crate::log::CertLog;
use crate::log::log_store::LogStore;
use crate::log::view::View;
use crate::results::Results;
use crate::workers::{gather_results, run_workers};
use std::alloc::Global;
use std::sync::Wait;
use std::thread::Threads;
use tt_game::Line;
use tt_search::{Limits, Store};
use tt_sgf::NoMemory;

/// Searches the jobs by workers, no more of them than there are jobs, gathers their results, and searches what they left. All
/// searches ask one desk for their expansions, each worker through its seat and the caller through one of its own. The answer is how
/// many were granted of the total, where there is one.
pub(crate) fn search_together<R: Threads + Wait + Sync, G: Gate, S: Store>(
    rt: &R,
    results: &mut Results<'_>,
    total: Option<u32>,
    workers: usize,
    log: &CertLog,
    gate: &G,
    store: &mut S,
) -> Result<u64, NoMemory>
    requires workers { (1 ≤ workers) × (workers ≤ MOST_WORKERS) }
    requires blank { KnowsNothing results.old }
    ensures line { (results.new.line ≡ results.old.line)
        × (results.new.limits ≡ results.old.limits) }
    ensures ready { IfOk result (λ _. IsReady results.new.line.state.to_move results.new.ends) }
    ensures spent { IfOk result (λ granted. SpendsTotal total granted results.new) }
{
    let alloc = results.jobs.alloc;
    let count = results.jobs.turns.len();
    let workers = workers.min(count);
    let seats = Vec::with_capacity(alloc, workers + 1)?;
    let (desk, mut all) = Desk::new(alloc, count, workers + 1, total)?;
    let Some(own) = all.pop() else { unreachable!() };
    let work = run_workers(rt, &results.jobs, &desk, log, gate, all)?;
    let mut seats = gather_results(results, work, seats);
    let mut grants = SeatGrants::new(&desk, own);
    results.search_missing_until_win(store, &mut grants);
    seats.push_reserved(grants.into_seat());
    match desk.close(seats) {
        Ok(closed) => Ok(closed.granted),
        Err(_) => unreachable!(),
    }
}

/// Solves the line by `workers` workers, 1 to `MOST_WORKERS`, or as many as there are legal turns where these are fewer. They share the
/// log: each of them, and the caller, has a view of it. The log is asked first for a proof that wins at the line itself. Else each legal
/// turn, in rising order, is a job: workers draw them and search each with the same budget and a depth one less, until one is settled for
/// the side to move. Where none is, the caller searches what they left, up to a turn that wins. The proof that the results make is
/// offered to the log. Where there is a total, all searches together expand at most so many nodes. The depth is at least 1, and nobody
/// has won at the line.
pub fn solve<R: Threads + Wait + Sync, G: Gate>(
    rt: &R,
    alloc: Global,
    line: &Line,
    limits: &Limits,
    total: Option<u32>,
    workers: usize,
    log: &CertLog,
    gate: &G,
) -> Answer
    requires workers { (1 ≤ workers) × (workers ≤ MOST_WORKERS) }
    requires limits { 1 ≤ limits.now.depth }
    requires open { winner_of line.now.frame line.now.state ≡ None }
    ensures { IsAnswer line.now limits.now total result }
{
    let (answer, _) = solve_counting_grants(rt, alloc, line, limits, total, workers, log, gate);
    answer
}

/// What `solve` answers, and how many expansions were granted of the total, or 0 where there is none: as many as the searches behind the
/// legal turns made, and no more than the total; and the answer is one within so many, too.
pub fn solve_counting_grants<R: Threads + Wait + Sync, G: Gate>(
    rt: &R,
    alloc: Global,
    line: &Line,
    limits: &Limits,
    total: Option<u32>,
    workers: usize,
    log: &CertLog,
    gate: &G,
) -> (Answer, u64)
    requires workers { (1 ≤ workers) × (workers ≤ MOST_WORKERS) }
    requires limits { 1 ≤ limits.now.depth }
    requires open { winner_of line.now.frame line.now.state ≡ None }
    ensures answer { IsAnswer line.now limits.now total result.0 }
    ensures granted { MatchOption total (result.1 ≡ 0)
        (λ n. (result.1 ≤ n) × IsAnswer line.now limits.now (Some result.1) result.0) }
    ensures counts { IfSome total (λ _. IsExpandedInAll line.now limits.now result.1) }
{
    let Ok(view) = View::new(alloc, log) else {
        return (no_memory_answer(alloc), 0);
    };
    let mut store = LogStore::new(rt, view);
    match new_results_or_answer(alloc, line, limits, &mut store) {
        Ok(mut results) => {
            match search_together(rt, &mut results, total, workers, log, gate, &mut store) {
                Ok(granted) => (conclude_and_offer(results, &mut store), granted),
                Err(_) => (no_memory_answer(alloc), 0),
            }
        }
        Err(answer) => (answer, 0),
    }
}
