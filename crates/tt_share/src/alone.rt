//! Solving by the caller alone, and how each solving begins and ends.

ghost use Rattle.std.specs.Prelude.{◌≡◌, ℕ, ◌≤◌, Option, None, IfErr, IfOk, MatchOption, ltb, true};
ghost use Rattle.tt_game.specs.Game.{winner_of};
ghost use Rattle.tt_share.specs.Answers.{AreSearchCounts, IsAnswer};
ghost use Rattle.tt_share.specs.inside.Results.{IsReady, KeepsTotal, KnowsNothing};
ghost use Rattle.tt_share.specs.inside.Tallies.{IsGranted};

use crate::answer::Answer;
use crate::answer::conclude::no_memory_answer;
use crate::answer::root_proof::{answer_from_store, offer_answer};
use crate::results::Results;
use std::alloc::Global;
use tt_game::Line;
use tt_search::{Grants, Limits, Store};

/// Grants of a total, where there is one, for one caller.
#[derive(Drop)]
struct OwnGrants {
    total: Option<u32>,
    granted: u64,
    refused: bool,
    ghost is_granted: { IsGranted total granted refused },
}

impl OwnGrants {
    /// Those of a caller that hasn't asked yet.
    fn new(total: Option<u32>) -> OwnGrants
        ensures total { result.total ≡ total }
        ensures granted { result.granted ≡ 0 }
    {
        OwnGrants {
            total,
            granted: 0,
            refused: false,
        }
    }

    /// Whether the total has one more.
    fn has_grant_left(&self) -> bool
        ensures { MatchOption self.now.total (result ≡ true)
            (λ n. result ≡ ltb self.now.granted n) }
    {
        match self.total {
            Some(n) => self.granted < u64::from(n),
            None => true,
        }
    }
}

impl Grants for OwnGrants {
    ghost asked = { λ g. record { granted = g.granted; refused = g.refused } };

    ghost Source = { Option ℕ };

    ghost source = { λ g. g.total };

    fn ask(&mut self) -> bool {
        if self.refused {
            return false;
        }
        let granted = self.has_grant_left();
        if granted {
            self.granted += 1;
        } else {
            self.refused = true;
        }
        granted
    }

    fn granted(&self) -> u64 {
        self.granted
    }

    fn refused(&self) -> bool {
        self.refused
    }
}

/// The results of the line's jobs, none of them known yet; or the answer, where the store has one or memory was refused.
pub(crate) fn new_results_or_answer<'a, S: Store>(
    alloc: Global,
    line: &'a Line,
    limits: &Limits,
    store: &mut S,
) -> Result<Results<'a>, Answer>
    requires deep { 1 ≤ limits.now.depth }
    requires open { winner_of line.now.frame line.now.state ≡ None }
    ensures line { IfOk result (λ r. r.line ≡ line.now) }
    ensures limits { IfOk result (λ r. r.limits ≡ limits.now) }
    ensures blank { IfOk result (λ r. KnowsNothing r) }
    ensures answer { (total : Option ℕ) → IfErr result (IsAnswer line.now limits.now total) }
{
    match answer_from_store(alloc, line, *limits, store) {
        Ok(Some(answer)) => return Err(answer),
        Ok(None) => {}
        Err(_) => return Err(no_memory_answer(alloc)),
    }
    match Results::of(alloc, line, *limits) {
        Ok(results) => Ok(results),
        Err(_) => Err(no_memory_answer(alloc)),
    }
}

/// The answer that the results make. Its proof is offered to the store. The counts of the results are those of searches.
pub(crate) fn conclude_and_offer<S: Store>(results: Results<'_>, store: &mut S) -> Answer
    requires ready { IsReady results.line.state.to_move results.ends }
    ensures answer { (total : Option ℕ) → KeepsTotal total results.entry
        → IsAnswer results.entry.line results.entry.limits total result }
    ensures counts { AreSearchCounts results.entry.line results.entry.limits results.entry.spent }
{
    let alloc = results.jobs.alloc;
    match results.conclude() {
        Ok(answer) => {
            offer_answer(&answer, store);
            answer
        }
        Err(_) => no_memory_answer(alloc),
    }
}

/// Solves the line. The store is asked first for a proof that wins at the line itself. Else each legal turn, in rising
/// order, is searched with the same budget and a depth one less, until one is settled for the side to move; and the
/// proof that they make is offered to the store. The depth is at least 1, and nobody has won at the line.
pub fn solve_one<S: Store>(alloc: Global, line: &Line, limits: &Limits, store: &mut S) -> Answer
    requires limits { 1 ≤ limits.now.depth }
    requires open { winner_of line.now.frame line.now.state ≡ None }
    ensures { IsAnswer line.now limits.now None result }
{
    solve_one_within_total(alloc, line, limits, None, store)
}

/// The same, but where there is a total, all searches together expand at most so many nodes.
pub fn solve_one_within_total<S: Store>(
    alloc: Global,
    line: &Line,
    limits: &Limits,
    total: Option<u32>,
    store: &mut S,
) -> Answer
    requires limits { 1 ≤ limits.now.depth }
    requires open { winner_of line.now.frame line.now.state ≡ None }
    ensures { IsAnswer line.now limits.now total result }
{
    match new_results_or_answer(alloc, line, limits, store) {
        Ok(mut results) => {
            let mut grants = OwnGrants::new(total);
            results.search_missing_until_win(store, &mut grants);
            conclude_and_offer(results, store)
        }
        Err(answer) => answer,
    }
}
