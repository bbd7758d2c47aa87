//! Results: how the jobs of a line ended, as far as it is known.

ghost use Rattle.std.specs.Prelude.{◌≡◌, ◌≢◌, ◌+◌, ◌^◌, ◌≤◌, ◌<◌, ◌↔◌, ◌⊎◌, ℕ, false, true, None, Some, IfOk, IfNone, IsTrue, MatchOption, slice_get, slice_set, length, map, replicate, All, vec_len};
ghost use Rattle.tt_game.specs.Game.{winner_of};
ghost use Rattle.tt_game.specs.declared.turns.Turn.{Turn};
ghost use Rattle.tt_game.specs.Turns.{legal_turns};
ghost use Rattle.tt_game.specs.declared.turns.TheConstants.{MOST_LEGAL};
ghost use Rattle.tt_search.specs.declared.limits.TheConstants.{MOST_EXPANDED};
ghost use Rattle.tt_share.specs.declared.jobs.JobResult.{JobResult};
ghost use Rattle.tt_share.specs.Answers.{spent_in_all};
ghost use Rattle.tt_share.specs.inside.Jobs.{IsResult, IsWinFor};
ghost use Rattle.tt_share.specs.inside.Results.{HasEnd, HasResult, HasWonIn, AllStuckOrWon, IsPastStuck, IsStuckIn, IsWinIn, IsWinAt, NoWin, IsLeastWin, IsReady};
ghost use Rattle.tt_share.specs.inside.Results.{Notes, AskedFor, StopsAtWin, KeepsEnds, Puts};

use crate::jobs::{JobResult, Jobs, SearchedJob, dropped_if_lesser_stuck, is_stuck, is_win};
use std::alloc::Global;
use std::marker::Model;
use tt_game::{Line, Side, Turn};
use tt_search::{Grants, Limits, Store};
use tt_sgf::NoMemory;

/// How the search of each job of a line ended, as far as it is known, and how many nodes it expanded. Contracts see the line,
/// the limits, the list of the ends by the jobs' numbers, and that of the jobs' turns with their counts.
#[derive(Drop)]
pub(crate) struct Results<'a> {
    pub jobs: Jobs<'a>,
    pub ends: Vec<Option<JobResult>>,
    pub spent: Vec<(Turn, u32)>,
}

impl<'a> Model for Results<'a> {
    ghost use Rattle.std.specs.Prelude.{◌≡◌, length, vec_len};
    ghost use Rattle.std.specs.Coded.{codes};
    ghost use Rattle.tt_sgf.specs.contracts.sets.PointSet as points;
    ghost use Rattle.tt_proof.specs.laws.StrategyCode.{strategy_code};
    ghost use Rattle.tt_search.specs.laws.PartialTreeCode.{partial_tree_code};
    ghost use Rattle.tt_share.specs.inside.Jobs.{AreResults};
    ghost use Rattle.tt_share.specs.inside.Results.{ResultsSoFar, AreNoted};

    ghost Value = { ResultsSoFar };

    ghost coded = { Prim.hlevel (codes, strategy_code, partial_tree_code, points.the_row.coded) };

    ghost view = { λ r. record { line = r.jobs.line.now; limits = r.jobs.limits; ends = r.ends.items; spent = r.spent.items } };

    ghost invariant = { λ r. record {
      are : AreResults r.jobs.line.now r.jobs.limits r.ends.items;
      noted : AreNoted r.jobs.line.now r.jobs.limits r.ends.items r.spent.items;
      one_each : vec_len r.ends ≡ length r.jobs.turns.items;
    } };
}

/// Whether there is a result, and it is a proof for the side.
fn is_some_win(end: &Option<JobResult>, side: Side) -> bool
    ensures win { IsTrue result ↔ IsWinIn side end.now }
    ensures won { HasWonIn end.now }
{
    match end {
        Some(end) => is_win(end, side),
        None => false,
    }
}

/// Whether there is a result, and it is a stuck search.
fn is_some_stuck(end: &Option<JobResult>) -> bool
    ensures { IsTrue result ↔ IsStuckIn end.now }
{
    match end {
        Some(end) => is_stuck(end),
        None => false,
    }
}

/// The least job whose result is a proof for the side.
pub(crate) fn least_win_in(ends: &[Option<JobResult>], side: Side) -> Option<usize>
    ensures least { MatchOption result (NoWin side ends.now) (IsLeastWin side ends.now) }
    ensures won { IfNone result (AllStuckOrWon ends.now) }
{
    for (job, end) in ends.iter().enumerate() {
        if is_some_win(end, side) {
            return Some(job);
        }
    }
    None
}

/// Whether there is such a slot, with no result.
fn is_missing_in(ends: &[Option<JobResult>], job: usize) -> bool
    ensures free { IsTrue result ↔ (slice_get ends.now job ≡ Some None) }
    ensures filled { result ≡ false → job < length ends.now → HasResult ends.now job }
{
    job < ends.len() && ends[job].is_none()
}

/// Writes a result at its slot.
fn write_result(ends: &mut Vec<Option<JobResult>>, job: usize, end: JobResult)
    requires { job < vec_len ends.old }
    ensures filled { ends.new.items ≡ slice_set ends.old.items job (Some end) }
    ensures len { vec_len ends.new ≡ vec_len ends.old }
{
    ends[job] = Some(end);
}

/// Notes how many nodes the search of a job expanded.
fn note_spent(spent: &mut Vec<(Turn, u32)>, job: usize, count: u32)
    requires { job < vec_len spent.old }
    ensures noted { (e : Turn × ℕ) × (slice_get spent.old.items job ≡ Some e)
        × (spent.new.items ≡ slice_set spent.old.items job (e.0, count)) }
{
    let (turn, _) = spent[job];
    spent[job] = (turn, count);
}

/// The turns, each with no expanded node, in a list of its own.
fn zero_counts(alloc: Global, turns: &[Turn]) -> Result<Vec<(Turn, u32)>, NoMemory>
    ensures turns { IfOk result (λ v. map (λ (e : Turn × ℕ). e.0) v.items ≡ turns.now) }
    ensures none { IfOk result (λ v. All (λ (e : Turn × ℕ). e.1 ≡ 0) v.items) }
{
    let mut spent = Vec::with_capacity(alloc, turns.len())?;
    for turn in turns {
        spent.push_reserved((*turn, 0));
    }
    Ok(spent)
}

/// Whether the search of a lesser job is stuck.
fn is_some_lesser_stuck(ends: &[Option<JobResult>], job: usize) -> bool
    ensures { IsTrue result ↔ IsPastStuck ends.now job }
{
    for (lesser, end) in ends.iter().enumerate() {
        if lesser >= job {
            return false;
        }
        if is_some_stuck(end) {
            return true;
        }
    }
    false
}

impl<'a> Results<'a> {
    /// The results of the jobs of a line at which nobody has won, where none is known yet. The depth is at least 1.
    pub fn of(alloc: Global, line: &'a Line, limits: Limits) -> Result<Results<'a>, NoMemory>
        requires deep { 1 ≤ limits.depth }
        requires open { winner_of line.now.frame line.now.state ≡ None }
        ensures line { IfOk result (λ r. r.line ≡ line.now) }
        ensures limits { IfOk result (λ r. r.limits ≡ limits) }
        ensures none { IfOk result
            (λ r. r.ends ≡ replicate (length (legal_turns line.now.frame line.now.state)) None) }
        ensures unspent { IfOk result (λ r. spent_in_all r.spent ≡ 0) }
    {
        let jobs = Jobs::of(alloc, line, limits);
        let count = jobs.turns.len();
        let spent = zero_counts(alloc, jobs.turns.as_slice())?;
        let mut ends = Vec::with_capacity(alloc, count)?;
        for _ in 0..count {
            ends.push_reserved(None);
        }
        Ok(Results { jobs, ends, spent })
    }

    /// How many jobs the line has.
    pub fn job_count(&self) -> usize
        ensures count { result ≡ length self.now.ends }
        ensures few { result ≤ MOST_LEGAL }
    {
        self.ends.len()
    }

    /// The least job that wins for the side to move.
    fn least_win(&self) -> Option<usize>
        ensures { MatchOption result (NoWin self.now.line.state.to_move self.now.ends)
            (IsLeastWin self.now.line.state.to_move self.now.ends) }
    {
        least_win_in(self.ends.as_slice(), self.jobs.line.to_move())
    }

    /// Whether the job is one of the line's and has no result.
    fn is_missing(&self, job: usize) -> bool
        ensures free { IsTrue result ↔ (slice_get self.now.ends job ≡ Some None) }
        ensures filled { result ≡ false → job < length self.now.ends → HasResult self.now.ends job }
    {
        is_missing_in(self.ends.as_slice(), job)
    }

    /// Puts a result at the slot of its job. A double and a stranger are dropped.
    pub fn put_if_missing(&mut self, searched: SearchedJob)
        requires searched { IsResult self.old.line self.old.limits searched }
        ensures same { self.new ≡ record self.old { ends = self.new.ends; spent = self.new.spent } }
        ensures puts { Puts self.old.ends self.new.ends searched }
        ensures notes { Notes self.old self.new searched }
    {
        let SearchedJob { job, end, spent } = searched;
        if self.is_missing(job) {
            let past_stuck = is_some_lesser_stuck(self.ends.as_slice(), job);
            write_result(
                &mut self.ends,
                job,
                dropped_if_lesser_stuck(past_stuck, end),
            );
            note_spent(&mut self.spent, job, spent);
        }
    }

    /// Searches a job that has no result, and answers whether it wins for the side to move.
    fn search_and_put<S: Store, G: Grants>(
        &mut self,
        job: usize,
        store: &mut S,
        grants: &mut G,
    ) -> bool
        requires free { slice_get self.old.ends job ≡ Some None }
        requires grants { (G.asked grants.old).granted < 2 ^ 62 }
        ensures same { self.new ≡ record self.old { ends = self.new.ends; spent = self.new.spent } }
        ensures put { (end : JobResult) × (self.new.ends ≡ slice_set self.old.ends job (Some end))
            × (IsTrue result ↔ IsWinFor self.old.line.state.to_move end) }
        ensures asks { AskedFor self.old (G.asked grants.old) self.new (G.asked grants.new) }
        ensures source { G.source grants.new ≡ G.source grants.old }
        ensures few { (G.asked grants.new).granted ≤ (G.asked grants.old).granted + MOST_EXPANDED }
    {
        let searched = self.jobs.search(job, store, grants);
        let won = self.jobs.is_win_for_mover(&searched.end);
        self.put_if_missing(searched);
        won
    }

    /// Searches a job if it has no result, and answers whether it was searched and wins for the side to move.
    fn search_if_missing<S: Store, G: Grants>(
        &mut self,
        job: usize,
        store: &mut S,
        grants: &mut G,
    ) -> bool
        requires within { job < length self.old.ends }
        requires grants { (G.asked grants.old).granted < 2 ^ 62 }
        ensures same { self.new ≡ record self.old { ends = self.new.ends; spent = self.new.spent } }
        ensures asks { AskedFor self.old (G.asked grants.old) self.new (G.asked grants.new) }
        ensures source { G.source grants.new ≡ G.source grants.old }
        ensures few { (G.asked grants.new).granted ≤ (G.asked grants.old).granted + MOST_EXPANDED }
        ensures len { length self.new.ends ≡ length self.old.ends }
        ensures filled { HasResult self.new.ends job }
        ensures kept { KeepsEnds self.old.ends self.new.ends }
        ensures others { (k : ℕ) → k ≢ job → slice_get self.new.ends k ≡ slice_get self.old.ends k }
        ensures won { IsTrue result → IsWinAt self.old.line.state.to_move self.new.ends job }
        ensures lost { result ≡ false → IsWinAt self.old.line.state.to_move self.new.ends job →
            IsWinAt self.old.line.state.to_move self.old.ends job }
    {
        if !self.is_missing(job) {
            return false;
        }
        self.search_and_put(job, store, grants)
    }

    /// Where no job wins for the side to move, searches each that has no result, in rising order, until one does.
    pub fn search_missing_until_win<S: Store, G: Grants>(&mut self, store: &mut S, grants: &mut G)
        requires grants { (G.asked grants.old).granted ≡ 0 }
        ensures same { self.new ≡ record self.old { ends = self.new.ends; spent = self.new.spent } }
        ensures asks { AskedFor self.old (G.asked grants.old) self.new (G.asked grants.new) }
        ensures source { G.source grants.new ≡ G.source grants.old }
        ensures ready { IsReady self.new.line.state.to_move self.new.ends }
        ensures kept { KeepsEnds self.old.ends self.new.ends }
        ensures won { (job : ℕ) → IsWinAt self.old.line.state.to_move self.old.ends job
            → self.new ≡ self.old }
        ensures stops { StopsAtWin self.new.line.state.to_move self.old.ends self.new.ends }
    {
        if let Some(_) = self.least_win() {
            return;
        }
        for job in 0..self.job_count() {
            if self.search_if_missing(job, store, grants) {
                return;
            }
        }
    }
}
