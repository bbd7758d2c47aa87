//! Jobs: the legal turns of a line, each searched by itself, and their results.

ghost use Rattle.std.specs.Prelude.{◌≡◌, ◌+◌, ◌^◌, ◌≤◌, ◌<◌, ◌↔◌, Bool, None, IfOk, IsTrue, length};
ghost use Rattle.tt_game.specs.Game.{IsLegal, after, winner_of};
ghost use Rattle.tt_game.specs.Turns.{legal_turns};
ghost use Rattle.tt_game.specs.declared.turns.TheConstants.{MOST_LEGAL};
ghost use Rattle.tt_search.specs.Growing.{new_leaf};
ghost use Rattle.tt_share.specs.Answers.{IsSearchAfter};
ghost use Rattle.tt_share.specs.inside.Jobs.{AsksFor, IsStuckOrWon, IsDropped, IsJob, IsOfEnd, IsResult, IsStuck, IsWinFor, end_of, kept_of};

use std::alloc::Global;
use tt_game::{Line, Side, Turn, Turns};
use tt_proof::Proof;
use tt_search::{End, Grants, Limits, Reason, Search, Store};
use tt_sgf::NoMemory;

/// The result of a job.
#[derive(Drop)]
pub(crate) enum JobResult {
    /// A proof that stands behind the job's turn.
    Settled(Proof),
    /// A search that is stuck, and why.
    Stuck(Reason, Box<Search>),
    /// It is stuck, as a lesser job is, and its search isn't kept.
    Dropped,
    /// Memory was refused, and there is no search.
    NoMemory,
}

/// A job that was searched, by its number among the legal turns, with its result and how many nodes its search expanded.
#[derive(Drop)]
pub(crate) struct SearchedJob {
    pub job: usize,
    pub end: JobResult,
    pub spent: u32,
}

/// The jobs of a line: its legal turns in rising order, and what the search of the line may use.
#[derive(Drop)]
pub(crate) struct Jobs<'a> {
    pub alloc: Global,
    pub line: &'a Line,
    pub limits: Limits,
    pub turns: Turns,
    ghost open: { winner_of line.now.frame line.now.state ≡ None },
    ghost deep: { 1 ≤ limits.depth },
    ghost listed: { turns.items ≡ legal_turns line.now.frame line.now.state },
    ghost few: { (1 ≤ length turns.items) × (length turns.items ≤ MOST_LEGAL) },
}

/// Whether the result is a proof for the side.
pub(crate) fn is_win(end: &JobResult, side: Side) -> bool
    ensures win { IsTrue result ↔ IsWinFor side end.now }
    ensures won { IsStuckOrWon end.now }
{
    match end {
        JobResult::Settled(proof) => proof.side() == side,
        JobResult::Stuck(_, _) | JobResult::Dropped | JobResult::NoMemory => false,
    }
}

/// Whether the result is no proof.
pub(crate) fn is_stuck(end: &JobResult) -> bool
    ensures { IsTrue result ↔ IsStuck end.now }
{
    match end {
        JobResult::Settled(_) => false,
        JobResult::Stuck(_, _) | JobResult::Dropped | JobResult::NoMemory => true,
    }
}

/// A result as it is kept. A stuck search holds its whole tree, and only that of the least stuck turn is answered: so it
/// is dropped where a lesser job is stuck.
pub(crate) fn dropped_if_lesser_stuck(past_stuck: bool, end: JobResult) -> JobResult
    ensures { result ≡ kept_of past_stuck end }
{
    if past_stuck && is_stuck(&end) {
        return JobResult::Dropped;
    }
    end
}

/// The result that a run makes. Where there is no memory for a box the search is gone.
fn result_of(alloc: Global, end: End) -> JobResult
    ensures end { IsOfEnd end result }
    ensures whole { ¬ IsDropped result }
{
    match end {
        End::Settled(proof) => JobResult::Settled(proof),
        End::Stuck(reason, Some(search)) => match Box::new(alloc, search) {
            Ok(search) => JobResult::Stuck(reason, search),
            Err(_) => JobResult::NoMemory,
        },
        End::Stuck(_, None) => JobResult::NoMemory,
    }
}

impl JobResult {
    /// The end of the search. Where there is no search, it is one that is stuck for want of memory.
    pub fn into_end(self) -> End
        ensures { result ≡ end_of self }
    {
        match self {
            JobResult::Settled(proof) => End::Settled(proof),
            JobResult::Stuck(reason, search) => End::Stuck(reason, Some(Box::into_inner(search))),
            JobResult::Dropped | JobResult::NoMemory => End::Stuck(Reason::Memory, None),
        }
    }
}

impl<'a> Jobs<'a> {
    /// The jobs of a line at which nobody has won. The depth is at least 1.
    pub fn of(alloc: Global, line: &'a Line, limits: Limits) -> Jobs<'a>
        requires deep { 1 ≤ limits.depth }
        requires open { winner_of line.now.frame line.now.state ≡ None }
        ensures line { result.line.now ≡ line.now }
        ensures limits { result.limits ≡ limits }
    {
        let turns = line.turns();
        Jobs {
            alloc,
            line,
            limits,
            turns,
        }
    }

    /// The limits behind a turn: the same budget, and a depth one less.
    fn limits_after(&self) -> Limits
        ensures budget { result.budget ≡ self.now.limits.budget }
        ensures depth { result.depth + 1 ≡ self.now.limits.depth }
    {
        match Limits::new(self.limits.budget(), self.limits.depth() - 1) {
            Some(behind) => behind,
            None => unreachable!(),
        }
    }

    /// A search of the line after a job's turn, with the same budget and a depth one less. Nothing of it is expanded yet.
    fn begin_search(&self, job: usize) -> Result<Search, NoMemory>
        requires job { job < length self.now.turns.items }
        ensures behind { IfOk result (λ s. (t : Turn)
            → IsJob self.now.line.now job t → IsSearchAfter self.now.line.now self.now.limits t s) }
        ensures new { IfOk result (λ s. s.tree ≡ new_leaf s.line.frame s.line.state) }
    {
        let limits = self.limits_after();
        let behind = self.line.after(self.turns.as_slice()[job])?;
        Search::new(self.alloc, behind, limits)
    }

    /// Searches a job to its end.
    pub fn search<S: Store, G: Grants>(
        &self,
        job: usize,
        store: &mut S,
        grants: &mut G,
    ) -> SearchedJob
        requires job { job < length self.now.turns.items }
        requires grants { (G.asked grants.old).granted < 2 ^ 62 }
        ensures job { result.job ≡ job }
        ensures result { IsResult self.now.line.now self.now.limits result }
        ensures whole { ¬ IsDropped result.end }
        ensures asks { AsksFor (G.asked grants.old) result.spent (end_of result.end) (G.asked grants.new) }
        ensures source { G.source grants.new ≡ G.source grants.old }
    {
        match self.begin_search(job) {
            Ok(search) => {
                let before = grants.granted();
                let end = result_of(self.alloc, search.run(store, grants));
                let spent = (grants.granted() - before) as u32;
                SearchedJob { job, end, spent }
            }
            Err(_) => SearchedJob {
                job,
                end: JobResult::NoMemory,
                spent: 0,
            },
        }
    }

    /// Whether a result is a proof for the side to move.
    pub fn is_win_for_mover(&self, end: &JobResult) -> bool
        ensures { IsTrue result ↔ IsWinFor self.now.line.now.state.to_move end.now }
    {
        is_win(end, self.line.to_move())
    }
}
