//! The answer that the results of the jobs make.

ghost use Rattle.std.specs.Prelude.{◌≡◌, ℕ, ◌<◌, ◌≤◌, ◌↔◌, MatchOption, Option, Some, None, IfOk, IsSome, slice_get, slice_set, length, vec_len};
ghost use Rattle.tt_game.specs.Game.{IsLegal, winner_of};
ghost use Rattle.tt_game.specs.Line.{LineWithUndo};
ghost use Rattle.tt_game.specs.Turns.{legal_turns};
ghost use Rattle.tt_proof.specs.Strategy.{depth};
ghost use Rattle.tt_proof.specs.ProofClaim.{StandsAt, first_turn_of};
ghost use Rattle.tt_game.specs.declared.turns.Turn.{Turn};
ghost use Rattle.tt_search.specs.SearchState.{SearchState};
ghost use Rattle.tt_search.specs.declared.limits.Limits.{Limits};
ghost use Rattle.tt_search.specs.declared.limits.Reason.{Reason};
ghost use Rattle.tt_search.specs.declared.search.End.{End};
ghost use Rattle.tt_share.specs.Answers.{IsAnswer, counts_if_total_spent_of};
ghost use Rattle.tt_share.specs.declared.jobs.JobResult.{JobResult};
ghost use Rattle.tt_share.specs.inside.Beginning.{BeginsWith, IsStuckWith};
ghost use Rattle.tt_share.specs.inside.Jobs.{EndsBehind, IsJob, end_of};
ghost use Rattle.tt_share.specs.inside.Results.{HasEnd, HaveLost, IsLeastWin, IsLeastStuck, IsReady, KeepsTotal, NoneStuck, NoWin};

use crate::answer::{Answer, Stuck};
use crate::jobs::{JobResult, Jobs};
use crate::results::{Results, least_win_in};
use std::alloc::Global;
use std::sync::Arc;
use tt_game::{Line, Turn};
use tt_proof::Proof;
use tt_search::{End, Limits, Reason};
use tt_sgf::NoMemory;

/// The answer where memory was refused outside a search.
pub(crate) fn no_memory_answer(alloc: Global) -> Answer
    ensures { (line : LineWithUndo) (limits : Limits) (total : Option ℕ)
        → IsAnswer line limits total result }
{
    Answer::Unsettled(Stuck {
        turn: Turn::Pass,
        reason: Reason::Memory,
        search: None,
        spent: Vec::new(alloc),
    })
}

/// The turn that the side of a proof plays first, where that side is to move.
fn first_turn(line: &Line, proof: &Proof) -> Option<Turn>
    requires open { winner_of line.now.frame line.now.state ≡ None }
    requires stands { StandsAt proof.now line.now.frame line.now.state }
    ensures first { result ≡ first_turn_of proof.now.tree }
    ensures shown { IsSome result ↔ (proof.now.side ≡ line.now.state.to_move) }
{
    if proof.side() == line.to_move() {
        return proof.first();
    }
    None
}

/// The answer that a proof at the line is, within the limits.
pub(crate) fn answer_of_proof(
    alloc: Global,
    line: &Line,
    limits: Limits,
    proof: Proof,
) -> Result<Answer, NoMemory>
    requires open { winner_of line.now.frame line.now.state ≡ None }
    requires stands { StandsAt proof line.now.frame line.now.state }
    requires shallow { depth proof.tree ≤ limits.depth }
    ensures answer { (total : Option ℕ) → IfOk result (IsAnswer line.now limits total) }
    ensures begins { IfOk result (BeginsWith (first_turn_of proof.tree)) }
{
    let first = first_turn(line, &proof);
    let proof = Arc::new(alloc, proof)?;
    Ok(Answer::Settled { proof, first })
}

/// The result of a job, taken out of the list.
fn take_end(ends: &mut Vec<Option<JobResult>>, job: usize) -> Option<End>
    requires within { job < vec_len ends.old }
    ensures taken { MatchOption result (slice_get ends.old.items job ≡ Some None)
        (λ end. (of : JobResult) × HasEnd ends.old.items job of × (end ≡ end_of of)) }
    ensures rest { ends.new.items ≡ slice_set ends.old.items job None }
    ensures len { vec_len ends.new ≡ vec_len ends.old }
{
    match ends[job].take() {
        Some(end) => Some(end.into_end()),
        None => None,
    }
}

/// What is known of the counts: all of them where the total is spent, and else nothing.
fn counts_if_total_spent(alloc: Global, reason: Reason, spent: Vec<(Turn, u32)>) -> Vec<(Turn, u32)>
    ensures { result.items ≡ counts_if_total_spent_of reason spent.items }
{
    match reason {
        Reason::Total => spent,
        Reason::Budget | Reason::Depth | Reason::Memory => Vec::new(alloc),
    }
}

impl<'a> Jobs<'a> {
    /// The answer of a proof after a turn, for the side to move.
    fn answer_by_winning_turn(&self, turn: Turn, child: Proof) -> Result<Answer, NoMemory>
        requires legal { IsLegal self.now.line.now.frame self.now.line.now.state turn }
        requires child { EndsBehind self.now.line.now self.now.limits turn (End.Settled child) }
        requires side { child.side ≡ self.now.line.now.state.to_move }
        ensures answer { (total : Option ℕ)
            → IfOk result (IsAnswer self.now.line.now self.now.limits total) }
        ensures begins { IfOk result (BeginsWith (Some turn)) }
    {
        let proof = Proof::pick(self.alloc, self.line, turn, child)?;
        answer_of_proof(self.alloc, self.line, self.limits, proof)
    }

    /// The answer where all turns have lost.
    fn answer_by_lost_turns(&self, children: Vec<(Turn, Proof)>) -> Result<Answer, NoMemory>
        requires lost { HaveLost self.now.line.now self.now.limits children.items }
        requires all { vec_len children
            ≡ length (legal_turns self.now.line.now.frame self.now.line.now.state) }
        ensures answer { (total : Option ℕ)
            → IfOk result (IsAnswer self.now.line.now self.now.limits total) }
        ensures begins { IfOk result (BeginsWith None) }
    {
        let proof = Proof::reply(self.alloc, self.line, children)?;
        answer_of_proof(self.alloc, self.line, self.limits, proof)
    }
}

impl<'a> Results<'a> {
    /// The answer that the results make: a proof by the least turn that wins, or by all turns where each has lost; else
    /// the least turn whose search is stuck, with its own reason and search.
    pub fn conclude(self) -> Result<Answer, NoMemory>
        requires ready { IsReady self.line.state.to_move self.ends }
        ensures answer { (total : Option ℕ) → KeepsTotal total self.entry
            → IfOk result (IsAnswer self.entry.line self.entry.limits total) }
        ensures picks { (job : ℕ) (turn : Turn)
            → IsLeastWin self.entry.line.state.to_move self.entry.ends job
            → IsJob self.entry.line job turn →
            IfOk result (BeginsWith (Some turn)) }
        ensures replies { NoWin self.entry.line.state.to_move self.entry.ends
            → NoneStuck self.entry.ends → IfOk result (BeginsWith None) }
        ensures stuck { (job : ℕ) (turn : Turn) (reason : Reason) (search : Option SearchState)
            → NoWin self.entry.line.state.to_move self.entry.ends →
            IsLeastStuck self.entry.ends job reason search → IsJob self.entry.line job turn →
            IfOk result (IsStuckWith turn reason search (counts_if_total_spent_of reason self.entry.spent)) }
    {
        let Results {
            jobs,
            mut ends,
            spent,
        } = self;
        let turns = jobs.turns.as_slice();
        if let Some(job) = least_win_in(ends.as_slice(), jobs.line.to_move()) {
            return match take_end(&mut ends, job) {
                Some(End::Settled(child)) => jobs.answer_by_winning_turn(turns[job], child),
                _ => unreachable!(),
            };
        }
        let mut children = Vec::new(jobs.alloc);
        for (job, turn) in turns.iter().enumerate() {
            match take_end(&mut ends, job) {
                Some(End::Settled(child)) => children.push((*turn, child))?,
                Some(End::Stuck(reason, search)) => {
                    return Ok(Answer::Unsettled(Stuck {
                        turn: *turn,
                        reason,
                        search,
                        spent: counts_if_total_spent(jobs.alloc, reason, spent),
                    }));
                }
                None => unreachable!(),
            }
        }
        jobs.answer_by_lost_turns(children)
    }
}
