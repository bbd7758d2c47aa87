//! Solves the problem at a line, and the positions behind its turns, within one total.
ghost use Rattle.std.specs.Prelude.{◌≡◌, ◌≤◌, ◌-◌, ℕ, Option, None, IfOk, IfSome, false};
ghost use Rattle.tt_game.specs.Game.{IsLegal, winner_of};
ghost use Rattle.tt_game.specs.GameLaws.{IsWellFormedState};
ghost use Rattle.tt_game.specs.Line.{problem_after_turn};
ghost use Rattle.tt_game.specs.Turns.{legal_turns};
ghost use Rattle.tt_share.specs.Answers.{IsAnswer};
ghost use Rattle.tt_solve.specs.Solutions.{AreTurnValues, AreTurnValuesAsked, IsSolution, IsSolved, IsValueOrReason};
ghost use Rattle.tt_solve.specs.Totals.{HasGrants, HoldsLeaving, total_left};

use crate::certificate_kinds::solution_of_proof;
use crate::dfpn::try_dfpn;
use crate::options::Options;
use crate::searches::{search_alone, search_by_workers};
use crate::solution::{Solution, Solved};
use std::alloc::Global;
use std::sync::Wait;
use std::thread::Threads;
use tt_dfpn::OneFinder;
use tt_game::{Line, Side, Turn};
use tt_search::Reason;
use tt_sgf::{MAX_BYTES, NoMemory};
use tt_share::{Answer, Gate, NoGate};
use tt_team::Workers;

/// The solution that an answer is. Where df-pn lacked memory, that is why an unsettled problem is so.
fn solution_of_answer(
    alloc: Global,
    line: &Line,
    options: Options,
    dfpn_lacked_memory: bool,
    answer: &Answer,
) -> Result<Solution, NoMemory>
    requires open { winner_of line.now.frame line.now.state ≡ None }
    requires state { IsWellFormedState line.now.frame line.now.state }
    requires answer { (total : Option ℕ) × IsAnswer line.now options.limits total answer.now }
    ensures { (total : Option ℕ) → IsAnswer line.now options.limits total answer.now
        → IfOk result (IsSolution line.now options.limits total options.cert) }
{
    match answer {
        Answer::Settled { proof, .. } => solution_of_proof(alloc, line, options, proof),
        Answer::Unsettled(_) if dfpn_lacked_memory => Ok(Solution::Unsettled(Reason::Memory)),
        Answer::Unsettled(stuck) => Ok(Solution::Unsettled(stuck.reason)),
    }
}

/// What is left of a total behind so many grants.
fn total_left(total: Option<u32>, granted: u64) -> Option<u32>
    requires { HasGrants total granted }
    ensures { result ≡ total_left total granted }
{
    match total {
        Some(n) => Some(n - granted as u32),
        None => None,
    }
}

/// What solves lines in the same way, with threads: a problem's, and those behind its turns.
#[derive(Drop)]
struct Solver<'a, X> {
    rt: &'a X,
    alloc: Global,
    options: Options,
    /// How many bytes a certificate of df-pn's may take.
    most_bytes: usize,
}

impl<X: Threads + Wait + Sync> Solver<'_, X> {
    /// Solves the problem at a line within what is left of the total: by df-pn, where it is asked for, or else by a search, both by
    /// workers; and what is left then. The total of the options isn't read.
    fn solve_line<G: Gate>(
        &self,
        line: &Line,
        total: Option<u32>,
        gate: &G,
    ) -> Result<(Solution, Option<u32>), NoMemory>
        requires open { winner_of line.now.frame line.now.state ≡ None }
        requires state { IsWellFormedState line.now.frame line.now.state }
        ensures { IfOk result
            (λ r. HoldsLeaving line.now self.now.options.limits
            (λ t. IsSolution line.now self.now.options.limits t self.now.options.cert r.0) total r.1) }
    {
        let (rt, alloc) = (self.rt, self.alloc);
        let workers = Workers {
            rt,
            alloc,
            count: self.options.workers,
        };
        let (found, lacked_memory) = try_dfpn(alloc, &workers, line, self.options, self.most_bytes);
        if let Some(solution) = found {
            return Ok((solution, total));
        }
        let (answer, granted) = search_by_workers(rt, alloc, line, self.options, total, gate)?;
        let solution = solution_of_answer(alloc, line, self.options, lacked_memory, &answer)?;
        Ok((solution, total_left(total, granted)))
    }

    /// Which side wins at a line, or why that isn't known; and what is left of the total.
    fn value_at(&self, line: &Line, total: Option<u32>) -> (Result<Side, Reason>, Option<u32>)
        requires { IsWellFormedState line.now.frame line.now.state }
        ensures { HoldsLeaving line.now self.now.options.limits
            (λ t. IsValueOrReason line.now self.now.options.limits t result.0) total result.1 }
    {
        if let Some(side) = line.winner() {
            return (Ok(side), total);
        }
        match self.solve_line(line, total, &NoGate) {
            Ok((solution, left)) => (solution.value(), left),
            Err(NoMemory) => (Err(Reason::Memory), total),
        }
    }

    /// Which side wins behind a legal turn, or why that isn't known; and what is left of the total.
    fn value_after_turn(
        &self,
        line: &Line,
        total: Option<u32>,
        turn: Turn,
    ) -> (Result<Side, Reason>, Option<u32>)
        requires state { IsWellFormedState line.now.frame line.now.state }
        requires legal { IsLegal line.now.frame line.now.state turn }
        ensures { HoldsLeaving (problem_after_turn line.now turn) self.now.options.limits
            (λ t. IsValueOrReason (problem_after_turn line.now turn) self.now.options.limits t result.0) total result.1 }
    {
        match line.after(turn) {
            Ok(next) => self.value_at(&next, total),
            Err(NoMemory) => (Err(Reason::Memory), total),
        }
    }

    /// The values behind the legal turns of the problem at a line. Each turn has what those before it left of the total.
    fn values_of_turns(
        &self,
        line: &Line,
        total: Option<u32>,
    ) -> Result<Vec<(Turn, Result<Side, Reason>)>, NoMemory>
        requires { IsWellFormedState line.now.frame line.now.state }
        ensures { IfOk result
            (λ values. (left : Option ℕ)
            × AreTurnValues line.now self.now.options.limits total left (legal_turns line.now.frame line.now.state) values.items) }
    {
        let turns = line.turns();
        let mut values = Vec::new(self.alloc);
        let mut left = total;
        for turn in turns.as_slice() {
            let (value, rest) = self.value_after_turn(line, left, *turn);
            values.push((*turn, value))?;
            left = rest;
        }
        Ok(values)
    }

    /// The same, nothing where it isn't asked for.
    fn values_asked(
        &self,
        line: &Line,
        total: Option<u32>,
    ) -> Result<Vec<(Turn, Result<Side, Reason>)>, NoMemory>
        requires { IsWellFormedState line.now.frame line.now.state }
        ensures { IfOk result
            (λ values. AreTurnValuesAsked line.now self.now.options.limits total self.now.options.turns values.items) }
    {
        if self.options.turns {
            self.values_of_turns(line, total)
        } else {
            Ok(Vec::new(self.alloc))
        }
    }
}

/// How many bytes a certificate may take that `check` reads behind a problem's text of so many, with the ends of two lines.
fn most_certificate_bytes(bytes: usize) -> usize
    ensures { result ≡ MAX_BYTES - 2 - bytes }
{
    (MAX_BYTES - 2).saturating_sub(bytes)
}

/// Solves the problem at a line, whose text has so many bytes, and where it is asked for the position behind each legal turn; they
/// share the total. A certificate of df-pn's that `check` doesn't read behind the problem's text, with the ends of two lines, is
/// dropped with its proof. The gate hears of the problem's first turns, and of no turn behind one.
#[tactic(auto, using(crate::proofs::TurnValues::solved))]
pub fn solve<X: Threads + Wait + Sync, G: Gate>(
    rt: &X,
    alloc: Global,
    line: &Line,
    options: Options,
    bytes: usize,
    gate: &G,
) -> Result<Solved, NoMemory>
    requires open { winner_of line.now.frame line.now.state ≡ None }
    requires state { IsWellFormedState line.now.frame line.now.state }
    ensures { IfOk result (IsSolved options line.now) }
{
    let solver = Solver {
        rt,
        alloc,
        options,
        most_bytes: most_certificate_bytes(bytes),
    };
    let (solution, left) = solver.solve_line(line, options.total, gate)?;
    let turn_values = solver.values_asked(line, left)?;
    Ok(Solved {
        solution,
        turn_values,
    })
}

/// The solution of the problem at a line, whose text has so many bytes, within the total: by df-pn where it is asked for, or else by a
/// search in the caller's thread.
fn solution_alone(
    alloc: Global,
    line: &Line,
    options: Options,
    bytes: usize,
) -> Result<Solution, NoMemory>
    requires open { winner_of line.now.frame line.now.state ≡ None }
    requires state { IsWellFormedState line.now.frame line.now.state }
    ensures { IfOk result (IsSolution line.now options.limits options.total options.cert) }
{
    let most_bytes = most_certificate_bytes(bytes);
    let (found, lacked_memory) = try_dfpn(alloc, &OneFinder, line, options, most_bytes);
    if let Some(solution) = found {
        return Ok(solution);
    }
    let answer = search_alone(alloc, line, options);
    solution_of_answer(alloc, line, options, lacked_memory, &answer)
}

/// What `solve` gives where nothing is asked of turns, without a thread.
#[tactic(auto, using(crate::proofs::TurnValues::solved_alone))]
pub fn solve_alone(
    alloc: Global,
    line: &Line,
    options: Options,
    bytes: usize,
) -> Result<Solved, NoMemory>
    requires open { winner_of line.now.frame line.now.state ≡ None }
    requires state { IsWellFormedState line.now.frame line.now.state }
    requires turns { options.turns ≡ false }
    ensures { IfOk result (IsSolved options line.now) }
{
    let solution = solution_alone(alloc, line, options, bytes)?;
    let turn_values = Vec::new(alloc);
    Ok(Solved {
        solution,
        turn_values,
    })
}
