//! What is said of the problem that a tree is.
ghost use Rattle.std.specs.Prelude.{◌≡◌, IfOk, None, Ok, false};
ghost use Rattle.tt_game.specs.Game.{winner_of};
ghost use Rattle.tt_game.specs.GameLaws.{IsWellFormedState};
ghost use Rattle.tt_solve.specs.declared.options.Options.{Options};
ghost use Rattle.tt_solve.specs.Solutions.{IsSolved};
ghost use Rattle.tt_text.specs.Solving.{Solves, SolvesProblemAs};

use crate::outcome::TreeOutcome;
use crate::verdict::answer_text;
use std::alloc::Global;
use std::sync::Wait;
use std::thread::Threads;
use tt_game::{GameFault, Line, problem};
use tt_sgf::{ItemList, MainLine, NoMemory};
use tt_share::Gate;
use tt_solve::{Options, Solved};

/// What is said of a solved problem.
fn answered(alloc: Global, line: &Line, solved: &Solved) -> Result<TreeOutcome, NoMemory>
    requires { (options : Options) × IsSolved options line.now solved.now }
    ensures { (options : Options) → IsSolved options line.now solved.now
        → IfOk result (SolvesProblemAs options (Ok line.now)) }
{
    let text = answer_text(alloc, line.frame().size, solved)?;
    let value = solved.solution.value();
    Ok(TreeOutcome::Answered(value, ItemList::from_vec(text)))
}

/// What is said of the problem at a line, which workers solve.
fn answer<X: Threads + Wait + Sync, G: Gate>(
    rt: &X,
    alloc: Global,
    line: &Line,
    options: Options,
    bytes: usize,
    gate: &G,
) -> Result<TreeOutcome, NoMemory>
    requires open { winner_of line.now.frame line.now.state ≡ None }
    requires state { IsWellFormedState line.now.frame line.now.state }
    ensures { IfOk result (SolvesProblemAs options (Ok line.now)) }
{
    let solved = tt_solve::solve(rt, alloc, line, options, bytes, gate)?;
    answered(alloc, line, &solved)
}

/// The same where nothing is asked of turns, without a thread.
fn answer_alone(
    alloc: Global,
    line: &Line,
    options: Options,
    bytes: usize,
) -> Result<TreeOutcome, NoMemory>
    requires open { winner_of line.now.frame line.now.state ≡ None }
    requires state { IsWellFormedState line.now.frame line.now.state }
    requires turns { options.turns ≡ false }
    ensures { IfOk result (SolvesProblemAs options (Ok line.now)) }
{
    let solved = tt_solve::solve_alone(alloc, line, options, bytes)?;
    answered(alloc, line, &solved)
}

/// What is said of the problem that a main line is, or its refusal. The problem's text has so many bytes. The gate hears of the
/// problem's first turns, and of no turn behind one.
pub fn solve<X: Threads + Wait + Sync, G: Gate>(
    rt: &X,
    alloc: Global,
    main: &MainLine,
    options: Options,
    bytes: usize,
    gate: &G,
) -> Result<TreeOutcome, NoMemory>
    ensures { IfOk result (λ outcome. Solves options main.now.nodes outcome) }
{
    match problem(alloc, main) {
        Ok(line) => answer(rt, alloc, &line, options, bytes, gate),
        Err(GameFault::NoMemory) => Err(NoMemory),
        Err(fault) => Ok(TreeOutcome::Refused(fault.code())),
    }
}

/// The same where nothing is asked of turns, without a thread.
pub fn solve_alone(
    alloc: Global,
    main: &MainLine,
    options: Options,
    bytes: usize,
) -> Result<TreeOutcome, NoMemory>
    requires { options.turns ≡ false }
    ensures { IfOk result (λ outcome. Solves options main.now.nodes outcome) }
{
    match problem(alloc, main) {
        Ok(line) => answer_alone(alloc, &line, options, bytes),
        Err(GameFault::NoMemory) => Err(NoMemory),
        Err(fault) => Ok(TreeOutcome::Refused(fault.code())),
    }
}
