//! What is done with each tree of an input.
ghost use Rattle.std.specs.Prelude.{◌≡◌, IfOk, true};
ghost use Rattle.tsumego.specs.CommandLine.{IsInRange};
ghost use Rattle.tsumego.specs.Tasks.{IsTaskOf, MakesOutcome, asks_for_certificate, asks_for_shared_parts};

use crate::progress::{ProblemGate, Progress};
use crate::request::Command;
use std::alloc::Global;
use std::sync::Wait;
use std::thread::Threads;
use tt_sgf::{MainLine, NoMemory};
use tt_solve::{CertKind, Options};
use tt_text::{TreeOutcome, score, solve};

/// A tree of the input: its number, its main line, and how many bytes its text has.
#[derive(Drop)]
pub struct InputTree {
    pub number: usize,
    pub main: MainLine,
    pub bytes: usize,
}

/// What is done with each tree of an input: it is scored as a record or solved as a problem.
#[derive(Clone, Copy, Debug)]
pub enum TreeTask {
    Score,
    Solve(Options),
}

/// What is done with an input: so much with each of its trees; or its certificate is checked, which may share parts where that is said.
#[derive(Clone, Copy, Debug)]
pub enum InputTask {
    Trees(TreeTask),
    Check { parts: bool },
}

/// The kind of certificate that the flags ask for.
fn cert_kind_of_flags(cert: bool, parts: bool) -> CertKind
    requires { parts ≡ true → cert ≡ true }
    ensures { (asks_for_certificate result ≡ cert) × (asks_for_shared_parts result ≡ parts) }
{
    match (cert, parts) {
        (true, true) => CertKind::Shared,
        (true, false) => CertKind::Plain,
        (false, _) => CertKind::Unasked,
    }
}

/// What a command does with its input.
pub fn task_of(command: &Command) -> InputTask
    requires { IsInRange command.now }
    ensures { IsTaskOf command.now result }
{
    match command {
        Command::Score => InputTask::Trees(TreeTask::Score),
        Command::Check => InputTask::Check { parts: false },
        Command::CheckParts => InputTask::Check { parts: true },
        Command::Solve {
            limits,
            workers,
            cert,
            total,
            dfpn,
            parts,
            turns,
            ..
        } => InputTask::Trees(TreeTask::Solve(Options {
            limits: *limits,
            total: *total,
            dfpn: *dfpn,
            workers: *workers,
            cert: cert_kind_of_flags(*cert, *parts),
            turns: *turns,
        })),
    }
}

impl TreeTask {
    /// What becomes of a tree. Where it is solved, it is told how far that is.
    pub fn perform<X: Threads + Wait + Sync, P: Progress>(
        &self,
        rt: &X,
        alloc: Global,
        tree: &InputTree,
        progress: &P,
    ) -> Result<TreeOutcome, NoMemory>
        ensures { IfOk result (MakesOutcome self.now tree.now.main.nodes) }
    {
        match self {
            TreeTask::Score => score(alloc, &tree.main),
            TreeTask::Solve(options) => {
                progress.begin_problem(tree.number);
                let gate = ProblemGate::new(progress, tree.number);
                let outcome = solve(rt, alloc, &tree.main, *options, tree.bytes, &gate);
                let unsettled = match &outcome {
                    Ok(TreeOutcome::Answered(Err(reason), _)) => Some(*reason),
                    _ => None,
                };
                progress.end_problem(unsettled);
                outcome
            }
        }
    }
}
