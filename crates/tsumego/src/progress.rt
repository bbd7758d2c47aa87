//! How far a problem is while it is solved: who is told, and what stands on standard error.

use crate::request::Command;
use crate::tips::unsettled_tip;
use std::alloc::Global;
use std::io::Eprint;
use tt_search::Reason;
use tt_share::Gate;

/// Is told how far the problems of an input are, by several threads at once.
pub trait Progress: Sync {
    /// The problem with this number begins.
    fn begin_problem(&self, number: usize);

    /// One of its first turns begins, by its number among the legal turns, from 0 on. Workers draw first turns in rising order, so
    /// those before it are through or under way.
    fn begin_turn(&self, number: usize, job: usize);

    /// The problem that began last has ended; why, where it is unsettled.
    fn end_problem(&self, unsettled: Option<Reason>);
}

/// Is told, and does nothing.
#[derive(Clone, Copy, Debug, Default)]
pub struct NoProgress;

impl Progress for NoProgress {
    fn begin_problem(&self, _number: usize) {}

    fn begin_turn(&self, _number: usize, _job: usize) {}

    fn end_problem(&self, _unsettled: Option<Reason>) {}
}

/// Shows the problem, and the first turn that was begun last, on one line of standard error, which is wiped in the end. Then it says what
/// may settle an unsettled problem, if it gives tips.
#[derive(Clone, Copy)]
pub struct ProgressLine<'a, X> {
    rt: &'a X,
    alloc: Global,
    command: &'a Command,
    gives_tips: bool,
}

impl<'a, X> ProgressLine<'a, X> {
    /// A line on which nothing stands yet.
    pub fn new(
        rt: &'a X,
        alloc: Global,
        command: &'a Command,
        gives_tips: bool,
    ) -> ProgressLine<'a, X> {
        ProgressLine {
            rt,
            alloc,
            command,
            gives_tips,
        }
    }
}

impl<X: Eprint + Sync> Progress for ProgressLine<'_, X> {
    fn begin_problem(&self, number: usize) {
        if let Ok(text) = format!(in self.alloc; "problem {number}") {
            let _ = self.rt.eprint(text.as_str());
        }
    }

    fn begin_turn(&self, number: usize, job: usize) {
        let turn = job.saturating_add(1);
        if let Ok(text) = format!(in self.alloc; "\rproblem {number}: first turn {turn}") {
            let _ = self.rt.eprint(text.as_str());
        }
    }

    fn end_problem(&self, unsettled: Option<Reason>) {
        let _ = self.rt.eprint("\r\u{1b}[K");
        if let Some(reason) = unsettled {
            if self.gives_tips {
                if let Ok(tip) = unsettled_tip(self.alloc, self.command, reason) {
                    let _ = self.rt.eprintln(tip.as_str());
                }
            }
        }
    }
}

/// Tells of the first turns of one problem.
#[derive(Clone, Copy)]
pub struct ProblemGate<'a, P> {
    progress: &'a P,
    number: usize,
}

impl<'a, P: Progress> ProblemGate<'a, P> {
    /// Of the problem with this number.
    pub fn new(progress: &'a P, number: usize) -> ProblemGate<'a, P> {
        ProblemGate { progress, number }
    }
}

impl<P: Progress> Gate for ProblemGate<'_, P> {
    fn begin(&self, job: usize) {
        self.progress.begin_turn(self.number, job);
    }

    fn end(&self, _job: usize) {}
}
