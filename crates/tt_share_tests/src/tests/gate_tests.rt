//! Gates that look when each job is searched, and what a run leaves in the log.

use super::common::{SPLIT, Setting, line_of, posed, verdict_by, want};
use std::alloc::Global;
use std::sync::Wait;
use std::sync::atomic::{AtomicU64, Ordering};
use std::test::Fail;
use std::thread;
use std::thread::Threads;
use tt_game::{Line, Turn};
use tt_search::ProofPerSide;
use tt_share::{CertLog, Gate, NoGate, View};

/// A lone white stone, which lives: three turns, and none wins.
const LONE: &[u8] = b"(;SZ[4:1]AW[ba]PL[B]TR[ba])";

/// The line behind a pass there.
fn behind_pass(alloc: Global) -> Option<Line> {
    let mut line = line_of(alloc, LONE)?;
    line.push(Turn::Pass).ok()?;
    Some(line)
}

/// The line behind a turn there, by its index among the legal turns: a play at the third point, one at the fourth, and the pass.
fn behind(alloc: Global, job: usize) -> Option<Line> {
    match job {
        0 => line_of(alloc, b"(;SZ[4:1]AW[ba]PL[B];B[ca]TR[ba])"),
        1 => line_of(alloc, b"(;SZ[4:1]AW[ba]PL[B];B[da]TR[ba])"),
        _ => behind_pass(alloc),
    }
}

/// A budget that is enough, with so many workers.
fn ample(workers: usize) -> Setting {
    Setting {
        budget: 100_000,
        depth: 512,
        total: None,
        workers,
    }
}

/// Waits for another thread to set the flag, and answers whether it did in time.
fn is_set_in_time(flag: &AtomicU64) -> bool {
    for _ in 0..10_000_000u32 {
        if flag.load(Ordering::SeqCst) == 1 {
            return true;
        }
        thread::yield_now();
    }
    false
}

/// The answer to a problem by workers, as a text.
fn solved<R: Threads + Wait + Sync, G: Gate>(
    rt: &R,
    alloc: Global,
    text: &[u8],
    with: Setting,
    log: &CertLog,
    gate: &G,
) -> Result<Vec<u8>, Fail> {
    let line = posed(alloc, text)?;
    verdict_by(rt, alloc, &line, with, log, gate)
}

/// Whether a problem has this answer by so many workers over a new log, with a gate.
fn is_solved<R: Threads + Wait + Sync, G: Gate>(
    rt: &R,
    alloc: Global,
    text: &[u8],
    workers: usize,
    gate: &G,
    want: &[u8],
) -> Result<bool, Fail> {
    let log = CertLog::new(alloc)?;
    let got = solved(rt, alloc, text, ample(workers), &log, gate)?;
    Ok(got.as_slice() == want)
}

/// Holds the first job back until the second one has begun.
#[derive(Drop)]
struct SideBySide {
    second: AtomicU64,
    missed: AtomicU64,
}

impl Gate for SideBySide {
    fn begin(&self, job: usize) {
        if job == 1 {
            self.second.store(1, Ordering::SeqCst);
        }
        if job == 0 && !is_set_in_time(&self.second) {
            self.missed.store(1, Ordering::SeqCst);
        }
    }

    fn end(&self, _job: usize) {}
}

/// Whether so many workers meet at two jobs, and solve the problem.
fn meet<R: Threads + Wait + Sync>(rt: &R, alloc: Global, workers: usize) -> Result<bool, Fail> {
    let gate = SideBySide {
        second: AtomicU64::new(0),
        missed: AtomicU64::new(0),
    };
    let is = is_solved(rt, alloc, SPLIT, workers, &gate, b"killed ca")?;
    let second = gate.second.load(Ordering::SeqCst);
    let missed = gate.missed.load(Ordering::SeqCst);
    Ok(is && second == 1 && missed == 0)
}

#[test]
fn jobs_run_side_by_side(rt: HostRuntime) -> Result<(), Fail> {
    want(meet(&rt, rt.alloc(), 2)?, "2 workers")?;
    want(meet(&rt, rt.alloc(), 64)?, "64 workers")
}

/// Holds the first job back until the second one has ended, and its worker has had time to raise the mark.
#[derive(Drop)]
struct HeldBack {
    ended: AtomicU64,
    missed: AtomicU64,
}

impl Gate for HeldBack {
    fn begin(&self, job: usize) {
        if job != 0 {
            return;
        }
        if !is_set_in_time(&self.ended) {
            self.missed.store(1, Ordering::SeqCst);
        }
        for _ in 0..10_000u32 {
            thread::yield_now();
        }
    }

    fn end(&self, job: usize) {
        if job == 1 {
            self.ended.store(1, Ordering::SeqCst);
        }
    }
}

/// Two turns win here.
const TWO_WINS: &[u8] = b"(;SZ[7:1]AB[ca][ea]AW[ba][fa]PL[B]TR[ba][fa]SQ[aa][ga])";

/// Whether so many workers answer the least turn that wins, where its search begins after the other one has won.
fn least_is_shown<R: Threads + Wait + Sync>(
    rt: &R,
    alloc: Global,
    workers: usize,
) -> Result<bool, Fail> {
    let gate = HeldBack {
        ended: AtomicU64::new(0),
        missed: AtomicU64::new(0),
    };
    let is = is_solved(rt, alloc, TWO_WINS, workers, &gate, b"killed aa")?;
    Ok(is && gate.missed.load(Ordering::SeqCst) == 0)
}

/// A job that was drawn is searched, though another one has won meanwhile: so the least turn that wins is shown.
#[test]
fn a_drawn_job_is_searched_after_a_win(rt: HostRuntime) -> Result<(), Fail> {
    want(least_is_shown(&rt, rt.alloc(), 2)?, "2 workers")?;
    want(least_is_shown(&rt, rt.alloc(), 3)?, "3 workers")?;
    want(least_is_shown(&rt, rt.alloc(), 64)?, "64 workers")
}

/// Holds what it heard of each of three jobs: 1 once it began, 2 once it ended. What comes out of turn is counted.
#[derive(Drop)]
struct InTurn {
    first: AtomicU64,
    second: AtomicU64,
    third: AtomicU64,
    astray: AtomicU64,
}

impl InTurn {
    /// One more thing is heard of the job, of which so many were heard before.
    fn tell(&self, job: usize, before: u64) {
        let found = match job {
            0 => self.first.fetch_add(1, Ordering::SeqCst),
            1 => self.second.fetch_add(1, Ordering::SeqCst),
            2 => self.third.fetch_add(1, Ordering::SeqCst),
            _ => 3,
        };
        if found != before {
            self.astray.fetch_add(1, Ordering::SeqCst);
        }
    }

    /// Whether each of the jobs was announced twice, and in turn.
    fn are_told(&self) -> bool {
        self.astray.load(Ordering::SeqCst) == 0
            && self.first.load(Ordering::SeqCst) == 2
            && self.second.load(Ordering::SeqCst) == 2
            && self.third.load(Ordering::SeqCst) == 2
    }
}

impl Gate for InTurn {
    fn begin(&self, job: usize) {
        self.tell(job, 0);
    }

    fn end(&self, job: usize) {
        self.tell(job, 1);
    }
}

/// Whether each job is announced twice, as it begins and after that as it ends, where no turn wins.
fn each_in_turn<R: Threads + Wait + Sync>(
    rt: &R,
    alloc: Global,
    workers: usize,
) -> Result<bool, Fail> {
    let gate = InTurn {
        first: AtomicU64::new(0),
        second: AtomicU64::new(0),
        third: AtomicU64::new(0),
        astray: AtomicU64::new(0),
    };
    Ok(is_solved(rt, alloc, LONE, workers, &gate, b"lives")? && gate.are_told())
}

#[test]
fn a_job_begins_before_it_ends(rt: HostRuntime) -> Result<(), Fail> {
    want(each_in_turn(&rt, rt.alloc(), 1)?, "1 worker")?;
    want(each_in_turn(&rt, rt.alloc(), 2)?, "2 workers")?;
    want(each_in_turn(&rt, rt.alloc(), 64)?, "64 workers")
}

/// Looks for a proof of the line behind each job's turn in the log: none is to be there as the job begins, and one as it ends.
#[derive(Drop)]
struct Looking<'a> {
    alloc: Global,
    log: &'a CertLog,
    right: AtomicU64,
    astray: AtomicU64,
}

/// Whether a view has a proof of the line's key.
fn has_any(view: &mut View<'_>, line: &Line) -> Option<bool> {
    let ProofPerSide { attacker, defender } = view.find_both(line).ok()?;
    Some(attacker.is_some() || defender.is_some())
}

/// Whether a new view of the log has a proof of a line's key.
fn is_there_at(alloc: Global, log: &CertLog, line: &Line) -> Option<bool> {
    let mut view = View::new(alloc, log).ok()?;
    has_any(&mut view, line)
}

/// Whether a new view of the log has a proof of the line behind a turn.
fn is_there(alloc: Global, log: &CertLog, job: usize) -> Option<bool> {
    let line = behind(alloc, job)?;
    is_there_at(alloc, log, &line)
}

impl Looking<'_> {
    /// Looks for the proof of the job.
    fn look(&self, job: usize, want: bool) {
        if is_there(self.alloc, self.log, job) == Some(want) {
            self.right.fetch_add(1, Ordering::SeqCst);
        } else {
            self.astray.fetch_add(1, Ordering::SeqCst);
        }
    }
}

impl Gate for Looking<'_> {
    fn begin(&self, job: usize) {
        self.look(job, false);
    }

    fn end(&self, job: usize) {
        self.look(job, true);
    }
}

/// Whether a worker searches each job after its beginning was announced, and before its end is.
fn are_searched_within<R: Threads + Wait + Sync>(rt: &R, alloc: Global) -> Result<bool, Fail> {
    let log = CertLog::new(alloc)?;
    let gate = Looking {
        alloc,
        log: &log,
        right: AtomicU64::new(0),
        astray: AtomicU64::new(0),
    };
    solved(rt, alloc, LONE, ample(1), &log, &gate)?;
    Ok(gate.right.load(Ordering::SeqCst) == 6 && gate.astray.load(Ordering::SeqCst) == 0)
}

/// A search keeps what it finds in the log, so the log shows that it lies behind `begin` and before `end`. One worker is asked: of
/// several, one may come to another's line first, and a push that isn't finished hides those behind it.
#[test]
fn a_job_is_searched_between_begin_and_end(rt: HostRuntime) -> Result<(), Fail> {
    want(are_searched_within(&rt, rt.alloc())?, "1 worker")
}

/// Whether a view has taken nothing in, as it was asked for the proofs of a line.
fn takes_nothing(view: &mut View<'_>, line: &Line) -> Option<bool> {
    has_any(view, line)?;
    Some(view.tokens().is_empty())
}

/// Whether a new view of the log takes nothing in, as it is asked for the proofs of a line.
fn is_empty_at(alloc: Global, log: &CertLog, line: &Line) -> Result<bool, Fail> {
    let mut view = View::new(alloc, log)?;
    Ok(takes_nothing(&mut view, line) == Some(true))
}

/// Whether a new view of the log takes nothing in.
fn is_empty(alloc: Global, log: &CertLog) -> Result<bool, Fail> {
    let line = posed(alloc, SPLIT)?;
    is_empty_at(alloc, log, &line)
}

/// Whether the log is empty behind a run of one worker under a total of one.
fn keeps_nothing<R: Threads + Wait + Sync>(rt: &R, alloc: Global) -> Result<bool, Fail> {
    let log = CertLog::new(alloc)?;
    let with = Setting {
        budget: 100,
        depth: 512,
        total: Some(1),
        workers: 1,
    };
    solved(rt, alloc, SPLIT, with, &log, &NoGate)?;
    is_empty(alloc, &log)
}

/// A play takes two expansions here, and the pass one, whose search would be kept: with the one that the play was granted none is
/// settled. A search beside what is granted would leave its proof in the log.
#[test]
fn no_step_beside_what_is_granted(rt: HostRuntime) -> Result<(), Fail> {
    want(keeps_nothing(&rt, rt.alloc())?, "a proof is kept")
}
