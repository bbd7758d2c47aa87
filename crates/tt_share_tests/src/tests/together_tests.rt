//! Problems solved by workers in threads. The verdicts are by a program written from the definitions alone.

use super::common::{Setting, posed, searched, verdict, verdict_by, want};
use super::rows::{cut, number, short_number};
use std::alloc::Global;
use std::str::from_utf8;
use std::sync::atomic::{AtomicU64, Ordering};
use std::sync::{Arc, Wait};
use std::test::Fail;
use std::thread::Threads;
use tt_game::Line;
use tt_proof::Proof;
use tt_search::{Kept, Limits, ProofPerSide};
use tt_share::{CertLog, Gate, NoGate, View, solve_counting_grants};

/// A line of a table: a problem, what it is solved with, a problem whose proof is put into the log before, the answers of
/// which one has to come, how many jobs are announced, and a problem of which the log's newest proof stands at its line behind.
#[derive(Clone, Copy)]
struct Row<'a> {
    problem: &'a [u8],
    with: Setting,
    planted: &'a [u8],
    want: &'a [u8],
    jobs: &'a [u8],
    kept: &'a [u8],
}

/// The total that the digits write, or none where there are none.
fn total_of(digits: &[u8]) -> Option<u32> {
    if digits.is_empty() {
        return None;
    }
    Some(number(digits))
}

/// The line of a table, in which a bar ends each part but the last. What isn't asked for is empty.
fn row_of(line: &[u8]) -> Row<'_> {
    let (problem, rest) = cut(line, b'|');
    let (budget, rest) = cut(rest, b'|');
    let (depth, rest) = cut(rest, b'|');
    let (total, rest) = cut(rest, b'|');
    let (workers, rest) = cut(rest, b'|');
    let (want, rest) = cut(rest, b'|');
    let (jobs, rest) = cut(rest, b'|');
    let (planted, kept) = cut(rest, b'|');
    let with = Setting {
        budget: number(budget),
        depth: short_number(depth),
        total: total_of(total),
        workers: usize::from(short_number(workers)),
    };
    Row {
        problem,
        with,
        planted,
        want,
        jobs,
        kept,
    }
}

/// Counts the jobs that begin and those that end.
#[derive(Drop)]
struct Counting {
    begun: AtomicU64,
    ended: AtomicU64,
}

impl Gate for Counting {
    fn begin(&self, _job: usize) {
        self.begun.fetch_add(1, Ordering::SeqCst);
    }

    fn end(&self, _job: usize) {
        self.ended.fetch_add(1, Ordering::SeqCst);
    }
}

impl Counting {
    /// Whether as many jobs have begun as the digits say, and as many have ended.
    fn counts(&self, jobs: &[u8]) -> bool {
        let jobs = u64::from(number(jobs));
        self.begun.load(Ordering::SeqCst) == jobs && self.ended.load(Ordering::SeqCst) == jobs
    }
}

/// Keeps the proof of a problem in the log, through a view of its own.
fn plant<R: Wait>(rt: &R, alloc: Global, log: &CertLog, text: &[u8]) -> Result<(), Fail> {
    let proof = searched(alloc, text)?;
    let mut view = View::new(alloc, log)?;
    if view.keep(rt, proof) == Kept::Stored {
        return Ok(());
    }
    Err(Fail::new("not kept"))
}

/// Whether there is a proof, and it stands at the line.
fn stands(found: &Option<Arc<Proof>>, line: &Line) -> bool {
    match found {
        Some(proof) => proof.stands_at(line),
        None => false,
    }
}

/// Whether a view finds a proof for one side alone, and it stands at the line.
fn finds_one(view: &mut View<'_>, line: &Line) -> Result<bool, Fail> {
    let ProofPerSide { attacker, defender } = view.find_both(line)?;
    let one = attacker.is_some() != defender.is_some();
    Ok(one && (stands(&attacker, line) || stands(&defender, line)))
}

/// Whether a new view of the log does so at the problem's line.
fn is_kept(alloc: Global, log: &CertLog, problem: &[u8]) -> Result<bool, Fail> {
    let line = posed(alloc, problem)?;
    let mut view = View::new(alloc, log)?;
    finds_one(&mut view, &line)
}

/// Whether the answer is the one that is wanted, or one of up to three with a stroke between them.
fn is_wanted(got: &[u8], want: &[u8]) -> bool {
    let (first, rest) = cut(want, b'/');
    let (second, third) = cut(rest, b'/');
    got == first || got == second || got == third
}

/// The answer of a line over the log, as a text.
fn solved<R: Threads + Wait + Sync, G: Gate>(
    rt: &R,
    alloc: Global,
    row: Row<'_>,
    log: &CertLog,
    gate: &G,
) -> Result<Vec<u8>, Fail> {
    let line = posed(alloc, row.problem)?;
    verdict_by(rt, alloc, &line, row.with, log, gate)
}

/// Whether the line of a table is so over the log.
fn is_so<R: Threads + Wait + Sync>(
    rt: &R,
    alloc: Global,
    row: Row<'_>,
    log: &CertLog,
) -> Result<bool, Fail> {
    if !row.planted.is_empty() {
        plant(rt, alloc, log, row.planted)?;
    }
    let gate = Counting {
        begun: AtomicU64::new(0),
        ended: AtomicU64::new(0),
    };
    let got = solved(rt, alloc, row, log, &gate)?;
    let counts = row.jobs.is_empty() || gate.counts(row.jobs);
    let kept = row.kept.is_empty() || is_kept(alloc, log, row.kept)?;
    Ok(is_wanted(got.as_slice(), row.want) && counts && kept)
}

/// Fails unless the line of a table is so over the log.
fn row_holds<R: Threads + Wait + Sync>(
    rt: &R,
    alloc: Global,
    line: &[u8],
    log: &CertLog,
) -> Result<(), Fail> {
    if is_so(rt, alloc, row_of(line), log)? {
        return Ok(());
    }
    Err(Fail::new(from_utf8(line).unwrap_or("a row")))
}

/// Fails unless the lines of a table are so, one after the other over one log.
pub(crate) fn hold_over_one_log<R: Threads + Wait + Sync>(
    rt: &R,
    alloc: Global,
    table: &'static str,
    count: u8,
) -> Result<(), Fail> {
    let log = CertLog::new(alloc)?;
    let mut rest = table.as_bytes();
    for _ in 0..count {
        let (line, behind) = cut(rest, b'\n');
        row_holds(rt, alloc, line, &log)?;
        rest = behind;
    }
    if rest.is_empty() {
        Ok(())
    } else {
        Err(Fail::new("the table is longer"))
    }
}

/// Fails unless the lines of a table are so, each over a log of its own.
pub(crate) fn hold<R: Threads + Wait + Sync>(
    rt: &R,
    alloc: Global,
    table: &'static str,
    count: u8,
) -> Result<(), Fail> {
    let mut rest = table.as_bytes();
    for _ in 0..count {
        let (line, behind) = cut(rest, b'\n');
        let log = CertLog::new(alloc)?;
        row_holds(rt, alloc, line, &log)?;
        rest = behind;
    }
    if rest.is_empty() {
        Ok(())
    } else {
        Err(Fail::new("the table is longer"))
    }
}

/// Problems with their answers by 1, 2 and 64 workers.
const VERDICTS: &str = "\
(;SZ[2:1]AW[ba]PL[B]TR[ba])|100000|512||1|killed aa
(;SZ[2:1]AW[ba]PL[B]TR[ba])|100000|512||2|killed aa
(;SZ[2:1]AW[ba]PL[B]TR[ba])|100000|512||64|killed aa
(;SZ[2:1]AW[ba]PL[W]TR[ba])|100000|512||1|killed
(;SZ[2:1]AW[ba]PL[W]TR[ba])|100000|512||2|killed
(;SZ[2:1]AW[ba]PL[W]TR[ba])|100000|512||64|killed
(;SZ[3:1]AW[ba]PL[W]TR[ba])|100000|512||1|lives pass
(;SZ[3:1]AW[ba]PL[W]TR[ba])|100000|512||2|lives pass
(;SZ[3:1]AW[ba]PL[W]TR[ba])|100000|512||64|lives pass
(;SZ[4:1]AW[ba]PL[B]TR[ba])|100000|512||1|lives
(;SZ[4:1]AW[ba]PL[B]TR[ba])|100000|512||2|lives
(;SZ[4:1]AW[ba]PL[B]TR[ba])|100000|512||64|lives
(;SZ[4:1]AW[ba]PL[B]TR[ba]SQ[aa][ca])|100000|512||1|killed ca
(;SZ[4:1]AW[ba]PL[B]TR[ba]SQ[aa][ca])|100000|512||2|killed ca
(;SZ[4:1]AW[ba]PL[B]TR[ba]SQ[aa][ca])|100000|512||64|killed ca
(;SZ[4:1]AW[ba]PL[B]TR[ba])|1|512||1|budget ca
(;SZ[4:1]AW[ba]PL[B]TR[ba])|1|512||2|budget ca
(;SZ[4:1]AW[ba]PL[B]TR[ba])|1|512||64|budget ca
(;SZ[4:1]AW[ba]PL[B]TR[ba])|100000|1||1|depth ca
(;SZ[4:1]AW[ba]PL[B]TR[ba])|100000|1||2|depth ca
(;SZ[4:1]AW[ba]PL[B]TR[ba])|100000|1||64|depth ca
(;SZ[4:1]AB[ba]AW[ca]PL[B]TR[ca])|1|512||1|killed da
(;SZ[4:1]AB[ba]AW[ca]PL[B]TR[ca])|1|512||2|killed da
(;SZ[4:1]AB[ba]AW[ca]PL[B]TR[ca])|1|512||64|killed da
";

#[test]
fn verdicts_by_workers(rt: HostRuntime) -> Result<(), Fail> {
    hold(&rt, rt.alloc(), VERDICTS, 24)
}

/// A play at the third point wins, and takes two expansions; a pass loses after one. So under a total of one the play is stuck,
/// whichever of the two is granted it: the play, or by a second worker the pass.
const TOTALS: &str = "\
(;SZ[4:1]AW[ba][da]PL[B]TR[ba])|100000|512|1|1|total ca 1, ca 1, pass 0
(;SZ[4:1]AW[ba][da]PL[B]TR[ba])|100000|512|1|2|total ca 1, ca 1, pass 0/total ca 0, ca 0, pass 1
(;SZ[4:1]AW[ba][da]PL[B]TR[ba])|100000|512|1|64|total ca 1, ca 1, pass 0/total ca 0, ca 0, pass 1
(;SZ[4:1]AW[ba][da]PL[B]TR[ba])|100000|512|3|1|killed ca
(;SZ[4:1]AW[ba][da]PL[B]TR[ba])|100000|512|3|2|killed ca
(;SZ[4:1]AW[ba][da]PL[B]TR[ba])|100000|512|3|64|killed ca
";

#[test]
fn totals_over_workers(rt: HostRuntime) -> Result<(), Fail> {
    hold(&rt, rt.alloc(), TOTALS, 6)
}

/// One worker alone spends as many as the first turn needs, and where both budgets are spent, that of the first turn is named.
const BUDGET_AND_TOTAL: &str = "\
(;SZ[4:1]AW[ba][da]PL[B]TR[ba])|100000|512|2|1|killed ca
(;SZ[4:1]AW[ba][da]PL[B]TR[ba])|1|512|1|1|budget ca
";

#[test]
fn the_budget_is_named_before_the_total(rt: HostRuntime) -> Result<(), Fail> {
    hold(&rt, rt.alloc(), BUDGET_AND_TOTAL, 2)
}

/// What was found for one problem serves the next one over the same log, and the same problem again: the first, the same again,
/// another history, and the first once more.
const TWO_PROBLEMS: &str = "\
(;SZ[4:1]AW[ba][da]PL[B]TR[ba])|100000|512||2|killed ca
(;SZ[4:1]AW[ba][da]PL[B]TR[ba])|100000|512||2|killed ca
(;SZ[4:1]AW[ba];B[ca];W[da]TR[ba])|100000|512||2|lives
(;SZ[4:1]AW[ba][da]PL[B]TR[ba])|100000|512||2|killed ca
";

#[test]
fn one_log_for_two_problems(rt: HostRuntime) -> Result<(), Fail> {
    hold_over_one_log(&rt, rt.alloc(), TWO_PROBLEMS, 4)
}

/// A view of the log, made behind a run, has the proof of the search behind the play that wins. Each run searches there, and
/// offers what it found.
const KEPT: &str = "\
(;SZ[4:1]AW[ba][da]PL[B]TR[ba])|100000|512||1|killed ca|||(;SZ[4:1]AW[ba][da]PL[B];B[ca]TR[ba])
(;SZ[4:1]AW[ba][da]PL[B]TR[ba])|100000|512||2|killed ca|||(;SZ[4:1]AW[ba][da]PL[B];B[ca]TR[ba])
(;SZ[4:1]AW[ba][da]PL[B]TR[ba])|100000|512||64|killed ca|||(;SZ[4:1]AW[ba][da]PL[B];B[ca]TR[ba])
";

/// What a worker finds is in the log.
#[test]
fn workers_keep_in_the_log(rt: HostRuntime) -> Result<(), Fail> {
    hold(&rt, rt.alloc(), KEPT, 3)
}

/// Where no turn wins each legal turn is a job: two or four plays and a pass. A job begins once and ends once.
const TOLD: &str = "\
(;SZ[4:1]AW[ba]PL[B]TR[ba])|100000|512||1|lives|3
(;SZ[4:1]AW[ba]PL[B]TR[ba])|100000|512||2|lives|3
(;SZ[4:1]AW[ba]PL[B]TR[ba])|100000|512||64|lives|3
(;SZ[6:1]AW[ba]PL[B]TR[ba])|100000|512||3|lives|5
";

#[test]
fn each_job_is_told(rt: HostRuntime) -> Result<(), Fail> {
    hold(&rt, rt.alloc(), TOLD, 4)
}

/// The same where all searches together may expand one node, which one of the three is granted: the play at the third point, that
/// at the fourth, or the pass, which it settles.
const TOLD_WITHIN_ONE: &str = "\
(;SZ[4:1]AW[ba]PL[B]TR[ba])|100000|512|1|1|total ca 1, ca 1, da 0, pass 0|3
(;SZ[4:1]AW[ba]PL[B]TR[ba])|100000|512|1|2|total ca 1, ca 1, da 0, pass 0/total ca 0, ca 0, da 1, pass 0/total ca 0, ca 0, da 0, pass 1|3
(;SZ[4:1]AW[ba]PL[B]TR[ba])|100000|512|1|64|total ca 1, ca 1, da 0, pass 0/total ca 0, ca 0, da 1, pass 0/total ca 0, ca 0, da 0, pass 1|3
";

/// A worker that is refused an expansion draws on.
#[test]
fn each_job_is_told_though_the_total_is_spent(rt: HostRuntime) -> Result<(), Fail> {
    hold(&rt, rt.alloc(), TOLD_WITHIN_ONE, 3)
}

/// The same where no search may expand a node. Each job is told, and each is stuck.
const TOLD_WITHIN_NONE: &str = "\
(;SZ[4:1]AW[ba]PL[B]TR[ba])|100000|512|0|1|total ca 0, ca 0, da 0, pass 0|3
(;SZ[4:1]AW[ba]PL[B]TR[ba])|100000|512|0|2|total ca 0, ca 0, da 0, pass 0|3
(;SZ[4:1]AW[ba]PL[B]TR[ba])|100000|512|0|64|total ca 0, ca 0, da 0, pass 0|3
";

#[test]
fn a_total_of_0_is_spent_at_once(rt: HostRuntime) -> Result<(), Fail> {
    hold(&rt, rt.alloc(), TOLD_WITHIN_NONE, 3)
}

/// The answer of one worker to a lone stone's problem, as a text, and how many expansions were granted of the total.
fn counted<R: Threads + Wait + Sync>(
    rt: &R,
    alloc: Global,
    total: Option<u32>,
) -> Result<(Vec<u8>, u64), Fail> {
    let line = posed(alloc, b"(;SZ[4:1]AW[ba]PL[B]TR[ba])")?;
    let Some(limits) = Limits::new(100, 512) else {
        return Err(Fail::new("no limits"));
    };
    if limits.depth() == 0 || line.winner().is_some() {
        return Err(Fail::new("nothing to solve"));
    }
    let log = CertLog::new(alloc)?;
    let (answer, granted) = solve_counting_grants(
        rt, alloc, &line, &limits, total, 1, &log, &NoGate,
    );
    Ok((verdict(alloc, &line, &answer)?, granted))
}

/// Whether the problem is answered within the total, and whether the count is that.
fn is_counted<R: Threads + Wait + Sync>(
    rt: &R,
    alloc: Global,
    total: Option<u32>,
    lives: bool,
    count: u64,
) -> Result<bool, Fail> {
    let (text, granted) = counted(rt, alloc, total)?;
    Ok((text.as_slice() == b"lives".as_slice()) == lives && granted == count)
}

/// A problem takes as many grants as are counted: within so many it is answered alike, and within one less it isn't.
#[test]
fn grants_are_counted(rt: HostRuntime) -> Result<(), Fail> {
    let alloc = rt.alloc();
    let (_, granted) = counted(&rt, alloc, Some(100))?;
    if granted > 100 {
        return Err(Fail::new("more grants than the total"));
    }
    let count = granted as u32;
    let less = count.saturating_sub(1);
    want(count > 0, "no grants")?;
    want(
        is_counted(&rt, alloc, Some(count), true, granted)?,
        "so many",
    )?;
    want(
        is_counted(&rt, alloc, Some(less), false, u64::from(less))?,
        "one less",
    )?;
    want(is_counted(&rt, alloc, Some(0), false, 0)?, "none")?;
    want(is_counted(&rt, alloc, None, true, 0)?, "no total")
}

/// A worker that has won a job begins no other: of two legal turns the first wins, twice; of three the second, and of
/// three the last.
const WON: &str = "\
(;SZ[2:1]AW[ba]PL[B]TR[ba])|100000|512||1|killed aa|1
(;SZ[4:1]AW[ba][da]PL[B]TR[ba])|100000|512||1|killed ca|1
(;SZ[4:1]AB[ba]AW[ca]PL[B]TR[ca])|1|512||1|killed da|2
(;SZ[3:1]AW[ba]PL[W]TR[ba])|100000|512||1|lives pass|3
";

#[test]
fn no_job_after_a_win(rt: HostRuntime) -> Result<(), Fail> {
    hold(&rt, rt.alloc(), WON, 4)
}

/// The proof of a solved line is offered to the log, whichever side it is for, and the log has it for the same line: no
/// job begins.
const AGAIN_KILLED: &str = "\
(;SZ[4:1]AW[ba][da]PL[B]TR[ba])|100000|512||2|killed ca
(;SZ[4:1]AW[ba][da]PL[B]TR[ba])|100000|512||2|killed ca|0
";

const AGAIN_LIVES: &str = "\
(;SZ[4:1]AW[ba]PL[B]TR[ba])|100000|512||2|lives
(;SZ[4:1]AW[ba]PL[B]TR[ba])|100000|512||2|lives|0
";

#[test]
fn a_solved_line_is_found(rt: HostRuntime) -> Result<(), Fail> {
    hold_over_one_log(&rt, rt.alloc(), AGAIN_KILLED, 2)?;
    hold_over_one_log(&rt, rt.alloc(), AGAIN_LIVES, 2)
}

/// An answer that came from the log isn't offered to it: its proof would stand at a line with another history.
const NOT_OFFERED: &str = "\
(;SZ[4:1]AW[ba][da]PL[B]TR[ba])|100000|512||2|killed ca
(;SZ[4:1]AW[da];B[];W[ba]TR[ba])|100000|512||2|killed ca|||(;SZ[4:1]AW[ba][da]PL[B]TR[ba])
";

#[test]
fn a_found_answer_is_not_offered(rt: HostRuntime) -> Result<(), Fail> {
    hold_over_one_log(&rt, rt.alloc(), NOT_OFFERED, 2)
}
