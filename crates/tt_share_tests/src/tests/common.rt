//! What the tests share: the lines of problems, and their answers as texts.

use std::alloc::Global;
use std::sync::{Arc, Wait};
use std::test::Fail;
use std::thread::Threads;
use tt_game::{Line, Side, Turn, problem};
use tt_proof::{Proof, put_turn, read_cert, write_cert};
use tt_search::{End, Free, Limits, NoStore, Reason, Search};
use tt_sgf::{Size, read_tree};
use tt_share::{Answer, CertLog, Gate, Stuck, solve};

/// White's two stones with liberties on both sides: Black to move kills at the third point.
pub(crate) const SPLIT: &[u8] = b"(;SZ[4:1]AW[ba][da]PL[B]TR[ba])";

/// Fails where it isn't so.
pub(crate) fn want(so: bool, name: &str) -> Result<(), Fail> {
    if so { Ok(()) } else { Err(Fail::new(name)) }
}

/// The line of a problem at which nobody has won, where its text is one.
pub(crate) fn line_of(alloc: Global, text: &[u8]) -> Option<Line> {
    let (line, _) = read_tree(alloc, text).ok()?;
    problem(alloc, &line).ok()
}

/// The same.
pub(crate) fn posed(alloc: Global, text: &[u8]) -> Result<Line, Fail> {
    match line_of(alloc, text) {
        Some(line) => Ok(line),
        None => Err(Fail::new("no problem")),
    }
}

/// The proof of a certificate at a line.
fn certified(alloc: Global, line: &mut Line, certificate: &[u8]) -> Option<Proof> {
    let size = line.frame().size;
    let (side, tree) = read_cert(alloc, certificate, size).ok()?;
    Proof::replayed(alloc, line, side, tree).ok()
}

/// The proof of a certificate at a problem, where it is one.
pub(crate) fn handle_of(alloc: Global, problem: &[u8], certificate: &[u8]) -> Option<Arc<Proof>> {
    let mut line = line_of(alloc, problem)?;
    let proof = certified(alloc, &mut line, certificate)?;
    Arc::new(alloc, proof).ok()
}

/// That proof; fails where there is none.
pub(crate) fn proof_of(
    alloc: Global,
    problem: &[u8],
    certificate: &[u8],
) -> Result<Arc<Proof>, Fail> {
    match handle_of(alloc, problem, certificate) {
        Some(proof) => Ok(proof),
        None => Err(Fail::new("no proof")),
    }
}

/// How a search at the problem ends.
fn end_of(alloc: Global, text: &[u8]) -> Result<End, Fail> {
    let Some(limits) = Limits::new(100, 500) else {
        return Err(Fail::new("no limits"));
    };
    let line = posed(alloc, text)?;
    Ok(Search::new(alloc, line, limits)?.run(&mut NoStore, &mut Free::new()))
}

/// The proof that a search at the problem ends with.
pub(crate) fn searched(alloc: Global, text: &[u8]) -> Result<Arc<Proof>, Fail> {
    match end_of(alloc, text)? {
        End::Settled(proof) => Ok(Arc::new(alloc, proof)?),
        End::Stuck(_, _) => Err(Fail::new("stuck")),
    }
}

/// What a problem is solved with.
#[derive(Clone, Copy)]
pub(crate) struct Setting {
    pub budget: u32,
    pub depth: u16,
    pub total: Option<u32>,
    pub workers: usize,
}

/// The answer to a line by workers over the log.
pub(crate) fn answered<R: Threads + Wait + Sync, G: Gate>(
    rt: &R,
    alloc: Global,
    line: &Line,
    with: Setting,
    log: &CertLog,
    gate: &G,
) -> Result<Answer, Fail> {
    let workers = with.workers;
    let Some(limits) = Limits::new(with.budget, with.depth) else {
        return Err(Fail::new("no limits"));
    };
    if limits.depth() == 0 || line.winner().is_some() || workers == 0 || workers > 64 {
        return Err(Fail::new("nothing to solve"));
    }
    Ok(solve(rt, alloc, line, &limits, with.total, workers, log, gate))
}

/// The same as a text.
pub(crate) fn verdict_by<R: Threads + Wait + Sync, G: Gate>(
    rt: &R,
    alloc: Global,
    line: &Line,
    with: Setting,
    log: &CertLog,
    gate: &G,
) -> Result<Vec<u8>, Fail> {
    let answer = answered(rt, alloc, line, with, log, gate)?;
    verdict(alloc, line, &answer)
}

/// Writes a space and the turn.
fn put_first(out: &mut Vec<u8>, size: Size, first: Turn) -> Result<(), Fail> {
    match first {
        Turn::Pass => Ok(out.extend_from_slice(b" pass")?),
        Turn::Play(p) => {
            if !size.holds(p) {
                return Err(Fail::new("no point of the board"));
            }
            out.push(b' ')?;
            Ok(put_turn(out, first, size)?)
        }
    }
}

/// Writes a number below ten, or that it is infinite; fails at another one.
pub(crate) fn put_number(out: &mut Vec<u8>, number: u32) -> Result<(), Fail> {
    if number == 4_294_967_295 {
        return Ok(out.extend_from_slice(b"inf")?);
    }
    if number > 9 {
        return Err(Fail::new("a number above nine"));
    }
    Ok(out.push(b'0'.wrapping_add(number as u8))?)
}

/// Writes how many nodes a turn's search expanded.
fn put_spent(out: &mut Vec<u8>, size: Size, turn: Turn, count: u32) -> Result<(), Fail> {
    out.push(b',')?;
    put_first(out, size, turn)?;
    out.push(b' ')?;
    put_number(out, count)
}

/// The word for why a search is stuck.
fn word_of(reason: Reason) -> &'static [u8] {
    match reason {
        Reason::Budget => b"budget",
        Reason::Depth => b"depth",
        Reason::Total => b"total",
        Reason::Memory => b"memory",
    }
}

/// Writes how many nodes were expanded behind each turn.
fn put_each(out: &mut Vec<u8>, size: Size, spent: &[(Turn, u32)]) -> Result<(), Fail> {
    for (turn, count) in spent {
        put_spent(out, size, *turn, *count)?;
    }
    Ok(())
}

/// Writes why a line is stuck, the turn where its search is there, and what was spent: how many nodes that search expanded, and
/// how many behind each turn.
fn put_stuck(out: &mut Vec<u8>, size: Size, stuck: &Stuck) -> Result<(), Fail> {
    out.extend_from_slice(word_of(stuck.reason))?;
    let Some(search) = &stuck.search else {
        return Ok(());
    };
    put_first(out, size, stuck.turn)?;
    if stuck.spent.is_empty() {
        return Ok(());
    }
    out.push(b' ')?;
    put_number(out, search.expanded())?;
    put_each(out, size, stuck.spent.as_slice())
}

/// Writes whether the proof's side kills or lives, and its first turn.
fn put_settled(out: &mut Vec<u8>, size: Size, side: Side, first: Option<Turn>) -> Result<(), Fail> {
    match side {
        Side::Attacker => out.extend_from_slice(b"killed")?,
        Side::Defender => out.extend_from_slice(b"lives")?,
    }
    match first {
        Some(turn) => put_first(out, size, turn),
        None => Ok(()),
    }
}

/// An answer as a text: `killed` or `lives` with the first turn, or why it is stuck.
pub(crate) fn verdict(alloc: Global, line: &Line, answer: &Answer) -> Result<Vec<u8>, Fail> {
    let mut out = Vec::new(alloc);
    let size = line.frame().size;
    match answer {
        Answer::Settled { proof, first } => put_settled(&mut out, size, proof.side(), *first)?,
        Answer::Unsettled(stuck) => put_stuck(&mut out, size, stuck)?,
    }
    Ok(out)
}

/// The certificate of an answer that is settled.
pub(crate) fn certificate(alloc: Global, line: &Line, answer: &Answer) -> Result<Vec<u8>, Fail> {
    let Answer::Settled { proof, first: _ } = answer else {
        return Err(Fail::new("unsettled"));
    };
    if !proof.stands_at(line) {
        return Err(Fail::new("not at the line"));
    }
    Ok(write_cert(alloc, proof.side(), proof.tree(), line.frame().size)?)
}
