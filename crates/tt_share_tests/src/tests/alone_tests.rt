//! Problems solved by the caller alone, over several stores. The verdicts and certificates are by a program written from
//! the definitions alone.

ghost use Rattle.std.specs.Prelude.{◌≡◌, ◌+◌, ◌≤◌};

use super::common::{SPLIT, certificate, posed, searched, verdict, want};
use super::rows::{cut, number, short_number};
use std::alloc::Global;
use std::str::from_utf8;
use std::sync::Arc;
use std::test::Fail;
use tt_game::{Line, Side};
use tt_proof::Proof;
use tt_search::{Kept, Limits, NoStore, PrivateStore, Store};
use tt_sgf::NoMemory;
use tt_share::{Answer, solve_one, solve_one_within_total};

/// A store with room for a hundred proofs, which answers none: it refuses to keep any, or forgets them at once.
#[derive(Drop)]
struct Empty {
    kept: usize,
    ghost few: { kept ≤ 100 },
    refuses: bool,
}

impl Store for Empty {
    ghost capacity = { λ _. 100 };

    ghost kept = { λ store. store.kept };

    ghost may_answer = { ⊥ };

    fn find(&mut self, line: &Line, s: Side) -> Result<Option<Arc<Proof>>, NoMemory> {
        Ok(None)
    }

    fn keep(&mut self, p: Arc<Proof>) -> Kept {
        if self.kept == 100 {
            return Kept::Full;
        }
        if self.refuses {
            return Kept::NoMemory;
        }
        self.kept += 1;
        Kept::Stored
    }

    fn capacity(&self) -> usize {
        100
    }

    fn kept(&self) -> usize {
        self.kept
    }
}

/// A store that keeps so many proofs.
fn bounded(alloc: Global, capacity: usize) -> Result<PrivateStore, Fail> {
    match PrivateStore::bounded(alloc, capacity) {
        Some(store) => Ok(store),
        None => Err(Fail::new("too great a capacity")),
    }
}

/// The line of a table: a problem, its limits, the verdict with the first turn, and the certificate where one is asked for.
#[derive(Clone, Copy)]
struct Row<'a> {
    problem: &'a [u8],
    budget: u32,
    depth: u16,
    verdict: &'a [u8],
    certificate: &'a [u8],
}

/// The line of a table, in which a bar ends each part but the last.
fn row_of(line: &[u8]) -> Row<'_> {
    let (problem, rest) = cut(line, b'|');
    let (budget, rest) = cut(rest, b'|');
    let (depth, rest) = cut(rest, b'|');
    let (verdict, certificate) = cut(rest, b'|');
    Row {
        problem,
        budget: number(budget),
        depth: short_number(depth),
        verdict,
        certificate,
    }
}

/// The answer to a line.
fn answered<S: Store>(
    alloc: Global,
    line: &Line,
    budget: u32,
    depth: u16,
    store: &mut S,
) -> Result<Answer, Fail> {
    let Some(limits) = Limits::new(budget, depth) else {
        return Err(Fail::new("no limits"));
    };
    if limits.depth() == 0 || line.winner().is_some() {
        return Err(Fail::new("nothing to solve"));
    }
    Ok(solve_one(alloc, line, &limits, store))
}

/// Whether an answer is that of the row.
fn is_wanted(alloc: Global, line: &Line, answer: &Answer, row: Row<'_>) -> Result<bool, Fail> {
    if verdict(alloc, line, answer)?.as_slice() != row.verdict {
        return Ok(false);
    }
    if row.certificate.is_empty() {
        return Ok(true);
    }
    Ok(certificate(alloc, line, answer)?.as_slice() == row.certificate)
}

/// Whether a line has the answer of the row over a store.
fn is_answered<S: Store>(
    alloc: Global,
    line: &Line,
    row: Row<'_>,
    store: &mut S,
) -> Result<bool, Fail> {
    let answer = answered(alloc, line, row.budget, row.depth, store)?;
    is_wanted(alloc, line, &answer, row)
}

/// Whether a problem has this answer over a store.
fn is_solved<S: Store>(alloc: Global, row: Row<'_>, store: &mut S) -> Result<bool, Fail> {
    let line = posed(alloc, row.problem)?;
    is_answered(alloc, &line, row, store)
}

/// Whether a problem has this answer over a store that refuses or forgets what it is to keep.
fn is_solved_over_empty_store(alloc: Global, row: Row<'_>, refuses: bool) -> Result<bool, Fail> {
    let mut store = Empty { refuses, kept: 0 };
    is_solved(alloc, row, &mut store)
}

/// Whether a problem has this answer over a store of its own that keeps so many proofs at most.
fn is_solved_over_small_store(alloc: Global, row: Row<'_>, capacity: usize) -> Result<bool, Fail> {
    let mut store = bounded(alloc, capacity)?;
    is_solved(alloc, row, &mut store)
}

/// The kinds of stores.
fn name_of(kind: u8) -> &'static str {
    match kind {
        0 => "without a store",
        1 => "refused",
        2 => "forgotten",
        3 => "room for 0",
        4 => "room for 1",
        5 => "room for 2",
        _ => "room for 4096",
    }
}

/// Whether a problem has this answer over a store of the kind.
fn is_solved_over(alloc: Global, row: Row<'_>, kind: u8) -> Result<bool, Fail> {
    match kind {
        0 => is_solved(alloc, row, &mut NoStore),
        1 => is_solved_over_empty_store(alloc, row, true),
        2 => is_solved_over_empty_store(alloc, row, false),
        3 => is_solved_over_small_store(alloc, row, 0),
        4 => is_solved_over_small_store(alloc, row, 1),
        5 => is_solved_over_small_store(alloc, row, 2),
        _ => is_solved_over_small_store(alloc, row, 4096),
    }
}

/// That a problem has another answer over a store of the kind.
fn differs(row: Row<'_>, kind: u8) -> Fail {
    let text = from_utf8(row.problem).unwrap_or("a problem");
    let name = name_of(kind);
    Fail::new(format_args!("{text}, {name}"))
}

/// Fails unless a problem has this answer over each kind of store.
fn has_answer(alloc: Global, row: Row<'_>) -> Result<(), Fail> {
    for kind in 0..7u8 {
        if !is_solved_over(alloc, row, kind)? {
            return Err(differs(row, kind));
        }
    }
    Ok(())
}

/// Fails unless the lines of a table are so over each kind of store.
fn hold(alloc: Global, table: &'static str, count: u8) -> Result<(), Fail> {
    let mut rest = table.as_bytes();
    for _ in 0..count {
        let (line, behind) = cut(rest, b'\n');
        has_answer(alloc, row_of(line))?;
        rest = behind;
    }
    want(rest.is_empty(), "the table is longer")
}

const VERDICTS: &str = "\
(;SZ[2:1]AW[ba]PL[B]TR[ba])|100000|512|killed aa
(;SZ[2:1]AW[ba]PL[W]TR[ba])|100000|512|killed
(;SZ[3:1]AW[ba]PL[W]TR[ba])|100000|512|lives pass
(;SZ[4:1]AW[ba]PL[B]TR[ba])|100000|512|lives
(;SZ[4:1]AW[ba]PL[B]TR[ba]SQ[aa][ca])|100000|512|killed ca
(;SZ[4:1]AW[ba]PL[B]TR[ba]SQ[aa:da])|100000|512|lives
(;SZ[4:1]AW[ba][da]PL[B]TR[ba])|100000|512|killed ca
(;SZ[4:1]AW[ba];B[ca];W[da]TR[ba])|100000|512|lives
(;SZ[4:1]AW[ba]PL[B]TR[ba])|1|512|budget ca
(;SZ[4:1]AW[ba]PL[B]TR[ba])|100000|1|depth ca
(;SZ[4:1]AB[ba]AW[ca]PL[B]TR[ca])|1|512|killed da
";

#[test]
fn verdicts_over_each_store(rt: HostRuntime) -> Result<(), Fail> {
    hold(rt.alloc(), VERDICTS, 11)
}

/// Problems whose verdicts turn where a kept proof is used with no replay.
const BY_HISTORY: &str = "\
(;SZ[5:1]AW[aa];B[ca]TR[ca])|100000|512|killed da
(;SZ[7:1];B[ga];W[ea];B[ba]TR[ea])|100000|512|killed
";

#[test]
fn verdicts_by_history(rt: HostRuntime) -> Result<(), Fail> {
    hold(rt.alloc(), BY_HISTORY, 2)
}

const CERTIFICATES: &str = "\
(;SZ[4:1]AW[ba][da]PL[B]TR[ba])|100000|512|killed ca|killed !ca?aa.--!aa.;
(;SZ[4:1]AW[ba];B[ca];W[da]TR[ba])|100000|512|lives|lives ?--!--.;
";

#[test]
fn certificates(rt: HostRuntime) -> Result<(), Fail> {
    hold(rt.alloc(), CERTIFICATES, 2)
}

/// Whether the line of a table is so over a store.
fn is_so(alloc: Global, line: &str, store: &mut PrivateStore) -> Result<bool, Fail> {
    is_solved(alloc, row_of(line.as_bytes()), store)
}

/// A longer certificate. What a store has may shorten its like, so it is that of the usual store.
const LONGER: &str =
    "(;SZ[5:1]AW[aa];B[ca]TR[ca])|100000|512|killed da|killed !da?ba!aa.ea!ba?aa!ba?da.--!da.;ba!da?aa.--!aa.;da!ba.--!ba?aa!da?ba.--!ba.;da.--!da.;;--!ba.;";

#[test]
fn longer_certificate(rt: HostRuntime) -> Result<(), Fail> {
    let alloc = rt.alloc();
    want(
        is_so(alloc, LONGER, &mut PrivateStore::new(alloc))?,
        "another answer",
    )
}

const KILLED: &str = "(;SZ[4:1]AW[ba][da]PL[B]TR[ba])|100000|512|killed ca|killed !ca?aa.--!aa.;";

const LIVES: &str = "(;SZ[4:1]AW[ba];B[ca];W[da]TR[ba])|100000|512|lives|lives ?--!--.;";

/// Whether the attacker's proof that a store has for a line stands there.
fn found_stands_at(line: &Line, store: &mut PrivateStore) -> Result<bool, Fail> {
    match store.find(line, Side::Attacker)? {
        Some(found) => Ok(found.stands_at(line)),
        None => Ok(false),
    }
}

/// The same of a problem.
fn found_stands(alloc: Global, text: &[u8], store: &mut PrivateStore) -> Result<bool, Fail> {
    let line = posed(alloc, text)?;
    found_stands_at(&line, store)
}

/// A line's own proof is kept, answered again, and used for another history only where it wins there.
#[test]
fn one_store_for_two_lines(rt: HostRuntime) -> Result<(), Fail> {
    let alloc = rt.alloc();
    let mut store = PrivateStore::new(alloc);
    want(is_so(alloc, KILLED, &mut store)?, "first")?;
    let kept = store.kept();
    want(
        found_stands(alloc, SPLIT, &mut store)?,
        "the proof that is kept",
    )?;
    want(is_so(alloc, KILLED, &mut store)?, "once more")?;
    want(store.kept() == kept, "it is kept twice")?;
    want(is_so(alloc, LIVES, &mut store)?, "another history")
}

/// The answer to a line, as a text, with a budget of one expansion.
fn told_by_one<S: Store>(
    alloc: Global,
    line: &Line,
    depth: u16,
    store: &mut S,
) -> Result<Vec<u8>, Fail> {
    let answer = answered(alloc, line, 1, depth, store)?;
    verdict(alloc, line, &answer)
}

/// The same of a problem.
fn solved_by_one<S: Store>(
    alloc: Global,
    text: &[u8],
    depth: u16,
    store: &mut S,
) -> Result<Vec<u8>, Fail> {
    let line = posed(alloc, text)?;
    told_by_one(alloc, &line, depth, store)
}

/// Whether a problem has this answer with a budget of one expansion.
fn is_solved_by_one<S: Store>(
    alloc: Global,
    text: &[u8],
    depth: u16,
    store: &mut S,
    want: &[u8],
) -> Result<bool, Fail> {
    Ok(solved_by_one(alloc, text, depth, store)?.as_slice() == want)
}

/// A store that has the proof of the first problem alone.
fn store_of_one(alloc: Global) -> Result<PrivateStore, Fail> {
    let proof = searched(alloc, SPLIT)?;
    let mut store = PrivateStore::new(alloc);
    match store.keep(proof) {
        Kept::Stored => Ok(store),
        Kept::Full | Kept::NoMemory => Err(Fail::new("not kept")),
    }
}

/// Whether a problem is stuck for a budget of one expansion and this depth without a store, and killed over one that has the proof of
/// the first problem alone.
fn is_used(alloc: Global, text: &[u8], depth: u16) -> Result<bool, Fail> {
    let mut store = store_of_one(alloc)?;
    Ok(
        is_solved_by_one(alloc, text, depth, &mut NoStore, b"budget ca")?
            && is_solved_by_one(alloc, text, depth, &mut store, b"killed ca")?,
    )
}

/// The position of the first problem reached by moves. The strategy there is three turns deep and repeats no board of theirs, so
/// it wins here too.
const REACHED: &[u8] = b"(;SZ[4:1]AW[da];B[];W[ba]TR[ba])";

/// A found proof is used where it is as deep as the limit, and where it was found under another history. Without it the
/// budget isn't enough.
#[test]
fn a_found_proof_is_used(rt: HostRuntime) -> Result<(), Fail> {
    let alloc = rt.alloc();
    want(is_used(alloc, SPLIT, 512)?, "split, 512")?;
    want(is_used(alloc, SPLIT, 3)?, "split, 3")?;
    want(is_used(alloc, REACHED, 512)?, "reached, 512")?;
    want(is_used(alloc, REACHED, 3)?, "reached, 3")
}

/// Counts the questions, the attacker's and then the defender's, and those out of turn. It keeps nothing.
#[derive(Drop)]
struct Asked {
    right: u64,
    astray: u64,
}

impl Store for Asked {
    ghost capacity = { λ _. 0 };

    ghost kept = { λ _. 0 };

    ghost may_answer = { ⊥ };

    fn capacity(&self) -> usize {
        0
    }

    fn kept(&self) -> usize {
        0
    }

    fn find(&mut self, line: &Line, s: Side) -> Result<Option<Arc<Proof>>, NoMemory> {
        let due = if self.right % 2 == 0 {
            Side::Attacker
        } else {
            Side::Defender
        };
        if s == due {
            self.right = self.right.wrapping_add(1);
        } else {
            self.astray = self.astray.wrapping_add(1);
        }
        Ok(None)
    }

    fn keep(&mut self, p: Arc<Proof>) -> Kept {
        Kept::Full
    }
}

/// A lone white stone, which lives: three turns, and none wins.
const LONE: &[u8] = b"(;SZ[4:1]AW[ba]PL[B]TR[ba])";

/// The problem is asked for before its turns, and each time the attacker's proof before the defender's. There are six
/// pairs of questions: for the problem, at two steps behind each play, and at the one step that settles the pass.
#[test]
fn the_attacker_is_asked_for_first(rt: HostRuntime) -> Result<(), Fail> {
    let mut store = Asked {
        right: 0,
        astray: 0,
    };
    let got = solved_by_one(rt.alloc(), LONE, 512, &mut store)?;
    want(got.as_slice() == b"budget ca".as_slice(), "another answer")?;
    want(store.right == 12 && store.astray == 0, "other questions")
}

/// The answer to a line within a total, as a text.
fn told_within(alloc: Global, line: &Line, total: Option<u32>) -> Result<Vec<u8>, Fail> {
    let Some(limits) = Limits::new(100, 512) else {
        return Err(Fail::new("no limits"));
    };
    if limits.depth() == 0 || line.winner().is_some() {
        return Err(Fail::new("nothing to solve"));
    }
    let answer = solve_one_within_total(alloc, line, &limits, total, &mut NoStore);
    verdict(alloc, line, &answer)
}

/// Fails unless the lone stone's problem has this answer within a total.
fn is_told_within(alloc: Global, total: Option<u32>, wanted: &str) -> Result<(), Fail> {
    let line = posed(alloc, LONE)?;
    let got = told_within(alloc, &line, total)?;
    want(got.as_slice() == wanted.as_bytes(), wanted)
}

/// Behind each of the three turns at least one node has to be expanded, behind the first more than one.
#[test]
fn totals_alone(rt: HostRuntime) -> Result<(), Fail> {
    let alloc = rt.alloc();
    is_told_within(alloc, Some(0), "total ca 0, ca 0, da 0, pass 0")?;
    is_told_within(alloc, Some(1), "total ca 1, ca 1, da 0, pass 0")?;
    is_told_within(alloc, Some(100), "lives")?;
    is_told_within(alloc, None, "lives")
}
