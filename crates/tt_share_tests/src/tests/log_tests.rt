//! The log and its views, and searches over each kind of store that is shared.

use super::common::{SPLIT, posed, proof_of, put_number, want};
use std::alloc::Global;
use std::sync::{Arc, Wait};
use std::test::Fail;
use std::thread;
use std::thread::Threads;
use tt_game::{Line, Side};
use tt_proof::Proof;
use tt_search::{Free, Kept, Limits, PrivateStore, ProofPerSide, Search, Step, Store};
use tt_share::{CertLog, LockedStore, LogStore, Table, View};

/// The colouring of the first problem reached by moves, so that Black may not repeat the board before.
const REPEATED: &[u8] = b"(;SZ[4:1]AW[ba];B[ca];W[da]TR[ba])";

/// The record of a white stone in the corner that Black captures, on the board of a number below 200: 2 to 13 columns, and
/// 2 to 19 rows but not as many.
fn record(alloc: Global, number: u32) -> Result<String, Fail> {
    let columns = 2 + number / 17;
    let mut rows = 2 + number % 17;
    if rows >= columns {
        rows += 1;
    }
    Ok(format!(in alloc; "(;SZ[{columns}:{rows}]AW[aa]AB[ba]PL[B]TR[aa])")?)
}

/// The line of that problem.
fn cornered(alloc: Global, number: u32) -> Result<Line, Fail> {
    posed(alloc, record(alloc, number)?.as_bytes())
}

/// The proof that Black captures the stone.
fn captured(alloc: Global, number: u32) -> Result<Arc<Proof>, Fail> {
    proof_of(alloc, record(alloc, number)?.as_bytes(), b"killed !ab.")
}

/// The proofs of a hundred of those boards, from a number on.
fn hundred(alloc: Global, from: u32) -> Result<Vec<Arc<Proof>>, Fail> {
    let mut proofs = Vec::new(alloc);
    for number in 0..100u32 {
        proofs.push(captured(alloc, from.saturating_add(number))?)?;
    }
    Ok(proofs)
}

/// Keeps the proof through the view, and answers whether it is stored.
fn is_stored<R: Wait>(rt: &R, view: &mut View<'_>, proof: Arc<Proof>) -> bool {
    view.keep(rt, proof) == Kept::Stored
}

/// Keeps the proofs through the view, the first one first.
fn keep_all<'a, R: Wait>(rt: &R, mut view: View<'a>, proofs: Vec<Arc<Proof>>) -> View<'a> {
    for p in proofs {
        is_stored(rt, &mut view, p);
    }
    view
}

/// Two threads keep proofs, each through a view of its own.
fn keep_at_once<'a, R: Threads + Wait + Sync>(
    rt: &R,
    one: View<'a>,
    first: Vec<Arc<Proof>>,
    other: View<'a>,
    second: Vec<Arc<Proof>>,
) -> (View<'a>, View<'a>) {
    thread::join(
        rt,
        move || keep_all(rt, one, first),
        move || keep_all(rt, other, second),
    )
}

/// Whether the view's tokens are of the boards' proofs, from a number on, by what the log shows for them.
fn shows(alloc: Global, view: &View<'_>, from: u32) -> Result<bool, Fail> {
    let log = view.log();
    let mut number = from;
    for token in view.tokens() {
        let line = cornered(alloc, number)?;
        if !log.at(token).stands_at(&line) {
            return Ok(false);
        }
        number = number.saturating_add(1);
    }
    Ok(view.tokens().len() == 100 && view.kept() == 100)
}

/// Whether a store finds the attacker's proof of a line.
fn finds<S: Store>(line: &Line, store: &mut S) -> Result<bool, Fail> {
    match store.find(line, Side::Attacker)? {
        Some(found) => Ok(found.stands_at(line)),
        None => Ok(false),
    }
}

/// How many of those boards' proofs a store finds.
fn found_by<S: Store>(alloc: Global, store: &mut S) -> Result<u32, Fail> {
    let mut count = 0u32;
    for number in 0..200u32 {
        let line = cornered(alloc, number)?;
        if finds(&line, store)? {
            count = count.saturating_add(1);
        }
    }
    Ok(count)
}

/// The views through which two threads have kept a hundred of those proofs each, at once.
fn hundreds<'a, R: Threads + Wait + Sync>(
    rt: &R,
    alloc: Global,
    log: &'a CertLog,
) -> Result<(View<'a>, View<'a>), Fail> {
    let first = hundred(alloc, 0)?;
    let second = hundred(alloc, 100)?;
    let one = View::new(alloc, log)?;
    let other = View::new(alloc, log)?;
    Ok(keep_at_once(rt, one, first, other, second))
}

/// Fails unless a store over the view finds each of those proofs, and takes it in once. The view is handed back.
fn finds_all<'a, R: Wait>(rt: &'a R, alloc: Global, view: View<'a>) -> Result<View<'a>, Fail> {
    let mut store = LogStore::new(rt, view);
    want(found_by(alloc, &mut store)? == 200, "not all are found")?;
    let view = store.into_view();
    want(count_of(&view) == 200, "not all are taken in once")?;
    Ok(view)
}

/// The same of a new store, which keeps nothing.
fn finds_all_anew<R: Wait>(rt: &R, alloc: Global, log: &CertLog) -> Result<(), Fail> {
    let view = finds_all(rt, alloc, View::new(alloc, log)?)?;
    want(view.kept() == 0, "it has kept one")
}

/// Fails unless each view has the tokens of its own proofs.
fn show_theirs(alloc: Global, one: &View<'_>, other: &View<'_>) -> Result<(), Fail> {
    want(shows(alloc, one, 0)?, "the first hundred")?;
    want(shows(alloc, other, 100)?, "the second hundred")
}

/// The view through which one of two threads has kept a hundred of those proofs.
fn kept_at_once<'a, R: Threads + Wait + Sync>(
    rt: &R,
    alloc: Global,
    log: &'a CertLog,
) -> Result<View<'a>, Fail> {
    let (one, other) = hundreds(rt, alloc, log)?;
    show_theirs(alloc, &one, &other)?;
    Ok(one)
}

#[test]
fn kept_by_threads_found_by_a_third_store(rt: HostRuntime) -> Result<(), Fail> {
    let alloc = rt.alloc();
    let log = CertLog::new(alloc)?;
    let one = kept_at_once(&rt, alloc, &log)?;
    finds_all(&rt, alloc, one)?;
    finds_all_anew(&rt, alloc, &log)
}

/// Whether the view has a proof of the line for the side.
fn is_found(view: &mut View<'_>, line: &Line, side: Side) -> Result<bool, Fail> {
    Ok(view.find(line, side)?.is_some())
}

/// Whether the view has a proof of that board for the side.
fn has_found(alloc: Global, view: &mut View<'_>, number: u32, side: Side) -> Result<bool, Fail> {
    let line = cornered(alloc, number)?;
    is_found(view, &line, side)
}

/// How many tokens the view has.
fn count_of(view: &View<'_>) -> usize {
    view.tokens().len()
}

/// Keeps the proof of that board through the view, and answers whether it is stored.
fn keeps<R: Wait>(rt: &R, alloc: Global, view: &mut View<'_>, number: u32) -> Result<bool, Fail> {
    let proof = captured(alloc, number)?;
    Ok(is_stored(rt, view, proof))
}

/// Whether a view answers the attacker's proof, and none of the defender, when it is asked for both at once.
fn has_one_side(view: &mut View<'_>, line: &Line) -> Result<bool, Fail> {
    let ProofPerSide { attacker, defender } = view.find_both(line)?;
    Ok(attacker.is_some() && defender.is_none())
}

/// Whether a view that kept nothing itself does so, and takes one proof in.
fn takes_one(alloc: Global, log: &CertLog, line: &Line) -> Result<bool, Fail> {
    let mut view = View::new(alloc, log)?;
    Ok(has_one_side(&mut view, line)? && count_of(&view) == 1)
}

/// Whether it does so at the board of number 0.
fn finds_both(alloc: Global, log: &CertLog) -> Result<bool, Fail> {
    let line = cornered(alloc, 0)?;
    takes_one(alloc, log, &line)
}

/// Fails unless what one view keeps another one finds.
fn shares_one<R: Wait>(
    rt: &R,
    alloc: Global,
    log: &CertLog,
    view: &mut View<'_>,
) -> Result<(), Fail> {
    want(keeps(rt, alloc, view, 0)?, "kept")?;
    want(finds_both(alloc, log)?, "found")
}

/// Whether a store over the view counts what was kept through it.
fn counts_one<R: Wait>(rt: &R, view: View<'_>) -> bool {
    let store = LogStore::new(rt, view);
    store.capacity() == 4_096 && store.kept() == 1
}

/// What one view kept another one takes in, also where it is asked for both sides at once.
#[test]
fn both_sides_are_found_by_another_view(rt: HostRuntime) -> Result<(), Fail> {
    let alloc = rt.alloc();
    let log = CertLog::new(alloc)?;
    let mut view = View::new(alloc, &log)?;
    shares_one(&rt, alloc, &log, &mut view)?;
    want(counts_one(&rt, view), "counted")
}

/// Fails unless a view of an empty log finds what it keeps, once it has kept it, and takes it in once.
fn finds_its_own<R: Wait>(rt: &R, alloc: Global, view: &mut View<'_>) -> Result<(), Fail> {
    want(!has_found(alloc, view, 0, Side::Attacker)?, "before")?;
    want(keeps(rt, alloc, view, 0)?, "kept")?;
    want(has_found(alloc, view, 0, Side::Attacker)?, "found")?;
    want(!has_found(alloc, view, 0, Side::Defender)?, "the other")?;
    want(count_of(view) == 1, "once")
}

#[test]
fn kept_and_found_at_once(rt: HostRuntime) -> Result<(), Fail> {
    let alloc = rt.alloc();
    let log = CertLog::new(alloc)?;
    let mut view = View::new(alloc, &log)?;
    finds_its_own(&rt, alloc, &mut view)
}

/// Whether a view, to which another one's proof of a board and then its own of the next board come, has so many tokens.
fn reads_on<R: Wait>(
    rt: &R,
    alloc: Global,
    view: &mut View<'_>,
    other: &mut View<'_>,
    number: u32,
    tokens: usize,
) -> Result<bool, Fail> {
    let theirs = keeps(rt, alloc, other, number)?;
    let found = has_found(alloc, view, number, Side::Attacker)?;
    let own = keeps(rt, alloc, view, number.saturating_add(1))?;
    Ok(theirs && found && own && count_of(view) == tokens)
}

/// Fails unless it is so three times in turn.
fn reads_on_and_on<R: Wait>(
    rt: &R,
    alloc: Global,
    view: &mut View<'_>,
    other: &mut View<'_>,
) -> Result<(), Fail> {
    let mut number = 0u32;
    let mut tokens = 2usize;
    for _ in 0..3u8 {
        want(
            reads_on(rt, alloc, view, other, number, tokens)?,
            "other tokens",
        )?;
        number = number.saturating_add(2);
        tokens = tokens.saturating_add(2);
    }
    Ok(())
}

/// A view takes in what another one keeps each time that it is asked, and what it kept itself no second time.
#[test]
fn a_view_reads_on(rt: HostRuntime) -> Result<(), Fail> {
    let alloc = rt.alloc();
    let log = CertLog::new(alloc)?;
    let mut view = View::new(alloc, &log)?;
    let mut other = View::new(alloc, &log)?;
    reads_on_and_on(&rt, alloc, &mut view, &mut other)
}

/// Whether the view answers a proof of that board, and for the attacker alone, when it is asked for both sides.
fn has_both(alloc: Global, view: &mut View<'_>, number: u32) -> Result<bool, Fail> {
    let line = cornered(alloc, number)?;
    has_one_side(view, &line)
}

/// Fails unless a view that is asked for both sides takes in what another one kept since it was asked before: the proofs of three
/// boards, one after the other.
fn reads_both_on<R: Wait>(
    rt: &R,
    alloc: Global,
    view: &mut View<'_>,
    other: &mut View<'_>,
) -> Result<(), Fail> {
    for number in 0..3u32 {
        want(!has_both(alloc, view, number)?, "too early")?;
        want(keeps(rt, alloc, other, number)?, "kept")?;
        want(has_both(alloc, view, number)?, "found")?;
    }
    want(count_of(view) == 3, "other tokens")
}

/// A view that is asked for both sides reads on each time.
#[test]
fn both_sides_are_read_on(rt: HostRuntime) -> Result<(), Fail> {
    let alloc = rt.alloc();
    let log = CertLog::new(alloc)?;
    let mut view = View::new(alloc, &log)?;
    let mut other = View::new(alloc, &log)?;
    reads_both_on(&rt, alloc, &mut view, &mut other)
}

/// Fails unless a view that has a proof of a board takes in another one of it, which another view kept later: whether it is asked
/// for one side or for both.
fn reads_past_its_own<R: Wait>(
    rt: &R,
    alloc: Global,
    view: &mut View<'_>,
    other: &mut View<'_>,
) -> Result<(), Fail> {
    want(keeps(rt, alloc, view, 0)?, "kept")?;
    want(keeps(rt, alloc, other, 0)?, "kept by the other")?;
    want(has_found(alloc, view, 0, Side::Attacker)?, "found")?;
    want(count_of(view) == 2, "not taken in")?;
    want(keeps(rt, alloc, other, 0)?, "kept again")?;
    want(has_both(alloc, view, 0)?, "both")?;
    want(count_of(view) == 3, "not taken in again")
}

/// A view reads on though it has a proof of what it is asked for.
#[test]
fn a_view_reads_past_its_own(rt: HostRuntime) -> Result<(), Fail> {
    let alloc = rt.alloc();
    let log = CertLog::new(alloc)?;
    let mut view = View::new(alloc, &log)?;
    let mut other = View::new(alloc, &log)?;
    reads_past_its_own(&rt, alloc, &mut view, &mut other)
}

/// Keeps another handle of the proof, and answers whether it is stored.
fn stores<R: Wait>(rt: &R, view: &mut View<'_>, proof: &Arc<Proof>) -> Result<bool, Fail> {
    let handle = Arc::try_clone(proof)?;
    Ok(is_stored(rt, view, handle))
}

/// Whether the view has kept as many proofs as it can.
fn is_full(view: &View<'_>) -> bool {
    view.kept() == view.capacity()
}

/// Fails unless a proof is kept 4,096 times, as often as a view can, and then no more.
fn fills<R: Wait>(rt: &R, view: &mut View<'_>, proof: &Arc<Proof>) -> Result<(), Fail> {
    for _ in 0..4_096u32 {
        want(stores(rt, view, proof)?, "full too early")?;
    }
    want(!stores(rt, view, proof)? && is_full(view), "not full")
}

/// Fails unless a new view does so.
fn fills_anew<R: Wait>(
    rt: &R,
    alloc: Global,
    log: &CertLog,
    proof: &Arc<Proof>,
) -> Result<(), Fail> {
    let mut view = View::new(alloc, log)?;
    fills(rt, &mut view, proof)
}

/// Whether another view takes them all in, and keeps one more.
fn takes_all<R: Wait>(
    rt: &R,
    alloc: Global,
    log: &CertLog,
    proof: &Arc<Proof>,
) -> Result<bool, Fail> {
    let mut view = View::new(alloc, log)?;
    let found = has_found(alloc, &mut view, 7, Side::Attacker)?;
    Ok(found && count_of(&view) == 4_096 && stores(rt, &mut view, proof)?)
}

/// A view keeps 4,096 proofs, and no more; another one takes them all in.
#[test]
fn a_view_is_full(rt: HostRuntime) -> Result<(), Fail> {
    let alloc = rt.alloc();
    let log = CertLog::new(alloc)?;
    let proof = captured(alloc, 7)?;
    fills_anew(&rt, alloc, &log, &proof)?;
    want(takes_all(&rt, alloc, &log, &proof)?, "another view")
}

/// Steps a search that asks nobody for its expansions.
fn stepped<S: Store>(search: &mut Search, store: &mut S) -> Step {
    search.step(store, &mut Free::new())
}

/// The letter of what a step answered.
fn letter_of(step: Step) -> u8 {
    match step {
        Step::Expanded => b'E',
        Step::Closed => b'C',
        Step::Settled => b'S',
        Step::Stuck(_) => b'B',
    }
}

/// Writes the root's numbers.
fn put_numbers(out: &mut Vec<u8>, search: &Search) -> Result<(), Fail> {
    let (proof, disproof) = search.numbers();
    put_number(out, proof)?;
    out.push(b',')?;
    put_number(out, disproof)
}

/// Writes each step of a search with the root's numbers after it, up to one that leaves the search as it is.
fn put_steps<S: Store>(out: &mut Vec<u8>, search: &mut Search, store: &mut S) -> Result<(), Fail> {
    for _ in 0..9u32 {
        let letter = letter_of(stepped(search, store));
        out.push(letter)?;
        put_numbers(out, search)?;
        out.push(b' ')?;
        if letter != b'E' && letter != b'C' {
            return Ok(());
        }
    }
    Ok(())
}

/// Writes how many nodes a search expanded.
fn put_expanded(out: &mut Vec<u8>, search: &Search) -> Result<(), Fail> {
    put_number(out, search.expanded())
}

/// Writes how many proofs were kept through the store: fewer than ten.
fn put_kept<S: Store>(out: &mut Vec<u8>, store: &S) -> Result<(), Fail> {
    out.push(b' ')?;
    let kept = store.kept();
    put_number(out, if kept < 10 { kept as u32 } else { 10 })
}

/// A search at the problem.
fn search_at(alloc: Global, text: &[u8]) -> Result<Search, Fail> {
    let line = posed(alloc, text)?;
    match Limits::new(100, 512) {
        Some(limits) => Ok(Search::new(alloc, line, limits)?),
        None => Err(Fail::new("no limits")),
    }
}

/// Writes each step of a search over the store, then how many nodes are expanded and how many proofs are kept.
fn put_trace<S: Store>(out: &mut Vec<u8>, search: &mut Search, store: &mut S) -> Result<(), Fail> {
    put_steps(out, search, store)?;
    put_expanded(out, search)?;
    put_kept(out, store)
}

/// The same of a search at the problem.
fn put_search<S: Store>(
    alloc: Global,
    out: &mut Vec<u8>,
    text: &[u8],
    store: &mut S,
) -> Result<(), Fail> {
    let mut search = search_at(alloc, text)?;
    put_trace(out, &mut search, store)
}

/// The same as a text of its own.
fn trace<S: Store>(alloc: Global, text: &[u8], store: &mut S) -> Result<Vec<u8>, Fail> {
    let mut out = Vec::new(alloc);
    put_search(alloc, &mut out, text, store)?;
    Ok(out)
}

/// Fails unless a search at the problem over the store has this trace.
fn has_trace<S: Store>(
    alloc: Global,
    text: &[u8],
    store: &mut S,
    wanted: &[u8],
    name: &str,
) -> Result<(), Fail> {
    want(trace(alloc, text, store)?.as_slice() == wanted, name)
}

/// Whether the proof that the store answers for the attacker at one line stands at another one, and not there.
fn finds_another<S: Store>(line: &Line, other: &Line, store: &mut S) -> Result<bool, Fail> {
    match store.find(line, Side::Attacker)? {
        Some(found) => Ok(found.stands_at(other) && !found.stands_at(line)),
        None => Ok(false),
    }
}

/// Whether the store has no proof of the line for the defender.
fn finds_no_defence<S: Store>(line: &Line, store: &mut S) -> Result<bool, Fail> {
    Ok(store.find(line, Side::Defender)?.is_none())
}

/// Whether the store answers the proof of the first problem at the line.
fn finds_first_at<S: Store>(alloc: Global, line: &Line, store: &mut S) -> Result<bool, Fail> {
    let first = posed(alloc, SPLIT)?;
    finds_another(line, &first, store)
}

/// Whether it does so at the second problem, which has the key of the first.
fn finds_the_first<S: Store>(alloc: Global, store: &mut S) -> Result<bool, Fail> {
    let line = posed(alloc, REPEATED)?;
    finds_first_at(alloc, &line, store)
}

/// Whether the store has no proof of the second problem for the defender.
fn finds_no_other<S: Store>(alloc: Global, store: &mut S) -> Result<bool, Fail> {
    let line = posed(alloc, REPEATED)?;
    finds_no_defence(&line, store)
}

/// The first problem over an empty store: three nodes are expanded, and settled for the attacker.
const ANEW: &[u8] = b"E1,2 E1,2 E0,inf S0,inf 3 3";

/// The same once more over that store.
const AGAIN: &[u8] = b"C0,inf S0,inf 0 3";

/// The second problem over it.
const BEHIND: &[u8] = b"E1,1 Einf,0 Sinf,0 2 5";

/// The second problem once more: of its key the store has the first problem's proof for the attacker, which doesn't win here, and
/// the defender's own.
const OF_BOTH: &[u8] = b"Cinf,0 Sinf,0 0 5";

/// Fails unless searches over one store go as they go over a private one: the table of `tt_search`.
fn search_in_turn<S: Store>(alloc: Global, store: &mut S) -> Result<(), Fail> {
    has_trace(alloc, SPLIT, store, ANEW, "anew")?;
    has_trace(alloc, SPLIT, store, AGAIN, "again")?;
    want(finds_the_first(alloc, store)?, "what is found")?;
    want(finds_no_other(alloc, store)?, "the other side")?;
    has_trace(alloc, REPEATED, store, BEHIND, "behind")?;
    has_trace(alloc, REPEATED, store, OF_BOTH, "of both")
}

/// The same over a table behind a lock.
fn over_a_table<R: Wait>(rt: &R, alloc: Global) -> Result<(), Fail> {
    let table = Table::new(alloc)?;
    let mut store = LockedStore::new(rt, &table);
    search_in_turn(alloc, &mut store)
}

/// The same over a log.
fn over_a_log<R: Wait>(rt: &R, alloc: Global) -> Result<(), Fail> {
    let log = CertLog::new(alloc)?;
    let mut store = LogStore::new(rt, View::new(alloc, &log)?);
    search_in_turn(alloc, &mut store)
}

#[test]
fn searches_over_each_store(rt: HostRuntime) -> Result<(), Fail> {
    let alloc = rt.alloc();
    search_in_turn(alloc, &mut PrivateStore::new(alloc))?;
    over_a_table(&rt, alloc)?;
    over_a_log(&rt, alloc)
}
