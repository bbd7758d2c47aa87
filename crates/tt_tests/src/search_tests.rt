//! Searches, with the answers of each of their steps. The tables are by a program written from the definitions alone.

use crate::problem_tests::posed;
use std::alloc::Global;
use std::sync::Arc;
use tt_game::{Line, Side};
use tt_proof::Proof;
use tt_search::{End, Free, Limits, NoStore, PrivateStore, Reason, Search, Step, Store};

/// The letter of what a step answered.
pub(crate) fn letter(step: Step) -> char {
    match step {
        Step::Expanded => 'E',
        Step::Closed => 'C',
        Step::Settled => 'S',
        Step::Stuck(Reason::Budget) => 'B',
        Step::Stuck(Reason::Depth) => 'D',
        Step::Stuck(Reason::Total) => 'T',
        Step::Stuck(Reason::Memory) => 'M',
    }
}

/// A number, or its name where it is infinite.
fn shown(alloc: Global, number: u32) -> Option<String> {
    if number == 4_294_967_295 {
        return format!(in alloc; "inf").ok();
    }
    format!(in alloc; "{number}").ok()
}

/// What a step answered, with the root's numbers after it.
pub(crate) fn step_text(alloc: Global, step: Step, numbers: (u32, u32)) -> Option<String> {
    let proof = shown(alloc, numbers.0)?;
    let disproof = shown(alloc, numbers.1)?;
    format!(in alloc; "{}{proof},{disproof} ", letter(step)).ok()
}

/// Adds what a step answered, with the root's numbers after it.
pub(crate) fn put_step(
    alloc: Global,
    step: Step,
    numbers: (u32, u32),
    text: &mut String,
) -> Option<()> {
    text.push_str(step_text(alloc, step, numbers)?.as_str())
        .ok()
}

/// Adds how many nodes are expanded, and how many proofs are kept.
pub(crate) fn put_counts(
    alloc: Global,
    expanded: u32,
    kept: usize,
    text: &mut String,
) -> Option<()> {
    text.push_str(format!(in alloc; "{expanded} {kept}").ok()?.as_str())
        .ok()
}

/// A search at a line.
fn search_at(alloc: Global, line: Line, budget: u32, depth: u16) -> Option<Search> {
    let limits = Limits::new(budget, depth)?;
    Search::new(alloc, line, limits).ok()
}

/// A search at the problem of the text.
pub(crate) fn searching(alloc: Global, text: &[u8], budget: u32, depth: u16) -> Option<Search> {
    search_at(alloc, posed(alloc, text).ok()?, budget, depth)
}

/// A step of a search.
pub(crate) fn stepped<S: Store>(search: &mut Search, store: &mut S) -> Step {
    search.step(store, &mut Free::new())
}

/// Adds each step of a search with the root's numbers after it, up to a step that leaves the search as it is.
fn put_steps<S: Store>(
    alloc: Global,
    search: &mut Search,
    store: &mut S,
    text: &mut String,
) -> Option<()> {
    for _ in 0..100 {
        let step = stepped(search, store);
        put_step(alloc, step, search.numbers(), text)?;
        if step != Step::Expanded && step != Step::Closed {
            return Some(());
        }
    }
    Some(())
}

/// Those steps, then how many nodes are expanded and how many proofs are kept.
fn traced<S: Store>(alloc: Global, search: &mut Search, store: &mut S) -> Option<String> {
    let mut text = String::new(alloc);
    put_steps(alloc, search, store, &mut text)?;
    put_counts(alloc, search.expanded(), store.kept(), &mut text)?;
    Some(text)
}

/// Each step of a search with the root's numbers after it, up to a step that leaves the search as it is; then how many
/// nodes are expanded and how many proofs are kept.
fn trace<S: Store>(
    alloc: Global,
    text: &[u8],
    budget: u32,
    depth: u16,
    store: &mut S,
) -> Option<String> {
    let mut search = searching(alloc, text, budget, depth)?;
    traced(alloc, &mut search, store)
}

/// Whether a search has this trace.
pub(crate) fn has_trace<S: Store>(
    alloc: Global,
    text: &[u8],
    limits: (u32, u16),
    store: &mut S,
    want: &[u8],
) -> bool {
    match trace(alloc, text, limits.0, limits.1, store) {
        Some(steps) => steps.as_str().as_bytes() == want,
        None => false,
    }
}

/// What a search ended with: where it is settled, whether the proof is the defender's, begins with no turn and is two turns deep; where
/// it is stuck, why, the root's numbers and how many nodes are expanded; and nothing where no search is handed back.
#[derive(Clone, Copy)]
pub(crate) enum TreeOutcome {
    Settled(bool),
    Stuck(Reason, (u32, u32), u32),
    Lost,
}

/// Whether a proof is the defender's, begins with no turn and is two turns deep.
fn is_held(proof: &Proof) -> bool {
    proof.side() == Side::Defender && proof.first().is_none() && proof.depth() == 2
}

/// That of a proof.
fn settled(proof: Proof) -> TreeOutcome {
    TreeOutcome::Settled(is_held(&proof))
}

/// That of a search that is stuck.
fn stuck(reason: Reason, search: Search) -> TreeOutcome {
    TreeOutcome::Stuck(reason, search.numbers(), search.expanded())
}

/// What a run ended with.
pub(crate) fn end_of(end: End) -> TreeOutcome {
    match end {
        End::Settled(proof) => settled(proof),
        End::Stuck(reason, Some(search)) => stuck(reason, search),
        End::Stuck(_, None) => TreeOutcome::Lost,
    }
}

/// What a trace ends with where the search is stuck so: the letter for the reason, the root's numbers, how many nodes are expanded,
/// and how many proofs are kept.
fn stuck_step(
    alloc: Global,
    reason: Reason,
    numbers: (u32, u32),
    expanded: u32,
    kept: usize,
) -> Option<String> {
    let mut piece = step_text(alloc, Step::Stuck(reason), numbers)?;
    put_counts(alloc, expanded, kept, &mut piece)?;
    Some(piece)
}

/// What a trace ends with where the search ended so: where it is settled, how many proofs are kept.
fn last_step(alloc: Global, end: TreeOutcome, kept: usize) -> Option<String> {
    match end {
        TreeOutcome::Settled(_) => format!(in alloc; " {kept}").ok(),
        TreeOutcome::Stuck(reason, numbers, expanded) => {
            stuck_step(alloc, reason, numbers, expanded, kept)
        }
        TreeOutcome::Lost => None,
    }
}

/// What a search ends with.
fn run_of<S: Store>(search: Search, store: &mut S) -> TreeOutcome {
    end_of(search.run(store, &mut Free::new()))
}

/// What a search at a problem ends with.
fn run_at<S: Store>(
    alloc: Global,
    text: &[u8],
    budget: u32,
    depth: u16,
    store: &mut S,
) -> Option<TreeOutcome> {
    Some(run_of(searching(alloc, text, budget, depth)?, store))
}

/// What the trace of a search ends with, by a run of it.
fn end_of_run<S: Store>(
    alloc: Global,
    text: &[u8],
    limits: (u32, u16),
    store: &mut S,
) -> Option<String> {
    let end = run_at(alloc, text, limits.0, limits.1, store)?;
    last_step(alloc, end, store.kept())
}

/// Whether a run ends as this trace.
pub(crate) fn ends_as<S: Store>(
    alloc: Global,
    text: &[u8],
    limits: (u32, u16),
    store: &mut S,
    want: &[u8],
) -> bool {
    match end_of_run(alloc, text, limits, store) {
        Some(end) => want.ends_with(end.as_str().as_bytes()),
        None => false,
    }
}

/// Whether these limits can be made.
fn are_limits(budget: u32, depth: u16) -> bool {
    Limits::new(budget, depth).is_some()
}

#[test]
fn limits(rt: HostRuntime) {
    assert!(&rt; !are_limits(0, 0));
    assert!(&rt; are_limits(1, 0));
    assert!(&rt; are_limits(1_000_000, 512));
    assert!(&rt; !are_limits(1_000_001, 512));
    assert!(&rt; !are_limits(1, 513));
}

/// White's two stones with liberties on both sides: Black to move wins.
pub(crate) const SPLIT: &[u8] = b"(;SZ[4:1]AW[ba][da]PL[B]TR[ba])";

/// The same colouring reached by moves, so that Black may not repeat the board before.
const REPEATED: &[u8] = b"(;SZ[4:1]AW[ba];B[ca];W[da]TR[ba])";

/// Within the greatest limit on depth, and a budget that is more than enough.
pub(crate) const AMPLE: (u32, u16) = (100, 512);

#[test]
fn steps_without_a_store(rt: HostRuntime) {
    assert!(&rt;
        has_trace(
            rt.alloc(),
            SPLIT,
            AMPLE,
            &mut NoStore,
            b"E1,2 E1,2 E0,inf S0,inf 3 0"
        )
    );
}

/// A stone in the corner of an empty board: Black has 24 plays and a pass, and White one play less behind a play. So White's win is
/// 25 leaves away, and Black's one.
const CORNER: &[u8] = b"(;SZ[5]AW[aa]PL[B]TR[aa])";

/// A step at a board of many turns, and one below it.
#[test]
fn steps_on_an_empty_board(rt: HostRuntime) {
    assert!(&rt;
        has_trace(
            rt.alloc(),
            CORNER,
            (2, 512),
            &mut NoStore,
            b"E1,25 E1,25 B1,25 2 0"
        )
    );
}

/// The proof that a store has for a problem and a side, if it has one; none where it can't be asked.
fn found_at(
    alloc: Global,
    text: &[u8],
    side: Side,
    store: &mut PrivateStore,
) -> Option<Option<Arc<Proof>>> {
    let line = posed(alloc, text).ok()?;
    store.find(&line, side).ok()
}

/// Whether a proof stands at a problem.
fn stands_at(alloc: Global, proof: &Proof, text: &[u8]) -> Option<bool> {
    let line = posed(alloc, text).ok()?;
    Some(proof.stands_at(&line))
}

/// Whether a proof stands at the first problem and not at the second one.
fn stands_at_the_first(alloc: Global, proof: &Proof) -> bool {
    stands_at(alloc, proof, SPLIT) == Some(true) && stands_at(alloc, proof, REPEATED) == Some(false)
}

/// Whether the proof of the first problem is found at the second one, which has its key.
fn finds_the_first(alloc: Global, store: &mut PrivateStore) -> bool {
    match found_at(alloc, REPEATED, Side::Attacker, store) {
        Some(Some(found)) => stands_at_the_first(alloc, &found),
        Some(None) => false,
        None => false,
    }
}

/// Whether no proof is found there for the defender.
fn finds_no_other(alloc: Global, store: &mut PrivateStore) -> bool {
    match found_at(alloc, REPEATED, Side::Defender, store) {
        Some(Some(_)) => false,
        Some(None) => true,
        None => false,
    }
}

/// Whether a search of the first problem over this store has this trace.
fn is_split(alloc: Global, store: &mut PrivateStore, want: &[u8]) -> bool {
    has_trace(alloc, SPLIT, AMPLE, store, want)
}

/// Whether searches over one store go so, the third one at the second problem.
fn searches_over_one(alloc: Global, store: &mut PrivateStore) -> bool {
    is_split(alloc, store, b"E1,2 E1,2 E0,inf S0,inf 3 3")
        && is_split(alloc, store, b"C0,inf S0,inf 0 3")
        && finds_the_first(alloc, store)
        && finds_no_other(alloc, store)
        && has_trace(alloc, REPEATED, AMPLE, store, b"E1,1 Einf,0 Sinf,0 2 5")
}

#[test]
fn searches_over_one_store(rt: HostRuntime) {
    let mut store = PrivateStore::new(rt.alloc());
    assert!(&rt; searches_over_one(rt.alloc(), &mut store));
}

/// The same colouring reached by moves, none of which Black repeats: a proof of the problem above wins here too.
const REACHED: &[u8] = b"(;SZ[4:1]AW[da];B[];W[ba]TR[ba])";

/// Whether a problem is settled by a proof that the store has, also where it is as deep as the limit: three turns.
fn closes(alloc: Global, text: &[u8], store: &mut PrivateStore) -> bool {
    has_trace(alloc, text, AMPLE, store, b"C0,inf S0,inf 0 3")
        && has_trace(alloc, text, (100, 3), store, b"C0,inf S0,inf 0 3")
}

/// A kept proof closes a leaf where it wins, whichever history it is from.
#[test]
fn closes_by_a_proof_of_another_history(rt: HostRuntime) {
    let alloc = rt.alloc();
    let mut store = PrivateStore::new(alloc);
    assert!(&rt; is_split(alloc, &mut store, b"E1,2 E1,2 E0,inf S0,inf 3 3"));
    assert!(&rt; closes(alloc, SPLIT, &mut store), "the same");
    assert!(&rt; closes(alloc, REACHED, &mut store), "another");
}

/// What a run at a problem ends with, within two expansions and over no store.
fn short_run(alloc: Global, text: &[u8]) -> Option<TreeOutcome> {
    run_at(alloc, text, 2, 512, &mut NoStore)
}

/// Whether such a run ends with a proof of the defender's, which begins with no turn and is two turns deep.
fn ends_held(alloc: Global, text: &[u8]) -> bool {
    matches!(short_run(alloc, text), Some(TreeOutcome::Settled(true)))
}

/// Whether it ends stuck for want of budget, and has expanded two nodes.
fn ends_spent(alloc: Global, text: &[u8]) -> bool {
    matches!(
        short_run(alloc, text),
        Some(TreeOutcome::Stuck(Reason::Budget, _, 2))
    )
}

#[test]
fn runs(rt: HostRuntime) {
    let alloc = rt.alloc();
    assert!(&rt; ends_held(alloc, REPEATED));
    assert!(&rt; ends_spent(alloc, SPLIT));
}
