//! Searches over stores that are full, that refuse to keep, and that are refused memory once.

ghost use Rattle.std.specs.Prelude.{◌≡◌, ◌+◌, ◌≤◌};

use crate::proof_tests::{KILLED_CERT, found};
use crate::search_tests::{AMPLE, SPLIT, has_trace, put_counts, put_step, searching, stepped};
use std::alloc::Global;
use std::sync::Arc;
use tt_game::{Line, Side};
use tt_proof::Proof;
use tt_search::{End, Free, Kept, PrivateStore, Reason, Search, Step, Store};
use tt_sgf::NoMemory;

/// A store with room for a hundred proofs, which refuses to keep any. It counts the questions, those out of turn, since the
/// attacker is to be asked for before the defender, and the offers.
#[derive(Drop)]
struct Refusing {
    questions: u32,
    astray: u32,
    offers: u32,
}

impl Store for Refusing {
    ghost capacity = { λ _. 100 };

    ghost kept = { λ _. 0 };

    ghost may_answer = { ⊥ };

    fn capacity(&self) -> usize {
        100
    }

    fn kept(&self) -> usize {
        0
    }

    fn find(&mut self, line: &Line, s: Side) -> Result<Option<Arc<Proof>>, NoMemory> {
        let first = self.questions % 2 == 0;
        self.questions = self.questions.wrapping_add(1);
        if first != (s == Side::Attacker) {
            self.astray = self.astray.wrapping_add(1);
        }
        Ok(None)
    }

    fn keep(&mut self, p: Arc<Proof>) -> Kept {
        self.offers = self.offers.wrapping_add(1);
        Kept::NoMemory
    }
}

/// A store that forgets at once what it keeps, and is refused memory at one of the questions: the one with so many before
/// it.
#[derive(Drop)]
struct RefusedOnce {
    before: u32,
    kept: usize,
    ghost few: { kept ≤ 100 },
}

impl Store for RefusedOnce {
    ghost capacity = { λ _. 100 };

    ghost kept = { λ store. store.kept };

    ghost may_answer = { ⊥ };

    fn capacity(&self) -> usize {
        100
    }

    fn kept(&self) -> usize {
        self.kept
    }

    fn find(&mut self, line: &Line, s: Side) -> Result<Option<Arc<Proof>>, NoMemory> {
        let refused = self.before == 0;
        self.before = self.before.wrapping_sub(1);
        if refused {
            return Err(NoMemory);
        }
        Ok(None)
    }

    fn keep(&mut self, p: Arc<Proof>) -> Kept {
        if self.kept == 100 {
            return Kept::Full;
        }
        self.kept += 1;
        Kept::Stored
    }
}

/// Whether a store may have room for so many proofs.
fn is_room(alloc: Global, capacity: usize) -> bool {
    PrivateStore::bounded(alloc, capacity).is_some()
}

#[test]
fn no_store_past_the_limit(rt: HostRuntime) {
    assert!(&rt; is_room(rt.alloc(), 4_096));
    assert!(&rt; !is_room(rt.alloc(), 4_097));
}

/// Whether two searches over a store with room for one proof have these traces.
fn searches_over_one(alloc: Global, first: &[u8], second: &[u8]) -> Option<bool> {
    let mut store = PrivateStore::bounded(alloc, 1)?;
    Some(
        has_trace(alloc, SPLIT, AMPLE, &mut store, first)
            && has_trace(alloc, SPLIT, AMPLE, &mut store, second),
    )
}

/// A store of one proof has the deepest one alone, which closes a leaf of a second search.
#[test]
fn searches_over_one_place(rt: HostRuntime) {
    let first = b"E1,2 E1,2 E0,inf S0,inf 3 1";
    let second = b"E1,2 E1,2 C0,inf S0,inf 2 1";
    assert!(&rt; searches_over_one(rt.alloc(), first, second) == Some(true));
}

/// Whether a search over a store that refuses to keep has this trace, with how often it asked, and offered.
fn refused(alloc: Global, depth: u16, want: &[u8], questions: u32, offers: u32) -> bool {
    let mut store = Refusing {
        questions: 0,
        astray: 0,
        offers: 0,
    };
    has_trace(alloc, SPLIT, (100, depth), &mut store, want)
        && store.astray == 0
        && store.questions == questions
        && store.offers == offers
}

/// Neither the search nor the offers stop where a proof isn't kept: three nodes are settled, by three expansions, and the
/// store is asked twice for each.
#[test]
fn a_refused_keep_stops_no_search(rt: HostRuntime) {
    assert!(&rt; refused(rt.alloc(), 512, b"E1,2 E1,2 E0,inf S0,inf 3 0", 6, 3));
}

/// The store is asked before the depth is looked at, too.
#[test]
fn asks_at_the_limit_on_depth(rt: HostRuntime) {
    assert!(&rt; refused(rt.alloc(), 1, b"E1,2 D1,2 1 0", 4, 0));
}

/// Makes a step. Whether it was refused memory and changed nothing; or what it answered is written, and it was not. None where a
/// refused step changed the search.
fn put_unless_refused(
    alloc: Global,
    search: &mut Search,
    store: &mut RefusedOnce,
    text: &mut String,
) -> Option<Step> {
    let before = (search.numbers(), search.expanded());
    let step = stepped(search, store);
    if step == Step::Stuck(Reason::Memory) {
        if (search.numbers(), search.expanded()) != before {
            return None;
        }
    } else {
        put_step(alloc, step, search.numbers(), text)?;
    }
    Some(step)
}

/// Writes the steps of a search up to its end, but for those that were refused memory. Answers how many were refused.
fn put_steps(
    alloc: Global,
    search: &mut Search,
    store: &mut RefusedOnce,
    text: &mut String,
) -> Option<u32> {
    let mut refusals = 0u32;
    for _ in 0..8u32 {
        match put_unless_refused(alloc, search, store, text)? {
            Step::Expanded => {}
            Step::Stuck(Reason::Memory) => refusals = refusals.saturating_add(1),
            _ => return Some(refusals),
        }
    }
    Some(refusals)
}

/// Whether those steps, with how many nodes are expanded and how many proofs are kept, are as they are without a refusal, and so
/// many steps were refused.
fn goes_on(alloc: Global, search: &mut Search, store: &mut RefusedOnce, want: u32) -> Option<bool> {
    let mut text = String::new(alloc);
    let refusals = put_steps(alloc, search, store, &mut text)?;
    put_counts(alloc, search.expanded(), store.kept(), &mut text)?;
    Some(refusals == want && text.as_str() == "E1,2 E1,2 E0,inf S0,inf 3 3")
}

/// Whether a search goes on so over a store that is refused memory after so many questions, and once.
fn goes_on_after(alloc: Global, before: u32) -> Option<bool> {
    let mut search = searching(alloc, SPLIT, 100, 512)?;
    let mut store = RefusedOnce { before, kept: 0 };
    goes_on(alloc, &mut search, &mut store, u32::from(before < 6))
}

/// Three expansions ask the store twice each. Whichever question is refused memory, the next step goes on as if the
/// refused one had never been asked for, and each node that is settled is still offered.
#[test]
fn goes_on_after_want_of_memory(rt: HostRuntime) {
    for before in 0..7u32 {
        assert!(&rt;
            goes_on_after(rt.alloc(), before) == Some(true),
            "after {before} questions"
        );
    }
}

/// What becomes of a handle of the proof that is to be kept.
fn kept(store: &mut PrivateStore, proof: &Arc<Proof>) -> Option<Kept> {
    let handle = Arc::try_clone(proof).ok()?;
    Some(store.keep(handle))
}

/// Whether a store keeps the proof so many times, and is full then.
fn fills(store: &mut PrivateStore, proof: &Arc<Proof>, times: u32) -> bool {
    for _ in 0..times {
        if kept(store, proof) != Some(Kept::Stored) {
            return false;
        }
    }
    kept(store, proof) == Some(Kept::Full)
}

/// Whether a new store does.
fn fills_a_new_store(alloc: Global, times: u32) -> Option<bool> {
    let proof = Arc::new(alloc, found(alloc, SPLIT, KILLED_CERT)?).ok()?;
    let mut store = PrivateStore::new(alloc);
    Some(fills(&mut store, &proof, times))
}

#[test]
fn a_store_keeps_up_to_its_limit(rt: HostRuntime) {
    assert!(&rt; fills_a_new_store(rt.alloc(), 4_096) == Some(true));
}

/// White may fill nine squares of its own, in any order, and Black may only pass. So Black's stones live once White passes too:
/// after nineteen turns at the latest.
const NINE: &[u8] =
    b"(;SZ[19:4]AB[ac:sc]AW[ab:sb][ba][da][fa][ha][ja][la][na][pa][ra]PL[W]TR[ac]SQ[aa][ca][ea][ga][ia][ka][ma][oa][qa])";

/// How deep the proof is that a search ends with; none where it is stuck.
fn settled_depth(search: Search, store: &mut PrivateStore) -> Option<u16> {
    match search.run(store, &mut Free::new()) {
        End::Settled(proof) => Some(proof.depth()),
        End::Stuck(_, _) => None,
    }
}

/// What a first step answers of that problem, within the limit on depth.
fn first_step(alloc: Global, depth: u16, store: &mut PrivateStore) -> Option<Step> {
    let mut search = searching(alloc, NINE, 100_000, depth)?;
    Some(stepped(&mut search, store))
}

/// Whether a search over the store ends with a proof of nineteen turns, which closes a later one's root where its limit allows so many.
fn closes_deep(alloc: Global, store: &mut PrivateStore) -> Option<bool> {
    let depth = settled_depth(searching(alloc, NINE, 100_000, 512)?, store);
    Some(
        depth == Some(19)
            && first_step(alloc, 19, store) == Some(Step::Closed)
            && first_step(alloc, 18, store) == Some(Step::Expanded),
    )
}

/// A run of more than five hundred expansions, one at least for each set of squares that are filled; and its proof is used again.
#[test]
fn a_deep_proof_closes(rt: HostRuntime) {
    let mut store = PrivateStore::new(rt.alloc());
    assert!(&rt; closes_deep(rt.alloc(), &mut store) == Some(true));
}
