//! Searches whose expansions are granted only so often.

ghost use Rattle.std.specs.Prelude.{◌≡◌};

use crate::search_tests::{
    AMPLE, SPLIT, TreeOutcome, end_of, has_trace, letter, searching, stepped,
};
use std::alloc::Global;
use tt_search::{Free, Grants, NoStore, PrivateStore, Reason, Search, Step};

/// Grants so many asks.
#[derive(Drop)]
struct GrantsUpTo {
    most: u64,
    granted: u64,
    refused: bool,
}

impl Grants for GrantsUpTo {
    ghost asked = { λ f. record { granted = f.granted; refused = f.refused } };

    ghost source = { λ _. tt };

    fn ask(&mut self) -> bool {
        if self.refused || self.granted >= self.most {
            self.refused = true;
            return false;
        }
        self.granted += 1;
        true
    }

    fn granted(&self) -> u64 {
        self.granted
    }

    fn refused(&self) -> bool {
        self.refused
    }
}

fn granting(most: u64) -> GrantsUpTo
    ensures granted { result.granted ≡ 0 }
{
    GrantsUpTo {
        most,
        granted: 0,
        refused: false,
    }
}

/// Whether the grants of a step tell what it did.
fn tells(grants: &GrantsUpTo, step: Step) -> bool {
    grants.granted() == u64::from(step == Step::Expanded)
        && grants.refused() == (step == Step::Stuck(Reason::Total))
}

/// The letter of a step with so many asks granted before it stops; none where the grants don't tell what the step did.
fn step_letter(search: &mut Search, granted: u64) -> Option<char> {
    let mut grants = granting(granted);
    let step = search.step(&mut NoStore, &mut grants);
    if tells(&grants, step) {
        return Some(letter(step));
    }
    None
}

/// Writes the letters of four steps.
fn put_steps(search: &mut Search, most: u64, letters: &mut String) -> Option<()> {
    for _ in 0..4u32 {
        let granted = most.saturating_sub(u64::from(search.expanded()));
        letters.push(step_letter(search, granted)?).ok()?;
    }
    Some(())
}

/// A search at a problem whose third expansion settles it.
fn split(alloc: Global) -> Option<Search> {
    searching(alloc, SPLIT, 100, 512)
}

/// The letters of four steps of it.
fn letters(alloc: Global, search: &mut Search, most: u64) -> Option<String> {
    let mut letters = String::new(alloc);
    put_steps(search, most, &mut letters)?;
    Some(letters)
}

/// The letters of its first four steps.
fn first_letters(alloc: Global, most: u64) -> Option<String> {
    let mut search = split(alloc)?;
    letters(alloc, &mut search, most)
}

/// Whether they are these.
fn are_letters(alloc: Global, most: u64, want: &[u8]) -> bool {
    match first_letters(alloc, most) {
        Some(letters) => letters.as_str().as_bytes() == want,
        None => false,
    }
}

#[test]
fn a_refused_step_is_stuck_for_the_total(rt: HostRuntime) {
    let alloc = rt.alloc();
    assert!(&rt; are_letters(alloc, 0, b"TTTT"));
    assert!(&rt; are_letters(alloc, 2, b"EETT"));
    assert!(&rt; are_letters(alloc, 3, b"EEES"));
}

/// Whether a run that is granted two expansions has them, and is refused the third one.
fn spends_two(search: Search) -> bool {
    let mut grants = granting(2);
    let end = end_of(search.run(&mut NoStore, &mut grants));
    grants.granted() == 2
        && grants.refused()
        && matches!(end, TreeOutcome::Stuck(Reason::Total, _, 2))
}

/// Whether a run that is granted all it asks for asks three times.
fn spends_three(search: Search) -> bool {
    let mut grants = Free::new();
    let end = end_of(search.run(&mut NoStore, &mut grants));
    grants.granted() == 3 && !grants.refused() && matches!(end, TreeOutcome::Settled(_))
}

#[test]
fn a_run_spends_what_is_granted(rt: HostRuntime) {
    assert!(&rt; split(rt.alloc()).is_some_and(spends_two));
    assert!(&rt; split(rt.alloc()).is_some_and(spends_three));
}

/// Whether a step expands a node.
fn expands(search: &mut Search, store: &mut PrivateStore) -> bool {
    stepped(search, store) == Step::Expanded
}

/// Whether a step closes a leaf where each expansion is refused.
fn closes_ungranted(search: &mut Search, store: &mut PrivateStore) -> bool {
    search.step(store, &mut granting(0)) == Step::Closed
}

/// Whether the third step does, where the first two expand.
fn closes_third(search: &mut Search, store: &mut PrivateStore) -> bool {
    if !expands(search, store) {
        return false;
    }
    if !expands(search, store) {
        return false;
    }
    closes_ungranted(search, store)
}

/// Whether the third step of a search over the store does.
fn closes_over(alloc: Global, store: &mut PrivateStore) -> Option<bool> {
    let mut search = split(alloc)?;
    Some(closes_third(&mut search, store))
}

/// Whether it does over a store with room for one proof, which has that of an earlier search.
fn closes_by_a_kept_proof(alloc: Global) -> Option<bool> {
    let mut store = PrivateStore::bounded(alloc, 1)?;
    if !has_trace(
        alloc,
        SPLIT,
        AMPLE,
        &mut store,
        b"E1,2 E1,2 E0,inf S0,inf 3 1",
    ) {
        return Some(false);
    }
    closes_over(alloc, &mut store)
}

/// The store is asked before a grant is: a kept proof closes a leaf where each ask is refused, too.
#[test]
fn a_kept_proof_closes_without_a_grant(rt: HostRuntime) {
    assert!(&rt; closes_by_a_kept_proof(rt.alloc()) == Some(true));
}

/// Whether a step is refused, and a later one, whose source has refused one since, closes the leaf by a proof of the store.
fn closes_once_refused(search: &mut Search, store: &mut PrivateStore) -> bool {
    let mut grants = granting(0);
    if search.step(&mut NoStore, &mut grants) != Step::Stuck(Reason::Total) {
        return false;
    }
    search.step(store, &mut grants) == Step::Closed
}

/// Whether a search does so over the store.
fn closes_once_refused_over(alloc: Global, store: &mut PrivateStore) -> Option<bool> {
    let mut search = split(alloc)?;
    Some(closes_once_refused(&mut search, store))
}

/// Whether one does over a store that has the proofs of an earlier search.
fn closes_by_its_own_proof(alloc: Global) -> Option<bool> {
    let mut store = PrivateStore::new(alloc);
    if !has_trace(
        alloc,
        SPLIT,
        AMPLE,
        &mut store,
        b"E1,2 E1,2 E0,inf S0,inf 3 3",
    ) {
        return Some(false);
    }
    closes_once_refused_over(alloc, &mut store)
}

/// Each step asks the store, also once an ask was refused.
#[test]
fn a_refused_source_hinders_no_closing(rt: HostRuntime) {
    assert!(&rt; closes_by_its_own_proof(rt.alloc()) == Some(true));
}
