//! A search says who wins, and the certifier makes the proof; where it can't, the search is asked again.

ghost use Rattle.std.specs.Prelude.{◌≡◌, ◌≤◌, IfOk, IfSome};
ghost use Rattle.tt_proof.specs.declared.tree.TheConstants.{MOST_DEPTH};
ghost use Rattle.tt_proof.specs.Strategy as strategy;
ghost use Rattle.tt_proof.specs.ProofClaim.{StandsAt};

use crate::advice::VisitsLeft;
use crate::certifier::Certifier;
use crate::finder::Advisor;
use std::alloc::Global;
use tt_game::{Line, Side};
use tt_proof::{LifeProof, Proof};
use tt_sgf::NoMemory;

/// The greatest number of positions that may be asked for.
pub const MOST_POSITIONS: u32 = 100_000_000;

/// How often a search may say who wins. It bounds the attempts where each proof fails and visits are left. The number was chosen without
/// a measurement.
const MOST_ATTEMPTS: u8 = 8;

/// A search for the side that wins, by one finder or by several.
pub trait WinnerSearch {
    /// What has to hold where it searches: of workers, that threads may share what starts them.
    ghost ready: { Self → Type 0 } = { λ _. Unit {0} };

    /// Who wins at the line, if the search says so. It goes on from what the advisor knows. So many attempts to prove what it said here
    /// failed.
    fn search_winner(
        &self,
        line: &Line,
        attempt: u8,
        advisor: &mut Advisor,
        visits: &mut VisitsLeft,
    ) -> Result<Option<Side>, NoMemory>
        requires ready { Self.ready self.now }
        ensures fewer { visits.new.left ≤ visits.old.left };

    /// Makes parts of the proof that the side wins at the line, which the certifier then finds, or nothing at all. `NoMemory` where memory
    /// was refused for some of that.
    fn certify_ahead(
        &self,
        certifier: &mut Certifier<Advisor>,
        line: &mut Line,
        side: Side,
        depth: u16,
        attempt: u8,
    ) -> Result<(), NoMemory>
        requires ready { Self.ready self.now }
        requires depth { depth ≤ MOST_DEPTH }
        ensures fewer { certifier.new.visits.left ≤ certifier.old.visits.left }
        ensures same { line.new ≡ line.old };
}

/// The search by one finder, in the caller's thread.
#[derive(Clone, Copy)]
pub struct OneFinder;

impl WinnerSearch for OneFinder {
    fn search_winner(
        &self,
        line: &Line,
        _attempt: u8,
        advisor: &mut Advisor,
        visits: &mut VisitsLeft,
    ) -> Result<Option<Side>, NoMemory>
        ensures fewer { visits.new.left ≤ visits.old.left }
    {
        advisor.winner_by_search(line, u32::MAX, visits)
    }

    fn certify_ahead(
        &self,
        _certifier: &mut Certifier<Advisor>,
        _line: &mut Line,
        _side: Side,
        _depth: u16,
        _attempt: u8,
    ) -> Result<(), NoMemory> {
        Ok(())
    }
}

/// Looks for a proof at the line, for whichever side wins there, no deeper than `depth` turns. None where none was found within the
/// certifier's visits. The line stands as before.
fn find_by_attempts<S: WinnerSearch>(
    search: &S,
    certifier: &mut Certifier<Advisor>,
    line: &mut Line,
    depth: u16,
) -> Result<Option<LifeProof>, NoMemory>
    requires ready { S.ready search.now }
    requires depth { depth ≤ MOST_DEPTH }
    ensures stands { IfOk result (λ o. IfSome o (λ p. StandsAt p line.old.frame line.old.state)) }
    ensures shallow { IfOk result (λ o. IfSome o (λ p. strategy.depth p.tree ≤ depth)) }
    ensures fewer { certifier.new.visits.left ≤ certifier.old.visits.left }
    ensures same { line.new ≡ line.old }
{
    for attempt in 0..MOST_ATTEMPTS {
        let advisor = &mut certifier.advice;
        let Some(side) = search.search_winner(line, attempt, advisor, &mut certifier.visits)? else {
            return Ok(None);
        };
        let ahead = search.certify_ahead(certifier, line, side, depth, attempt);
        let found = certifier.certify(line, side, depth)?;
        if found.is_some() {
            return Ok(found);
        }
        ahead?;
        if certifier.visits.left == 0 {
            return Ok(None);
        }
        if attempt == 0 {
            certifier.advice.restart_without_pruning();
        }
    }
    Ok(None)
}

/// The same by a certifier that is made for it, whose proofs' trees may end at life or don't. None where none was found within the visits
/// that are left. `NoMemory` where memory was refused.
fn find_by_certifier<S: WinnerSearch>(
    alloc: Global,
    search: &S,
    line: &mut Line,
    depth: u16,
    may_end_at_life: bool,
    visits: &mut VisitsLeft,
) -> Result<Option<LifeProof>, NoMemory>
    requires ready { S.ready search.now }
    requires depth { depth ≤ MOST_DEPTH }
    ensures stands { IfOk result (λ o. IfSome o (λ p. StandsAt p line.old.frame line.old.state)) }
    ensures shallow { IfOk result (λ o. IfSome o (λ p. strategy.depth p.tree ≤ depth)) }
    ensures fewer { visits.new.left ≤ visits.old.left }
    ensures same { line.new ≡ line.old }
{
    let advisor = Advisor::new(alloc, line, visits.left)?;
    let given_boards = line.history().len();
    let mut certifier = Certifier::new(alloc, advisor, may_end_at_life, given_boards, *visits)?;
    let found = find_by_attempts(search, &mut certifier, line, depth);
    visits.left = certifier.visits.left;
    found
}

/// Looks for a proof at the line, for whichever side wins there, no deeper than `depth` turns. None where none was found within
/// the visits that are left. `NoMemory` where memory was refused. The line stands as before.
pub fn find_proof<S: WinnerSearch>(
    alloc: Global,
    search: &S,
    line: &mut Line,
    depth: u16,
    visits: &mut VisitsLeft,
) -> Result<Option<Proof>, NoMemory>
    requires ready { S.ready search.now }
    requires depth { depth ≤ MOST_DEPTH }
    ensures stands { IfOk result (λ o. IfSome o (λ p. StandsAt p line.old.frame line.old.state)) }
    ensures shallow { IfOk result (λ o. IfSome o (λ p. strategy.depth p.tree ≤ depth)) }
    ensures fewer { visits.new.left ≤ visits.old.left }
    ensures same { line.new ≡ line.old }
{
    match find_by_certifier(alloc, search, line, depth, false, visits)? {
        Some(proof) => Ok(proof.into_proof()),
        None => Ok(None),
    }
}

/// The same, where the proof's tree may end at life.
pub fn find_life_proof<S: WinnerSearch>(
    alloc: Global,
    search: &S,
    line: &mut Line,
    depth: u16,
    visits: &mut VisitsLeft,
) -> Result<Option<LifeProof>, NoMemory>
    requires ready { S.ready search.now }
    requires depth { depth ≤ MOST_DEPTH }
    ensures stands { IfOk result (λ o. IfSome o (λ p. StandsAt p line.old.frame line.old.state)) }
    ensures shallow { IfOk result (λ o. IfSome o (λ p. strategy.depth p.tree ≤ depth)) }
    ensures fewer { visits.new.left ≤ visits.old.left }
    ensures same { line.new ≡ line.old }
{
    find_by_certifier(alloc, search, line, depth, true, visits)
}
