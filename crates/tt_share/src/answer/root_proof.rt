//! What a store has for the line itself, and what it is offered.

ghost use Rattle.std.specs.Prelude.{◌≡◌, ℕ, Option, None, IfOk, IfSome};
ghost use Rattle.tt_game.specs.Game.{winner_of};
ghost use Rattle.tt_share.specs.Answers.{IsAnswer};

use crate::answer::Answer;
use crate::answer::conclude::answer_of_proof;
use std::alloc::Global;
use std::sync::Arc;
use tt_game::Line;
use tt_search::{Kept, Limits, Store, find_usable_proof};
use tt_sgf::NoMemory;

/// The answer that the store has for the line: a proof of the attacker, or else of the defender.
pub(crate) fn answer_from_store<S: Store>(
    alloc: Global,
    line: &Line,
    limits: Limits,
    store: &mut S,
) -> Result<Option<Answer>, NoMemory>
    requires open { winner_of line.now.frame line.now.state ≡ None }
    ensures { (total : Option ℕ)
        → IfOk result (λ o. IfSome o (λ a. IsAnswer line.now limits total a)) }
{
    let mut own = line.try_clone()?;
    let Some(found) = find_usable_proof(&mut own, limits.depth(), store)? else {
        return Ok(None);
    };
    let proof = found.moved_to(alloc, &mut own)?;
    Ok(Some(answer_of_proof(alloc, line, limits, proof)?))
}

/// Offers the proof of an answer to the store, unless that is full.
pub(crate) fn offer_answer<S: Store>(answer: &Answer, store: &mut S) {
    if store.kept() == store.capacity() {
        return;
    }
    if let Answer::Settled { proof, first: _ } = answer {
        if let Ok(copy) = Arc::try_clone(proof) {
            match store.keep(copy) {
                Kept::Stored | Kept::Full | Kept::NoMemory => {}
            }
        }
    }
}
