//! Which kept proofs may be used at a line.

ghost use Rattle.std.specs.Prelude.{◌≡◌, ◌≤◌, ◌↔◌, ◌⊎◌, IfOk, IfSome, IsTrue, true, Ok, Some};
ghost use Rattle.tt_game.specs.Keys.{key_of};
ghost use Rattle.tt_proof.specs.Footprints.{FitsAt};
ghost use Rattle.tt_proof.specs.Strategy.{depth};
ghost use Rattle.tt_search.specs.Usable.{IsUsable};

use crate::store::{ProofPerSide, Store};
use std::sync::Arc;
use tt_game::Line;
use tt_proof::Proof;
use tt_sgf::NoMemory;

/// Whether the found proof may be used at the line with room for as many turns: its tree is no deeper, and it wins there,
/// too, though it may have been found under another history.
fn is_usable(line: &mut Line, room: u16, proof: &Proof) -> Result<bool, NoMemory>
    requires { key_of proof.now.frame proof.now.state ≡ key_of line.old.frame line.old.state }
    ensures usable { IfOk result (λ b. IsTrue b ↔ IsUsable room line.old proof.now) }
    ensures unasked { FitsAt proof.now line.old.frame line.old.state → depth proof.now.tree ≤ room
        → result ≡ Ok true }
    ensures line { line.new ≡ line.old }
{
    if proof.depth() > room {
        return Ok(false);
    }
    let wins = proof.wins_at(line)?;
    Ok(wins)
}

/// Which of the proofs that were found for both sides is used at the line: the attacker's where it may be, else the defender's where
/// that may be, else none. The line stands as before.
fn first_usable_proof(
    line: &mut Line,
    room: u16,
    attacker: Option<Arc<Proof>>,
    defender: Option<Arc<Proof>>,
) -> Result<Option<Arc<Proof>>, NoMemory>
    requires attacker { IfSome attacker
        (λ p. key_of p.value.frame p.value.state ≡ key_of line.old.frame line.old.state) }
    requires defender { IfSome defender
        (λ p. key_of p.value.frame p.value.state ≡ key_of line.old.frame line.old.state) }
    ensures attacker { IfOk result
        (λ o. IfSome attacker (λ p. IsUsable room line.old p.value → o ≡ attacker)) }
    ensures defender { IfOk result (λ o. IfSome attacker (λ p. IsUsable room line.old p.value → ⊥)
        → IfSome defender (λ p. IsUsable room line.old p.value → o ≡ defender)) }
    ensures usable { IfOk result (λ o. IfSome o (λ p. IsUsable room line.old p.value)) }
    ensures found { IfOk result (λ o. IfSome o (λ p. (attacker ≡ Some p) ⊎ (defender ≡ Some p))) }
    ensures line { line.new ≡ line.old }
{
    if let Some(proof) = attacker {
        if is_usable(line, room, &proof)? {
            return Ok(Some(proof));
        }
    }
    if let Some(proof) = defender {
        if is_usable(line, room, &proof)? {
            return Ok(Some(proof));
        }
    }
    Ok(None)
}

/// A kept proof that may be used at the line, with room for as many turns: the attacker's, or else the defender's. Its tree
/// wins there, and is no deeper. `NoMemory` where memory was refused. The line stands as before.
pub fn find_usable_proof<S: Store>(
    line: &mut Line,
    room: u16,
    store: &mut S,
) -> Result<Option<Arc<Proof>>, NoMemory>
    ensures usable { IfOk result (λ o. IfSome o (λ p. IsUsable room line.old p.value)) }
    ensures line { line.new ≡ line.old }
    ensures may { IfOk result (λ o. IfSome o (λ _. S.may_answer)) }
    ensures kept { S.kept store.new ≡ S.kept store.old }
{
    let ProofPerSide { attacker, defender } = store.find_both(line)?;
    first_usable_proof(line, room, attacker, defender)
}
