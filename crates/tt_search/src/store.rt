//! Where a search keeps the proofs of settled nodes, and looks for them again.

pub(crate) mod key_index;
pub(crate) mod private;
pub(crate) mod usable_proofs;

ghost use Rattle.std.specs.Prelude.{◌≡◌, ◌≢◌, ℕ, ◌+◌, ◌↔◌, Ok, None, IfOk, IfSome};
ghost use Rattle.tt_game.specs.declared.frame.Side.TheVariants.{Attacker, Defender};
ghost use Rattle.tt_search.specs.Stores.{HasKeyAndSide};
ghost use Rattle.tt_search.specs.declared.store.Kept.TheVariants.{Stored, Full};

use std::sync::Arc;
use tt_game::{Line, Side};
use tt_proof::Proof;
use tt_sgf::NoMemory;

/// What became of a proof that was to be kept: it is stored, the store was full, or memory was refused.
#[derive(Clone, Copy, Debug, PartialEq, Eq)]
pub enum Kept {
    Stored,
    Full,
    NoMemory,
}

/// What a store answers of one key: a proof of each side, or none.
#[derive(Drop)]
pub struct ProofPerSide {
    pub attacker: Option<Arc<Proof>>,
    pub defender: Option<Arc<Proof>>,
}

/// Keeps so many proofs, and answers those of a line's key again. A proof that it answers may
/// have been found under another history than the line's, so it need not win there.
pub trait Store {
    // How many proofs it keeps at most, and how many were kept through it.
    ghost capacity: { Self → ℕ };

    ghost kept: { Self → ℕ };

    // That such a store may answer a proof at all.
    ghost may_answer: { Type 0 };

    /// How many proofs may be kept.
    fn capacity(&self) -> usize
        ensures { result ≡ capacity self.now };

    /// How many proofs were kept.
    fn kept(&self) -> usize
        ensures { result ≡ kept self.now };

    /// A proof of the line's key for the side, or none.
    fn find(&mut self, line: &Line, s: Side) -> Result<Option<Arc<Proof>>, NoMemory>
        ensures found { IfOk result (λ o. IfSome o (λ p. HasKeyAndSide line.now s p.value)) }
        ensures may { IfOk result (λ o. IfSome o (λ _. may_answer)) }
        ensures capacity { capacity self.new ≡ capacity self.old }
        ensures kept { kept self.new ≡ kept self.old };

    /// What `find` answers for both sides, in one look.
    fn find_both(&mut self, line: &Line) -> Result<ProofPerSide, NoMemory>
        ensures attacker { IfOk result
            (λ a. IfSome a.attacker (λ p. HasKeyAndSide line.now Attacker p.value)) }
        ensures defender { IfOk result
            (λ a. IfSome a.defender (λ p. HasKeyAndSide line.now Defender p.value)) }
        ensures may_attacker { IfOk result (λ a. IfSome a.attacker (λ _. may_answer)) }
        ensures may_defender { IfOk result (λ a. IfSome a.defender (λ _. may_answer)) }
        ensures capacity { capacity self.new ≡ capacity self.old }
        ensures kept { kept self.new ≡ kept self.old }
    {
        let attacker = self.find(line, Side::Attacker)?;
        let defender = self.find(line, Side::Defender)?;
        Ok(ProofPerSide { attacker, defender })
    }

    /// Keeps the proof, where there is room and memory for it.
    fn keep(&mut self, p: Arc<Proof>) -> Kept
        ensures full { (result ≡ Full) ↔ (kept self.old ≡ capacity self.old) }
        ensures stored { result ≡ Stored → kept self.new ≡ kept self.old + 1 }
        ensures other { result ≢ Stored → kept self.new ≡ kept self.old }
        ensures capacity { capacity self.new ≡ capacity self.old };
}

/// A store that keeps nothing and finds nothing. It takes no memory.
#[derive(Clone, Copy, Debug, Default)]
pub struct NoStore;

impl Store for NoStore {
    ghost capacity = { λ _. 0 };

    ghost kept = { λ _. 0 };

    ghost may_answer = { ⊥ };

    fn capacity(&self) -> usize {
        0
    }

    fn kept(&self) -> usize {
        0
    }

    fn find(&mut self, line: &Line, s: Side) -> Result<Option<Arc<Proof>>, NoMemory>
        ensures none { result ≡ Ok None }
    {
        Ok(None)
    }

    fn keep(&mut self, p: Arc<Proof>) -> Kept {
        Kept::Full
    }
}
