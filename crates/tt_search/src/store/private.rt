//! A store of one search's own.

ghost use Rattle.std.specs.Prelude.{◌≡◌, ◌≢◌, ◌<◌, ◌≤◌, ◌+◌, ◌∷◌, [], ◌↔◌, IfOk, IfSome, MatchOption, length, map};
ghost use Rattle.std.specs.Option.{option_map};
ghost use Rattle.std.specs.Arc.{arc_value};
ghost use Rattle.tt_game.specs.declared.frame.Side.TheVariants.{Attacker, Defender};
ghost use Rattle.tt_search.specs.Stores.{HasKeyAndSide, IsNewest};
ghost use Rattle.tt_search.specs.KeyIndex.{proof_at};
ghost use Rattle.tt_search.specs.declared.store.Kept.TheVariants.{Stored, Full};
ghost use Rattle.tt_search.specs.declared.store.private.TheConstants.{MOST_KEPT_PROOFS};

use crate::store::key_index::{KeyIndex, ProofList};
use crate::store::{Kept, ProofPerSide, Store};
use std::alloc::Global;
use std::marker::Model;
use std::sync::Arc;
use tt_game::{Line, Side};
use tt_proof::Proof;
use tt_sgf::NoMemory;

/// How many proofs a store may keep at most.
pub const MOST_KEPT_PROOFS: usize = 4096;

/// A store that answers the last proof that it kept of a key and a side.
#[derive(Drop)]
pub struct PrivateStore {
    proofs: Vec<Arc<Proof>>,
    index: KeyIndex,
    capacity: usize,
}

impl Model for PrivateStore {
    ghost use Rattle.std.specs.Prelude.{◌≡◌, ◌≤◌, map, length, reverse};
    ghost use Rattle.std.specs.Coded.{codes};
    ghost use Rattle.tt_sgf.specs.contracts.sets.PointSet as points;
    ghost use Rattle.std.specs.Arc.{arc_value};
    ghost use Rattle.tt_proof.specs.laws.StrategyCode.{strategy_code};
    ghost use Rattle.tt_search.specs.Stores.{KeptProofs};
    ghost use Rattle.tt_search.specs.KeyIndex.{key_hashes};

    ghost Value = { KeptProofs };

    ghost coded = { Prim.hlevel (codes, strategy_code, points.the_row.coded) };

    ghost view = { λ s. record { proofs = reverse (map arc_value s.proofs.items); capacity = s.capacity } };

    ghost invariant = { λ s. (s.index.hashes ≡ key_hashes (map arc_value s.proofs.items)) × (length (map arc_value s.proofs.items) ≤ s.capacity) };
}

impl ProofList for Vec<Arc<Proof>> {
    ghost use Rattle.std.specs.Prelude.{map};
    ghost use Rattle.std.specs.Arc.{arc_value};

    ghost proofs = { λ v. map arc_value v.items };

    fn proof(&self, slot: usize) -> &Proof {
        &self[slot]
    }
}

impl PrivateStore {
    /// An empty store, which may keep as many proofs as any. It takes no memory.
    pub fn new(alloc: Global) -> PrivateStore
        ensures { result ≡ record { proofs = []; capacity = MOST_KEPT_PROOFS } }
    {
        PrivateStore::with_capacity(alloc, MOST_KEPT_PROOFS)
    }

    /// An empty store that may keep so many proofs.
    fn with_capacity(alloc: Global, capacity: usize) -> PrivateStore
        ensures { result ≡ record { proofs = []; capacity = capacity } }
    {
        PrivateStore {
            proofs: Vec::new(alloc),
            index: KeyIndex::new(alloc),
            capacity,
        }
    }

    /// An empty store that may keep so many proofs, where these are no more than 4,096. It takes no memory.
    pub fn bounded(alloc: Global, capacity: usize) -> Option<PrivateStore>
        ensures { MatchOption result (MOST_KEPT_PROOFS < capacity)
            (λ s. (capacity ≤ MOST_KEPT_PROOFS) × (s ≡ record { proofs = []; capacity = capacity })) }
    {
        if capacity > MOST_KEPT_PROOFS {
            return None;
        }
        Some(PrivateStore::with_capacity(alloc, capacity))
    }
}

/// Another handle of the proof in the slot, where there is one.
fn handle_at(proofs: &Vec<Arc<Proof>>, slot: Option<usize>) -> Result<Option<Arc<Proof>>, NoMemory>
    ensures { IfOk result
        (λ o. option_map (λ p. arc_value p) o ≡ proof_at (map arc_value proofs.now.items) slot) }
{
    let Some(slot) = slot else {
        return Ok(None);
    };
    let Some(p) = proofs.get(slot) else {
        return Ok(None);
    };
    let handle = Arc::try_clone(p)?;
    Ok(Some(handle))
}

impl Store for PrivateStore {
    ghost capacity = { λ s. s.capacity };

    ghost kept = { λ s. length s.proofs };

    ghost may_answer = { Unit {0} };

    fn capacity(&self) -> usize {
        self.capacity
    }

    fn kept(&self) -> usize {
        self.proofs.len()
    }

    fn find(&mut self, line: &Line, s: Side) -> Result<Option<Arc<Proof>>, NoMemory>
        ensures newest { IfOk result
            (λ o. IsNewest line.now s self.old.proofs (option_map (λ p. p.value) o)) }
        ensures found { IfOk result (λ o. IfSome o (λ p. HasKeyAndSide line.now s p.value)) }
        ensures may { IfOk result (λ o. IfSome o (λ _. Unit {0})) }
        ensures capacity { self.new.capacity ≡ self.old.capacity }
        ensures kept { length self.new.proofs ≡ length self.old.proofs }
        ensures same { self.new ≡ self.old }
    {
        handle_at(&self.proofs, self.index.newest_slot(line, s, &self.proofs))
    }

    fn find_both(&mut self, line: &Line) -> Result<ProofPerSide, NoMemory>
        ensures newest_attacker { IfOk result
            (λ a. IsNewest line.now Attacker self.old.proofs (option_map (λ p. p.value) a.attacker)) }
        ensures newest_defender { IfOk result
            (λ a. IsNewest line.now Defender self.old.proofs (option_map (λ p. p.value) a.defender)) }
        ensures attacker { IfOk result
            (λ a. IfSome a.attacker (λ p. HasKeyAndSide line.now Attacker p.value)) }
        ensures defender { IfOk result
            (λ a. IfSome a.defender (λ p. HasKeyAndSide line.now Defender p.value)) }
        ensures may_attacker { IfOk result (λ a. IfSome a.attacker (λ _. Unit {0})) }
        ensures may_defender { IfOk result (λ a. IfSome a.defender (λ _. Unit {0})) }
        ensures capacity { self.new.capacity ≡ self.old.capacity }
        ensures kept { length self.new.proofs ≡ length self.old.proofs }
        ensures same { self.new ≡ self.old }
    {
        let (attacker, defender) = self.index.newest_slot_per_side(line, &self.proofs);
        let attacker = handle_at(&self.proofs, attacker)?;
        let defender = handle_at(&self.proofs, defender)?;
        Ok(ProofPerSide { attacker, defender })
    }

    fn keep(&mut self, p: Arc<Proof>) -> Kept
        ensures full { (result ≡ Full) ↔ (length self.old.proofs ≡ self.old.capacity) }
        ensures stored { result ≡ Stored → length self.new.proofs ≡ length self.old.proofs + 1 }
        ensures other { result ≢ Stored → length self.new.proofs ≡ length self.old.proofs }
        ensures capacity { self.new.capacity ≡ self.old.capacity }
        ensures newest { result ≡ Stored → self.new.proofs ≡ p.value ∷ self.old.proofs }
        ensures same { result ≢ Stored → self.new ≡ self.old }
    {
        if self.proofs.len() == self.capacity {
            return Kept::Full;
        }
        if self.proofs.reserve(1).is_err() || self.index.reserve().is_err() {
            return Kept::NoMemory;
        }
        self.index.push(&p);
        self.proofs.push_reserved(p);
        Kept::Stored
    }
}
