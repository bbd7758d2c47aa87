//! The table: proofs in the order in which they came, the slots of each key, and the nodes of all trees. It serves other callers:
//! workers share a `CertLog`.

pub(crate) mod locked;

ghost use Rattle.std.specs.Prelude.{◌≡◌, ◌++◌, ◌∷◌, [], ◌+◌, ◌-◌, ◌^◌, min, length, reverse, IfOk, IfSome, OnOk, OnErr, if◌then◌else◌};
ghost use Rattle.std.specs.Arc.{arc_value};
ghost use Rattle.std.specs.Option.{option_map};
ghost use Rattle.tt_search.specs.Stores.{HasKeyAndSide, IsNewest};
ghost use Rattle.tt_game.specs.Keys.{key_of};
ghost use Rattle.tt_proof.specs.Nodes.{nodes};
ghost use Rattle.tt_share.specs.inside.Slots.{slots_at};
ghost use Rattle.tt_share.specs.Table.{slots_with_key, total_node_count};

use std::alloc::Global;
use std::collections::HashMap;
use std::hash::Hash;
use std::marker::Model;
use std::sync::Arc;
use tt_game::{Key, Line, Side};
use tt_proof::Proof;
use tt_sgf::NoMemory;

/// Proofs in the order in which they came. No program here has one.
#[derive(Drop)]
pub struct TableState {
    proofs: Vec<Arc<Proof>>,
    index: HashMap<Key, Vec<usize>>,
    total: u64,
    alloc: Global,
}

impl Model for TableState {
    ghost use Rattle.std.specs.Prelude.{◌≡◌, List, map};
    ghost use Rattle.tt_sgf.specs.contracts.sets.PointSet as points;
    ghost use Rattle.std.specs.Coded.{codes};
    ghost use Rattle.std.specs.Arc.{arc_value};
    ghost use Rattle.tt_proof.specs.ProofClaim.{ProofClaim};
    ghost use Rattle.tt_proof.specs.laws.StrategyCode.{strategy_code};
    ghost use Rattle.tt_share.specs.inside.Slots.{IsIndexOf};
    ghost use Rattle.tt_share.specs.Table.{total_node_count};

    ghost Value = { List ProofClaim };

    ghost coded = { Prim.hlevel (codes, strategy_code, points.the_row.coded) };

    ghost view = { λ t. map arc_value t.proofs.items };

    ghost invariant = { λ t. IsIndexOf t.index (map arc_value t.proofs.items) × (t.total ≡ total_node_count (map arc_value t.proofs.items)) };
}

/// Adds a slot at the key.
fn add_slot_to_index<K: Copy + Drop + Eq + Hash>(
    alloc: Global,
    index: &mut HashMap<K, Vec<usize>>,
    key: &K,
    slot: usize,
) -> Result<(), NoMemory>
    ensures ok { OnOk result ((q : _)
        → slots_at K.eq index.new q
        ≡ (if K.eq key.now q then slots_at K.eq index.old q ++ slot ∷ [] else slots_at K.eq index.old q)) }
    ensures err { OnErr result ((q : _) → slots_at K.eq index.new q ≡ slots_at K.eq index.old q) }
{
    if let Some(slots) = index.get_mut(key) {
        slots.push(slot)?;
        return Ok(());
    }
    let mut slots = Vec::new(alloc);
    slots.push(slot)?;
    match index.insert(*key, slots) {
        Ok(_) => Ok(()),
        Err(_) => Err(NoMemory),
    }
}

impl TableState {
    /// An empty table. It takes no memory.
    pub fn new(alloc: Global) -> Result<TableState, NoMemory>
        ensures { result ≡ Ok [] }
    {
        Ok(TableState {
            proofs: Vec::new(alloc),
            index: HashMap::new(alloc),
            total: 0,
            alloc,
        })
    }

    /// Appends the proof, of this key and so many nodes, and answers its slot.
    pub(crate) fn append(&mut self, key: &Key, size: u64, p: Arc<Proof>) -> Result<usize, NoMemory>
        requires key { key.now ≡ key_of (arc_value p).frame (arc_value p).state }
        requires size { size ≡ min (nodes (arc_value p).tree) (2 ^ 64 - 1) }
        ensures ok { IfOk result
            (λ slot. (self.new ≡ self.old ++ arc_value p ∷ []) × (slot ≡ length self.old)) }
        ensures err { OnErr result (self.new ≡ self.old) }
    {
        self.proofs.reserve(1)?;
        let slot = self.proofs.len();
        add_slot_to_index(self.alloc, &mut self.index, key, slot)?;
        self.total = self.total.saturating_add(size);
        self.proofs.push_reserved(p);
        Ok(slot)
    }

    /// Appends the proof, and answers its slot. Where memory is refused nothing changes.
    pub fn insert(&mut self, p: Arc<Proof>) -> Result<usize, NoMemory>
        ensures ok { IfOk result
            (λ slot. (self.new ≡ self.old ++ arc_value p ∷ []) × (slot ≡ length self.old)) }
        ensures err { OnErr result (self.new ≡ self.old) }
    {
        let key = p.key();
        let size = p.nodes();
        self.append(&key, size, p)
    }

    /// The rising slots of the proofs of the key.
    pub fn places(&self, k: &Key) -> &[usize]
        ensures { result.now ≡ slots_with_key k.now self.now }
    {
        match self.index.get(k) {
            Some(slots) => slots.as_slice(),
            None => &[],
        }
    }

    /// The nodes of all trees, or the greatest `u64` where they are more.
    pub fn nodes(&self) -> u64
        ensures { result ≡ total_node_count self.now }
    {
        self.total
    }

    /// How many proofs there are.
    pub fn len(&self) -> usize
        ensures { result ≡ length self.now }
    {
        self.proofs.len()
    }

    /// The last proof of the line's key for the side.
    fn newest_proof(&self, line: &Line, s: Side) -> Option<&Arc<Proof>>
        ensures newest { IsNewest line.now s (reverse self.now) (option_map (λ r. arc_value r.now) result) }
        ensures found { IfSome result (λ r. HasKeyAndSide line.now s (arc_value r.now)) }
    {
        let key = line.key();
        let places = self.places(&key);
        let mut left = places.len();
        while 0 < left {
            left -= 1;
            if let Some(p) = self.proofs.get(places[left]) {
                if p.side() == s {
                    return Some(p);
                }
            }
        }
        None
    }

    /// A handle of the last proof of the line's key for the side, or none.
    pub(crate) fn find(&self, line: &Line, s: Side) -> Result<Option<Arc<Proof>>, NoMemory>
        ensures newest { IfOk result
            (λ o. IsNewest line.now s (reverse self.now) (option_map (λ p. arc_value p) o)) }
        ensures found { IfOk result (λ o. IfSome o (λ p. HasKeyAndSide line.now s (arc_value p))) }
    {
        let Some(p) = self.newest_proof(line, s) else {
            return Ok(None);
        };
        let handle = Arc::try_clone(p)?;
        Ok(Some(handle))
    }
}
