//! An index of the last proof of each key and side.

ghost use Rattle.std.specs.Prelude.{◌≡◌, ℕ, ◌+◌, ◌/◌, ◌%◌, ◌<◌, ◌++◌, ◌∷◌, [], ◌↔◌, List, Some, IfOk, IfSome, IsTrue, length, vec_len, vec_capacity, reverse, slice_get};
ghost use Rattle.tt_game.specs.Keys.{key_of};
ghost use Rattle.tt_proof.specs.ProofClaim.{ProofClaim};
ghost use Rattle.tt_game.specs.declared.frame.Side.TheVariants.{Attacker, Defender};
ghost use Rattle.tt_search.specs.Stores.{HasKeyAndSide, IsNewest};
ghost use Rattle.tt_search.specs.KeyIndex.{index_hash, key_hashes, proof_at, IsSlotOfNewest};
ghost use Rattle.tt_search.specs.inside.Buckets.{bucket_of_hash, AreLongEnough, AreBuckets, IsLastWithHash};

use std::alloc::Global;
use std::marker::Model;
use tt_game::{BloomFilter, Line, Side};
use tt_proof::Proof;
use tt_sgf::NoMemory;

/// Proofs in the order in which they came, each at its slot, from 0 on.
pub trait ProofList {
    ghost proofs: { Self → List ProofClaim };

    /// The proof at a slot.
    fn proof(&self, slot: usize) -> &Proof
        requires { slot < length (proofs self.now) }
        ensures { slice_get (proofs self.now) slot ≡ Some result.now };
}

/// How many bits the filter has: twelve for each of 16,384 proofs, which four workers may keep.
const KEY_FILTER_BITS: usize = 196_608;

/// The bit of a hash, by which the index knows most hashes as new at once.
fn filter_bit(hash: u32) -> usize
    ensures { result ≡ hash % KEY_FILTER_BITS }
{
    hash as usize % KEY_FILTER_BITS
}

/// Whether the proof has the line's key and is for the side.
fn has_key_and_side(p: &Proof, line: &Line, side: Side) -> bool
    ensures { IsTrue result
        ↔ ((key_of p.now.frame p.now.state ≡ key_of line.now.frame line.now.state)
        × (p.now.side ≡ side)) }
{
    p.side() == side && p.has_key_of(line)
}

/// The bucket of a hash, one of so many.
fn bucket_of(hash: u32, buckets: usize) -> usize
    requires some { 0 < buckets }
    ensures bucket { result ≡ bucket_of_hash hash buckets }
    ensures within { result < buckets }
{
    hash as usize % buckets
}

/// Links the slot, behind all slots before it.
fn link_slot(heads: &mut Vec<u32>, before: &mut Vec<u32>, hashes: &Vec<u32>, slot: usize)
    requires slot { slot < vec_len hashes.now }
    requires sized { AreLongEnough heads.old.items before.old.items hashes.now.items }
    requires linked { AreBuckets heads.old.items before.old.items hashes.now.items slot }
    ensures sized { AreLongEnough heads.new.items before.new.items hashes.now.items }
    ensures linked { AreBuckets heads.new.items before.new.items hashes.now.items (slot + 1) }
    ensures buckets { vec_len heads.new ≡ vec_len heads.old }
    ensures room { vec_capacity before.new ≡ vec_capacity before.old }
{
    let bucket = bucket_of(hashes[slot], heads.len());
    before[slot] = heads[bucket];
    heads[bucket] = slot as u32 + 1;
}

/// Links all slots anew, where no head leads anywhere yet.
fn link_all_slots(heads: &mut Vec<u32>, before: &mut Vec<u32>, hashes: &Vec<u32>)
    requires sized { AreLongEnough heads.old.items before.old.items hashes.now.items }
    requires fresh { AreBuckets heads.old.items before.old.items hashes.now.items 0 }
    ensures sized { AreLongEnough heads.new.items before.new.items hashes.now.items }
    ensures linked { AreBuckets heads.new.items before.new.items hashes.now.items (length hashes.now.items) }
    ensures buckets { vec_len heads.new ≡ vec_len heads.old }
    ensures room { vec_capacity before.new ≡ vec_capacity before.old }
{
    for slot in 0..hashes.len() {
        link_slot(heads, before, hashes, slot);
    }
}

/// Twice as many buckets, and at least 16, where these are fewer than 2^32.
fn doubled_bucket_count(buckets: usize) -> Option<usize>
    ensures { IfSome result (λ n. (buckets < n) × (n < 4294967296)) }
{
    if buckets < 8 {
        return Some(16);
    }
    if buckets >= 0x8000_0000 {
        return None;
    }
    Some(2 * buckets)
}

/// Links all slots anew, in twice as many buckets.
fn grow_buckets(
    alloc: Global,
    heads: &mut Vec<u32>,
    before: &mut Vec<u32>,
    hashes: &Vec<u32>,
) -> Result<(), NoMemory>
    requires sized { AreLongEnough heads.old.items before.old.items hashes.now.items }
    requires linked { AreBuckets heads.old.items before.old.items hashes.now.items (length hashes.now.items) }
    ensures sized { AreLongEnough heads.new.items before.new.items hashes.now.items }
    ensures linked { AreBuckets heads.new.items before.new.items hashes.now.items (length hashes.now.items) }
    ensures more { IfOk result (λ _. vec_len heads.old < vec_len heads.new) }
    ensures room { vec_capacity before.new ≡ vec_capacity before.old }
{
    let Some(buckets) = doubled_bucket_count(heads.len()) else {
        return Err(NoMemory);
    };
    let mut more = vec![in alloc; 0u32; buckets]?;
    link_all_slots(&mut more, before, hashes);
    *heads = more;
    Ok(())
}

/// An index of the last proof of each key and side, in a list of proofs that only grows. It holds no proofs and no keys, but
/// a hash of 32 bits for each proof, by which the proofs are in buckets; it looks at the proofs that it is shown. It takes
/// 8 bytes a proof and 4 bytes a bucket; there are at least as many buckets as proofs, and at most twice as many or 16. Most lines
/// have a key that no proof has, and for most of these one look at the filter says so: these take 24 KB more.
#[derive(Drop)]
pub struct KeyIndex {
    alloc: Global,
    heads: Vec<u32>,
    before: Vec<u32>,
    hashes: Vec<u32>,
    filter: BloomFilter,
}

impl Model for KeyIndex {
    ghost use Rattle.std.specs.Prelude.{◌-◌, min, length, vec_len, vec_capacity};
    ghost use Rattle.tt_search.specs.KeyIndex.{IndexState};
    ghost use Rattle.tt_search.specs.inside.Buckets.{AreLongEnough, MayHoldHashes, AreBuckets};

    ghost Value = { IndexState };

    ghost view = { λ t. record {
      hashes = t.hashes.items;
      room = min (vec_capacity t.hashes - vec_len t.hashes) (min (vec_capacity t.before - vec_len t.before) (vec_len t.heads - vec_len t.hashes));
    } };

    ghost invariant = { λ t. record {
      sized : AreLongEnough t.heads.items t.before.items t.hashes.items;
      linked : AreBuckets t.heads.items t.before.items t.hashes.items (length t.hashes.items);
      filter : MayHoldHashes t.filter t.hashes.items;
    } };
}

impl KeyIndex {
    /// An index of no proofs. It takes no memory.
    pub fn new(alloc: Global) -> KeyIndex
        ensures { result.hashes ≡ [] }
    {
        KeyIndex {
            alloc,
            heads: Vec::new(alloc),
            before: Vec::new(alloc),
            hashes: Vec::new(alloc),
            filter: BloomFilter::saturated(alloc),
        }
    }

    /// Makes room for one more proof: fewer than 2^32 in all.
    pub fn reserve(&mut self) -> Result<(), NoMemory>
        ensures hashes { self.new.hashes ≡ self.old.hashes }
        ensures room { IfOk result (λ _. 0 < self.new.room) }
    {
        self.hashes.reserve(1)?;
        self.before.reserve(1)?;
        if self.hashes.is_empty() {
            self.filter = BloomFilter::empty(self.alloc, KEY_FILTER_BITS);
        }
        if self.heads.len() == self.hashes.len() {
            grow_buckets(self.alloc, &mut self.heads, &mut self.before, &self.hashes)?;
        }
        Ok(())
    }

    /// Tells the index of the list's next proof, where there is room.
    pub fn push(&mut self, p: &Proof)
        requires { 0 < self.old.room }
        ensures { self.new.hashes ≡ self.old.hashes ++ key_hashes (p.now ∷ []) }
    {
        let slot = self.hashes.len();
        let hash = p.key_hash();
        self.hashes.push_reserved(hash);
        self.filter.add(filter_bit(hash));
        self.before.push_reserved(0);
        link_slot(&mut self.heads, &mut self.before, &self.hashes, slot);
    }

    /// One more than the last slot with the hash, or 0 where none has it.
    fn last_with_hash_plus_one(&self, hash: u32) -> usize
        ensures { IsLastWithHash self.now.hashes hash result }
    {
        if !self.filter.has(filter_bit(hash)) {
            return 0;
        }
        self.find_in_bucket_plus_one(hash)
    }

    /// One more than the last slot with the hash in the hash's bucket, or 0 where none has it.
    fn find_in_bucket_plus_one(&self, hash: u32) -> usize
        ensures { IsLastWithHash self.now.hashes hash result }
    {
        if self.heads.is_empty() {
            return 0;
        }
        let mut next = self.heads[bucket_of(hash, self.heads.len())] as usize;
        while 0 < next {
            if self.hashes[next - 1] == hash {
                return next;
            }
            next = self.before[next - 1] as usize;
        }
        0
    }

    /// The slot of the list's last proof of the line's key for the side, where the key has the hash and this is one more than the
    /// last slot with it.
    fn newest_slot_with_hash<P: ProofList>(
        &self,
        line: &Line,
        side: Side,
        hash: u32,
        last: usize,
        list: &P,
    ) -> Option<usize>
        requires hash { hash ≡ index_hash (key_of line.now.frame line.now.state) }
        requires indexed { self.now.hashes ≡ key_hashes (P.proofs list.now) }
        requires last { IsLastWithHash self.now.hashes hash last }
        ensures newest { IsNewest line.now side (reverse (P.proofs list.now)) (proof_at (P.proofs list.now) result) }
        ensures within { IfSome result (λ slot. slot < length (P.proofs list.now)) }
        ensures found { IfSome (proof_at (P.proofs list.now) result) (HasKeyAndSide line.now side) }
    {
        let mut next = last;
        while 0 < next {
            let slot = next - 1;
            if self.hashes[slot] == hash && has_key_and_side(list.proof(slot), line, side) {
                return Some(slot);
            }
            next = self.before[slot] as usize;
        }
        None
    }

    /// The slot of the list's last proof of the line's key for the side. The index was given the list's proofs.
    pub fn newest_slot<P: ProofList>(&self, line: &Line, side: Side, list: &P) -> Option<usize>
        requires { self.now.hashes ≡ key_hashes (P.proofs list.now) }
        ensures { IsSlotOfNewest line.now side (P.proofs list.now) result }
    {
        let hash = line.key_hash();
        self.newest_slot_with_hash(line, side, hash, self.last_with_hash_plus_one(hash), list)
    }

    /// What `newest_slot` answers for the attacker and for the defender.
    pub fn newest_slot_per_side<P: ProofList>(
        &self,
        line: &Line,
        list: &P,
    ) -> (Option<usize>, Option<usize>)
        requires { self.now.hashes ≡ key_hashes (P.proofs list.now) }
        ensures attacker { IsSlotOfNewest line.now Attacker (P.proofs list.now) result.0 }
        ensures defender { IsSlotOfNewest line.now Defender (P.proofs list.now) result.1 }
    {
        let hash = line.key_hash();
        let last = self.last_with_hash_plus_one(hash);
        if last == 0 {
            return (None, None);
        }
        (
            self.newest_slot_with_hash(line, Side::Attacker, hash, last, list),
            self.newest_slot_with_hash(line, Side::Defender, hash, last, list),
        )
    }
}
