//! Proofs that several certifiers share without a lock: what one of them made, the others find. Nothing is promised of what is found
//! here: a proof is a proof, and is taken where it is seen to fit.

ghost use Rattle.std.specs.Prelude.{◌≡◌, IfOk, IfSome};
ghost use Rattle.tt_game.specs.Game.{IsLegal};
ghost use Rattle.tt_dfpn.specs.ProofWithin.{IsProofWithin};

use once_cell::race::OnceBox;
use std::alloc::Global;
use std::sync::atomic::{AtomicBool, AtomicU64, Ordering};
use tt_game::{Line, Side, Turn};
use tt_proof::LifeProof;
use tt_sgf::NoMemory;

/// How many slots there are, and how many of them a key has: those from the one on that its hash names.
const SLOTS: usize = 262_144;

const SLOTS_PER_KEY: usize = 4;

/// How many bytes kept proofs may take, as they are counted. Past it no more are kept here. With a million positions on two dense boards of
/// 19x19 the whole process then took 0.5 to 0.6 GB: what is being made and holes in memory come on top.
pub(crate) const MOST_KEPT_BYTES: usize = 320_000_000;

// For how much a kept proof counts: for the handles of its footprint's boards, for the edits of two bytes that keep its line's boards,
// and for all else. A board takes an edit for the stone that is played, one for each that is taken, and one that ends it: three at most in
// the mean, as a stone is taken once. On those two boards they took 2,100 bytes a proof, and all else some 600.
const BYTES_PER_BOARD: usize = 16;

const BYTES_PER_LINE_BOARD: usize = 6;

const BYTES_PER_PROOF: usize = 640;

/// How many keys there is room for at which a certifier is.
const MOST_BEGUN: usize = 4096;

/// Proofs that several certifiers share. A slot is written once.
#[derive(Drop)]
pub(crate) struct SharedProofs {
    slots: Vec<OnceBox<LifeProof>>,
    begun: Vec<AtomicU64>,
    given_boards: usize,
    bytes: AtomicU64,
    has_ended: AtomicBool,
}

/// For how many bytes a proof counts that is kept at the line, of whose boards so many were given: proofs share those. Its tree's parts are
/// those of other kept proofs.
pub(crate) fn counted_bytes(line: &Line, given_boards: usize, proof: &LifeProof) -> usize {
    let footprint = proof.footprint_len().saturating_mul(BYTES_PER_BOARD);
    let later = line.history().len().saturating_sub(given_boards);
    footprint
        .saturating_add(later.saturating_mul(BYTES_PER_LINE_BOARD))
        .saturating_add(BYTES_PER_PROOF)
}

/// The index of a hash's first slot.
fn first_slot(hash: u32) -> usize {
    (hash as usize).wrapping_mul(SLOTS_PER_KEY) % SLOTS
}

/// The place of a hash among the keys at which a certifier is.
fn begun_index(hash: u32) -> usize {
    (hash >> 4) as usize % MOST_BEGUN
}

impl SharedProofs {
    /// No proofs, at lines of whose boards so many were given.
    pub(crate) fn new(alloc: Global, given_boards: usize) -> Result<SharedProofs, NoMemory> {
        let mut slots = Vec::with_capacity(alloc, SLOTS)?;
        for _ in 0..SLOTS {
            slots.push(OnceBox::new(alloc))?;
        }
        let mut begun = Vec::with_capacity(alloc, MOST_BEGUN)?;
        for _ in 0..MOST_BEGUN {
            begun.push(AtomicU64::new(0))?;
        }
        Ok(SharedProofs {
            slots,
            begun,
            given_boards,
            bytes: AtomicU64::new(0),
            has_ended: AtomicBool::new(false),
        })
    }

    /// The proof in a slot.
    #[inline(always)]
    fn proof_at(&self, index: usize) -> Option<&LifeProof> {
        self.slots.get(index)?.get()
    }

    /// A proof for the side at the line, no deeper than the room: the last one of the line's key whose footprint is known to be that there.
    #[inline(never)]
    pub(crate) fn known_proof(
        &self,
        alloc: Global,
        line: &Line,
        side: Side,
        room: u16,
    ) -> Result<Option<LifeProof>, NoMemory>
        ensures { IfOk result
            (λ o. IfSome o (IsProofWithin side room line.now.frame line.now.state)) }
    {
        let hash = line.key_hash();
        let first = first_slot(hash);
        for k in (0..SLOTS_PER_KEY).rev() {
            let Some(proof) = self.proof_at(first.wrapping_add(k)) else {
                continue;
            };
            if proof.key_hash() == hash
                && proof.side() == side
                && proof.depth() <= room
                && proof.has_key_of(line)
            {
                let moved = proof.moved_if_known(alloc, line)?;
                if moved.is_some() {
                    return Ok(moved);
                }
            }
        }
        Ok(None)
    }

    /// Keeps the proof at the line for all, or hands it back where there is no room for it.
    pub(crate) fn keep(&self, alloc: Global, line: &Line, proof: LifeProof) -> Option<LifeProof> {
        if self.bytes.load(Ordering::Relaxed) > MOST_KEPT_BYTES as u64 {
            return Some(proof);
        }
        let bytes = counted_bytes(line, self.given_boards, &proof) as u64;
        let first = first_slot(proof.key_hash());
        let Ok(mut proof) = Box::new(alloc, proof) else {
            return None;
        };
        for k in 0..SLOTS_PER_KEY {
            let Some(slot) = self.slots.get(first.wrapping_add(k)) else {
                break;
            };
            match slot.set(proof) {
                Ok(()) => {
                    self.bytes.fetch_add(bytes, Ordering::Relaxed);
                    return None;
                }
                Err(back) => proof = back,
            }
        }
        Some(Box::into_inner(proof))
    }

    /// Notes that a certifier is at the line, where the key's place is free: so those that are there longest stay.
    pub(crate) fn begin(&self, line: &Line) {
        let hash = line.key_hash();
        if let Some(place) = self.begun.get(begun_index(hash)) {
            if place.load(Ordering::Relaxed) == 0 {
                place.store(u64::from(hash) + 1, Ordering::Relaxed);
            }
        }
    }

    /// Takes the mark of the line's key away, whichever certifier made it. Where memory was refused on the way, the mark stays.
    pub(crate) fn end(&self, line: &Line) {
        let hash = line.key_hash();
        if let Some(place) = self.begun.get(begun_index(hash)) {
            if place.load(Ordering::Relaxed) == u64::from(hash) + 1 {
                place.store(0, Ordering::Relaxed);
            }
        }
    }

    /// Whether a certifier is known to be at the line behind a legal turn. The line stands as before.
    #[inline(never)]
    pub(crate) fn is_begun_behind(&self, line: &mut Line, turn: &Turn) -> Result<bool, NoMemory>
        requires { IsLegal line.old.frame line.old.state turn.now }
        ensures { line.new ≡ line.old }
    {
        line.push_legal(*turn)?;
        let is_begun = self.is_begun(line);
        line.pop();
        Ok(is_begun)
    }

    /// Whether a certifier is known to be at the line.
    fn is_begun(&self, line: &Line) -> bool {
        let hash = line.key_hash();
        match self.begun.get(begun_index(hash)) {
            Some(place) => place.load(Ordering::Relaxed) == u64::from(hash) + 1,
            None => false,
        }
    }

    /// Says whether the certifiers are to end.
    pub(crate) fn set_ended(&self, ended: bool) {
        self.has_ended.store(ended, Ordering::Relaxed);
    }

    /// Whether the certifiers are to end.
    pub(crate) fn has_ended(&self) -> bool {
        self.has_ended.load(Ordering::Relaxed)
    }
}
