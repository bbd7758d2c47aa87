//! A table of positions by keys of 64 bits that threads share without a lock.
//!
//! An entry is two words: its key xor the second word, and the second word (R. Hyatt, T. Mann, "A Lockless Transposition Table
//! Implementation for Parallel Search", 2002). Where two threads write one entry at once, the words of two entries may stand there:
//! their key is another, so nothing is known by them.

use crate::finder::board::SearchTurn;
use crate::finder::transpositions::{Entry, INFINITE, NUMBER_BITS, ProofNumbers, UNKNOWN};
use std::alloc::Global;
use std::sync::atomic::{AtomicBool, AtomicU64, Ordering};
use tt_sgf::NoMemory;

/// The words of an entry: the key xor the second word, and the second word.
#[derive(Drop)]
struct Slot {
    tag: AtomicU64,
    data: AtomicU64,
}

/// Two slots to a bucket, for the keys that end alike.
type Bucket = [Slot; 2];

/// The bits of a number: infinity has all.
const NUMBER_MASK: u64 = INFINITE as u64;

/// How many bits a turn has.
const TURN_BITS: u32 = 9;

/// The bits of a turn: those of its cell, or of one of the numbers below, which no cell of a board has.
const TURN_MASK: u64 = (1 << TURN_BITS) - 1;

const PASS_BITS: u16 = 511;

const NO_TURN_BITS: u16 = 510;

/// In an entry's second word the proof number is lowest, then come the disproof number, the best turn and the effort.
const TURN_SHIFT: u32 = 2 * NUMBER_BITS;

const EFFORT_SHIFT: u32 = TURN_SHIFT + TURN_BITS;

/// What an empty slot says, with the key 0.
const NOTHING: Entry = Entry {
    numbers: UNKNOWN,
    effort: 0,
    best: None,
};

/// The bits of a turn, or of none.
#[inline(always)]
fn turn_bits(turn: Option<SearchTurn>) -> u16 {
    match turn {
        Some(SearchTurn::Play(p)) => p,
        Some(SearchTurn::Pass) => PASS_BITS,
        None => NO_TURN_BITS,
    }
}

/// The turn whose bits these are, if there is one.
#[inline(always)]
fn turn_of_bits(bits: u16) -> Option<SearchTurn> {
    match bits {
        PASS_BITS => Some(SearchTurn::Pass),
        NO_TURN_BITS => None,
        p => Some(SearchTurn::Play(p)),
    }
}

/// The second word of an entry.
#[inline(always)]
fn packed(entry: &Entry) -> u64 {
    let proof = u64::from(entry.numbers.proof.min(INFINITE));
    let disproof = u64::from(entry.numbers.disproof.min(INFINITE));
    let best = u64::from(turn_bits(entry.best)) & TURN_MASK;
    proof | disproof << NUMBER_BITS | best << TURN_SHIFT | u64::from(entry.effort) << EFFORT_SHIFT
}

/// The entry whose second word this is.
#[inline(always)]
fn unpacked(data: u64) -> Entry {
    Entry {
        numbers: ProofNumbers {
            proof: (data & NUMBER_MASK) as u32,
            disproof: (data >> NUMBER_BITS & NUMBER_MASK) as u32,
        },
        effort: (data >> EFFORT_SHIFT) as u32,
        best: turn_of_bits((data >> TURN_SHIFT & TURN_MASK) as u16),
    }
}

/// What a slot is worth: the effort, and more where it is settled.
#[inline(always)]
fn replacement_value(key: u64, data: u64) -> u32 {
    if key == 0 {
        return 0;
    }
    let entry = unpacked(data);
    if entry.numbers.is_settled() {
        entry.effort.saturating_add(3)
    } else {
        entry.effort
    }
}

impl Slot {
    /// A slot with nothing in it.
    fn empty() -> Slot {
        let data = packed(&NOTHING);
        Slot {
            tag: AtomicU64::new(data),
            data: AtomicU64::new(data),
        }
    }

    /// The key and the second word.
    #[inline(always)]
    fn words(&self) -> (u64, u64) {
        let tag = self.tag.load(Ordering::Relaxed);
        let data = self.data.load(Ordering::Relaxed);
        (tag ^ data, data)
    }

    #[inline(always)]
    fn put(&self, key: u64, data: u64) {
        self.tag.store(key ^ data, Ordering::Relaxed);
        self.data.store(data, Ordering::Relaxed);
    }
}

/// A table of a fixed number of buckets, two to some power, 32 bytes each.
#[derive(Drop)]
pub(crate) struct SharedTable {
    buckets: Vec<Bucket>,
    /// How many workers search a position now, by some bits of its key.
    workers: Vec<AtomicU64>,
    has_ended: AtomicBool,
}

/// How many bits of a key are the place where its workers are counted: those of a `u16`.
const PLACE_BITS: u32 = u16::BITS;

const PLACES: usize = 1 << PLACE_BITS;

/// So many workers search over one table at most, and so many count at a place, which some positions share. The number was chosen
/// without a measurement of more.
pub const MOST_DFPN_WORKERS: usize = 8;

/// Where the workers at a key's position are counted: by bits that tell no buckets apart.
#[inline(always)]
pub(crate) fn place_of(key: u64) -> u16 {
    (key >> (u64::BITS - PLACE_BITS)) as u16
}

impl SharedTable {
    /// An empty table of so many buckets, a power of two.
    pub(crate) fn new(alloc: Global, count: usize) -> Result<SharedTable, NoMemory> {
        let mut buckets = Vec::with_capacity(alloc, count)?;
        for _ in 0..count {
            buckets.push([Slot::empty(), Slot::empty()])?;
        }
        let mut workers = Vec::with_capacity(alloc, PLACES)?;
        for _ in 0..PLACES {
            workers.push(AtomicU64::new(0))?;
        }
        Ok(SharedTable {
            buckets,
            workers,
            has_ended: AtomicBool::new(false),
        })
    }

    /// How many buckets it has.
    #[inline(always)]
    pub(crate) fn bucket_count(&self) -> usize {
        self.buckets.len()
    }

    /// The bucket of a key.
    #[inline(always)]
    fn bucket(&self, key: u64) -> Option<&Bucket> {
        self.buckets
            .get(key as usize & self.buckets.len().wrapping_sub(1))
    }

    /// Keeps all that another table has.
    pub(crate) fn keep_all_of(&self, other: &SharedTable) {
        for bucket in &other.buckets {
            for k in 0..2 {
                let (key, data) = bucket[k].words();
                if key != 0 {
                    self.keep_word(key, data);
                }
            }
        }
    }

    /// Forgets all.
    pub(crate) fn clear(&self) {
        let data = packed(&NOTHING);
        for bucket in &self.buckets {
            for k in 0..2 {
                bucket[k].put(0, data);
            }
        }
    }

    /// Some bits of both ends of a key's bucket.
    #[inline(always)]
    pub(crate) fn bits_of_bucket(&self, key: u64) -> u64 {
        match self.bucket(key) {
            Some(bucket) => {
                bucket[0].tag.load(Ordering::Relaxed) ^ bucket[1].data.load(Ordering::Relaxed)
            }
            None => 0,
        }
    }

    /// What is known under a key.
    #[inline(always)]
    pub(crate) fn find(&self, key: u64) -> Option<Entry> {
        let bucket = self.bucket(key)?;
        let (first, data) = bucket[0].words();
        if first == key {
            return Some(unpacked(data));
        }
        let (second, data) = bucket[1].words();
        if second == key {
            return Some(unpacked(data));
        }
        None
    }

    /// Keeps an entry: in the slot of what was known under its key, else in the slot that is worth least. Whether that was empty.
    #[inline]
    pub(crate) fn keep(&self, key: u64, entry: &Entry) -> bool {
        self.keep_word(key, packed(entry))
    }

    /// The same, for an entry's second word.
    #[inline(always)]
    fn keep_word(&self, key: u64, data: u64) -> bool {
        let Some(bucket) = self.bucket(key) else {
            return false;
        };
        let (first, first_data) = bucket[0].words();
        let (second, second_data) = bucket[1].words();
        let is_second = first != key
            && (second == key
                || replacement_value(second, second_data) <= replacement_value(first, first_data));
        if is_second {
            bucket[1].put(key, data);
            second == 0
        } else {
            bucket[0].put(key, data);
            first == 0
        }
    }

    /// How many workers search at a place.
    #[inline(always)]
    pub(crate) fn workers_at(&self, place: u16) -> u32 {
        match self.workers.get(usize::from(place)) {
            Some(count) => count.load(Ordering::Relaxed).min(MOST_DFPN_WORKERS as u64) as u32,
            None => 0,
        }
    }

    /// Notes that a worker begins to search at a place, or ends.
    #[inline(always)]
    pub(crate) fn count_worker(&self, place: u16, begins: bool) {
        if let Some(count) = self.workers.get(usize::from(place)) {
            let change = if begins { 1 } else { u64::MAX };
            count.fetch_add(change, Ordering::Relaxed);
        }
    }

    /// Says whether the searches over the table are to end.
    pub(crate) fn set_ended(&self, ended: bool) {
        self.has_ended.store(ended, Ordering::Relaxed);
    }

    /// Whether the searches over the table are to end.
    pub(crate) fn has_ended(&self) -> bool {
        self.has_ended.load(Ordering::Relaxed)
    }
}
