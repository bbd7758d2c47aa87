//! The transposition table: what is known of positions, by a key of 64 bits.

use crate::finder::board::SearchTurn;
use crate::finder::shared_table::SharedTable;
use std::alloc::Global;
use std::sync::Arc;
use tt_sgf::NoMemory;

/// How many buckets the table of positions has at first, and at most.
pub(crate) const INITIAL_BUCKETS: usize = 4096;

pub(crate) const MOST_BUCKETS: usize = 16_777_216;

/// How many buckets the table of single lines has at first, and at most.
pub(crate) const INITIAL_PATH_BUCKETS: usize = 256;

pub(crate) const MOST_PATH_BUCKETS: usize = 262_144;

/// How many bits a number has.
pub(crate) const NUMBER_BITS: u32 = 25;

/// Stands for infinity: the greatest number.
pub(crate) const INFINITE: u32 = (1 << NUMBER_BITS) - 1;

/// Proof and disproof number of a position, from the side that moves there: 0 and infinity where it wins.
#[derive(Clone, Copy, PartialEq, Eq)]
pub(crate) struct ProofNumbers {
    pub(crate) proof: u32,
    pub(crate) disproof: u32,
}

/// Those of a position that the side to move wins.
pub(crate) const WON: ProofNumbers = ProofNumbers {
    proof: 0,
    disproof: INFINITE,
};

/// Those of a position that the side to move loses.
pub(crate) const LOST: ProofNumbers = ProofNumbers {
    proof: INFINITE,
    disproof: 0,
};

/// Those of a position of which nothing is known.
pub(crate) const UNKNOWN: ProofNumbers = ProofNumbers {
    proof: 1,
    disproof: 1,
};

impl ProofNumbers {
    /// Whether a side wins.
    #[inline(always)]
    pub(crate) fn is_settled(&self) -> bool {
        self.proof == 0 || self.disproof == 0
    }
}

/// What is known of a position: its numbers, how many bits the number of positions has that were visited for them, and the best turn.
#[derive(Clone, Copy)]
pub(crate) struct Entry {
    pub(crate) numbers: ProofNumbers,
    pub(crate) effort: u32,
    pub(crate) best: Option<SearchTurn>,
}

impl Entry {
    /// What is known behind so many visits.
    #[inline(always)]
    pub(crate) fn new(numbers: ProofNumbers, best: Option<SearchTurn>, visits: u32) -> Entry {
        Entry {
            numbers,
            effort: u32::BITS - visits.leading_zeros(),
            best,
        }
    }
}

/// A hold on a table, which grows while nobody else holds it.
#[derive(Drop)]
pub(crate) struct TranspositionTable {
    table: Arc<SharedTable>,
    taken: usize,
    most_buckets: usize,
}

impl TranspositionTable {
    /// An empty table of so many buckets, a power of two, which grows up to `most_buckets`.
    pub(crate) fn new(
        alloc: Global,
        buckets: usize,
        most_buckets: usize,
    ) -> Result<TranspositionTable, NoMemory> {
        Ok(TranspositionTable {
            table: Arc::new(alloc, SharedTable::new(alloc, buckets)?)?,
            taken: 0,
            most_buckets,
        })
    }

    /// A hold on a table that others hold too.
    pub(crate) fn beside(table: &Arc<SharedTable>) -> Result<TranspositionTable, NoMemory> {
        Ok(TranspositionTable {
            table: Arc::try_clone(table)?,
            taken: 0,
            most_buckets: 0,
        })
    }

    /// What is held.
    pub(crate) fn shared(&self) -> &Arc<SharedTable> {
        &self.table
    }

    /// Makes the table twice as large, where a quarter of its slots is taken and it may grow. Without memory for that it stays
    /// as it is.
    pub(crate) fn grow_if_needed(&mut self, alloc: Global) {
        let buckets = self.table.bucket_count();
        if self.taken > buckets / 2 {
            self.grow(alloc, buckets.saturating_mul(2));
        }
    }

    /// Makes room for what so many visits find, as far as the table may grow.
    pub(crate) fn grow_for(&mut self, alloc: Global, visits: u32) {
        let mut buckets = self.table.bucket_count();
        for _ in 0..u32::BITS {
            if buckets >= visits as usize || buckets > self.most_buckets / 2 {
                break;
            }
            buckets = buckets.saturating_mul(2);
        }
        if buckets > self.table.bucket_count() {
            self.grow(alloc, buckets);
        }
    }

    /// Makes the table so large, a power of two, where it may be that. Without memory for that it stays as it is.
    fn grow(&mut self, alloc: Global, buckets: usize) {
        if buckets > self.most_buckets {
            return;
        }
        match larger_table(alloc, &self.table, buckets) {
            Ok(table) => self.table = table,
            Err(NoMemory) => self.most_buckets = 0,
        }
    }

    /// Forgets all.
    pub(crate) fn clear(&mut self) {
        self.table.clear();
        self.taken = 0;
    }

    /// Some bits of both ends of a key's bucket.
    #[inline(always)]
    pub(crate) fn bits_of_bucket(&self, key: u64) -> u64 {
        self.table.bits_of_bucket(key)
    }

    /// What is known under a key.
    #[inline(always)]
    pub(crate) fn find(&self, key: u64) -> Option<Entry> {
        self.table.find(key)
    }

    /// Keeps what is known under a key.
    #[inline]
    pub(crate) fn keep(&mut self, key: u64, entry: &Entry) {
        if self.table.keep(key, entry) {
            self.taken = self.taken.saturating_add(1);
        }
    }
}

/// A table of so many buckets with all that another has.
fn larger_table(
    alloc: Global,
    table: &SharedTable,
    buckets: usize,
) -> Result<Arc<SharedTable>, NoMemory> {
    let larger = SharedTable::new(alloc, buckets)?;
    larger.keep_all_of(table);
    Ok(Arc::new(alloc, larger)?)
}
