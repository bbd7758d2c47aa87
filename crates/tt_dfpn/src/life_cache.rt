//! What is known of the targets' unconditional life, by the key of all that it depends on: the defender's stones, and the attacker's
//! outside the region. Within it the attacker's stones count as empty points do.

use std::alloc::Global;
use tt_sgf::NoMemory;

/// How many of a key's upper bits are its index. So many are kept at most: 128 KB of them, which stay in the cache. Four times as many
/// took as long.
const INDEX_BITS: u32 = 14;

const MOST_KNOWN: usize = 1 << INDEX_BITS;

// The last two bits of a word: whether something is known, and whether the targets live.
const IS_KNOWN: u64 = 2;

const IS_ALIVE: u64 = 1;

const LAST_BITS: u64 = IS_KNOWN | IS_ALIVE;

/// A word stands at its key's index, and is the key but for the last two bits. It's the last that was kept there. A key is a hash: nobody
/// has to believe what is found.
#[derive(Drop)]
pub(crate) struct LifeCache {
    words: Vec<u64>,
}

/// The index of a key's word.
#[inline(always)]
fn index_of(key: u64) -> usize {
    (key >> (u64::BITS - INDEX_BITS)) as usize
}

impl LifeCache {
    /// Nothing is known yet.
    pub(crate) fn none(alloc: Global) -> Result<LifeCache, NoMemory> {
        Ok(LifeCache {
            words: vec![in alloc; 0u64; MOST_KNOWN]?,
        })
    }

    /// Whether the targets live, where that is known.
    #[inline(always)]
    pub(crate) fn find(&self, key: u64) -> Option<bool> {
        let word = *self.words.get(index_of(key))?;
        if (word ^ key) | LAST_BITS == LAST_BITS && word & IS_KNOWN != 0 {
            Some(word & IS_ALIVE != 0)
        } else {
            None
        }
    }

    /// Keeps whether the targets live.
    #[inline(always)]
    pub(crate) fn keep(&mut self, key: u64, lives: bool) {
        if let Some(word) = self.words.get_mut(index_of(key)) {
            *word = key & !LAST_BITS | IS_KNOWN | u64::from(lives);
        }
    }
}
