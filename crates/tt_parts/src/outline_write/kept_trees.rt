//! Trees that are written, by their positions. No contract speaks of what is kept.

use crate::position_footprint::PositionFootprint;
use std::alloc::Global;
use tt_game::{Line, board_hash};
use tt_sgf::NoMemory;

/// The kept trees are in chains, one for each number that the upper bits of their boards' hashes may be.
const BUCKET_BITS: u32 = 16;

const BUCKETS: usize = 1 << BUCKET_BITS;

/// No index at all.
const NO_TREE: usize = usize::MAX;

/// What is known of a tree that is written: on what it rests, and how many turns its longest way down has.
#[derive(Drop)]
pub(crate) struct TreeFacts {
    pub(crate) basis: PositionFootprint,
    pub(crate) depth: u16,
}

impl TreeFacts {
    /// The same once more.
    fn try_clone(&self) -> Result<TreeFacts, NoMemory> {
        Ok(TreeFacts {
            basis: self.basis.try_clone()?,
            depth: self.depth,
        })
    }
}

/// A kept tree, the hash of its board, the tree before it in its chain, and whether a part stands for it.
#[derive(Drop)]
struct KeptTree {
    written: TreeFacts,
    hash: u64,
    before: usize,
    is_used: bool,
}

/// Trees in the order in which they end, and the last one of each chain.
#[derive(Drop)]
pub(crate) struct KeptTrees {
    trees: Vec<KeptTree>,
    last: Vec<usize>,
}

/// The chain of a hash.
fn hash_bucket(hash: u64) -> usize {
    (hash >> (u64::BITS - BUCKET_BITS)) as usize
}

impl KeptTrees {
    /// None yet.
    pub(crate) fn new(alloc: Global) -> Result<KeptTrees, NoMemory> {
        Ok(KeptTrees {
            trees: Vec::new(alloc),
            last: vec![in alloc; NO_TREE; BUCKETS]?,
        })
    }

    /// The last tree of the hash's chain.
    fn newest_index_in_bucket(&self, hash: u64) -> usize {
        match self.last.get(hash_bucket(hash)) {
            Some(last) => *last,
            None => NO_TREE,
        }
    }

    /// The youngest tree that wins at the line and is at most so deep.
    pub(crate) fn find_winning_index(&self, line: &Line, most_depth: u16) -> Option<usize> {
        let hash = board_hash(line.present());
        let mut next = self.newest_index_in_bucket(hash);
        for _ in 0..self.trees.len() {
            let tree = self.trees.get(next)?;
            if tree.hash == hash
                && tree.written.depth <= most_depth
                && tree.written.basis.fits_line(line)
            {
                return Some(next);
            }
            next = tree.before;
        }
        None
    }

    /// Keeps a tree that is written at the line, and answers its index.
    pub(crate) fn keep(&mut self, line: &Line, written: &TreeFacts) -> Result<usize, NoMemory> {
        let hash = board_hash(line.present());
        let index = self.trees.len();
        let kept = KeptTree {
            written: written.try_clone()?,
            hash,
            before: self.newest_index_in_bucket(hash),
            is_used: false,
        };
        self.trees.push(kept)?;
        if let Some(last) = self.last.get_mut(hash_bucket(hash)) {
            *last = index;
        }
        Ok(index)
    }

    /// What is known of the tree at the index, for which a part stands from now on.
    pub(crate) fn use_part(&mut self, index: usize) -> Result<Option<TreeFacts>, NoMemory> {
        let Some(tree) = self.trees.get_mut(index) else {
            return Ok(None);
        };
        tree.is_used = true;
        Ok(Some(tree.written.try_clone()?))
    }

    /// Whether a part stands for the tree at the index.
    pub(crate) fn is_used(&self, index: usize) -> bool {
        match self.trees.get(index) {
            Some(tree) => tree.is_used,
            None => false,
        }
    }

    /// The name of each tree: how many before it have parts that stand for them.
    pub(crate) fn part_names(&self, alloc: Global) -> Result<Vec<usize>, NoMemory> {
        let mut names = Vec::with_capacity(alloc, self.trees.len())?;
        let mut count = 0usize;
        for tree in &self.trees {
            names.push(count)?;
            if tree.is_used {
                count = count.saturating_add(1);
            }
        }
        Ok(names)
    }
}
