//! Sets of boards that share what is the same in them. A set is three lists: a long base and a shorter middle that many sets may hold,
//! and a few boards that were added. So one board more costs a copy of these few.

ghost use Rattle.std.specs.Prelude.{◌≡◌, ◌≢◌, ◌↔◌, ◌⊎◌, Contains, IfOk, IsTrue};
ghost use Rattle.tt_board.specs.Position.{Position};
ghost use Rattle.tt_game.specs.Line.{HasBoardInHistory};

use crate::board_set::BoardSet;
use crate::shared_list::SharedList;
use std::alloc::Global;
use std::marker::Model;
use tt_board::Board;
use tt_game::{Line, board_hash};
use tt_sgf::NoMemory;

// Of the certificates of 1 MB that are known the one that takes most memory took 75 MB with 16 and 32 added boards, 125 MB with 64; and 85,
// 98, 75, 109 and 162 MB with 1, 2, 4, 8 and 16 as the part of the base.

/// A list of added boards that is longer goes into the middle.
const MOST_ADDED: usize = 32;

/// A middle that is longer than this part of the base goes into the base.
const MIDDLE_OF_BASE: usize = 4;

/// A set of boards: those of a base, of a middle and those added. Contracts see the boards.
#[derive(Drop)]
pub struct SharedBoardSet {
    added: BoardSet,
    middle: SharedList,
    base: SharedList,
}

impl Model for SharedBoardSet {
    ghost use Rattle.std.specs.Prelude.{List, ◌++◌};
    ghost use Rattle.tt_board.specs.Position.{Position};

    ghost Value = { List Position };

    ghost view = { λ s. s.added ++ (s.middle ++ s.base) };
}

/// The boards of a middle and a base.
fn set_of_middle(
    alloc: Global,
    middle: BoardSet,
    base: SharedList,
) -> Result<SharedBoardSet, NoMemory>
    ensures { IfOk result (λ s. (b : Position)
        → Contains s b ↔ (Contains middle b ⊎ Contains base b)) }
{
    if middle.len() > base.len() / MIDDLE_OF_BASE {
        let mut set = base.into_set(alloc)?;
        set.join(middle)?;
        return SharedBoardSet::of(alloc, set);
    }
    Ok(SharedBoardSet {
        added: BoardSet::new(alloc),
        middle: SharedList::of(alloc, middle)?,
        base,
    })
}

impl SharedBoardSet {
    /// The boards of the set: few as those added, more as a base.
    pub fn of(alloc: Global, set: BoardSet) -> Result<SharedBoardSet, NoMemory>
        ensures { IfOk result (λ s. s ≡ set) }
    {
        if set.len() <= MOST_ADDED {
            return Ok(SharedBoardSet {
                added: set,
                middle: SharedList::none(),
                base: SharedList::none(),
            });
        }
        Ok(SharedBoardSet {
            added: BoardSet::new(alloc),
            middle: SharedList::none(),
            base: SharedList::of(alloc, set)?,
        })
    }

    /// The same set, by other handles.
    pub fn try_clone(&self) -> Result<SharedBoardSet, NoMemory>
        ensures { IfOk result (λ s. s ≡ self.now) }
    {
        let alloc = self.added.allocator();
        Ok(SharedBoardSet {
            added: self.added.try_clone(alloc)?,
            middle: self.middle.try_clone()?,
            base: self.base.try_clone()?,
        })
    }

    /// All boards in one set.
    fn into_set(self, alloc: Global) -> Result<BoardSet, NoMemory>
        ensures { IfOk result (λ s. (b : Position) → Contains s b ↔ Contains self b) }
    {
        let SharedBoardSet {
            added,
            middle,
            base,
        } = self;
        let mut set = base.into_set(alloc)?;
        set.join(middle.into_set(alloc)?)?;
        set.join(added)?;
        Ok(set)
    }

    /// The same set, where few boards are added.
    fn settled(self, alloc: Global) -> Result<SharedBoardSet, NoMemory>
        ensures { IfOk result (λ s. (b : Position) → Contains s b ↔ Contains self b) }
    {
        if self.added.len() <= MOST_ADDED {
            return Ok(self);
        }
        let SharedBoardSet {
            added,
            middle,
            base,
        } = self;
        let mut middle = middle.into_set(alloc)?;
        middle.join(added)?;
        set_of_middle(alloc, middle, base)
    }

    /// The set without the board.
    pub fn without(self, alloc: Global, board: &Board) -> Result<SharedBoardSet, NoMemory>
        ensures { IfOk result (λ s. (b : Position)
            → Contains s b ↔ (Contains self b × (b ≢ board.now))) }
    {
        let hash = board_hash(board);
        if self.base.has_with_hash(hash, board) || self.middle.has_with_hash(hash, board) {
            let mut set = self.into_set(alloc)?;
            set.remove_with_hash(hash, board);
            return SharedBoardSet::of(alloc, set);
        }
        let SharedBoardSet {
            mut added,
            middle,
            base,
        } = self;
        added.remove_with_hash(hash, board);
        Ok(SharedBoardSet {
            added,
            middle,
            base,
        })
    }

    /// The set with the board.
    pub fn with(self, alloc: Global, board: &Board) -> Result<SharedBoardSet, NoMemory>
        ensures { IfOk result (λ s. (b : Position)
            → Contains s b ↔ (Contains self b ⊎ (b ≡ board.now))) }
    {
        let hash = board_hash(board);
        if self.base.has_with_hash(hash, board) || self.middle.has_with_hash(hash, board) {
            return Ok(self);
        }
        let SharedBoardSet {
            mut added,
            middle,
            base,
        } = self;
        added.add_with_hash(alloc, hash, board)?;
        SharedBoardSet {
            added,
            middle,
            base,
        }
        .settled(alloc)
    }

    /// Whether no board is held.
    fn is_empty(&self) -> bool
        ensures { IsTrue result → (b : Position) → Contains self.now b → ⊥ }
    {
        self.added.len() == 0 && self.middle.len() == 0 && self.base.len() == 0
    }

    /// The set with all boards of one whose base is no longer.
    fn with_all_of(self, alloc: Global, fewer: SharedBoardSet) -> Result<SharedBoardSet, NoMemory>
        ensures { IfOk result (λ s. (b : Position)
            → Contains s b ↔ (Contains self b ⊎ Contains fewer b)) }
    {
        if fewer.is_empty() {
            return Ok(self);
        }
        let SharedBoardSet {
            mut added,
            middle,
            base,
        } = self;
        let SharedBoardSet {
            added: more,
            middle: other_middle,
            base: other_base,
        } = fewer;
        added.join(more)?;
        added.join(other_middle.outside(alloc, &middle)?)?;
        added.join(other_base.outside(alloc, &base)?)?;
        SharedBoardSet {
            added,
            middle,
            base,
        }
        .settled(alloc)
    }

    /// Both sets in one. The longer base stays.
    pub fn joined(self, alloc: Global, others: SharedBoardSet) -> Result<SharedBoardSet, NoMemory>
        ensures { IfOk result (λ s. (b : Position)
            → Contains s b ↔ (Contains self b ⊎ Contains others b)) }
    {
        if self.base.len() < others.base.len() {
            return others.with_all_of(alloc, self);
        }
        self.with_all_of(alloc, others)
    }

    /// Whether all are boards of the line's history.
    pub fn all_in_history(&self, line: &Line) -> bool
        ensures { IsTrue result
            ↔ ((b : Position)
            → Contains self.now b → HasBoardInHistory line.now.frame line.now.state b) }
    {
        self.added.all_in_history(line)
            && self.middle.all_in_history(line)
            && self.base.all_in_history(line)
    }

    /// Whether none is a board of the line's history.
    pub fn none_in_history(&self, line: &Line) -> bool
        ensures { IsTrue result
            ↔ ((b : Position)
            → Contains self.now b → HasBoardInHistory line.now.frame line.now.state b → ⊥) }
    {
        self.added.none_in_history(line)
            && self.middle.none_in_history(line)
            && self.base.none_in_history(line)
    }
}
