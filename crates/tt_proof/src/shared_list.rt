//! Lists of boards that many sets may hold. An empty one takes no memory.

ghost use Rattle.std.specs.Prelude.{◌≡◌, ◌↔◌, ◌⊎◌, [], length, Contains, IfOk, IsTrue};
ghost use Rattle.tt_board.specs.Position.{Position};
ghost use Rattle.tt_game.specs.Line.{HasBoardInHistory};
ghost use Rattle.tt_proof.specs.inside.RisingHashes.{hash_of_board};
ghost use Rattle.tt_proof.specs.inside.SharedLists.{boards_behind};

use crate::board_set::BoardSet;
use std::alloc::Global;
use std::marker::Model;
use std::sync::Arc;
use tt_board::Board;
use tt_game::Line;
use tt_sgf::NoMemory;

/// What a longer list holds is taken out of others before they are joined to it; with a shorter one the join alone takes less.
const MOST_JOINED: usize = 256;

/// A list of boards behind a handle, or none at all. Contracts see the boards.
#[derive(Drop)]
pub(crate) struct SharedList {
    boards: Option<Arc<BoardSet>>,
}

impl Model for SharedList {
    ghost use Rattle.std.specs.Prelude.{List};
    ghost use Rattle.tt_board.specs.Position.{Position};
    ghost use Rattle.tt_proof.specs.inside.SharedLists.{boards_behind};

    ghost Value = { List Position };

    ghost view = { λ l. boards_behind l.boards };
}

impl SharedList {
    /// None at all.
    pub(crate) fn none() -> SharedList
        ensures { result ≡ [] }
    {
        SharedList { boards: None }
    }

    /// The boards of the set.
    pub(crate) fn of(alloc: Global, set: BoardSet) -> Result<SharedList, NoMemory>
        ensures { IfOk result (λ l. l ≡ set) }
    {
        Ok(SharedList {
            boards: Some(Arc::new(alloc, set)?),
        })
    }

    /// The same list, by another handle.
    pub(crate) fn try_clone(&self) -> Result<SharedList, NoMemory>
        ensures { IfOk result (λ l. l ≡ self.now) }
    {
        let boards = match &self.boards {
            Some(set) => Some(Arc::try_clone(set)?),
            None => None,
        };
        Ok(SharedList { boards })
    }

    /// The boards, to be changed: a copy, where another handle holds them.
    pub(crate) fn into_set(self, alloc: Global) -> Result<BoardSet, NoMemory>
        ensures { IfOk result (λ s. s ≡ self) }
    {
        match self.boards {
            Some(set) => match Arc::try_unwrap(set) {
                Ok(set) => Ok(set),
                Err(set) => set.try_clone(alloc),
            },
            None => Ok(BoardSet::new(alloc)),
        }
    }

    /// How many boards are held.
    pub(crate) fn len(&self) -> usize
        ensures { result ≡ length self.now }
    {
        match &self.boards {
            Some(set) => set.len(),
            None => 0,
        }
    }

    /// Whether the board, of which the hash is given, is held.
    pub(crate) fn has_with_hash(&self, hash: u64, board: &Board) -> bool
        requires { hash ≡ hash_of_board board.now }
        ensures { IsTrue result ↔ Contains self.now board.now }
    {
        match &self.boards {
            Some(set) => set.has_with_hash(hash, board),
            None => false,
        }
    }

    /// Whether the other list is the same boards in the same order.
    fn has_same_as(&self, other: &SharedList) -> bool
        ensures { IsTrue result → (b : Position) → Contains other.now b → Contains self.now b }
    {
        match &other.boards {
            Some(theirs) => match &self.boards {
                Some(mine) => mine.has_same_as(theirs),
                None => false,
            },
            None => true,
        }
    }

    /// Takes out of the set what is held here, if that is many boards.
    fn remove_from(&self, set: &mut BoardSet)
        ensures rest { (b : Position) → Contains set.new b → Contains set.old b }
        ensures others { (b : Position)
            → Contains set.old b → Contains set.new b ⊎ Contains self.now b }
    {
        if let Some(mine) = &self.boards {
            if mine.len() > MOST_JOINED {
                set.remove_all_of(mine);
            }
        }
    }

    /// Of the boards at least those that the other list doesn't hold.
    pub(crate) fn outside(self, alloc: Global, other: &SharedList) -> Result<BoardSet, NoMemory>
        ensures { IfOk result (λ r. (b : Position)
            → (Contains r b ⊎ Contains other.now b) ↔ (Contains self b ⊎ Contains other.now b)) }
    {
        if other.has_same_as(&self) {
            return Ok(BoardSet::new(alloc));
        }
        let mut set = self.into_set(alloc)?;
        other.remove_from(&mut set);
        Ok(set)
    }

    /// Whether all are boards of the line's history.
    pub(crate) fn all_in_history(&self, line: &Line) -> bool
        ensures { IsTrue result
            ↔ ((b : Position)
            → Contains self.now b → HasBoardInHistory line.now.frame line.now.state b) }
    {
        match &self.boards {
            Some(set) => set.all_in_history(line),
            None => true,
        }
    }

    /// Whether none is a board of the line's history.
    pub(crate) fn none_in_history(&self, line: &Line) -> bool
        ensures { IsTrue result
            ↔ ((b : Position)
            → Contains self.now b → HasBoardInHistory line.now.frame line.now.state b → ⊥) }
    {
        match &self.boards {
            Some(set) => set.none_in_history(line),
            None => true,
        }
    }
}
