//! Sets of boards that share them: a board is made once, and each set holds a handle of it. They are lists in the order of the
//! boards' hashes, so that a board is found by halving, and two are joined by one walk over both. Boards with one hash stand in any
//! order.

ghost use Rattle.std.specs.Prelude.{◌≡◌, ◌≢◌, ◌↔◌, ◌⊎◌, [], length, Contains, IfOk, OnOk, IsTrue};
ghost use Rattle.tt_board.specs.Position.{Position};
ghost use Rattle.tt_game.specs.Line.{HasBoardInHistory};
ghost use Rattle.tt_game.specs.Mixing.{board_hash};
ghost use Rattle.tt_proof.specs.inside.RisingHashes.{IsPlaceOfHash, hash_of_board};

use std::alloc::Global;
use std::marker::Model;
use std::mem;
use std::sync::Arc;
use tt_board::Board;
use tt_game::{Line, board_hash};
use tt_sgf::NoMemory;

/// A board that is held by a handle, and its hash. Contracts see the board.
#[derive(Drop)]
pub(crate) struct SharedBoard {
    hash: u64,
    board: Arc<Board>,
}

impl Model for SharedBoard {
    ghost use Rattle.std.specs.Prelude.{◌≡◌};
    ghost use Rattle.std.specs.Arc.{arc_value};
    ghost use Rattle.tt_board.specs.Position.{Position};
    ghost use Rattle.tt_game.specs.Mixing.{board_hash};

    ghost Value = { Position };

    ghost view = { λ b. arc_value b.board };

    ghost invariant = { λ b. b.hash ≡ board_hash (arc_value b.board).size (arc_value b.board).points };
}

impl SharedBoard {
    /// A copy of the board, of which the hash is given. It is made once.
    fn of(alloc: Global, hash: u64, board: &Board) -> Result<SharedBoard, NoMemory>
        requires { hash ≡ hash_of_board board.now }
        ensures { IfOk result (λ b. b ≡ board.now) }
    {
        Ok(SharedBoard {
            hash,
            board: Arc::new(alloc, board.copy())?,
        })
    }

    /// The same board, by another handle.
    fn try_clone(&self) -> Result<SharedBoard, NoMemory>
        ensures { IfOk result (λ b. b ≡ self.now) }
    {
        Ok(SharedBoard {
            hash: self.hash,
            board: Arc::try_clone(&self.board)?,
        })
    }

    /// The board's hash.
    fn hash(&self) -> u64
        ensures { result ≡ hash_of_board self.now }
    {
        self.hash
    }

    /// The board.
    fn board(&self) -> &Board
        ensures { result.now ≡ self.now }
    {
        &self.board
    }

    /// Whether it is this board, of which the hash is given. Boards are compared where their hashes are the same.
    fn is(&self, hash: u64, board: &Board) -> bool
        requires { hash ≡ board_hash board.now.size board.now.points }
        ensures { IsTrue result ↔ (self.now ≡ board.now) }
    {
        if self.hash != hash {
            return false;
        }
        self.board.same(board)
    }
}

/// A list of boards in the order of their hashes, each held by a handle. Contracts see the boards.
#[derive(Drop)]
pub struct BoardSet {
    boards: Vec<SharedBoard>,
}

impl Model for BoardSet {
    ghost use Rattle.std.specs.Prelude.{List};
    ghost use Rattle.tt_board.specs.Position.{Position};
    ghost use Rattle.tt_proof.specs.inside.RisingHashes.{DoHashesRise};

    ghost Value = { List Position };

    ghost view = { λ b. b.boards.items };

    ghost invariant = { λ b. DoHashesRise b.boards.items };
}

impl BoardSet {
    /// None at all. It takes no memory.
    pub fn new(alloc: Global) -> BoardSet
        ensures { result ≡ [] }
    {
        BoardSet {
            boards: Vec::new(alloc),
        }
    }

    /// Where memory for its list comes from.
    pub(crate) fn allocator(&self) -> Global {
        *self.boards.allocator()
    }

    /// The index of the first board whose hash isn't less.
    fn insertion_index(&self, hash: u64) -> usize
        ensures { IsPlaceOfHash self.now hash result }
    {
        self.boards.partition_point(|held| held.hash() < hash)
    }

    /// Whether the board, of which the hash is given, is held: by halving.
    pub(crate) fn has_with_hash(&self, hash: u64, board: &Board) -> bool
        requires { hash ≡ hash_of_board board.now }
        ensures { IsTrue result ↔ Contains self.now board.now }
    {
        let from = self.insertion_index(hash);
        for k in from..self.boards.len() {
            let held = &self.boards[k];
            if held.hash() != hash {
                return false;
            }
            if held.is(hash, board) {
                return true;
            }
        }
        false
    }

    /// Whether the board is held.
    pub fn has(&self, board: &Board) -> bool
        ensures { IsTrue result ↔ Contains self.now board.now }
    {
        self.has_with_hash(board_hash(board), board)
    }

    /// Whether the board behind the handle is held.
    fn has_shared(&self, board: &SharedBoard) -> bool
        ensures { IsTrue result ↔ Contains self.now board.now }
    {
        self.has_with_hash(board.hash(), board.board())
    }

    /// Makes room for one board more. Where the list is full it gets room for a quarter more.
    fn make_room(&mut self) -> Result<(), NoMemory>
        ensures { self.new ≡ self.old }
    {
        let len = self.boards.len();
        if len == self.boards.capacity() {
            self.boards.reserve_exact(len / 4 + 1)?;
        }
        Ok(())
    }

    /// Takes out all that the others hold.
    pub(crate) fn remove_all_of(&mut self, others: &BoardSet)
        ensures rest { (b : Position)
            → Contains self.new b → Contains self.old b × (Contains others.now b → ⊥) }
        ensures others { (b : Position)
            → Contains self.old b → Contains self.new b ⊎ Contains others.now b }
    {
        self.boards.retain(|held| !others.has_shared(held));
    }

    /// Takes in what the others hold and this one doesn't. A sort joins two lists that are in order by one walk over both. After want
    /// of memory nothing is held.
    fn merge(&mut self, others: BoardSet) -> Result<(), NoMemory>
        ensures { OnOk result ((b : Position)
            → Contains self.new b ↔ (Contains self.old b ⊎ Contains others b)) }
    {
        let BoardSet { mut boards } = others;
        boards.retain(|held| !self.has_shared(held));
        if boards.len() == 0 {
            return Ok(());
        }
        let alloc = *self.boards.allocator();
        let mut all = mem::replace(&mut self.boards, Vec::new(alloc));
        all.reserve_exact(boards.len())?;
        all.append(&mut boards)?;
        all.sort_by_key(|held| held.hash())?;
        self.boards = all;
        Ok(())
    }

    /// Takes the others' handles in, where their boards aren't held yet. After want of memory the set is of no use.
    pub fn join(&mut self, others: BoardSet) -> Result<(), NoMemory>
        ensures { OnOk result ((b : Position)
            → Contains self.new b ↔ (Contains self.old b ⊎ Contains others b)) }
    {
        let mut fewer = others;
        if self.boards.len() < fewer.boards.len() {
            mem::swap(self, &mut fewer);
        }
        self.merge(fewer)
    }

    /// Takes the board out, of which the hash is given.
    pub(crate) fn remove_with_hash(&mut self, hash: u64, board: &Board)
        requires { hash ≡ hash_of_board board.now }
        ensures { (b : Position) → Contains self.new b ↔ (Contains self.old b × (b ≢ board.now)) }
    {
        self.boards.retain(|held| !held.is(hash, board));
    }

    /// Takes the board out.
    pub(crate) fn remove(&mut self, board: &Board)
        ensures { (b : Position) → Contains self.new b ↔ (Contains self.old b × (b ≢ board.now)) }
    {
        self.remove_with_hash(board_hash(board), board);
    }

    /// Whether none is one of the boards.
    fn has_none_of(&self, boards: &[Board]) -> bool
        ensures { IsTrue result
            ↔ ((b : Position) → Contains self.now b → Contains boards.now b → ⊥) }
    {
        for board in boards {
            if self.has(board) {
                return false;
            }
        }
        true
    }

    /// Whether the others are the same boards in the same order.
    pub fn has_same_as(&self, others: &BoardSet) -> bool
        ensures { IsTrue result → (b : Position) → Contains others.now b → Contains self.now b }
    {
        if self.boards.len() != others.boards.len() {
            return false;
        }
        for k in 0..self.boards.len() {
            let other = &others.boards[k];
            if !self.boards[k].is(other.hash(), other.board()) {
                return false;
            }
        }
        true
    }

    /// How many boards are held.
    pub(crate) fn len(&self) -> usize
        ensures { result ≡ length self.now }
    {
        self.boards.len()
    }

    /// Adds a board.
    fn insert(&mut self, board: SharedBoard) -> Result<(), NoMemory>
        ensures { OnOk result ((b : Position)
            → Contains self.new b ↔ (Contains self.old b ⊎ (b ≡ board))) }
    {
        let k = self.insertion_index(board.hash());
        self.make_room()?;
        self.boards.insert(k, board)?;
        Ok(())
    }

    /// Adds the board, of which the hash is given, where it isn't held yet.
    pub(crate) fn add_with_hash(
        &mut self,
        alloc: Global,
        hash: u64,
        board: &Board,
    ) -> Result<(), NoMemory>
        requires { hash ≡ hash_of_board board.now }
        ensures { OnOk result ((b : Position)
            → Contains self.new b ↔ (Contains self.old b ⊎ (b ≡ board.now))) }
    {
        if self.has_with_hash(hash, board) {
            return Ok(());
        }
        let made = SharedBoard::of(alloc, hash, board)?;
        self.insert(made)
    }

    /// Adds the board, where it isn't held yet.
    pub fn add(&mut self, alloc: Global, board: &Board) -> Result<(), NoMemory>
        ensures { OnOk result ((b : Position)
            → Contains self.new b ↔ (Contains self.old b ⊎ (b ≡ board.now))) }
    {
        self.add_with_hash(alloc, board_hash(board), board)
    }

    /// The same boards again, by handles.
    pub fn try_clone(&self, alloc: Global) -> Result<BoardSet, NoMemory>
        ensures { IfOk result (λ r. r ≡ self.now) }
    {
        let mut boards = Vec::with_capacity(alloc, self.boards.len())?;
        for board in &self.boards {
            boards.push(board.try_clone()?)?;
        }
        Ok(BoardSet { boards })
    }

    /// Whether all are boards of the line's history.
    pub fn all_in_history(&self, line: &Line) -> bool
        ensures { IsTrue result
            ↔ ((b : Position)
            → Contains self.now b → HasBoardInHistory line.now.frame line.now.state b) }
    {
        for held in &self.boards {
            if !line.has_board_in_history(held.board()) {
                return false;
            }
        }
        true
    }

    /// Whether none is a board of the line's history. Where the history has fewer boards, each of them is looked up here.
    pub fn none_in_history(&self, line: &Line) -> bool
        ensures { IsTrue result
            ↔ ((b : Position)
            → Contains self.now b → HasBoardInHistory line.now.frame line.now.state b → ⊥) }
    {
        let boards = line.history();
        if boards.len() < self.boards.len() {
            return self.has_none_of(boards);
        }
        for held in &self.boards {
            if line.has_board_in_history(held.board()) {
                return false;
            }
        }
        true
    }
}
