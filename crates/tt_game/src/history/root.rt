//! What lines of one beginning share: it stands once, however many snapshots are kept of them.

ghost use Rattle.std.specs.Prelude.{◌≡◌, ◌<◌, ◌↔◌, List, ◌∷◌, ◌++◌, [], length, All, IsTrue, IfOk, Some, None, false};
ghost use Rattle.std.specs.Arc.{arc_value};
ghost use Rattle.tt_sgf.specs.Sizes.{point_count};
ghost use Rattle.tt_board.specs.Position.{Position, Colouring};
ghost use Rattle.tt_board.specs.Reach.{entry_at};
ghost use Rattle.tt_game.specs.GameHistory.{IsInHistory, so_far, colourings};
ghost use Rattle.tt_game.specs.inside.Roots.{AreStonesOf};
ghost use Rattle.tt_game.specs.BloomFilter.{filter_index};

use crate::frame::Frame;
use crate::history::History;
use crate::history::bloom_filter::{BloomFilter, filter_index};
use std::alloc::Global;
use std::marker::Model;
use std::sync::Arc;
use tt_board::{Board, BoardDeltas, Colour};
use tt_sgf::{Bits, NoMemory, Point};

/// To compare a colouring with so many boards costs about what its hash costs.
const FEW_BOARDS: usize = 8;

/// By so many remainders of their hashes the boards of a long beginning are noted.
const HASH_REMAINDERS: usize = 8_192;

/// From so many points of the region on it pays to look at all of them at once, and with fewer one by one.
pub(crate) const MANY_POINTS: u16 = 20;

/// A frame, and the boards that lines had when the first of them began. Contracts see it as `Rooted`.
///
/// The stones of all these boards stand together in twelve words, and their hashes were noted, so that superko asks once for what
/// hundreds of boards never had, and looks first where the hash stood. The base is the last of them: boards are kept by how they
/// differ from it.
#[derive(Drop)]
pub(crate) struct Root {
    frame: Frame,
    many: bool,
    boards: BoardDeltas,
    count: usize,
    base: Arc<Board>,
    black: Bits,
    white: Bits,
    filter: BloomFilter,
    last_indices: Vec<usize>,
}

impl Model for Root {
    ghost use Rattle.std.specs.Prelude.{◌≡◌, ◌<◌, ◌++◌, ◌∷◌, [], List, length, All};
    ghost use Rattle.std.specs.Arc.{arc_value};
    ghost use Rattle.tt_board.specs.Position.{Position};
    ghost use Rattle.std.specs.Coded.{codes};
    ghost use Rattle.tt_sgf.specs.contracts.sets.PointSet as points;
    ghost use Rattle.tt_board.specs.declared.Colour.TheVariants.{Black, White};
    ghost use Rattle.tt_game.specs.GameHistory.{colourings};
    ghost use Rattle.tt_game.specs.inside.Roots.{Rooted, AreStonesOf};
    ghost use Rattle.tt_game.specs.BloomFilter.{MayHoldAll};

    ghost Value = { Rooted };

    ghost coded = { Prim.hlevel (codes, points.the_row.coded) };

    ghost view = { λ r. record { frame = r.frame; begun = r.boards } };

    ghost invariant = { λ r. record {
      count : r.count ≡ length r.boards;
      some_board : 0 < length r.boards;
      sizes : All (λ b. b.size ≡ r.frame.size) r.boards;
      base : (before : List Position) × (r.boards ≡ before ++ arc_value r.base ∷ []);
      black : AreStonesOf Black r.boards r.black.words;
      white : AreStonesOf White r.boards r.white.words;
      filter : MayHoldAll r.filter r.frame.size (colourings r.boards);
    } };
}

/// The stones of a colour on all of these boards.
pub(crate) fn union_of_stones(boards: &[Board], colour: Colour) -> Bits
    ensures { AreStonesOf colour boards.now result.words }
{
    let mut stones = Bits::none();
    for board in boards {
        stones = stones.or(board.bits(colour));
    }
    stones
}

/// For each remainder of a hash the index of the last board that has it, and 0 where none has; empty without memory. Nothing goes by
/// it but time.
fn last_index_by_remainder(alloc: Global, boards: &[Board]) -> Vec<usize> {
    let mut last_indices = Vec::new(alloc);
    if last_indices.resize(HASH_REMAINDERS, 0).is_err() {
        return Vec::new(alloc);
    }
    for k in 0..boards.len() {
        let index = filter_index(&boards[k]) % HASH_REMAINDERS;
        if index < last_indices.len() {
            last_indices[index] = k;
        }
    }
    last_indices
}

impl Root {
    /// What lines that begin with this history share.
    pub(crate) fn of(frame: &Frame, history: &History) -> Result<Root, NoMemory>
        requires { history.now.size ≡ frame.now.size }
        ensures { IfOk result
            (λ r. (r.frame ≡ frame.now) × (colourings r.begun ≡ so_far history.now)) }
    {
        let alloc = history.alloc();
        let boards = history.boards();
        let (filter, last_indices) = if boards.len() <= FEW_BOARDS {
            (BloomFilter::saturated(alloc), Vec::new(alloc))
        } else {
            (
                BloomFilter::of_boards(alloc, boards),
                last_index_by_remainder(alloc, boards),
            )
        };
        let base = Arc::new(alloc, boards[boards.len() - 1].copy())?;
        Ok(Root {
            frame: frame.copy(),
            many: frame.region.count() >= MANY_POINTS,
            boards: BoardDeltas::of(alloc, &base, boards)?,
            count: boards.len(),
            base,
            black: union_of_stones(boards, Colour::Black),
            white: union_of_stones(boards, Colour::White),
            filter,
            last_indices,
        })
    }

    /// The frame.
    pub(crate) fn frame(&self) -> &Frame
        ensures { result.now ≡ self.now.frame }
    {
        &self.frame
    }

    /// Whether the region has many points. Nothing goes by it but time.
    pub(crate) fn has_large_region(&self) -> bool {
        self.many
    }

    /// How many boards there were.
    pub(crate) fn board_count(&self) -> usize
        ensures value { result ≡ length self.now.begun }
        ensures some { 0 < length self.now.begun }
        ensures sizes { All (λ b. b.size ≡ self.now.frame.size) self.now.begun }
    {
        self.count
    }

    /// The last board of the beginning, by whose differences others are kept.
    pub(crate) fn delta_base(&self) -> &Arc<Board>
        ensures { (arc_value result.now).size ≡ self.now.frame.size }
    {
        &self.base
    }

    /// The stones of a colour on all boards of the beginning.
    pub(crate) fn stones_on_any_board(&self, colour: Colour) -> &Bits
        ensures { AreStonesOf colour self.now.begun result.now.words }
    {
        match colour {
            Colour::Black => &self.black,
            Colour::White => &self.white,
        }
    }

    /// Whether a stone of this colour stood on `p` on some board of the beginning.
    pub(crate) fn stone_has_stood(&self, colour: Colour, p: Point) -> bool
        requires { p < point_count self.now.frame.size }
        ensures { (c : Colouring) → IsInHistory (colourings self.now.begun) c
            → entry_at c p ≡ Some colour → IsTrue result }
    {
        let index = usize::from(p.number());
        match colour {
            Colour::Black => self.black.has(index),
            Colour::White => self.white.has(index),
        }
    }

    /// Where a board of the frame's size is looked for first; none where its hash tells its colouring from those of all boards of the
    /// beginning. Where those are few, no hash is made.
    pub(crate) fn likely_board_index(&self, board: &Board) -> Option<usize>
        requires { board.now.size ≡ self.now.frame.size }
        ensures { result ≡ None → IsInHistory (colourings self.now.begun) board.now.points → ⊥ }
    {
        if self.count <= FEW_BOARDS {
            return Some(0);
        }
        let hash = filter_index(board);
        if !self.filter.has(hash) {
            return None;
        }
        match self.last_indices.get(hash % HASH_REMAINDERS) {
            Some(index) => Some(*index),
            None => Some(0),
        }
    }

    /// Whether the boards of the beginning are so many that hashes were noted of them. Nothing goes by it but time.
    pub(crate) fn keeps_hashes(&self) -> bool {
        self.count > FEW_BOARDS
    }

    /// Whether some board of the beginning may have this hash. Where none has, no colouring of theirs has it.
    pub(crate) fn may_have_hash(&self, hash: usize) -> bool
        ensures { result ≡ false → (c : Colouring) → filter_index self.now.frame.size c ≡ hash
            → IsInHistory (colourings self.now.begun) c → ⊥ }
    {
        self.filter.has(hash)
    }

    /// Whether the other beginning is kept alike, and so has the same boards. No board is made for it.
    pub(crate) fn keeps_beginning_alike(&self, other: &Root) -> bool
        ensures same { IsTrue result → self.now.begun ≡ other.now.begun }
        ensures sizes { All (λ b. b.size ≡ self.now.frame.size) self.now.begun }
    {
        self.boards.is_kept_alike(&other.boards)
    }

    /// Whether these are exactly the boards of the beginning. It takes no memory.
    pub(crate) fn equals_beginning(&self, boards: &[Board]) -> bool
        ensures { IsTrue result ↔ (self.now.begun ≡ boards.now) }
    {
        self.boards.equals_boards(boards)
    }

    /// The last board of the beginning.
    pub(crate) fn last(&self) -> &Board
        ensures { (before : List Position) × (self.now.begun ≡ before ++ result.now ∷ []) }
    {
        &*self.base
    }
}
