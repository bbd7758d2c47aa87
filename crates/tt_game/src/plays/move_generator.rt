//! What is the same for all plays from where a line stands, worked out once, and what is known of each of them by it.

ghost use Rattle.std.specs.Prelude.{◌≡◌, ◌<◌, ◌≤◌, IsTrue, MatchOption, true};
ghost use Rattle.std.specs.FinSet as set;
ghost use Rattle.tt_sgf.specs.Sizes.{point_count};
ghost use Rattle.tt_sgf.specs.MachineWords.{bit_in};

use crate::frame::Side;
use crate::history::root::MANY_POINTS;
use crate::line::Line;
use tt_board::{Colour, PlayKind};
use tt_sgf::{BITS, Bits, Point};

/// The colour that moves, the empty points of the region, some of them where its play takes nothing off, some of these where it also
/// makes a new colouring, where stones of that colour have stood so far, and what the words of the present board make, where hashes by it tell new
/// colourings.
#[derive(Clone, Copy)]
pub(crate) struct MoveGenerator {
    colour: Colour,
    empty: Bits,
    no_capture: Bits,
    new_colouring: Bits,
    stood: Bits,
    sum: Option<u64>,
}

/// Whether at least `MANY_POINTS` bits are 1. Nothing goes by it but time.
fn are_many(points: &Bits) -> bool {
    let mut wanted = u32::from(MANY_POINTS);
    for word in points.words() {
        if word != 0 {
            wanted = wanted.saturating_sub(word.count_ones());
        }
    }
    wanted == 0
}

impl Line {
    ghost use Rattle.std.specs.Prelude.{ℕ, Some, None, slice_set};
    ghost use Rattle.tt_game.specs.GameHistory.{IsInHistory};
    ghost use Rattle.tt_board.specs.Reach.{entry_at};
    ghost use Rattle.tt_board.specs.PlayKind.{IsPlayOfKind};
    ghost use Rattle.tt_board.specs.declared.counted.play_kind.PlayKind.TheVariants.{NoCapture};
    ghost use Rattle.tt_game.specs.Game.{IsLegal, after, history, side_colour, colouring_after_play, winner_of};
    ghost use Rattle.tt_game.specs.MoveGenerators.{IsMoveGenerator, IncludesStoodPoints, IsForetoldKind};
    ghost use Rattle.tt_game.specs.declared.turns.Turn.{Turn};

    /// What is the same for all plays of the side to move.
    #[inline(always)]
    pub(crate) fn move_generator(&self) -> MoveGenerator
        ensures { IsMoveGenerator result self.now.frame self.now.state }
    {
        let colour = self.colour_to_move();
        let empty = self.present().empty_among(&self.frame().region);
        let stood = self.stones_so_far(colour);
        let no_capture = self.some_noncapturing_plays_if_many(colour, &empty);
        MoveGenerator {
            colour,
            empty,
            no_capture,
            new_colouring: self.some_with_new_colouring(&no_capture, &stood),
            stood,
            sum: self.unfinished_board_hash(),
        }
    }

    /// Some of these empty points on which a play of the side to move puts its stone and takes nothing off, found all at once: none
    /// where they are few. A small region has few of them.
    fn some_noncapturing_plays_if_many(&self, colour: Colour, empty: &Bits) -> Bits
        requires colour { colour ≡ side_colour self.now.frame self.now.state.to_move }
        requires free { (p : ℕ) → p < point_count self.now.frame.size
            → bit_in empty.now.words p ≡ true → entry_at self.now.state.present p ≡ None }
        ensures { (p : ℕ) → p < point_count self.now.frame.size → bit_in result.words p ≡ true
            → IsPlayOfKind NoCapture self.now.frame.size self.now.state.present (side_colour self.now.frame self.now.state.to_move) p }
    {
        if !self.has_large_region() {
            return Bits::none();
        }
        if !are_many(empty) {
            return Bits::none();
        }
        self.counted_board().some_noncapturing_plays(colour, empty)
    }

    /// Those of these points on which a play of the side to move makes a new colouring, since its stones never stood there.
    fn some_with_new_colouring(&self, no_capture: &Bits, stood: &Bits) -> Bits
        requires no_capture { (p : ℕ) → p < point_count self.now.frame.size
            → bit_in no_capture.now.words p ≡ true
            → IsPlayOfKind NoCapture self.now.frame.size self.now.state.present (side_colour self.now.frame self.now.state.to_move) p }
        requires stood { IncludesStoodPoints (side_colour self.now.frame self.now.state.to_move) self.now.frame.size (history self.now.state) stood.now.words }
        ensures { (p : ℕ) → p < point_count self.now.frame.size → bit_in result.words p ≡ true
            → IsForetoldKind NoCapture self.now.frame self.now.state p }
    {
        no_capture.minus(stood)
    }

    /// The first empty point of the region from a number on: none where the board has no such point.
    pub(crate) fn next_empty(&self, moves: &MoveGenerator, from: u16) -> Option<Point>
        requires { IsMoveGenerator moves.now self.now.frame self.now.state }
        ensures { MatchOption result
            ((q : ℕ) → from ≤ q → IsLegal self.now.frame self.now.state (Turn.Play q) → ⊥)
            (λ p. (p < point_count self.now.frame.size) × (from ≤ p)
            × ((q : ℕ) → from ≤ q → q < p → IsLegal self.now.frame self.now.state (Turn.Play q) → ⊥)
            × IsTrue (set.contains self.now.frame.region p)
            × (entry_at self.now.state.present p ≡ None)) }
    {
        let n = moves.empty.first_from(usize::from(from).min(BITS));
        self.frame().size.point(n as u16)
    }

    /// Whether a play of the side to move by which nothing goes is known to make a colouring that hasn't been. No board is made for it.
    #[inline(always)]
    fn known_new(&self, moves: &MoveGenerator, p: Point) -> bool
        requires moves { IsMoveGenerator moves.now self.now.frame self.now.state }
        requires on_board { p < point_count self.now.frame.size }
        requires free { entry_at self.now.state.present p ≡ None }
        requires no_capture { colouring_after_play self.now.frame self.now.state p
            ≡ slice_set self.now.state.present p (Some (side_colour self.now.frame self.now.state.to_move)) }
        ensures { IsTrue result
            → IsInHistory (history self.now.state) (colouring_after_play self.now.frame self.now.state p) → ⊥ }
    {
        match moves.sum {
            Some(sum) => self.is_new_by_hash(sum, moves.colour, p),
            None => false,
        }
    }

    /// What is foretold of a play of the side to move on an empty point, by the points beside it and by the stones that stood there, and
    /// what is known by the points beside it alone. It captures nothing where it takes nothing off and makes a colouring that hasn't been, and is
    /// a suicide of one stone where its colouring is the present one.
    fn foretold_and_local_kind(&self, moves: &MoveGenerator, p: Point) -> (PlayKind, PlayKind)
        requires moves { IsMoveGenerator moves.now self.now.frame self.now.state }
        requires on_board { p < point_count self.now.frame.size }
        requires free { entry_at self.now.state.present p ≡ None }
        ensures kind_here { IsForetoldKind result.0 self.now.frame self.now.state p }
        ensures kind { IsPlayOfKind result.1 self.now.frame.size self.now.state.present (side_colour self.now.frame self.now.state.to_move) p }
    {
        if moves.new_colouring.has(usize::from(p.number())) {
            return (PlayKind::NoCapture, PlayKind::NoCapture);
        }
        if moves.no_capture.has(usize::from(p.number())) {
            return (PlayKind::NeedsBoard, PlayKind::NoCapture);
        }
        let kind = self.counted_board().play_kind(moves.colour, p);
        match kind {
            PlayKind::SingleStoneSuicide => (PlayKind::SingleStoneSuicide, kind),
            PlayKind::NeedsBoard => (PlayKind::NeedsBoard, kind),
            PlayKind::NoCapture => {
                if moves.stood.has(usize::from(p.number())) {
                    (PlayKind::NeedsBoard, kind)
                } else {
                    (PlayKind::NoCapture, kind)
                }
            }
        }
    }

    /// Who has won after a play on an empty point of the region, where it is legal, by the board that it makes. This is known of it by
    /// the points beside it.
    #[inline(never)]
    fn winner_if_legal_by_board(&self, p: Point, kind: PlayKind) -> Option<Option<Side>>
        requires on_board { p < point_count self.now.frame.size }
        requires inside { IsTrue (set.contains self.now.frame.region p) }
        requires free { entry_at self.now.state.present p ≡ None }
        requires open { winner_of self.now.frame self.now.state ≡ None }
        requires kind { IsPlayOfKind kind self.now.frame.size self.now.state.present (side_colour self.now.frame self.now.state.to_move) p }
        ensures { MatchOption result (IsLegal self.now.frame self.now.state (Turn.Play p) → ⊥)
            (λ w. IsLegal self.now.frame self.now.state (Turn.Play p)
            × (w ≡ winner_of self.now.frame (after self.now.frame self.now.state (Turn.Play p)))) }
    {
        let next = self
            .counted_board()
            .after_of_kind(self.colour_to_move(), p, kind);
        if self.has_been(p, &next) {
            return None;
        }
        Some(self.frame().winner_on(&next, 0))
    }

    /// Who has won after a play on an empty point of the region by which nothing goes, where it is legal: nobody. Its stone stood there
    /// before, so the board that it makes is looked for.
    #[inline(never)]
    fn winner_if_legal_no_capture(&self, p: Point) -> Option<Option<Side>>
        requires on_board { p < point_count self.now.frame.size }
        requires inside { IsTrue (set.contains self.now.frame.region p) }
        requires free { entry_at self.now.state.present p ≡ None }
        requires open { winner_of self.now.frame self.now.state ≡ None }
        requires put { colouring_after_play self.now.frame self.now.state p
            ≡ slice_set self.now.state.present p (Some (side_colour self.now.frame self.now.state.to_move)) }
        ensures { MatchOption result (IsLegal self.now.frame self.now.state (Turn.Play p) → ⊥)
            (λ w. IsLegal self.now.frame self.now.state (Turn.Play p)
            × (w ≡ winner_of self.now.frame (after self.now.frame self.now.state (Turn.Play p)))) }
    {
        let mut next = self.present().copy();
        next.put_stone(self.colour_to_move(), p);
        if self.has_colouring_in_history(&next) {
            return None;
        }
        Some(None)
    }

    /// Who has won after a play on an empty point of the region, where it is legal. Most plays are known by the points beside them, and
    /// no board is made for them.
    #[inline(always)]
    pub(crate) fn winner_if_legal(&self, moves: &MoveGenerator, p: Point) -> Option<Option<Side>>
        requires moves { IsMoveGenerator moves.now self.now.frame self.now.state }
        requires on_board { p < point_count self.now.frame.size }
        requires inside { IsTrue (set.contains self.now.frame.region p) }
        requires free { entry_at self.now.state.present p ≡ None }
        requires open { winner_of self.now.frame self.now.state ≡ None }
        ensures { MatchOption result (IsLegal self.now.frame self.now.state (Turn.Play p) → ⊥)
            (λ w. IsLegal self.now.frame self.now.state (Turn.Play p)
            × (w ≡ winner_of self.now.frame (after self.now.frame self.now.state (Turn.Play p)))) }
    {
        let (kind_here, kind) = self.foretold_and_local_kind(moves, p);
        match kind_here {
            PlayKind::NoCapture => Some(None),
            PlayKind::SingleStoneSuicide => None,
            PlayKind::NeedsBoard => {
                if kind != PlayKind::NoCapture {
                    return self.winner_if_legal_by_board(p, kind);
                }
                if self.known_new(moves, p) {
                    return Some(None);
                }
                self.winner_if_legal_no_capture(p)
            }
        }
    }
}
