//! A board's chains, each with the counts of its stones and of its liberties.
//!
//! A play asks these counts which chains go, and looks at no stone but those that come, join or go.

ghost use Rattle.std.specs.Prelude.{◌≡◌, ◌≢◌, ℕ, ◌/◌, ◌<◌, ◌≤◌, ◌↔◌, length, map, replicate, slice_set, Contains, IsTrue, Some, None, true};
ghost use Rattle.tt_sgf.specs.declared.size.TheConstants.{MOST_POINTS};
ghost use Rattle.tt_sgf.specs.Sizes.{point_count};
ghost use Rattle.tt_sgf.specs.MachineWords.{bit_in};
ghost use Rattle.tt_board.specs.Reach.{entry_at};
ghost use Rattle.tt_board.specs.Play.{play_of};
ghost use Rattle.tt_board.specs.Setup.{AllHaveLiberties};
ghost use Rattle.tt_board.specs.PlayKind.{IsPlayOfKind};
ghost use Rattle.tt_board.specs.inside.Chains.{name_at, root_of, colour_number, renamed, IsLiving, IsEachOnce, IsOneName, AreNear, HasLost};

use crate::Colour;
use crate::colouring::Colouring;
use crate::colouring::around::{adjacent_points, first_column};
use crate::counted::chain_counts::{ChainCounts, ChainName};
use crate::counted::chain_names::{copy_first, root_of};
use crate::counted::play_effects::{PlayEffect, chains_in_atari};
use crate::counted::play_kind::{NeighbourNames, PlayKind, colour_number};
use std::marker::Model;
use tt_sgf::{BITS, Bits, Size};

/// Of so many points the names and the counts are copied in three parts; of more in one, with those behind them.
const MOST_COPIED_IN_PARTS: usize = 180;

/// A size, a colouring of its points in which each stone reaches empty, and its chains with their counts. Its stones stand before `end`.
#[derive(Drop)]
pub(crate) struct Chains {
    size: Size,
    points: Colouring,
    counts: ChainCounts,
    end: usize,
}

impl Model for Chains {
    ghost use Rattle.tt_board.specs.inside.Chains.{ChainBoard, IsChainBoard};

    ghost Value = { ChainBoard };

    ghost view = { λ b. record { size = b.size; points = b.points; counts = b.counts; end = b.end } };

    ghost invariant = { λ b. IsChainBoard (record { size = b.size; points = b.points; counts = b.counts; end = b.end }) };
}

/// A number 0 for each point.
fn zeros() -> [u16; 361]
    ensures { result ≡ replicate MOST_POINTS 0 }
{
    [0; 361]
}

/// The greater of two ends.
#[inline]
fn greater_end(one: usize, other: usize) -> usize
    ensures one { one ≤ result }
    ensures other { other ≤ result }
{
    if one < other { other } else { one }
}

impl Chains {
    /// The board of this size without any stone.
    pub(crate) fn empty(size: Size) -> Chains
        ensures size { result.size ≡ size }
        ensures points { result.points ≡ replicate (point_count size) None }
    {
        Chains {
            size,
            points: Colouring::empty(size.point_count()),
            counts: ChainCounts {
                names: zeros(),
                stones: zeros(),
                liberties: zeros(),
            },
            end: 0,
        }
    }

    /// The size.
    pub(crate) fn size(&self) -> Size
        ensures { result ≡ self.now.size }
    {
        self.size
    }

    /// The colouring, in which each stone reaches empty.
    pub(crate) fn colouring(&self) -> &Colouring
        ensures value { result.now ≡ self.now.points }
        ensures fits { length self.now.points ≡ point_count self.now.size }
        ensures alive { AllHaveLiberties self.now.size self.now.points }
    {
        &self.points
    }

    /// Puts a stone on the empty point `p`, where each stone reaches empty then, and makes it one with the chains of its colour beside it.
    pub(crate) fn put_stone(&mut self, colour: Colour, p: usize)
        requires on_board { p < point_count self.old.size }
        requires free { entry_at self.old.points p ≡ None }
        requires alive { AllHaveLiberties self.old.size (slice_set self.old.points p (Some colour)) }
        ensures size { self.new.size ≡ self.old.size }
        ensures points { self.new.points ≡ slice_set self.old.points p (Some colour) }
    {
        let near = self.counts.names_beside(self.size, p);
        self.put_stone_by_names(colour, p, &near);
    }

    /// Puts a stone as `put_stone` does, where these are the names beside `p`.
    fn put_stone_by_names(&mut self, colour: Colour, p: usize, near: &NeighbourNames)
        requires on_board { p < point_count self.old.size }
        requires free { entry_at self.old.points p ≡ None }
        requires alive { AllHaveLiberties self.old.size (slice_set self.old.points p (Some colour)) }
        requires near { AreNear self.old.size self.old.counts.names p near.now }
        ensures size { self.new.size ≡ self.old.size }
        ensures points { self.new.points ≡ slice_set self.old.points p (Some colour) }
    {
        self.points.set(p, Some(colour));
        self.counts.put_stone(self.size, colour, p, near);
        self.end = greater_end(self.end, p + 1);
    }

    /// Takes the chain of this name off the board.
    pub(crate) fn take_chain(&mut self, name: ChainName)
        requires living { IsLiving self.old.counts.names name }
        ensures size { self.new.size ≡ self.old.size }
        ensures names { self.new.counts.names ≡ map (renamed name 0) self.old.counts.names }
        ensures lost { HasLost self.old.counts.names name self.old.points self.new.points }
    {
        self.counts.remove_chain(self.size, &mut self.points, name);
    }

    /// The board of this colouring, made stone by stone.
    #[inline(never)]
    pub(crate) fn of(size: Size, points: &Colouring) -> Chains
        requires fits { length points.now ≡ point_count size }
        requires alive { AllHaveLiberties size points.now }
        ensures size { result.size ≡ size }
        ensures points { result.points ≡ points.now }
    {
        let mut made = Chains::empty(size);
        for p in 0..size.point_count() {
            if let Some(colour) = points.at(p) {
                made.put_stone(colour, p);
            }
        }
        made
    }

    /// What four names tell of a play of `colour` on the empty point `p`, where no chain of the opponent's has `p` as its one liberty.
    /// It takes no stone off where the stone has a liberty or joins a chain that has another one, and it is a suicide of one stone where the opponent's
    /// stones are all that is beside `p`.
    #[inline(always)]
    pub(crate) fn play_kind(&self, colour: Colour, p: usize) -> PlayKind
        requires on_board { p < point_count self.now.size }
        requires free { entry_at self.now.points p ≡ None }
        ensures fits { length self.now.points ≡ point_count self.now.size }
        ensures kind { IsPlayOfKind result self.now.size self.now.points colour p }
    {
        let near = self.counts.names_beside(self.size, p);
        self.play_kind_by_names(colour, &near)
    }

    /// What the names beside an empty point tell of a play of `colour` there.
    #[inline(always)]
    fn play_kind_by_names(&self, colour: Colour, near: &NeighbourNames) -> PlayKind
        requires { (m : ℕ) → IsOneName near.now.above near.now.left near.now.right near.now.below m
            → root_of m < MOST_POINTS }
        ensures { (p : ℕ) → p < point_count self.now.size → entry_at self.now.points p ≡ None
            → AreNear self.now.size self.now.counts.names p near.now
            → IsPlayOfKind result self.now.size self.now.points colour p }
    {
        if near.has_chain_in_atari(&self.counts.liberties, colour_number(colour.other())) {
            return PlayKind::NeedsBoard;
        }
        if near.has_empty_or_not_in_atari(&self.counts.liberties, colour_number(colour)) {
            return PlayKind::NoCapture;
        }
        if near.has_colour(colour_number(colour)) {
            return PlayKind::NeedsBoard;
        }
        PlayKind::SingleStoneSuicide
    }

    /// Those of these stones whose chain has one liberty.
    fn stones_in_atari(&self, stones: &Bits) -> Bits
        requires { (q : ℕ) → q < BITS → bit_in stones.now.words q ≡ true
            → (q < point_count self.now.size) × (entry_at self.now.points q ≢ None) }
        ensures { (q : ℕ) → q < BITS
            → (bit_in result.words q ≡ true)
            ↔ ((bit_in stones.now.words q ≡ true)
            × (name_at self.now.counts.liberties (root_of (name_at self.now.counts.names q)) ≡ 1)) }
    {
        let mut found = Bits::none();
        let mut q = stones.first_from(0);
        while q < BITS {
            if self.counts.liberties[root_of(self.counts.names[q])] == 1 {
                found.set(q);
            }
            q = stones.first_from(q + 1);
        }
        found
    }

    /// Some of these empty points on which a play of `colour` puts a stone and takes none off: those beside another of them, and
    /// beside no stone of the opponent's whose chain has one liberty.
    pub(crate) fn some_noncapturing_plays(&self, colour: Colour, points: &Bits) -> Bits
        requires { (q : ℕ) → q < point_count self.now.size → bit_in points.now.words q ≡ true
            → entry_at self.now.points q ≡ None }
        ensures fits { length self.now.points ≡ point_count self.now.size }
        ensures no_capture { (p : ℕ) → p < BITS → bit_in result.words p ≡ true
            → (bit_in points.now.words p ≡ true)
            × (play_of self.now.size self.now.points colour p
            ≡ slice_set self.now.points p (Some colour)) }
    {
        let first = first_column(self.size);
        let points = points.truncated_to(self.size.point_count());
        let near = adjacent_points(self.size, &first, &points);
        let last = self.stones_in_atari(&near.and(self.points.bits(colour.other())));
        points
            .and(&near)
            .minus(&adjacent_points(self.size, &first, &last))
    }

    /// What a play of `colour` on the empty point `p` does (the Tromp-Taylor rules of Go).
    ///
    /// A chain goes with it exactly where `p` is its one liberty: the opponent's; or one's own, where none of the opponent's goes,
    /// no point beside `p` is empty, and no own chain beside it has another liberty.
    pub(crate) fn play_effect(&self, colour: Colour, p: usize) -> PlayEffect
        requires on_board { p < point_count self.now.size }
        requires free { entry_at self.now.points p ≡ None }
        ensures fits { length self.now.points ≡ point_count self.now.size }
        ensures goes { (q : ℕ) → entry_at self.now.points q ≢ None
            → (entry_at (play_of self.now.size self.now.points colour p) q ≡ None)
            ↔ Contains result.goes.items (name_at self.now.counts.names q) }
        ensures suicide { IsTrue result.suicide
            ↔ (entry_at (play_of self.now.size self.now.points colour p) p ≡ None) }
        ensures once { IsEachOnce result.goes.items }
        ensures living { (m : ℕ) → Contains result.goes.items m → IsLiving self.now.counts.names m }
    {
        let near = self.counts.names_beside(self.size, p);
        let weak = chains_in_atari(&self.counts.liberties, &near, colour_number(colour.other()));
        if !weak.is_empty() {
            return PlayEffect {
                goes: weak,
                suicide: false,
            };
        }
        if near.has_empty_or_not_in_atari(&self.counts.liberties, colour_number(colour)) {
            return PlayEffect {
                goes: weak,
                suicide: false,
            };
        }
        PlayEffect {
            goes: chains_in_atari(&self.counts.liberties, &near, colour_number(colour)),
            suicide: true,
        }
    }

    /// A play by which stones may go: they are taken off before the stone comes, which the counts allow.
    fn play_with_captures(&mut self, colour: Colour, p: usize)
        requires on_board { p < point_count self.old.size }
        requires free { entry_at self.old.points p ≡ None }
        ensures size { self.new.size ≡ self.old.size }
        ensures points { self.new.points ≡ play_of self.old.size self.old.points colour p }
    {
        let look = self.play_effect(colour, p);
        for name in look.goes.as_slice() {
            self.take_chain(*name);
        }
        if !look.suicide {
            self.put_stone(colour, p);
        }
    }

    /// Plays `colour` on the empty point `p`: the stone is put, then the other colour is cleared, then `colour` (the Tromp-Taylor
    /// rules of Go).
    pub(crate) fn play_and_clear(&mut self, colour: Colour, p: usize)
        requires on_board { p < point_count self.old.size }
        requires free { entry_at self.old.points p ≡ None }
        ensures size { self.new.size ≡ self.old.size }
        ensures points { self.new.points ≡ play_of self.old.size self.old.points colour p }
    {
        let near = self.counts.names_beside(self.size, p);
        match self.play_kind_by_names(colour, &near) {
            PlayKind::NoCapture => self.put_stone_by_names(colour, p, &near),
            PlayKind::SingleStoneSuicide | PlayKind::NeedsBoard => self.play_with_captures(
                colour, p,
            ),
        }
    }

    /// Takes the stones of the chain of this name off a colouring of the board's points.
    fn lift_off_colouring(&self, name: ChainName, points: &mut Colouring)
        requires fits { length points.old ≡ point_count self.now.size }
        requires living { IsLiving self.now.counts.names name }
        ensures { HasLost self.now.counts.names name points.old points.new }
    {
        self.counts
            .lift_chain_off_colouring(self.size, points, name);
    }

    /// The colouring after a play by which stones may go.
    fn colouring_after_captures(&self, colour: Colour, p: usize) -> Colouring
        requires on_board { p < point_count self.now.size }
        requires free { entry_at self.now.points p ≡ None }
        ensures { result ≡ play_of self.now.size self.now.points colour p }
    {
        let look = self.play_effect(colour, p);
        let mut points = self.points.copy();
        for name in look.goes.as_slice() {
            self.lift_off_colouring(*name, &mut points);
        }
        if !look.suicide {
            points.set(p, Some(colour));
        }
        points
    }

    /// The colouring after a play of `colour` on the empty point `p`, of which this is known; no chain is changed for it.
    pub(crate) fn colouring_after(&self, colour: Colour, p: usize, kind: PlayKind) -> Colouring
        requires on_board { p < point_count self.now.size }
        requires free { entry_at self.now.points p ≡ None }
        requires kind { IsPlayOfKind kind self.now.size self.now.points colour p }
        ensures { result ≡ play_of self.now.size self.now.points colour p }
    {
        match kind {
            PlayKind::NoCapture => {
                let mut points = self.points.copy();
                points.set(p, Some(colour));
                points
            }
            PlayKind::SingleStoneSuicide => self.points.copy(),
            PlayKind::NeedsBoard => self.colouring_after_captures(colour, p),
        }
    }

    /// Becomes the same board as another one. Where the ends of both are near, no name and no count behind them is copied.
    pub(crate) fn set_to(&mut self, other: &Chains)
        ensures size { self.new.size ≡ other.now.size }
        ensures points { self.new.points ≡ other.now.points }
    {
        let end = greater_end(self.end, other.end);
        if end <= MOST_COPIED_IN_PARTS {
            copy_first(&mut self.counts.names, &other.counts.names, end);
            copy_first(&mut self.counts.stones, &other.counts.stones, end);
            copy_first(&mut self.counts.liberties, &other.counts.liberties, end);
        } else {
            self.counts = other.counts;
        }
        self.size = other.size;
        self.points.set_to(&other.points);
        self.end = other.end;
    }

    /// The same again.
    pub(crate) fn copy(&self) -> Chains
        ensures { result ≡ self.now }
    {
        Chains {
            size: self.size,
            points: self.points.copy(),
            counts: self.counts,
            end: self.end,
        }
    }
}
