//! A colouring in twelve words: a bit for each of Black's stones and one for each of White's.
//!
//! Copies and comparisons of colourings are what superko asks for most.

pub(crate) mod around;
pub(crate) mod fill;
pub(crate) mod stones;

ghost use Rattle.std.specs.Prelude.{◌≡◌, ℕ, ◌<◌, ◌≤◌, ◌↔◌, length, take, replicate, slice_set, IsTrue, None, false};
ghost use Rattle.tt_sgf.specs.declared.size.TheConstants.{MOST_POINTS};
ghost use Rattle.tt_sgf.specs.declared.bits.TheConstants.{BITS};
ghost use Rattle.tt_board.specs.Reach.{entry_at};
ghost use Rattle.tt_board.specs.Play.{is_stone_of};
ghost use Rattle.tt_sgf.specs.MachineWords.{bit_in, AreBitsOf};

use crate::Colour;
use std::marker::Model;
use tt_sgf::Bits;

/// The entries of a board's points. Contracts see their list. Black's stones come first, here and in a board, so that a copy of a
/// board takes them straight there.
#[derive(Drop)]
pub(crate) struct Colouring {
    black: Bits,
    count: usize,
    white: Bits,
}

impl Model for Colouring {
    ghost use Rattle.tt_board.specs.Position.{Colouring as Entries};
    ghost use Rattle.tt_board.specs.inside.Planes.{shown, IsPlain};

    ghost Value = { Entries };

    ghost view = { λ c. shown c.count c.black.words c.white.words };

    ghost invariant = { λ c. IsPlain c.count c.black.words c.white.words };
}

/// Whether the entry is a stone of this colour.
fn is_stone_of(entry: Option<Colour>, colour: Colour) -> bool
    ensures { result ≡ is_stone_of entry colour }
{
    entry == Some(colour)
}

/// No stone on any point.
fn empty_entries() -> [Option<Colour>; 361]
    ensures { result ≡ replicate MOST_POINTS None }
{
    [None; 361]
}

impl Colouring {
    /// No stone on any of `count` points.
    pub(crate) fn empty(count: usize) -> Colouring
        requires { count ≤ MOST_POINTS }
        ensures { result ≡ replicate count None }
    {
        Colouring {
            count,
            black: Bits::none(),
            white: Bits::none(),
        }
    }

    /// The same entries again.
    pub(crate) fn copy(&self) -> Colouring
        ensures { result ≡ self.now }
    {
        Colouring {
            count: self.count,
            black: self.black,
            white: self.white,
        }
    }

    /// Becomes the same as another one, written in place.
    pub(crate) fn set_to(&mut self, other: &Colouring)
        ensures { self.new ≡ other.now }
    {
        self.count = other.count;
        self.black = other.black;
        self.white = other.white;
    }

    /// How many points there are.
    pub(crate) fn len(&self) -> usize
        ensures value { result ≡ length self.now }
        ensures small { result ≤ MOST_POINTS }
    {
        self.count
    }

    /// What stands on the point `p`.
    pub(crate) fn at(&self, p: usize) -> Option<Colour>
        requires { p < length self.now }
        ensures { result ≡ entry_at self.now p }
    {
        if self.black.has(p) {
            Some(Colour::Black)
        } else if self.white.has(p) {
            Some(Colour::White)
        } else {
            None
        }
    }

    /// Puts a stone on the point `p`, or takes it off.
    pub(crate) fn set(&mut self, p: usize, entry: Option<Colour>)
        requires { p < length self.old }
        ensures { self.new ≡ slice_set self.old p entry }
    {
        self.black.write_bit(p, is_stone_of(entry, Colour::Black));
        self.white.write_bit(p, is_stone_of(entry, Colour::White));
    }

    /// The stones of a colour as bits.
    pub(crate) fn bits(&self, colour: Colour) -> &Bits
        ensures { AreBitsOf result.now.words (length self.now)
            (λ p. is_stone_of (entry_at self.now p) colour) }
    {
        match colour {
            Colour::Black => &self.black,
            Colour::White => &self.white,
        }
    }

    /// Whether both have the same entries. Boards of one history differ in their stones, so these come first.
    pub(crate) fn same(&self, other: &Colouring) -> bool
        ensures { IsTrue result ↔ (self.now ≡ other.now) }
    {
        if !self.black.same(&other.black) {
            return false;
        }
        if !self.white.same(&other.white) {
            return false;
        }
        self.count == other.count
    }

    /// Bits that are 1 wherever the entries differ. Contracts say that where a bit is 0 they are alike, which is all that
    /// keeping boards rests on.
    pub(crate) fn differing_points(&self, other: &Colouring) -> Bits
        ensures { (q : ℕ) → q < BITS → bit_in result.words q ≡ false
            → entry_at self.now q ≡ entry_at other.now q }
    {
        self.black
            .xor(&other.black)
            .or(&self.white.xor(&other.white))
    }

    /// The entries as an array; points past the last point hold none.
    pub(crate) fn entries(&self) -> [Option<Colour>; 361]
        ensures shown { take (length self.now) result ≡ self.now }
        ensures wide { length result ≡ MOST_POINTS }
        ensures rest { (k : ℕ) → length self.now ≤ k → entry_at result k ≡ None }
    {
        let mut entries = empty_entries();
        for p in 0..self.count {
            entries[p] = self.at(p);
        }
        entries
    }
}
