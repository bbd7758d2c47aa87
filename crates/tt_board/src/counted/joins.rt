//! A stone comes: the chains of its colour beside it become one with it, their liberties counted stone by stone.

ghost use Rattle.std.specs.Prelude.{◌≡◌, ◌≢◌, ℕ, ◌+◌, ◌/◌, ◌<◌, ◌≤◌, ◌⊎◌, length, map, slice_set, Some};
ghost use Rattle.tt_sgf.specs.declared.size.TheConstants.{MOST_POINTS};
ghost use Rattle.tt_sgf.specs.Sizes.{point_count};
ghost use Rattle.tt_board.specs.declared.counted.play_kind.TheConstants.{OFF_BOARD_NAME};
ghost use Rattle.tt_board.specs.Position.{Colouring};
ghost use Rattle.tt_board.specs.inside.Chains.{name_at, root_of, renamed, liberty_count, AreCounted, AreNames, AreNamesBut, AreNear, AreGathered, Touches, IsOneName, IsNewName};
ghost use Rattle.tt_board.specs.inside.Chains.{colour_number, IsChainOf, AreTwoChains};

use crate::Colour;
use crate::counted::chain_counts::{ChainCounts, ChainName};
use crate::counted::chain_names::{count_new_liberties, root_of};
use crate::counted::play_kind::{NeighbourNames, OFF_BOARD_NAME};
use tt_sgf::Size;

/// The name of a new chain of this colour with its root on `p`.
fn new_name(colour: Colour, p: usize) -> ChainName
    requires { p < MOST_POINTS }
    ensures colour { result / 512 ≡ colour_number colour }
    ensures root { root_of result ≡ p }
    ensures living { 512 ≤ result }
{
    match colour {
        Colour::Black => 512 + p as u16,
        Colour::White => 1024 + p as u16,
    }
}

/// Takes a liberty from the chain of this name, if it is one and not one of three others.
#[inline]
fn take_liberty_from(
    liberties: &mut [u16],
    name: ChainName,
    one: ChainName,
    two: ChainName,
    three: ChainName,
)
    requires in_range { root_of name < length liberties.old }
    requires some { IsNewName OFF_BOARD_NAME name one two three
        → 0 < name_at liberties.old (root_of name) }
    ensures fewer { IsNewName OFF_BOARD_NAME name one two three
        → name_at liberties.new (root_of name) + 1 ≡ name_at liberties.old (root_of name) }
    ensures same { (r : ℕ) → (IsNewName OFF_BOARD_NAME name one two three → root_of name ≢ r)
        → name_at liberties.new r ≡ name_at liberties.old r }
{
    if name != 0 && name != OFF_BOARD_NAME && name != one && name != two && name != three {
        liberties[root_of(name)] -= 1;
    }
}

/// Takes a liberty from each chain of which one of these names is.
#[inline]
fn take_liberty_beside(liberties: &mut [u16], near: &NeighbourNames)
    requires in_range { (m : ℕ)
        → IsOneName near.now.above near.now.left near.now.right near.now.below m
        → root_of m < length liberties.old }
    requires apart { (m k : ℕ)
        → IsOneName near.now.above near.now.left near.now.right near.now.below m
        → IsOneName near.now.above near.now.left near.now.right near.now.below k
        → m ≢ 0 → m ≢ OFF_BOARD_NAME → k ≢ 0 → k ≢ OFF_BOARD_NAME → m ≢ k → root_of m ≢ root_of k }
    requires some { (m : ℕ) → IsOneName near.now.above near.now.left near.now.right near.now.below m
        → m ≢ 0 → m ≢ OFF_BOARD_NAME → 0 < name_at liberties.old (root_of m) }
    ensures fewer { (m : ℕ) → IsOneName near.now.above near.now.left near.now.right near.now.below m
        → m ≢ 0 → m ≢ OFF_BOARD_NAME
        → name_at liberties.new (root_of m) + 1 ≡ name_at liberties.old (root_of m) }
    ensures same { (r : ℕ)
        → ((m : ℕ) → IsOneName near.now.above near.now.left near.now.right near.now.below m
        → m ≢ 0 → m ≢ OFF_BOARD_NAME → root_of m ≢ r)
        → name_at liberties.new r ≡ name_at liberties.old r }
{
    take_liberty_from(liberties, near.above, 0, 0, 0);
    take_liberty_from(liberties, near.left, near.above, 0, 0);
    take_liberty_from(liberties, near.right, near.above, near.left, 0);
    take_liberty_from(liberties, near.below, near.above, near.left, near.right);
}

/// The first point from `start` on with this name, where there is one.
fn next_named(names: &[ChainName; 361], start: usize, name: ChainName) -> usize
    requires { (q : ℕ) × (start ≤ q) × (q < MOST_POINTS) × (name_at names.now q ≡ name) }
    ensures from { start ≤ result }
    ensures found { (result < MOST_POINTS) × (name_at names.now result ≡ name) }
    ensures first { (q : ℕ) → start ≤ q → q < result → name_at names.now q ≢ name }
{
    for p in start..names.len() {
        if names[p] == name {
            return p;
        }
    }
    start
}

/// Gives the stones of the chain `from` the name `to`, and says how many liberties they bring that chain.
#[inline(never)]
fn rename_stones(
    size: Size,
    names: &mut [ChainName; 361],
    from: ChainName,
    to: ChainName,
    stones: u16,
) -> u16
    requires chain { IsChainOf size names.old from stones }
    requires other { (to ≢ 0) × (from ≢ to) }
    ensures renamed { names.new ≡ map (renamed from to) names.old }
    ensures gained { liberty_count size names.new to ≡ liberty_count size names.old to + result }
{
    let mut gained = 0;
    let mut next = 0;
    for _ in 0..stones {
        let p = next_named(names, next, from);
        gained += count_new_liberties(size, names, to, p);
        names[p] = to;
        next = p + 1;
    }
    gained
}

/// Gives the one stone of the chain `from` the name `to`, and says how many liberties it brings that chain.
fn rename_lone_stone(
    size: Size,
    names: &mut [ChainName; 361],
    from: ChainName,
    to: ChainName,
) -> u16
    requires chain { IsChainOf size names.old from 1 }
    requires other { (to ≢ 0) × (from ≢ to) }
    ensures renamed { names.new ≡ map (renamed from to) names.old }
    ensures gained { liberty_count size names.new to ≡ liberty_count size names.old to + result }
{
    let p = root_of(from);
    let gained = count_new_liberties(size, names, to, p);
    names[p] = to;
    gained
}

/// Gives the chain `from`, of so many stones, the name `to`, and says how many liberties it brings the chain of that name.
fn rename_chain(
    size: Size,
    names: &mut [ChainName; 361],
    from: ChainName,
    to: ChainName,
    stones: u16,
) -> u16
    requires chain { IsChainOf size names.old from stones }
    requires other { (to ≢ 0) × (from ≢ to) }
    ensures renamed { names.new ≡ map (renamed from to) names.old }
    ensures gained { liberty_count size names.new to ≡ liberty_count size names.old to + result }
{
    if stones == 1 {
        rename_lone_stone(size, names, from, to)
    } else {
        rename_stones(size, names, from, to, stones)
    }
}

impl ChainCounts {
    /// Makes the chain `from` part of the chain `to`.
    fn absorb(&mut self, size: Size, from: ChainName, to: ChainName)
        requires counted { AreCounted size self.old }
        requires chains { AreTwoChains self.old.names from to }
        ensures renamed { self.new.names ≡ map (renamed from to) self.old.names }
        ensures still_counted { AreCounted size self.new }
    {
        let count = self.stones[root_of(from)];
        let gained = rename_chain(size, &mut self.names, from, to, count);
        let root = root_of(to);
        self.liberties[root] += gained;
        self.stones[root] += count;
    }

    /// Makes two chains one: the smaller gets the name of the greater.
    #[inline(never)]
    fn unite(&mut self, size: Size, one: ChainName, two: ChainName)
        requires counted { AreCounted size self.old }
        requires chains { AreTwoChains self.old.names one two }
        ensures renamed { (self.new.names ≡ map (renamed one two) self.old.names)
            ⊎ (self.new.names ≡ map (renamed two one) self.old.names) }
        ensures still_counted { AreCounted size self.new }
    {
        if self.stones[root_of(one)] < self.stones[root_of(two)] {
            self.absorb(size, one, two);
        } else {
            self.absorb(size, two, one);
        }
    }

    /// Makes the stone on `p` one with the chain of this name, where that is of its colour, another one and still there.
    #[inline(always)]
    fn join_named(&mut self, size: Size, p: usize, name: ChainName)
        requires counted { AreCounted size self.old }
        requires on_board { p < point_count size }
        requires stone { 512 ≤ name_at self.old.names p }
        requires in_range { root_of name < MOST_POINTS }
        requires near { 512 ≤ name → name ≢ OFF_BOARD_NAME
            → name_at self.old.names (root_of name) ≡ name → Touches size self.old.names name p }
        ensures gathered { AreGathered size self.old.names self.new.names p }
        ensures joined { name / 512 ≡ name_at self.old.names p / 512
            → name_at self.old.names (root_of name) ≡ name
            → name_at self.new.names (root_of name) ≡ name_at self.new.names p }
        ensures still_counted { AreCounted size self.new }
    {
        let own = self.names[p];
        if name / 512 == own / 512 && name != own && self.names[root_of(name)] == name {
            self.unite(size, name, own);
        }
    }

    /// Makes the stone on `p` one with the chains of its colour beside it, of which these are the names.
    fn join_beside(&mut self, size: Size, p: usize, near: &NeighbourNames)
        requires counted { AreCounted size self.old }
        requires on_board { p < point_count size }
        requires stone { 512 ≤ name_at self.old.names p }
        requires near { AreNear size self.old.names p near.now }
        ensures joined { (c : Colouring) → AreNamesBut size c self.old.names p
            → AreNames size c self.new.names }
        ensures still_counted { AreCounted size self.new }
    {
        self.join_named(size, p, near.above);
        self.join_named(size, p, near.left);
        self.join_named(size, p, near.right);
        self.join_named(size, p, near.below);
    }

    /// Puts a stone on the empty point `p`, beside which are these names: it takes a liberty from each chain there, and becomes one with
    /// those of its colour.
    pub(crate) fn put_stone(&mut self, size: Size, colour: Colour, p: usize, near: &NeighbourNames)
        requires counted { AreCounted size self.old }
        requires on_board { p < point_count size }
        requires free { name_at self.old.names p ≡ 0 }
        requires coloured { (q : ℕ) → name_at self.old.names q ≢ OFF_BOARD_NAME }
        requires near { AreNear size self.old.names p near.now }
        ensures named { (c : Colouring) → length c ≡ point_count size
            → AreNames size c self.old.names
            → AreNames size (slice_set c p (Some colour)) self.new.names }
        ensures still_counted { AreCounted size self.new }
    {
        let name = new_name(colour, p);
        take_liberty_beside(&mut self.liberties, near);
        self.names[p] = name;
        self.stones[p] = 1;
        self.liberties[p] = near.empty;
        self.join_beside(size, p, near);
    }
}
