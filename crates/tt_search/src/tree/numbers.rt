//! Proof and disproof numbers of nodes.

ghost use Rattle.std.specs.Prelude.{◌≡◌, ◌<◌, ◌≤◌, length, take, IsTrue};
ghost use Rattle.tt_search.specs.inside.Edges.{edge_state_of, edge_trees, counted, grown_in, AreFresh};
ghost use Rattle.tt_search.specs.Numbers.{is_same_side, decided_number, cap, infinite, child_numbers, least, capped_sum};
ghost use Rattle.tt_search.specs.inside.Children.{children_of};
ghost use Rattle.tt_search.specs.declared.tree.edges.TheConstants.{TURN_NUMBER_BOUND};
ghost use Rattle.tt_search.specs.MostProving.{index_of_best};
ghost use Rattle.tt_search.specs.Settled.{first_settled_index};

use crate::tree::children::{Child, ChildNodes};
use crate::tree::edges::{Edge, EdgeState};
use crate::tree::node::Node;
use tt_game::Side;

/// The proof or disproof number of what can't be proved or disproved any more.
pub(crate) const INFINITE: u32 = 4_294_967_295;

/// The greatest finite number.
pub(crate) const CAP: u32 = 1_000_000_000;

/// The number of a side and that of its opponent.
#[derive(Clone, Copy)]
pub(crate) struct PhiDelta {
    pub(crate) own: u32,
    pub(crate) other: u32,
}

/// The child to go to: its index, how many before it have grown, and the mover's number of it.
#[derive(Clone, Copy)]
pub(crate) struct BestChildFound {
    pub(crate) index: u16,
    pub(crate) rank: u16,
    pub(crate) least: u32,
}

/// Whether two sides are the same.
pub(crate) fn is_same_side(a: Side, b: Side) -> bool
    ensures { result ≡ is_same_side a b }
{
    a == b
}

/// The number of a goal at a leaf that is decided for the side.
pub(crate) fn decided_number(goal: Side, side: Side) -> u32
    ensures { result ≡ decided_number goal side }
{
    if is_same_side(goal, side) {
        0
    } else {
        INFINITE
    }
}

impl PhiDelta {
    ghost use Rattle.tt_search.specs.PartialTree.{PartialTree};
    ghost use Rattle.tt_search.specs.inside.Pairs.{ArePair};
    ghost use Rattle.tt_search.specs.inside.Cached.{IsCached};

    /// The numbers of the side and of its opponent, from the proof number and the disproof number.
    pub(crate) fn of(side: Side, proof: u32, disproof: u32) -> PhiDelta
        ensures { (tree : PartialTree) → IsCached proof disproof tree → ArePair side tree result }
    {
        match side {
            Side::Attacker => PhiDelta {
                own: proof,
                other: disproof,
            },
            Side::Defender => PhiDelta {
                own: disproof,
                other: proof,
            },
        }
    }

    /// The proof number and the disproof number, where these are the numbers of the side and of its opponent.
    pub(crate) fn proof_and_disproof(self, side: Side) -> (u32, u32)
        ensures { (tree : PartialTree) → ArePair side tree self → IsCached result.0 result.1 tree }
    {
        match side {
            Side::Attacker => (self.own, self.other),
            Side::Defender => (self.other, self.own),
        }
    }
}

impl Child<'_> {
    ghost use Rattle.tt_search.specs.inside.Child.{child_tree};
    ghost use Rattle.tt_search.specs.Numbers.{number};

    /// The number of a goal.
    pub(crate) fn number(self, goal: Side) -> u32
        ensures { result ≡ number goal (child_tree self.entry) }
    {
        match self {
            Child::Fresh => 1,
            Child::Won(side) => decided_number(goal, side),
            Child::Grown(node) => node.number(goal),
        }
    }
}

impl ChildNodes {
    ghost use Rattle.tt_game.specs.Game.{opponent};
    ghost use Rattle.tt_search.specs.Numbers.{child_numbers, least, infinite, capped_sum};
    ghost use Rattle.tt_search.specs.MostProving.{index_of_best};
    ghost use Rattle.tt_search.specs.Settled.{first_settled_index};
    ghost use Rattle.tt_search.specs.inside.ChildNodes.{children_in, HasItsNodes, IsRank, AreFew};
    ghost use Rattle.tt_search.specs.inside.Pairs.{changed_sum};

    /// The child to go to: the first one with the least number of the side to move. None has a number below `from`, so the look ends at
    /// the first one that has it.
    pub(crate) fn best(&self, mover: Side, from: u32) -> BestChildFound
        requires few { AreFew self.now }
        requires whole { HasItsNodes self.now }
        requires lowest { from ≤ least (child_numbers mover (children_in self.now)) }
        requires finite { from < infinite }
        ensures index { result.index ≡ index_of_best mover (children_in self.now) }
        ensures rank { IsRank result.rank result.index self.now }
        ensures least { result.least ≡ least (child_numbers mover (children_in self.now)) }
    {
        best_of(mover, from, self.edges.as_slice(), self.grown.as_slice())
    }

    /// The sum of the other side's numbers: infinite where one of them is, and otherwise at most the greatest finite one.
    pub(crate) fn opponent_sum(&self, mover: Side) -> u32
        requires { HasItsNodes self.now }
        ensures { result ≡ capped_sum (child_numbers (opponent mover) (children_in self.now)) }
    {
        capped_sum_of(
            mover.opponent(),
            self.edges.as_slice(),
            self.grown.as_slice(),
        )
    }

    /// The child to go to, and the sum, where no child has grown. Mostly nobody has won behind any of them, so that each has the number 1.
    pub(crate) fn initial_best_and_sum(&self, mover: Side) -> (BestChildFound, u32)
        requires few { AreFew self.now }
        requires whole { HasItsNodes self.now }
        ensures index { result.0.index ≡ index_of_best mover (children_in self.now) }
        ensures rank { IsRank result.0.rank result.0.index self.now }
        ensures least { result.0.least ≡ least (child_numbers mover (children_in self.now)) }
        ensures sum { result.1
            ≡ capped_sum (child_numbers (opponent mover) (children_in self.now)) }
    {
        if are_fresh(self.edges.as_slice()) {
            let best = BestChildFound {
                index: 0,
                rank: 0,
                least: 1,
            };
            return (best, self.edges.len() as u32);
        }
        (self.best(mover, 0), self.opponent_sum(mover))
    }

    /// The same sum, where it was this one before a child's number became another. Up from the cap, and from what is
    /// infinite, a difference says nothing.
    pub(crate) fn opponent_sum_after(&self, mover: Side, was: u32, old: u32, new: u32) -> u32
        requires whole { HasItsNodes self.now }
        requires part { was < cap → old ≤ was }
        requires changed { was < cap
            → changed_sum was old new
            ≡ capped_sum (child_numbers (opponent mover) (children_in self.now)) }
        ensures { result ≡ capped_sum (child_numbers (opponent mover) (children_in self.now)) }
    {
        if was >= CAP {
            return self.opponent_sum(mover);
        }
        if new == INFINITE {
            return INFINITE;
        }
        (was - old).saturating_add(new).min(CAP)
    }

    /// The index of the first child that is settled for the side, or how many children there are where none is, and its
    /// rank.
    pub(crate) fn first_settled_index(&self, side: Side) -> (usize, usize)
        requires { HasItsNodes self.now }
        ensures index { result.0 ≡ first_settled_index side (children_in self.now) }
        ensures rank { IsRank result.1 result.0 self.now }
    {
        first_settled_of(side, self.edges.as_slice(), self.grown.as_slice())
    }
}

/// The number, and one more where the child has grown.
fn plus_one_if_grown(edge: Edge, number: usize) -> usize
    requires { number < 18446744073709551615 }
    ensures { result ≡ counted (edge_state_of edge) number }
{
    match edge.edge_state() {
        EdgeState::Fresh => number,
        EdgeState::Won(_) => number,
        EdgeState::Grown => number + 1,
    }
}

/// Whether there are children, and nothing is known of any of them.
fn are_fresh(edges: &[Edge]) -> bool
    ensures { IsTrue result → AreFresh edges.now × (0 < length edges.now) }
{
    for edge in edges {
        if !edge.is_fresh() {
            return false;
        }
    }
    !edges.is_empty()
}

/// The first child with the least number of the side to move, where none has a number below `from`.
fn best_of(mover: Side, from: u32, edges: &[Edge], grown: &[Node]) -> BestChildFound
    requires few { length edges.now ≤ TURN_NUMBER_BOUND }
    requires whole { grown_in edges.now ≡ length grown.now }
    requires lowest { from ≤ least (child_numbers mover (children_of (edge_trees edges.now grown.now))) }
    requires finite { from < infinite }
    ensures index { result.index
        ≡ index_of_best mover (children_of (edge_trees edges.now grown.now)) }
    ensures rank { result.rank ≡ grown_in (take result.index edges.now) }
    ensures least { result.least
        ≡ least (child_numbers mover (children_of (edge_trees edges.now grown.now))) }
{
    let mut index = 0;
    let mut rank = 0;
    let mut least = INFINITE;
    let mut passed = 0;
    let mut rest = grown;
    for (i, edge) in edges.iter().enumerate() {
        let (child, behind) = Child::split_first_child(*edge, rest);
        let number = child.number(mover);
        if number <= from {
            return BestChildFound {
                index: i as u16,
                rank: passed as u16,
                least: number,
            };
        }
        if number < least {
            index = i;
            rank = passed;
            least = number;
        }
        passed = plus_one_if_grown(*edge, passed);
        rest = behind;
    }
    BestChildFound {
        index: index as u16,
        rank: rank as u16,
        least,
    }
}

/// The sum of the numbers of the goal.
fn capped_sum_of(goal: Side, edges: &[Edge], grown: &[Node]) -> u32
    requires { grown_in edges.now ≡ length grown.now }
    ensures { result
        ≡ capped_sum (child_numbers goal (children_of (edge_trees edges.now grown.now))) }
{
    let mut total: u32 = 0;
    let mut rest = grown;
    for edge in edges {
        let (child, behind) = Child::split_first_child(*edge, rest);
        let number = child.number(goal);
        if number == INFINITE {
            return INFINITE;
        }
        total = total.saturating_add(number).min(CAP);
        rest = behind;
    }
    total
}

/// The index of the first child that is settled for the side, or how many children there are where none is, and its rank.
fn first_settled_of(side: Side, edges: &[Edge], grown: &[Node]) -> (usize, usize)
    requires { grown_in edges.now ≡ length grown.now }
    ensures index { result.0
        ≡ first_settled_index side (children_of (edge_trees edges.now grown.now)) }
    ensures rank { result.1 ≡ grown_in (take result.0 edges.now) }
{
    let mut rank = 0;
    let mut rest = grown;
    for (i, edge) in edges.iter().enumerate() {
        let (child, behind) = Child::split_first_child(*edge, rest);
        if child.number(side) == 0 {
            return (i, rank);
        }
        rank = plus_one_if_grown(*edge, rank);
        rest = behind;
    }
    (edges.len(), rank)
}
