//! Why a turn is refused, and why a main line is no record or no problem.

ghost use Rattle.std.specs.Prelude.{◌≡◌, ◌≢◌, []};
ghost use Rattle.tt_game.specs.declared.faults.GameFault.{GameFault};
ghost use Rattle.tt_game.specs.Faults.{code_of};

use tt_sgf::{NoMemory, Point};

/// Why a turn is refused. Where several causes hold, the first in this order is the one that is answered.
#[derive(Clone, Copy, Debug, PartialEq, Eq)]
pub enum Why {
    /// Somebody has won, or the game is over.
    Over,
    /// A stone stands on the point.
    Occupied,
    /// The point is not in the region.
    Outside,
    /// The colouring that the play would make has been before, or is the present one.
    Repeats,
}

/// Why a turn was not made.
#[derive(Clone, Copy, Debug, PartialEq, Eq)]
pub enum Refused {
    /// The turn is not legal.
    Illegal(Why),
    /// An allocation was refused.
    NoMemory,
}

/// Why a main line is no record or no problem, and where. Nodes count from 1 along the main line; the properties of a node and
/// the values of a property count from 0. A point's number is its row times the columns of the board and its column, so the
/// size that the first node gives is needed to write it as letters.
#[derive(Clone, Copy, Debug, PartialEq, Eq)]
pub enum GameFault {
    /// GM is there and is not 1. Only the first node's counts.
    NotGo,
    /// SZ is there and is no size. Only the first node's counts.
    BadSize,
    /// A value of B, W, AB, AW, AE, PL, TR or SQ is no point or colour: the value of this index, in the property of this index of
    /// the node. Where several can't be read, it is the first of AB, AW, AE and PL in this order, then of TR and SQ.
    BadValue {
        node: usize,
        property: usize,
        value: usize,
    },
    /// A node sets up one point in two ways: the least such point.
    PointTwice {
        node: usize,
        point: Point,
    },
    /// AB, AW or AE stands beside a move, or a node has two moves. PL beside a move is left out of account.
    MixedNode {
        node: usize,
    },
    /// A setup leaves a stone that doesn't reach an empty point: the least such stone, of either colour, which perhaps an earlier
    /// node set up or played.
    StoneWithoutLiberty {
        node: usize,
        point: Point,
    },
    /// A move on an occupied point.
    OccupiedPoint {
        node: usize,
        point: Point,
    },
    /// A move whose colouring has been before.
    RepeatedBoard {
        node: usize,
        point: Point,
    },
    /// A turn after two passes in a row: its point, or none where it is a pass, also one that is implied because the side named
    /// is not to move.
    AfterEnd {
        node: usize,
        point: Option<Point>,
    },
    /// More than 2,000 turns, those before a setup and implied passes among them.
    TooManyTurns {
        node: usize,
    },
    /// No node has TR.
    NoTarget,
    /// Some point that TR names is empty: the least such point.
    EmptyTarget {
        node: usize,
        point: Point,
    },
    /// TR names stones of both colours: the least white one of them.
    MixedTargets {
        node: usize,
        point: Point,
    },
    /// An allocation was refused.
    NoMemory,
}

impl From<NoMemory> for GameFault {
    ghost use Rattle.tt_game.specs.declared.faults.GameFault.TheVariants as faults;

    ghost from_gives = { λ _ e. e ≡ faults.NoMemory };

    fn from(_e: NoMemory) -> GameFault {
        GameFault::NoMemory
    }
}

impl GameFault {
    ghost use Rattle.tt_game.specs.Faults.{code_of, fault_node, fault_point, fault_value};

    /// The number of the refusal: 10 to 20, 22 or 23, or 40 for want of memory.
    pub fn code(&self) -> u8
        ensures { result ≡ code_of self.now }
    {
        match self {
            GameFault::NotGo => 10,
            GameFault::BadSize => 11,
            GameFault::BadValue { .. } => 12,
            GameFault::PointTwice { .. } => 13,
            GameFault::MixedNode { .. } => 14,
            GameFault::StoneWithoutLiberty { .. } => 15,
            GameFault::OccupiedPoint { .. } => 16,
            GameFault::RepeatedBoard { .. } => 17,
            GameFault::AfterEnd { .. } => 18,
            GameFault::TooManyTurns { .. } => 19,
            GameFault::NoTarget => 20,
            GameFault::EmptyTarget { .. } => 22,
            GameFault::MixedTargets { .. } => 23,
            GameFault::NoMemory => 40,
        }
    }

    /// The number of the refused node, from 1 along the main line; none where all nodes were taken, or memory was refused.
    pub fn node(&self) -> Option<usize>
        ensures { result ≡ fault_node self.now }
    {
        match self {
            GameFault::NotGo | GameFault::BadSize => Some(1),
            GameFault::BadValue { node, .. }
            | GameFault::PointTwice { node, .. }
            | GameFault::MixedNode { node }
            | GameFault::StoneWithoutLiberty { node, .. }
            | GameFault::OccupiedPoint { node, .. }
            | GameFault::RepeatedBoard { node, .. }
            | GameFault::AfterEnd { node, .. }
            | GameFault::TooManyTurns { node }
            | GameFault::EmptyTarget { node, .. }
            | GameFault::MixedTargets { node, .. } => Some(*node),
            GameFault::NoTarget | GameFault::NoMemory => None,
        }
    }

    /// The point at fault, where there is one, by its number. The columns of the board, by which it becomes letters, are those
    /// that the first node gives.
    pub fn point(&self) -> Option<Point>
        ensures { result ≡ fault_point self.now }
    {
        match self {
            GameFault::PointTwice { point, .. }
            | GameFault::StoneWithoutLiberty { point, .. }
            | GameFault::OccupiedPoint { point, .. }
            | GameFault::RepeatedBoard { point, .. }
            | GameFault::EmptyTarget { point, .. }
            | GameFault::MixedTargets { point, .. } => Some(*point),
            GameFault::AfterEnd { point, .. } => *point,
            GameFault::NotGo
            | GameFault::BadSize
            | GameFault::BadValue { .. }
            | GameFault::MixedNode { .. }
            | GameFault::TooManyTurns { .. }
            | GameFault::NoTarget
            | GameFault::NoMemory => None,
        }
    }

    /// The indices of the property and of its value, where a value of a point or a colour can't be read. None for GM and SZ, whose
    /// refusals carry no index: it is the first value of that name in the first node.
    pub fn value(&self) -> Option<(usize, usize)>
        ensures { result ≡ fault_value self.now }
    {
        match self {
            GameFault::BadValue {
                property,
                value,
                ..
            } => Some((*property, *value)),
            GameFault::NotGo
            | GameFault::BadSize
            | GameFault::PointTwice { .. }
            | GameFault::MixedNode { .. }
            | GameFault::StoneWithoutLiberty { .. }
            | GameFault::OccupiedPoint { .. }
            | GameFault::RepeatedBoard { .. }
            | GameFault::AfterEnd { .. }
            | GameFault::TooManyTurns { .. }
            | GameFault::NoTarget
            | GameFault::EmptyTarget { .. }
            | GameFault::MixedTargets { .. }
            | GameFault::NoMemory => None,
        }
    }

    /// Why a main line is refused, and how to go on, in English words. No newline ends them.
    pub fn reason(&self) -> &'static [u8]
        ensures { result.now ≢ [] }
    {
        reason_of_code(self.code())
    }
}

/// The words of the refusal with this number, as `reason` has them: why a main line is refused, and how to go on. Empty where no
/// refusal of a main line has the number.
pub fn reason_of_code(code: u8) -> &'static [u8]
    ensures words { (e : GameFault) → code_of e ≡ code → result.now ≢ [] }
    ensures numbers { result.now ≢ [] → (e : GameFault) × (code_of e ≡ code) }
{
    match code {
        10 => b"GM must be 1, which is Go",
        11 =>
            b"SZ is no size: write one number for both sides, or columns:rows, 1 to 19 each, with no white space at the colon",
        12 =>
            b"a value is no point of the board: write two small letters, column then row, or in a list two such points with a colon between; a pass isn't allowed in a list; or that of PL is no colour, which is B or W",
        13 => b"a point stands in two of AB, AW and AE: take it out of all but one",
        14 =>
            b"AB, AW or AE stands beside a move, or there are two moves: give each a node of its own",
        15 =>
            b"the setup leaves a stone without liberties: take its chain off, or empty a point beside it",
        16 => b"the move is on a point where a stone stands",
        17 =>
            b"the move makes a position of the whole board again, which superko forbids; a suicide of one stone makes the present position again",
        18 =>
            b"a turn comes after two passes in a row, which end a game; where one side plays twice the other's pass is counted",
        19 =>
            b"more than 2,000 turns; turns before a setup count too, and so does the other's pass where one side plays twice: set the position up instead",
        20 =>
            b"no node of the main line has TR: put a triangle on a stone of the group that is to live or die",
        22 => b"TR is on an empty point: put the triangle on a stone",
        23 =>
            b"TR is on stones of both colours, on this white one and on a black one: mark those of the group alone",
        40 => b"memory was refused",
        _ => b"",
    }
}
