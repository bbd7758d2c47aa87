//! Records: what the whole main line of a game tree comes to.

ghost use Rattle.std.specs.Prelude.{◌≡◌, Some};
ghost use Rattle.tt_sgf.specs.Values.{point_of, trimmed};
ghost use Rattle.tt_board.specs.Setup.{placed};
ghost use Rattle.tt_game.specs.Turns.{IsTurnOnBoardOfSize};
ghost use Rattle.tt_game.specs.Faults.{bad_first_value};
ghost use Rattle.tt_game.specs.Nodes.{values_of, B, W};
ghost use Rattle.tt_game.specs.Records.{ReturnsUnlessNoMemory, UpdatesUnlessNoMemory, fault_of, turn_point, as_turn, play_next_turn, play_turn_by, play_named_turn, play_node_move, game_after_setup};
ghost use Rattle.tt_game.specs.Records.{set_up_node, step_node, empty_game_of_size, empty_game_for_root, empty_game_for_nodes, apply_nodes, record_of_game, record_of};

use crate::faults::{GameFault, Refused, Why};
use crate::game::Game;
use crate::least_points::least_point;
use crate::nodes::{
    first_value, has_move, has_several_moves, in_two_sets, is_go, said_size, sets_up,
};
use crate::reading::{bad_first_value, read_mover, read_set};
use crate::turns::Turn;
use std::alloc::Global;
use tt_board::{Colour, Lifeless};
use tt_sgf::{MOST_SIDE, MainLine, Node, Point, PointOrPass, PointSet, Property, Size, point};

/// What a record comes to.
#[derive(Clone, Copy, Debug, PartialEq, Eq)]
pub struct Record {
    /// Black's points, by area.
    pub black: u16,
    /// White's points, by area.
    pub white: u16,
    /// Whether two passes in a row ended the game.
    pub finished: bool,
}

/// So many turns a record has at the most.
pub(crate) const MOST_TURNS: u16 = 2_000;

/// The game that a main line has come to, how many turns were played, and the number of the node at hand.
#[derive(Drop)]
pub(crate) struct GameSoFar {
    pub(crate) game: Game,
    pub(crate) turns: u16,
    pub(crate) node: usize,
}

/// The point of a play; a pass has none.
fn turn_point(t: &Turn) -> Option<Point>
    ensures { result ≡ turn_point t.now }
{
    match t {
        Turn::Play(p) => Some(*p),
        Turn::Pass => None,
    }
}

/// The fault that a refused turn is, by the number of its node and its point.
fn fault_of(node: usize, at: Option<Point>, why: Why) -> GameFault
    ensures { result ≡ fault_of node at why }
{
    let Some(point) = at else {
        return GameFault::AfterEnd { node, point: at };
    };
    match why {
        Why::Over => GameFault::AfterEnd { node, point: at },
        Why::Occupied | Why::Outside => GameFault::OccupiedPoint { node, point },
        Why::Repeats => GameFault::RepeatedBoard { node, point },
    }
}

/// The turn that a move's value is.
fn as_turn(value: PointOrPass) -> Turn
    ensures { result ≡ as_turn value }
{
    match value {
        PointOrPass::On(p) => Turn::Play(p),
        PointOrPass::Pass => Turn::Pass,
    }
}

impl GameSoFar {
    /// A turn of the side to move.
    fn play_turn(&mut self, t: Turn) -> Result<(), GameFault>
        requires { IsTurnOnBoardOfSize self.old.game.size t }
        ensures { UpdatesUnlessNoMemory result self.new (play_next_turn self.old t) }
    {
        let at = turn_point(&t);
        if self.game.passes() == 2 {
            return Err(GameFault::AfterEnd {
                node: self.node,
                point: at,
            });
        }
        if self.turns >= MOST_TURNS {
            return Err(GameFault::TooManyTurns { node: self.node });
        }
        match self.game.push(t) {
            Ok(()) => {
                self.turns += 1;
                Ok(())
            }
            Err(Refused::Illegal(why)) => Err(fault_of(self.node, at, why)),
            Err(Refused::NoMemory) => Err(GameFault::NoMemory),
        }
    }

    /// A turn of a colour; where the other is to move it passes first.
    fn play_turn_by(&mut self, colour: Colour, t: Turn) -> Result<(), GameFault>
        requires { IsTurnOnBoardOfSize self.old.game.size t }
        ensures { UpdatesUnlessNoMemory result self.new (play_turn_by self.old colour t) }
    {
        let implied = if self.game.to_move() == colour {
            None
        } else {
            Some(Turn::Pass)
        };
        if let Some(pass) = implied {
            self.play_turn(pass)?;
        }
        self.play_turn(t)
    }

    /// The turn that a value of a colour names. The properties are those of the node at hand, and this is the value's name.
    fn play_named_turn(
        &mut self,
        colour: Colour,
        value: &[u8],
        properties: &[Property],
        name: &[u8],
    ) -> Result<(), GameFault>
        ensures { UpdatesUnlessNoMemory result self.new
            (play_named_turn self.old colour (bad_first_value self.old.node name.now 0 properties.now) (point_of self.old.game.size (trimmed value.now))) }
    {
        let Some(t) = point(value, self.game.size()) else {
            return Err(bad_first_value(self.node, properties, name));
        };
        self.play_turn_by(colour, as_turn(t))
    }

    /// The move of a node, where it has one.
    fn play_node_move(&mut self, properties: &[Property]) -> Result<(), GameFault>
        ensures { UpdatesUnlessNoMemory result self.new (play_node_move self.old properties.now (values_of B properties.now) (values_of W properties.now)) }
    {
        if let Some(value) = first_value(properties, b"B") {
            return self.play_named_turn(Colour::Black, value, properties, b"B");
        }
        if let Some(value) = first_value(properties, b"W") {
            return self.play_named_turn(Colour::White, value, properties, b"W");
        }
        Ok(())
    }

    /// Puts the sets over the present board, which begins the game anew.
    #[tactic(auto, using(crate::proofs::FaultLemmas::all_alive, crate::proofs::FaultLemmas::least_lifeless))]
    fn restart_from_setup(
        &mut self,
        black: &PointSet,
        white: &PointSet,
        clear: &PointSet,
        colour: Colour,
    ) -> Result<(), GameFault>
        ensures { UpdatesUnlessNoMemory result self.new (game_after_setup self.old (placed self.old.game.size self.old.game.present black.now white.now clear.now) colour) }
    {
        match self.game.present().set_up(black, white, clear) {
            Ok(board) => Ok(self.game.restart_with(board, colour)?),
            Err(Lifeless(point)) => Err(GameFault::StoneWithoutLiberty {
                node: self.node,
                point,
            }),
        }
    }

    /// What a setup node does.
    fn set_up_node(&mut self, node: &Node) -> Result<(), GameFault>
        ensures { UpdatesUnlessNoMemory result self.new (set_up_node self.old node.now) }
    {
        let size = self.game.size();
        let black = read_set(self.node, node, b"AB", size)?;
        let white = read_set(self.node, node, b"AW", size)?;
        let clear = read_set(self.node, node, b"AE", size)?;
        let colour = read_mover(self.node, node)?;
        if let Some(point) = least_point(&in_two_sets(&black, &white, &clear)) {
            return Err(GameFault::PointTwice {
                node: self.node,
                point,
            });
        }
        self.restart_from_setup(&black, &white, &clear, colour)
    }

    /// What a node does.
    #[tactic(auto, unfolding(crate::specs::Records::step_node))]
    pub(crate) fn play_node(&mut self, node: &Node) -> Result<(), GameFault>
        ensures { UpdatesUnlessNoMemory result self.new (step_node self.old node.now) }
    {
        if sets_up(node) {
            if has_move(node) {
                return Err(GameFault::MixedNode { node: self.node });
            }
            return self.set_up_node(node);
        }
        if has_several_moves(node) {
            return Err(GameFault::MixedNode { node: self.node });
        }
        self.play_node_move(node.props.as_slice())
    }

    /// Before the first turn on a board of this size.
    fn begin(alloc: Global, size: Size) -> Result<GameSoFar, GameFault>
        ensures { ReturnsUnlessNoMemory result (empty_game_of_size (Some size)) }
    {
        Ok(GameSoFar {
            game: Game::empty(alloc, size)?,
            turns: 0,
            node: 0,
        })
    }

    /// Before the first node: its game and its size.
    #[tactic(auto, unfolding(crate::specs::Records::empty_game_for_root))]
    fn begin_at_node(alloc: Global, node: &Node) -> Result<GameSoFar, GameFault>
        ensures { ReturnsUnlessNoMemory result (empty_game_for_root node.now) }
    {
        if !is_go(node.props.as_slice()) {
            return Err(GameFault::NotGo);
        }
        let Some(size) = said_size(node.props.as_slice()) else {
            return Err(GameFault::BadSize);
        };
        GameSoFar::begin(alloc, size)
    }
}

/// Before the first of these nodes; without a node the board is 19 by 19.
pub(crate) fn empty_game_for_nodes(alloc: Global, nodes: &[Node]) -> Result<GameSoFar, GameFault>
    ensures { ReturnsUnlessNoMemory result (empty_game_for_nodes nodes.now) }
{
    if let Some((first, _)) = nodes.split_first() {
        return GameSoFar::begin_at_node(alloc, first);
    }
    let Some(size) = Size::new(MOST_SIDE, MOST_SIDE) else {
        return Err(GameFault::BadSize);
    };
    GameSoFar::begin(alloc, size)
}

/// After all nodes.
pub(crate) fn apply_nodes(replay: GameSoFar, nodes: &[Node]) -> Result<GameSoFar, GameFault>
    ensures { ReturnsUnlessNoMemory result (apply_nodes 0 replay nodes.now) }
{
    let mut last = replay;
    let mut rest = nodes;
    let mut number: usize = 0;
    while let Some((node, behind)) = rest.split_first() {
        number += 1;
        last.node = number;
        last.play_node(node)?;
        rest = behind;
    }
    Ok(last)
}

/// The score of a game's present board, and whether the game is over.
fn record_of_game(game: &Game) -> Record
    ensures { result ≡ record_of_game game.now }
{
    let (black, white) = game.present().score();
    Record {
        black,
        white,
        finished: game.passes() == 2,
    }
}

/// The record that a main line is (SGF FF[4]), or the first refusal, node by node.
///
/// # Errors
///
/// GM that is not 1, a bad SZ or other value, a point set up twice, setup beside a move, a setup with a stone that
/// doesn't reach an empty point, a move on a stone or one that repeats a board, a turn after two passes or beyond 2,000
/// turns; or an allocation was refused.
#[tactic(auto, unfolding(crate::specs::Records::record_of))]
pub fn play_record(alloc: Global, line: &MainLine) -> Result<Record, GameFault>
    ensures { ReturnsUnlessNoMemory result (record_of line.now.nodes) }
{
    let nodes = line.nodes.as_slice();
    let last = apply_nodes(empty_game_for_nodes(alloc, nodes)?, nodes)?;
    Ok(record_of_game(&last.game))
}
