//! The replay of a tree: whether it wins from a line's state.

ghost use Rattle.std.specs.Prelude.{◌≡◌, ◌↔◌, ℕ, ◌<◌, ◌≤◌, IfOk, IsTrue, None, length};
ghost use Rattle.tt_proof.specs.declared.tree.TheConstants.{MOST_DEPTH};
ghost use Rattle.tt_proof.specs.Strategy.{done, pick, reply, depth, depth_of_entries, strategy_of, entries_of_reply, IsInOrder, AreInOrder, IsTurnOnBoardOfSize};
ghost use Rattle.tt_proof.specs.EndRules.{at_win};
ghost use Rattle.tt_proof.specs.Wins.{Wins};
ghost use Rattle.tt_proof.specs.inside.Replaying.{HasEntry, LegalWin, AnswersAfter, AnswersEach};
ghost use Rattle.tt_game.specs.declared.turns.Turn.{Turn};
ghost use Rattle.tt_game.specs.Game.{IsLegal, winner_of, opponent};
ghost use Rattle.tt_sgf.specs.Sizes.{point_count};

use crate::tree::Tree;
use tt_game::{Line, Refused, Side, Turn};
use tt_sgf::{NoMemory, Point};

fn has_turn(list: &[(Turn, Tree)], turn: Turn) -> bool
    ensures { IsTrue result ↔ HasEntry (entries_of_reply list.now) turn }
{
    for entry in list {
        if entry.0 == turn {
            return true;
        }
    }
    false
}

/// Whether the entry at the index is of the turn.
fn has_turn_at(list: &[(Turn, Tree)], index: usize, turn: Turn) -> bool
    ensures entry { IsTrue result → HasEntry (entries_of_reply list.now) turn }
    ensures within { IsTrue result → index < length list.now }
{
    match list.get(index) {
        Some(entry) => entry.0 == turn,
        None => false,
    }
}

/// Whether the play has an entry, or is not legal. It is made only where it has none.
fn is_answered_or_illegal(list: &[(Turn, Tree)], line: &Line, p: Point) -> bool
    requires { p < point_count line.now.frame.size }
    ensures { IsTrue result
        ↔ (IsLegal line.now.frame line.now.state (Turn.Play p)
        → HasEntry (entries_of_reply list.now) (Turn.Play p)) }
{
    line.present().at(p).is_some()
        || has_turn(list, Turn::Play(p))
        || line.refusal(Turn::Play(p)).is_some()
}

/// Whether each legal play has an entry. Entries mostly stand in the order of their points: so the one behind the last
/// that was found is looked at first.
fn plays_are_answered(list: &[(Turn, Tree)], line: &Line) -> bool
    ensures { IsTrue result
        ↔ ((p : ℕ) → IsLegal line.now.frame line.now.state (Turn.Play p)
        → HasEntry (entries_of_reply list.now) (Turn.Play p)) }
{
    let frame = line.frame();
    let mut index = 0;
    let mut from = 0;
    while let Some(p) = frame.region.least_from(from) {
        if has_turn_at(list, index, Turn::Play(p)) {
            index += 1;
        } else if frame.size.holds(p) && !is_answered_or_illegal(list, line, p) {
            return false;
        }
        from = p.number() + 1;
    }
    true
}

/// Whether nobody has won and the other side is to move.
pub fn awaits_other_side(s: Side, line: &Line) -> bool
    ensures { IsTrue result
        ↔ ((winner_of line.now.frame line.now.state ≡ None)
        × (line.now.state.to_move ≡ opponent s)) }
{
    line.winner().is_none() && line.to_move() == s.opponent()
}

/// Whether the other side is to move and the list has an entry for each of its turns.
fn awaits_and_answers_each_turn(list: &[(Turn, Tree)], s: Side, line: &Line) -> bool
    ensures { IsTrue result
        ↔ AnswersEach s line.now.frame line.now.state (entries_of_reply list.now) }
{
    awaits_other_side(s, line) && has_turn(list, Turn::Pass) && plays_are_answered(list, line)
}

/// Whether the child wins after the turn; none where the turn is not legal. The line stands as before.
#[cycle(replay)]
fn replay_after(
    turn: Turn,
    child: &Tree,
    s: Side,
    line: &mut Line,
) -> Result<Option<bool>, NoMemory>
    requires depth { depth (strategy_of child.now) ≤ MOST_DEPTH }
    requires on_board { IsTurnOnBoardOfSize line.old.frame.size turn }
    requires in_order { IsInOrder line.old.frame.size (strategy_of child.now) }
    ensures exact { IfOk result
        (λ answer. AnswersAfter at_win s line.old.frame line.old.state turn (strategy_of child.now) answer) }
    ensures same { line.new ≡ line.old }
{
    match line.push(turn) {
        Ok(()) => {
            let won = replay(child, s, line);
            line.pop();
            Ok(Some(won?))
        }
        Err(Refused::Illegal(_)) => Ok(None),
        Err(Refused::NoMemory) => Err(NoMemory),
    }
}

/// Whether each entry of a legal turn wins after it. The line stands as before.
#[cycle(replay)]
fn replay_entries(list: &[(Turn, Tree)], s: Side, line: &mut Line) -> Result<bool, NoMemory>
    requires depth { depth_of_entries (entries_of_reply list.now) ≤ MOST_DEPTH }
    requires in_order { AreInOrder line.old.frame.size 0 (entries_of_reply list.now) }
    ensures exact { IfOk result (λ wins. IsTrue wins
        ↔ LegalWin at_win s line.old.frame line.old.state (entries_of_reply list.now)) }
    ensures same { line.new ≡ line.old }
{
    for (turn, child) in list {
        if replay_after(*turn, child, s, line)? == Some(false) {
            return Ok(false);
        }
    }
    Ok(true)
}

#[cycle(replay)]
fn replay_pick(turn: Turn, child: &Tree, s: Side, line: &mut Line) -> Result<bool, NoMemory>
    requires depth { depth (strategy_of child.now) ≤ MOST_DEPTH }
    requires on_board { IsTurnOnBoardOfSize line.old.frame.size turn }
    requires in_order { IsInOrder line.old.frame.size (strategy_of child.now) }
    ensures exact { IfOk result (λ wins. IsTrue wins
        ↔ Wins s line.old.frame (pick turn (strategy_of child.now)) line.old.state) }
    ensures same { line.new ≡ line.old }
{
    if line.to_move() != s {
        return Ok(false);
    }
    let wins = replay_after(turn, child, s, line)?;
    Ok(wins.unwrap_or(false))
}

#[cycle(replay)]
fn replay_reply(list: &[(Turn, Tree)], s: Side, line: &mut Line) -> Result<bool, NoMemory>
    requires depth { depth_of_entries (entries_of_reply list.now) ≤ MOST_DEPTH }
    requires in_order { AreInOrder line.old.frame.size 0 (entries_of_reply list.now) }
    ensures exact { IfOk result (λ wins. IsTrue wins
        ↔ Wins s line.old.frame (reply (entries_of_reply list.now)) line.old.state) }
    ensures same { line.new ≡ line.old }
{
    if !awaits_and_answers_each_turn(list, s, line) {
        return Ok(false);
    }
    replay_entries(list, s, line)
}

/// Whether the tree wins for the side from the line's state. Entries of turns that aren't legal aren't looked at.
/// The tree is at most 512 turns deep, its points lie on the board, and the turns of each reply rise. The line stands as
/// before, also after want of memory.
#[cycle(replay)]
pub fn replay(t: &Tree, s: Side, line: &mut Line) -> Result<bool, NoMemory>
    requires depth { depth (strategy_of t.now) ≤ MOST_DEPTH }
    requires in_order { IsInOrder line.old.frame.size (strategy_of t.now) }
    ensures exact { IfOk result (λ wins. IsTrue wins
        ↔ Wins s line.old.frame (strategy_of t.now) line.old.state) }
    ensures same { line.new ≡ line.old }
{
    match t {
        Tree::Done => Ok(line.winner() == Some(s)),
        Tree::Pick(turn, child) => replay_pick(*turn, child, s, line),
        Tree::Reply(list) => replay_reply(list, s, line),
    }
}
