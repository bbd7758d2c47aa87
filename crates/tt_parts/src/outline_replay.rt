//! The replay of an outline: each part is played once, where it stands.

ghost use Rattle.std.specs.Prelude.{◌≡◌, ◌↔◌, [], None, IfOk, OnOk, IfSome, IsTrue};
ghost use Rattle.tt_game.specs.Game.{IsLegal};
ghost use Rattle.tt_proof.specs.KeptFootprints.{IsBoardAfter};
ghost use Rattle.tt_proof.specs.Strategy.{IsTurnOnBoardOfSize};
ghost use Rattle.tt_parts.specs.Outlines.{outline_of, branches_of_reply, unfolded, IsOutlineInOrder, AreBranchesInOrder};
ghost use Rattle.tt_proof.specs.Wins.{WinsOrLives};
ghost use Rattle.tt_parts.specs.SharedParts.{CombinesTo, IsResultBeforeTurn, RestsBeforePick, RestsBeforeOpposingTurn, IsResultOfDone, IsResultOfPart, IsResultOfReply, HasBranch};
ghost use Rattle.tt_parts.specs.SharedParts.{IsReplayOfOutline, kept_footprint, with_named_footprint, with_unreached_names, with_unreached_branch_names, wins_if_fit, IsOutlineAnswer};
ghost use Rattle.tt_parts.specs.inside.OutlineReplaying.{FindsPick, FindsReply, FindsBranch, FindsTogether};

use crate::outlines::Outline;
use crate::position_footprint::PositionFootprint;
use std::alloc::Global;
use tt_board::Board;
use tt_game::{Line, Refused, Side, Turn};
use tt_life::has_won_or_lives;
use tt_proof::awaits_other_side;
use tt_sgf::NoMemory;

/// What is found on a tree where it stands: it wins, and on what that rests; or it doesn't win; or a part doesn't fit.
#[derive(Drop)]
pub(crate) enum ReplayResult {
    Won(PositionFootprint),
    Lost,
    Unfit,
}

/// What is found on two trees together: one that doesn't fit comes before one that doesn't win.
fn combine_results(
    alloc: Global,
    first: ReplayResult,
    second: ReplayResult,
) -> Result<ReplayResult, NoMemory>
    ensures { IfOk result (CombinesTo first second) }
{
    match first {
        ReplayResult::Unfit => Ok(ReplayResult::Unfit),
        ReplayResult::Lost => match second {
            ReplayResult::Unfit => Ok(ReplayResult::Unfit),
            ReplayResult::Lost => Ok(ReplayResult::Lost),
            ReplayResult::Won(_) => Ok(ReplayResult::Lost),
        },
        ReplayResult::Won(one) => match second {
            ReplayResult::Unfit => Ok(ReplayResult::Unfit),
            ReplayResult::Lost => Ok(ReplayResult::Lost),
            ReplayResult::Won(other) => Ok(ReplayResult::Won(one.joined(alloc, other)?)),
        },
    }
}

/// What is found on the pick of a legal turn, which leads to the board, by what is found behind it.
fn result_of_pick(
    alloc: Global,
    line: &Line,
    turn: &Turn,
    board: &Board,
    found: ReplayResult,
) -> Result<ReplayResult, NoMemory>
    requires { IsBoardAfter line.now.frame line.now.state turn.now board.now }
    ensures { IfOk result (IsResultBeforeTurn (RestsBeforePick line.now.frame line.now.state turn.now) found) }
{
    match found {
        ReplayResult::Won(behind) => {
            let basis = behind.picked(alloc, line, turn, board)?;
            Ok(ReplayResult::Won(basis))
        }
        ReplayResult::Lost => Ok(ReplayResult::Lost),
        ReplayResult::Unfit => Ok(ReplayResult::Unfit),
    }
}

/// What is found on the branch of a legal turn, which leads to the board, by what is found behind it.
fn result_of_branch(
    alloc: Global,
    line: &Line,
    turn: &Turn,
    board: &Board,
    found: ReplayResult,
) -> Result<ReplayResult, NoMemory>
    requires { IsBoardAfter line.now.frame line.now.state turn.now board.now }
    ensures { IfOk result (IsResultBeforeTurn (RestsBeforeOpposingTurn line.now.frame line.now.state turn.now) found) }
{
    match found {
        ReplayResult::Won(behind) => {
            let basis = behind.before_opposing_turn(alloc, line, turn, board)?;
            Ok(ReplayResult::Won(basis))
        }
        ReplayResult::Lost => Ok(ReplayResult::Lost),
        ReplayResult::Unfit => Ok(ReplayResult::Unfit),
    }
}

/// What is found on the outline of nothing more to play.
fn result_of_done(alloc: Global, s: Side, line: &Line) -> Result<ReplayResult, NoMemory>
    ensures { IfOk result (IsResultOfDone s line.now.frame line.now.state) }
{
    if has_won_or_lives(s, line) {
        let basis = PositionFootprint::of(alloc, line)?;
        return Ok(ReplayResult::Won(basis));
    }
    Ok(ReplayResult::Lost)
}

/// What is found on the part with this name, whose tree wins where this basis is met.
fn result_of_part(name: &Option<PositionFootprint>, line: &Line) -> Result<ReplayResult, NoMemory>
    ensures { IfOk result (IsResultOfPart line.now.frame name.now line.now.state) }
{
    match name {
        Some(basis) => {
            if !basis.fits_line(line) {
                return Ok(ReplayResult::Unfit);
            }
            Ok(ReplayResult::Won(basis.try_clone()?))
        }
        None => Ok(ReplayResult::Unfit),
    }
}

/// What is kept of a tree with a name, by what is found on it.
fn footprint_to_keep(found: &ReplayResult) -> Result<Option<PositionFootprint>, NoMemory>
    ensures { IfOk result (λ n. n ≡ kept_footprint found.now) }
{
    match found {
        ReplayResult::Won(basis) => Ok(Some(basis.try_clone()?)),
        ReplayResult::Lost => Ok(None),
        ReplayResult::Unfit => Ok(None),
    }
}

/// Keeps what is found on a tree, where the tree has a name.
fn put_footprint_if_named(
    named: bool,
    found: &ReplayResult,
    names: &mut Vec<Option<PositionFootprint>>,
) -> Result<(), NoMemory>
    ensures { OnOk result (names.new.items ≡ with_named_footprint named (kept_footprint found.now) names.old.items) }
{
    if named {
        let name = footprint_to_keep(found)?;
        names.push(name)?;
    }
    Ok(())
}

/// Keeps that a tree, where it has a name, stands where no play leads.
fn put_unreached_if_named(
    named: bool,
    names: &mut Vec<Option<PositionFootprint>>,
) -> Result<(), NoMemory>
    ensures { OnOk result (names.new.items ≡ with_named_footprint named None names.old.items) }
{
    if named {
        names.push(None)?;
    }
    Ok(())
}

/// Passes over an outline where no play leads: its names are counted.
#[cycle(skip)]
fn skip(o: &Outline, names: &mut Vec<Option<PositionFootprint>>) -> Result<(), NoMemory>
    ensures { OnOk result (names.new.items ≡ with_unreached_names names.old.items (outline_of o.now)) }
{
    match o {
        Outline::Done => Ok(()),
        Outline::Part(_) => Ok(()),
        Outline::Pick(named, _, child) => {
            skip(child, names)?;
            put_unreached_if_named(*named, names)
        }
        Outline::Reply(named, list) => {
            skip_branches(list, names)?;
            put_unreached_if_named(*named, names)
        }
    }
}

#[cycle(skip)]
fn skip_branches(
    list: &[(Turn, Outline)],
    names: &mut Vec<Option<PositionFootprint>>,
) -> Result<(), NoMemory>
    ensures { OnOk result (names.new.items ≡ with_unreached_branch_names names.old.items (branches_of_reply list.now)) }
{
    for (_, child) in list {
        skip(child, names)?;
    }
    Ok(())
}

fn has_branch(list: &[(Turn, Outline)], turn: Turn) -> bool
    ensures { IsTrue result ↔ HasBranch (branches_of_reply list.now) turn }
{
    for branch in list {
        if branch.0 == turn {
            return true;
        }
    }
    false
}

/// Whether each legal turn has a branch.
fn has_branch_for_each_turn(list: &[(Turn, Outline)], line: &Line) -> bool
    ensures { IsTrue result
        ↔ ((t : Turn)
        → IsLegal line.now.frame line.now.state t → HasBranch (branches_of_reply list.now) t) }
{
    let turns = line.turns();
    for turn in turns.as_slice() {
        if !has_branch(list, *turn) {
            return false;
        }
    }
    true
}

/// What is found on a reply by what is found on all its branches.
fn result_of_reply(list: &[(Turn, Outline)], line: &Line, found: ReplayResult) -> ReplayResult
    ensures { IsResultOfReply line.now.frame line.now.state (branches_of_reply list.now) found result }
{
    match found {
        ReplayResult::Won(basis) => {
            if has_branch_for_each_turn(list, line) {
                return ReplayResult::Won(basis);
            }
            ReplayResult::Lost
        }
        ReplayResult::Lost => ReplayResult::Lost,
        ReplayResult::Unfit => ReplayResult::Unfit,
    }
}

/// What is found on the branch of a turn. The line stands as before.
#[cycle(play)]
fn replay_branch(
    alloc: Global,
    turn: Turn,
    child: &Outline,
    s: Side,
    line: &mut Line,
    names: &mut Vec<Option<PositionFootprint>>,
) -> Result<ReplayResult, NoMemory>
    requires on_board { IsTurnOnBoardOfSize line.old.frame.size turn }
    requires orderly { IsOutlineInOrder line.old.frame.size (outline_of child.now) }
    ensures found { IfOk result
        (λ r. FindsBranch s line.old.frame names.old.items turn (outline_of child.now) line.old.state r names.new.items) }
    ensures same { line.new ≡ line.old }
{
    match line.push(turn) {
        Ok(()) => {
            let board = line.present().copy();
            let found = replay_outline(alloc, child, s, line, names);
            line.pop();
            let behind = found?;
            result_of_branch(alloc, line, &turn, &board, behind)
        }
        Err(Refused::Illegal(_)) => {
            skip(child, names)?;
            let basis = PositionFootprint::of(alloc, line)?;
            Ok(ReplayResult::Won(basis))
        }
        Err(Refused::NoMemory) => Err(NoMemory),
    }
}

/// What is found on all branches. The line stands as before.
#[cycle(play)]
fn replay_branches(
    alloc: Global,
    list: &[(Turn, Outline)],
    s: Side,
    line: &mut Line,
    names: &mut Vec<Option<PositionFootprint>>,
) -> Result<ReplayResult, NoMemory>
    requires orderly { AreBranchesInOrder line.old.frame.size 0 (branches_of_reply list.now) }
    ensures found { IfOk result
        (λ r. FindsTogether s line.old.frame names.old.items (branches_of_reply list.now) line.old.state r names.new.items) }
    ensures same { line.new ≡ line.old }
{
    let basis = PositionFootprint::of_empty_reply(alloc, line)?;
    let mut found = ReplayResult::Won(basis);
    for (turn, child) in list {
        let next = replay_branch(alloc, *turn, child, s, line, names)?;
        found = combine_results(alloc, found, next)?;
    }
    Ok(found)
}

#[cycle(play)]
fn replay_reply(
    alloc: Global,
    list: &[(Turn, Outline)],
    s: Side,
    line: &mut Line,
    names: &mut Vec<Option<PositionFootprint>>,
) -> Result<ReplayResult, NoMemory>
    requires orderly { AreBranchesInOrder line.old.frame.size 0 (branches_of_reply list.now) }
    ensures found { IfOk result
        (λ r. FindsReply s line.old.frame names.old.items (branches_of_reply list.now) line.old.state r names.new.items) }
    ensures same { line.new ≡ line.old }
{
    if !awaits_other_side(s, line) {
        skip_branches(list, names)?;
        return Ok(ReplayResult::Lost);
    }
    let found = replay_branches(alloc, list, s, line, names)?;
    Ok(result_of_reply(list, line, found))
}

#[cycle(play)]
fn replay_pick(
    alloc: Global,
    turn: Turn,
    child: &Outline,
    s: Side,
    line: &mut Line,
    names: &mut Vec<Option<PositionFootprint>>,
) -> Result<ReplayResult, NoMemory>
    requires on_board { IsTurnOnBoardOfSize line.old.frame.size turn }
    requires orderly { IsOutlineInOrder line.old.frame.size (outline_of child.now) }
    ensures found { IfOk result
        (λ r. FindsPick s line.old.frame names.old.items turn (outline_of child.now) line.old.state r names.new.items) }
    ensures same { line.new ≡ line.old }
{
    if line.to_move() != s {
        skip(child, names)?;
        return Ok(ReplayResult::Lost);
    }
    match line.push(turn) {
        Ok(()) => {
            let board = line.present().copy();
            let found = replay_outline(alloc, child, s, line, names);
            line.pop();
            let behind = found?;
            result_of_pick(alloc, line, &turn, &board, behind)
        }
        Err(Refused::Illegal(_)) => {
            skip(child, names)?;
            Ok(ReplayResult::Lost)
        }
        Err(Refused::NoMemory) => Err(NoMemory),
    }
}

/// What is found on the outline at the line, where the names so far stand for trees that rest on these. The line stands as before.
#[cycle(play)]
fn replay_outline(
    alloc: Global,
    o: &Outline,
    s: Side,
    line: &mut Line,
    names: &mut Vec<Option<PositionFootprint>>,
) -> Result<ReplayResult, NoMemory>
    requires orderly { IsOutlineInOrder line.old.frame.size (outline_of o.now) }
    ensures found { IfOk result
        (λ r. IsReplayOfOutline s line.old.frame names.old.items (outline_of o.now) line.old.state r names.new.items) }
    ensures same { line.new ≡ line.old }
{
    match o {
        Outline::Done => result_of_done(alloc, s, line),
        Outline::Part(k) => match names.get(*k) {
            Some(name) => result_of_part(name, line),
            None => Ok(ReplayResult::Unfit),
        },
        Outline::Pick(named, turn, child) => {
            let found = replay_pick(alloc, *turn, child, s, line, names)?;
            put_footprint_if_named(*named, &found, names)?;
            Ok(found)
        }
        Outline::Reply(named, list) => {
            let found = replay_reply(alloc, list, s, line, names)?;
            put_footprint_if_named(*named, &found, names)?;
            Ok(found)
        }
    }
}

/// Whether the tree wins on which this is found, where that is known.
fn answer_of_result(found: &ReplayResult) -> Option<bool>
    ensures { result ≡ wins_if_fit found.now }
{
    match found {
        ReplayResult::Won(_) => Some(true),
        ReplayResult::Lost => Some(false),
        ReplayResult::Unfit => None,
    }
}

/// Whether the outline's tree wins for the side from the line's state, where it may end at life; none exactly where a part doesn't fit
/// the history where it stands in for its tree. Each part is played once. The outline's turns are in order. The line stands as before,
/// also after want of memory.
pub fn replay_shared_cert(
    alloc: Global,
    o: &Outline,
    s: Side,
    line: &mut Line,
) -> Result<Option<bool>, NoMemory>
    requires { IsOutlineInOrder line.old.frame.size (outline_of o.now) }
    ensures parts { IfOk result (IsOutlineAnswer s line.old.frame (outline_of o.now) line.old.state) }
    ensures exact { IfOk result
        (λ answer. IfSome answer (λ wins. IsTrue wins
        ↔ WinsOrLives s line.old.frame (unfolded [] (outline_of o.now)) line.old.state)) }
    ensures same { line.new ≡ line.old }
{
    let mut names = Vec::new(alloc);
    let found = replay_outline(alloc, o, s, line, &mut names)?;
    Ok(answer_of_result(&found))
}
