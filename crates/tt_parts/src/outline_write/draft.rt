//! The draft of a certificate with shared parts. A tree is walked at its line; where a kept tree wins, a part stands for it,
//! whatever tree the walk has there. No contract speaks of what a draft says.

ghost use Rattle.std.specs.Prelude.{◌≡◌, OnOk};
ghost use Rattle.tt_proof.specs.KeptFootprints.{IsBoardAfter};
ghost use Rattle.tt_proof.specs.Strategy.{strategy_of, entries_of_reply, IsInOrder, AreInOrder, IsTurnOnBoardOfSize};

use crate::outline_write::kept_trees::{KeptTrees, TreeFacts};
use crate::position_footprint::PositionFootprint;
use std::alloc::Global;
use tt_board::Board;
use tt_game::{Line, Refused, Side, Turn};
use tt_proof::{Tree, put_turn};
use tt_sgf::NoMemory;

/// A text whose names are still open: `=` stands in front of each tree that is more than a leaf, and `*` for each part. `marked`
/// has the indices of these trees, in the order of the signs.
#[derive(Drop)]
pub(crate) struct Draft {
    text: Vec<u8>,
    marked: Vec<usize>,
    kept: KeptTrees,
    most_bytes: usize,
}

impl Draft {
    /// That of a tree at a line; none where the tree doesn't win there, or more bytes or turns on a way down are needed.
    pub(crate) fn of(
        alloc: Global,
        t: &Tree,
        line: &mut Line,
        most_depth: u16,
        most_bytes: usize,
    ) -> Result<Option<Draft>, NoMemory>
        requires { IsInOrder line.old.frame.size (strategy_of t.now) }
    {
        let mut draft = Draft {
            text: Vec::new(alloc),
            marked: Vec::new(alloc),
            kept: KeptTrees::new(alloc)?,
            most_bytes,
        };
        match walk(alloc, t, most_depth, line, &mut draft)? {
            Some(_) => Ok(Some(draft)),
            None => Ok(None),
        }
    }

    /// Whether the text is too long, even if no tree has a name.
    fn is_too_long(&self) -> bool {
        self.text.len().saturating_sub(self.marked.len()) > self.most_bytes
    }

    /// Writes a leaf, where the side has won or lives.
    fn put_done(&mut self, alloc: Global, line: &Line) -> Result<Option<TreeFacts>, NoMemory> {
        self.text.push(b'.')?;
        Ok(Some(TreeFacts {
            basis: PositionFootprint::of(alloc, line)?,
            depth: 0,
        }))
    }

    /// Writes the part that stands for the tree at the index.
    fn put_part(&mut self, index: usize) -> Result<Option<TreeFacts>, NoMemory> {
        self.text.push(b'*')?;
        self.marked.push(index)?;
        self.kept.use_part(index)
    }

    /// Begins a tree, and answers where its index stands in the list.
    fn begin_tree(&mut self, byte: u8) -> Result<usize, NoMemory> {
        let number = self.marked.len();
        self.text.push(b'=')?;
        self.marked.push(0)?;
        self.text.push(byte)?;
        Ok(number)
    }

    /// Ends the tree whose index stands there in the list. The line stands where the tree begins.
    fn end_tree(
        &mut self,
        number: usize,
        line: &Line,
        written: Option<TreeFacts>,
    ) -> Result<Option<TreeFacts>, NoMemory> {
        let Some(written) = written else {
            return Ok(None);
        };
        let index = self.kept.keep(line, &written)?;
        if let Some(kept_index) = self.marked.get_mut(number) {
            *kept_index = index;
        }
        Ok(Some(written))
    }

    /// Writes the name of a part, or `=` in front of a tree that a part stands for.
    fn put_part_or_name_sign(
        &self,
        alloc: Global,
        out: &mut Vec<u8>,
        byte: u8,
        index: usize,
        names: &Vec<usize>,
    ) -> Result<(), NoMemory> {
        if byte == b'*' {
            let name = match names.get(index) {
                Some(name) => *name,
                None => 0,
            };
            let text = format!(in alloc; "*{name}")?;
            out.extend_from_slice(text.as_bytes())?;
        } else if self.kept.is_used(index) {
            out.push(b'=')?;
        }
        Ok(())
    }

    /// The text for the side, in which the trees have names that parts stand for.
    pub(crate) fn text(&self, alloc: Global, s: Side) -> Result<Vec<u8>, NoMemory> {
        let names = self.kept.part_names(alloc)?;
        let mut out = Vec::new(alloc);
        out.extend_from_slice(s.verdict_word())?;
        out.push(b' ')?;
        let mut number = 0usize;
        for byte in &self.text {
            if *byte != b'=' && *byte != b'*' {
                out.push(*byte)?;
            } else if let Some(index) = self.marked.get(number) {
                self.put_part_or_name_sign(alloc, &mut out, *byte, *index, &names)?;
                number = number.saturating_add(1);
            }
        }
        Ok(out)
    }
}

/// What is known of the pick of the turn, which leads to the board, by what is known behind it.
fn written_pick(
    alloc: Global,
    line: &Line,
    turn: &Turn,
    board: &Board,
    behind: TreeFacts,
) -> Result<TreeFacts, NoMemory>
    requires { IsBoardAfter line.now.frame line.now.state turn.now board.now }
{
    let TreeFacts { basis, depth } = behind;
    Ok(TreeFacts {
        basis: basis.picked(alloc, line, turn, board)?,
        depth: depth.saturating_add(1),
    })
}

/// What is known of a reply with one branch more, whose turn leads to the board.
fn written_with_branch(
    alloc: Global,
    line: &Line,
    turn: &Turn,
    board: &Board,
    before: TreeFacts,
    behind: TreeFacts,
) -> Result<TreeFacts, NoMemory>
    requires { IsBoardAfter line.now.frame line.now.state turn.now board.now }
{
    let TreeFacts { basis, depth } = behind;
    let TreeFacts {
        basis: others,
        depth: most,
    } = before;
    let basis = basis.before_opposing_turn(alloc, line, turn, board)?;
    Ok(TreeFacts {
        basis: others.joined(alloc, basis)?,
        depth: most.max(depth.saturating_add(1)),
    })
}

/// Writes the branch of a turn, where the turn is legal, and answers what is known of the reply with it.
#[cycle(walk)]
fn walk_branch(
    alloc: Global,
    turn: Turn,
    child: &Tree,
    left: u16,
    line: &mut Line,
    draft: &mut Draft,
    before: TreeFacts,
) -> Result<Option<TreeFacts>, NoMemory>
    requires on_board { IsTurnOnBoardOfSize line.old.frame.size turn }
    requires in_order { IsInOrder line.old.frame.size (strategy_of child.now) }
    ensures same { OnOk result (line.new ≡ line.old) }
{
    if left == 0 || draft.is_too_long() {
        return Ok(None);
    }
    put_turn(&mut draft.text, turn, line.frame().size)?;
    match line.push(turn) {
        Ok(()) => {
            let board = line.present().copy();
            let behind = walk(alloc, child, left - 1, line, draft)?;
            line.pop();
            match behind {
                Some(behind) => Ok(Some(written_with_branch(
                    alloc, line, &turn, &board, before, behind,
                )?)),
                None => Ok(None),
            }
        }
        Err(Refused::Illegal(_)) => {
            let _ = draft.text.pop();
            let _ = draft.text.pop();
            Ok(Some(before))
        }
        Err(Refused::NoMemory) => Err(NoMemory),
    }
}

#[cycle(walk)]
fn walk_reply(
    alloc: Global,
    list: &[(Turn, Tree)],
    left: u16,
    line: &mut Line,
    draft: &mut Draft,
) -> Result<Option<TreeFacts>, NoMemory>
    requires in_order { AreInOrder line.old.frame.size 0 (entries_of_reply list.now) }
    ensures same { OnOk result (line.new ≡ line.old) }
{
    let mut written = TreeFacts {
        basis: PositionFootprint::of_empty_reply(alloc, line)?,
        depth: 0,
    };
    for (turn, child) in list {
        match walk_branch(alloc, *turn, child, left, line, draft, written)? {
            Some(more) => written = more,
            None => return Ok(None),
        }
    }
    draft.text.push(b';')?;
    Ok(Some(written))
}

#[cycle(walk)]
fn walk_pick(
    alloc: Global,
    turn: Turn,
    child: &Tree,
    left: u16,
    line: &mut Line,
    draft: &mut Draft,
) -> Result<Option<TreeFacts>, NoMemory>
    requires on_board { IsTurnOnBoardOfSize line.old.frame.size turn }
    requires in_order { IsInOrder line.old.frame.size (strategy_of child.now) }
    ensures same { OnOk result (line.new ≡ line.old) }
{
    if left == 0 || draft.is_too_long() {
        return Ok(None);
    }
    put_turn(&mut draft.text, turn, line.frame().size)?;
    match line.push(turn) {
        Ok(()) => {
            let board = line.present().copy();
            let behind = walk(alloc, child, left - 1, line, draft)?;
            line.pop();
            match behind {
                Some(behind) => Ok(Some(written_pick(alloc, line, &turn, &board, behind)?)),
                None => Ok(None),
            }
        }
        Err(Refused::Illegal(_)) => Ok(None),
        Err(Refused::NoMemory) => Err(NoMemory),
    }
}

/// Writes the tree, which stands at the line, or a part for a kept tree that wins there. Where it is written the line stands as
/// before.
#[cycle(walk)]
fn walk(
    alloc: Global,
    t: &Tree,
    left: u16,
    line: &mut Line,
    draft: &mut Draft,
) -> Result<Option<TreeFacts>, NoMemory>
    requires in_order { IsInOrder line.old.frame.size (strategy_of t.now) }
    ensures same { OnOk result (line.new ≡ line.old) }
{
    if let Some(index) = draft.kept.find_winning_index(line, left) {
        return draft.put_part(index);
    }
    match t {
        Tree::Done => draft.put_done(alloc, line),
        Tree::Pick(turn, child) => {
            let number = draft.begin_tree(b'!')?;
            let written = walk_pick(alloc, *turn, child, left, line, draft)?;
            draft.end_tree(number, line, written)
        }
        Tree::Reply(list) => {
            let number = draft.begin_tree(b'?')?;
            let written = walk_reply(alloc, list, left, line, draft)?;
            draft.end_tree(number, line, written)
        }
    }
}
