//! The answer that stands behind a problem, and its words.
use crate::certificates::{put_no_certificate, read_strategy};
use crate::endings::{has_ended, put_ending};
use crate::main_lines::{main_line, make_turns};
use crate::picture::colour_name;
use crate::points::{PointForm, put_point};
use crate::shown::ShowFault;
use std::alloc::Global;
use std::io::Write;
use tt_game::{Line, Side, Turn};
use tt_proof::Tree;
use tt_sgf::{PointOrPass, Size, has_tree, point, trim};

/// What stands behind a problem: strategies in which the side to move plays first, and the first turns that win or fail by them, or by
/// the lines of `solve --turns`, each once.
#[derive(Drop)]
pub struct Answers {
    pub strategies: Vec<(Side, Tree)>,
    pub first_turns: Vec<(Turn, bool)>,
    is_open: bool,
    is_text: bool,
}

/// The turn at the beginning of a line, and the words behind it.
fn turn_and_words(line: &[u8], size: Size) -> Option<(Turn, &[u8])> {
    let (turn, words) = match line.strip_prefix(b"pass ") {
        Some(words) => (Turn::Pass, words),
        None => match point(line.get(..2)?, size)? {
            PointOrPass::On(point) => (Turn::Play(point), line.get(2..)?),
            PointOrPass::Pass => return None,
        },
    };
    let words = trim(words);
    if words.is_empty() {
        None
    } else {
        Some((turn, words))
    }
}

impl Answers {
    fn add_first_turn(&mut self, turn: Turn, wins: bool) -> Result<(), ShowFault> {
        if !self.first_turns.iter().any(|known| known.0 == turn) {
            self.first_turns.push((turn, wins))?;
        }
        Ok(())
    }

    /// Adds a strategy that begins with a turn of the side to move: its own, or one that it answers.
    fn add_strategy(&mut self, mover: Side, side: Side, tree: Tree) -> Result<(), ShowFault> {
        if (mover == side) != tree.first().is_some() {
            return Ok(());
        }
        match &tree {
            Tree::Done => {}
            Tree::Pick(turn, _) => self.add_first_turn(*turn, true)?,
            Tree::Reply(list) => {
                for (turn, _) in list.as_slice() {
                    self.add_first_turn(*turn, false)?;
                }
            }
        }
        Ok(self.strategies.push((side, tree))?)
    }

    /// Adds what a line says, without blanks in front and behind.
    fn add_line(&mut self, alloc: Global, problem: &Line, line: &[u8]) -> Result<(), ShowFault> {
        let size = problem.frame().size;
        let mover = problem.to_move();
        if let Some((side, tree)) = read_strategy(alloc, line, size)? {
            return self.add_strategy(mover, side, tree);
        }
        let Some((turn, words)) = turn_and_words(line, size) else {
            return Ok(());
        };
        if words == mover.verdict_word() {
            return self.add_first_turn(turn, true);
        }
        if words == mover.opponent().verdict_word() {
            return self.add_first_turn(turn, false);
        }
        self.is_open = true;
        Ok(())
    }

    /// Whether text stands there that is no answer.
    pub fn is_vain(&self) -> bool {
        self.is_text && self.strategies.is_empty() && self.first_turns.is_empty()
    }

    /// Who wins, where that is known.
    fn winner(&self, mover: Side) -> Option<Side> {
        if let Some((side, _)) = self.strategies.first() {
            Some(*side)
        } else if self.first_turns.iter().any(|first| first.1) {
            Some(mover)
        } else if self.first_turns.is_empty() || self.is_open {
            None
        } else {
            Some(mover.opponent())
        }
    }

    /// Writes who moves, and who wins, where that is known, behind the text.
    pub fn put_verdict(&self, out: &mut Vec<u8>, line: &Line) -> Result<(), ShowFault> {
        let mover = line.to_move();
        let name = colour_name(line.frame().colour_of(mover));
        write!(out, "{name} to play")?;
        let Some(winner) = self.winner(mover) else {
            return Ok(());
        };
        let colour = colour_name(line.frame().colour_of(winner));
        let verb = match winner {
            Side::Attacker => "kill",
            Side::Defender => "live",
        };
        if winner == mover {
            return Ok(write!(out, " and {verb}")?);
        }
        Ok(write!(out, ": {colour} {verb}s")?)
    }

    /// Writes a line of the first turns that win, or that fail, behind the text, where there are such.
    fn put_first_turns(
        &self,
        out: &mut Vec<u8>,
        size: Size,
        winning: bool,
        words: &[u8],
    ) -> Result<(), ShowFault> {
        let start = out.len();
        for (turn, wins) in self.first_turns.as_slice() {
            if *wins == winning {
                if out.len() == start {
                    out.extend_from_slice(words)?;
                }
                put_turn_name(out, size, *turn)?;
            }
        }
        Ok(())
    }

    /// Writes the answer in words behind the text: who moves, who wins, which first turns win, and which fail.
    pub fn put_words(&self, out: &mut Vec<u8>, line: &Line) -> Result<(), ShowFault> {
        self.put_verdict(out, line)?;
        out.push(b'.')?;
        let size = line.frame().size;
        self.put_first_turns(out, size, true, b"\nWins:")?;
        self.put_first_turns(out, size, false, b"\nFails:")
    }
}

/// Writes a blank and the name of a turn, as editors have it, behind the text.
fn put_turn_name(out: &mut Vec<u8>, size: Size, turn: Turn) -> Result<(), ShowFault> {
    match turn {
        Turn::Play(point) => {
            if size.holds(point) {
                put_point(out, size, point, PointForm::Editor)?;
            }
            Ok(())
        }
        Turn::Pass => Ok(out.extend_from_slice(b" pass")?),
    }
}

/// The answer that stands behind a problem, line by line; none where a tree may follow.
pub fn read_answers(alloc: Global, problem: &Line, behind: &[u8]) -> Result<Answers, ShowFault> {
    let mut found = Answers {
        strategies: Vec::new(alloc),
        first_turns: Vec::new(alloc),
        is_open: false,
        is_text: false,
    };
    if has_tree(behind) {
        return Ok(found);
    }
    for line in behind.split(|byte| *byte == b'\n') {
        found.add_line(alloc, problem, trim(line))?;
    }
    found.is_text = !trim(behind).is_empty();
    Ok(found)
}

/// Writes the main line of a strategy, and how it ends, behind the text.
fn put_main_line(
    alloc: Global,
    out: &mut Vec<u8>,
    line: &Line,
    tree: &Tree,
) -> Result<(), ShowFault> {
    let turns = main_line(alloc, line, tree)?;
    if !turns.is_empty() {
        out.extend_from_slice(b"Main line:")?;
        for turn in turns.as_slice() {
            put_turn_name(out, line.frame().size, *turn)?;
        }
        out.push(b'\n')?;
    }
    let mut end = line.try_clone()?;
    make_turns(&mut end, turns.as_slice())?;
    if has_ended(&end) {
        put_ending(out, &end)?;
        out.extend_from_slice(b".\n")?;
    }
    Ok(())
}

/// Writes the lines on what stands behind a problem behind the text: the answer in words, and the main line of each strategy.
pub fn put_answer_lines(
    alloc: Global,
    out: &mut Vec<u8>,
    line: &Line,
    behind: &[u8],
) -> Result<(), ShowFault> {
    let found = read_answers(alloc, line, behind)?;
    if found.is_vain() {
        return put_no_certificate(alloc, out, behind, line.frame().size);
    }
    if !found.is_text {
        return Ok(());
    }
    found.put_words(out, line)?;
    out.push(b'\n')?;
    for (_, tree) in found.strategies.as_slice() {
        put_main_line(alloc, out, line, tree)?;
    }
    Ok(())
}
