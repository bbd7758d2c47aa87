//! Colourings kept by their differences: those of one game differ from one another by few stones and what these captured.

ghost use Rattle.std.specs.Prelude.{◌≡◌, ◌+◌, ◌<◌, ◌≤◌, ◌↔◌, [], length, take, IsTrue, IfOk, OnOk, OnErr, MatchOption};
ghost use Rattle.tt_sgf.specs.declared.size.TheConstants.{MOST_POINTS};
ghost use Rattle.tt_board.specs.Position.{Colouring as Entries};
ghost use Rattle.tt_board.specs.inside.Differences.{edited, colourings_from};
ghost use Rattle.tt_board.specs.inside.Boards.{edit_at, edit_of, led, IsLed, IsHalf, AreAlikeBy, FinishesNext, IsLast};
ghost use Rattle.tt_board.specs.declared.boards.differences.TheConstants.{EDIT_KIND_STRIDE};

use crate::Colour;
use crate::colouring::Colouring;
use std::alloc::{AllocError, Global};
use std::marker::Model;
use tt_sgf::NoMemory;

/// An edit on the way from a colouring to the next one: what the point of this number holds from then on.
#[derive(Clone, Copy)]
enum Edit {
    Black(u16),
    White(u16),
    Empty(u16),
    /// The next colouring is whole.
    Whole,
}

/// How many numbers there are for the points of each kind of edit.
const EDIT_KIND_STRIDE: u16 = 512;

/// An edit in two bytes: its kind so many times `EDIT_KIND_STRIDE`, and its point. Contracts see the edit.
#[derive(Drop)]
struct EditWord(u16);

impl Model for EditWord {
    ghost use Rattle.std.specs.Prelude.{◌/◌, ◌%◌};
    ghost use Rattle.tt_board.specs.declared.boards.differences.Edit.{Edit};
    ghost use Rattle.tt_board.specs.declared.boards.differences.TheConstants.{EDIT_KIND_STRIDE};
    ghost use Rattle.tt_board.specs.inside.Boards.{edit_at};

    ghost Value = { Edit };

    ghost view = { λ s. edit_at (s.0 / EDIT_KIND_STRIDE) (s.0 % EDIT_KIND_STRIDE) };
}

impl EditWord {
    /// The edit of this kind at a point.
    fn new(kind: u16, p: u16) -> EditWord
        requires kind { kind < 4 }
        requires point { p < EDIT_KIND_STRIDE }
        ensures { result ≡ edit_at kind p }
    {
        EditWord(kind * EDIT_KIND_STRIDE + p)
    }

    /// The edit that it stands for.
    fn edit(&self) -> Edit
        ensures { result ≡ self.now }
    {
        let p = self.0 % EDIT_KIND_STRIDE;
        match self.0 / EDIT_KIND_STRIDE {
            0 => Edit::Black(p),
            1 => Edit::White(p),
            2 => Edit::Empty(p),
            _ => Edit::Whole,
        }
    }

    /// Whether it is the same word, where those before were alike.
    fn same_and_all_before(&self, other: &EditWord, before: bool) -> bool
        ensures words { IsTrue result → self.now ≡ other.now }
        ensures before { IsTrue result → IsTrue before }
    {
        self.0 == other.0 && before
    }
}

/// Colourings of boards of one size, in a few bytes for each: the first is kept by how it differs from a base, which every
/// call is given anew and which isn't kept, each other one by how it differs from the one before it. Contracts see the
/// edits; `colourings_from` a base says which colourings they are.
#[derive(Drop)]
pub(crate) struct Differences {
    edits: Vec<EditWord>,
}

impl Model for Differences {
    ghost use Rattle.std.specs.Prelude.{List};
    ghost use Rattle.tt_board.specs.declared.boards.differences.Edit.{Edit};

    ghost Value = { List Edit };

    ghost view = { λ d. d.edits.items };
}

/// The edit that puts an entry on a point.
fn edit_of(p: u16, entry: Option<Colour>) -> EditWord
    requires { p < EDIT_KIND_STRIDE }
    ensures { result ≡ edit_of p entry }
{
    match entry {
        Some(Colour::Black) => EditWord::new(0, p),
        Some(Colour::White) => EditWord::new(1, p),
        None => EditWord::new(2, p),
    }
}

/// Makes an edit.
fn apply_edit(points: &mut Colouring, edit: Edit)
    ensures { points.new ≡ edited points.old edit }
{
    let (number, entry) = match edit {
        Edit::Black(number) => (number, Some(Colour::Black)),
        Edit::White(number) => (number, Some(Colour::White)),
        Edit::Empty(number) => (number, None),
        Edit::Whole => return,
    };
    let p = usize::from(number);
    if p < points.len() {
        points.set(p, entry);
    }
}

/// Adds the edits of the points from one on that a word stands for: one for each point whose bit is 1. Where memory is refused,
/// some of them may stand behind those of before.
fn push_word_edits(
    edits: &mut Vec<EditWord>,
    there: &Colouring,
    from: usize,
    word: u64,
) -> Result<(), AllocError>
    requires { from ≤ MOST_POINTS }
    ensures half { OnOk result ((here c : Entries)
        → length here ≡ length there.now → AreAlikeBy word from here there.now
        → IsHalf here there.now from (led c edits.old.items)
        → IsHalf here there.now (from + 64) (led c edits.new.items)) }
    ensures colourings { OnOk result ((c : Entries)
        → colourings_from c edits.new.items ≡ colourings_from c edits.old.items) }
    ensures kept { take (length edits.old.items) edits.new.items ≡ edits.old.items }
{
    let mut rest = word;
    let mut p = from;
    while rest != 0 {
        let skipped = rest.trailing_zeros();
        p += skipped as usize;
        if p >= there.len() {
            return Ok(());
        }
        edits.push(edit_of(p as u16, there.at(p)))?;
        p += 1;
        rest = rest >> skipped >> 1;
    }
    Ok(())
}

/// Adds the edits that lead from a colouring to another one of as many points: it goes by the words of both, since most of them
/// are the same. Where memory is refused, some of the edits may stand behind those of before.
fn push_edits(
    edits: &mut Vec<EditWord>,
    here: &Colouring,
    there: &Colouring,
) -> Result<(), AllocError>
    requires { length here.now ≡ length there.now }
    ensures ok { OnOk result (IsLed edits.old.items edits.new.items here.now there.now) }
    ensures kept { take (length edits.old.items) edits.new.items ≡ edits.old.items }
{
    let words = here.differing_points(there).words();
    let used = (here.len() + 63) / 64;
    for k in 0..used {
        push_word_edits(edits, there, 64 * k, words[k])?;
    }
    edits.push(EditWord::new(3, 0))?;
    Ok(())
}

impl Differences {
    /// None at all, with room for so many edits.
    pub(crate) fn with_capacity(alloc: Global, edits: usize) -> Result<Differences, NoMemory>
        ensures { IfOk result (λ d. d ≡ []) }
    {
        Ok(Differences {
            edits: Vec::with_capacity(alloc, edits)?,
        })
    }

    /// Gives back memory that isn't needed.
    pub(crate) fn shrink_to_fit(&mut self)
        ensures { self.new ≡ self.old }
    {
        self.edits.shrink_to_fit();
    }

    /// Adds a colouring behind the last one, which is `here`; without memory it is as it was.
    pub(crate) fn push(&mut self, here: &Colouring, there: &Colouring) -> Result<(), NoMemory>
        requires { length here.now ≡ length there.now }
        ensures ok { OnOk result (IsLed self.old self.new here.now there.now) }
        ensures err { OnErr result (self.new ≡ self.old) }
    {
        let before = self.edits.len();
        if push_edits(&mut self.edits, here, there).is_err() {
            self.edits.truncate(before);
            return Err(NoMemory);
        }
        Ok(())
    }

    /// Leads a colouring on to the next one, from an edit on: behind which edit the others begin, or none where no
    /// other is.
    pub(crate) fn apply_next(&self, from: usize, points: &mut Colouring) -> Option<usize>
        requires { from ≤ length self.now }
        ensures next { MatchOption result (IsLast self.now from points.old points.new)
            (λ to. FinishesNext self.now from to points.old points.new) }
        ensures fits { length points.new ≡ length points.old }
    {
        let mut at = from;
        while at < self.edits.len() {
            let edit = self.edits[at].edit();
            at += 1;
            if let Edit::Whole = edit {
                return Some(at);
            }
            apply_edit(points, edit);
        }
        None
    }

    /// True only where these are the same edits. No colouring is made for it.
    pub(crate) fn same_edits(&self, other: &Differences) -> bool
        ensures { IsTrue result → self.now ≡ other.now }
    {
        if self.edits.len() != other.edits.len() {
            return false;
        }
        let mut same = true;
        for k in 0..self.edits.len() {
            same = self.edits[k].same_and_all_before(&other.edits[k], same);
        }
        same
    }

    /// Whether there are no edits.
    pub(crate) fn is_empty(&self) -> bool
        ensures { IsTrue result ↔ (self.now ≡ []) }
    {
        self.edits.is_empty()
    }

    /// Where the edits lead to from a base.
    pub(crate) fn apply_all(&self, base: &Colouring) -> Colouring
        ensures { result ≡ led base.now self.now }
    {
        let mut points = base.copy();
        for edit in &self.edits {
            apply_edit(&mut points, edit.edit());
        }
        points
    }
}
