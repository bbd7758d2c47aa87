//! Threats of life. Where the defender could make the targets live at once, the attacker has to play there first: all other turns that
//! take nothing are refuted by the same play.
//!
//! In unconditional life (Benson) a stone of the attacker counts as an empty point does. So whether a play makes life depends on the
//! defender's stones alone, which few turns change, and mostly it is known already. 171 problems of real games took 0.71 of the time that
//! they took where each threat was played out, in one run.
//!
//! That a threat leaves few turns worth a look is in A. Kishimoto, M. Müller, "Search versus Knowledge for Solving Life and Death
//! Problems in Go", 2005; such a set of turns is a relevance zone (C.-C. Shih, T.-R. Wu, T. H. Wei, I-C. Wu, "A Novel Approach to
//! Solving Goal-Achieving Problems for Board Games", 2022).

use crate::finder::board::{CELLS, PlayPreview, SearchTurn, index};
use crate::finder::region::PointFlags;
use crate::finder::search::{Child, Finder, Hashes, Stop, hashes_of};
use crate::finder::transpositions::{LOST, ProofNumbers, WON};
use tt_board::Colour;

impl Finder {
    /// Whether the targets live unconditionally where the board stands.
    pub(crate) fn are_targets_alive(&mut self) -> bool {
        let key = self.region.life_key(&self.board);
        if let Some(lives) = self.life.known.find(key) {
            return lives;
        }
        let lives = self.region.see_life(&self.board, &mut self.life);
        self.life.known.keep(key, lives);
        lives
    }

    /// Sees which areas are touched where the board stands, by the key of its life.
    #[inline]
    fn see_touched_areas(&mut self, key: u64) {
        if self.life.touched_key != key {
            self.region.see_life(&self.board, &mut self.life);
            self.life.note_touched_areas(key);
        }
    }

    /// Whether each point that is reached from one where no eye ends touches a stone of the defender, one on `p` too.
    fn is_part_touched(&self, start: u16, p: u16, seen: &mut PointFlags) -> bool {
        let mut points = [start; CELLS];
        let mut end = 1usize;
        seen[index(start)] = true;
        for k in 0..CELLS {
            if k >= end {
                break;
            }
            let beside = self.board.beside(points[k]);
            let mut is_touched = false;
            for j in 0..4 {
                let q = beside[j];
                if q == p || self.board.holds(self.region.defender, q) {
                    is_touched = true;
                } else if self.board.is_outside(q) || seen[index(q)] {
                    continue;
                } else if self.region.open[index(q)] {
                    return false;
                } else {
                    seen[index(q)] = true;
                    points[end % CELLS] = q;
                    end = end.saturating_add(1);
                }
            }
            if !is_touched {
                return false;
            }
        }
        true
    }

    /// Whether an eye of the defender may hold a cell.
    #[inline(always)]
    fn may_be_in_eye(&self, q: u16) -> bool {
        !self.board.is_outside(q)
            && !self.board.holds(self.region.defender, q)
            && !self.region.open[index(q)]
    }

    /// Whether the defender's play on an empty point may make life. It has to leave two areas each of whose points touches a chain.
    fn may_make_life(&self, p: u16) -> bool {
        let touched = &self.life.touched;
        let mut count = touched
            .count
            .saturating_sub(usize::from(touched.points[index(p)]));
        let mut seen: PointFlags = [false; CELLS];
        seen[index(p)] = true;
        let beside = self.board.beside(p);
        for k in 0..4 {
            let q = beside[k];
            if count >= 2 {
                break;
            }
            if self.may_be_in_eye(q) && !seen[index(q)] && self.is_part_touched(q, p, &mut seen) {
                count = count.saturating_add(1);
            }
        }
        count >= 2
    }

    /// Whether the targets live behind a legal play of the defender, where the board's life has this key.
    #[inline(never)]
    fn do_targets_live_behind(&mut self, key: u64, p: u16, effect: &PlayPreview) -> bool {
        let me = self.region.defender;
        if effect.captures == 0 || self.region.has_no_loose_stone() {
            self.see_touched_areas(key);
            if !self.may_make_life(p) {
                self.life
                    .known
                    .keep(key ^ self.board.key_of_stone(me, p), false);
                return false;
            }
        }
        if self.board.play(me, p).is_err() {
            self.stop_search(Stop::NoMemory);
            return false;
        }
        let lives = self.are_targets_alive();
        self.board.unplay();
        lives
    }

    /// Whether the defender's play on a point makes life, where the board's life has this key.
    #[inline]
    fn makes_life(&mut self, key: u64, p: u16) -> bool {
        let me = self.region.defender;
        if !self.board.is_empty_point(p) || !self.board.has_stone_beside(me, p) {
            return false;
        }
        let known = if self.region.has_no_loose_stone() {
            self.life.known.find(key ^ self.board.key_of_stone(me, p))
        } else {
            None
        };
        if known == Some(false) {
            return false;
        }
        let effect = self.board.preview_play(me, p);
        if effect.is_suicide || self.board.history().has(effect.hash) {
            return false;
        }
        known == Some(true) || self.do_targets_live_behind(key, p, &effect)
    }

    /// The defender's first play behind which the targets live at once.
    pub(crate) fn play_to_life(&mut self) -> Option<u16> {
        let key = self.region.life_key(&self.board);
        for k in 0..self.region.points.len() {
            let p = self.region.point(k);
            if self.makes_life(key, p) {
                return Some(p);
            }
        }
        None
    }

    /// Settles a position that wasn't searched yet, where it can be seen at once: the attacker has lost where the targets live, and the
    /// defender wins by a play that makes them live. Then its turns needn't be listed. It isn't inlined, so that it takes no stack at
    /// each level.
    #[inline(never)]
    pub(crate) fn settle_by_life(&mut self, mover: Colour, hashes: Hashes) -> Option<ProofNumbers> {
        if !self.is_new(hashes) {
            return None;
        }
        let (numbers, turn) = if mover == self.region.defender {
            (WON, Some(SearchTurn::Play(self.play_to_life()?)))
        } else if self.are_targets_alive() {
            (LOST, None)
        } else {
            return None;
        };
        self.keep_entry(hashes, numbers, turn, 1);
        Some(numbers)
    }

    /// Whether the defender's play on a point makes life behind the attacker's play too.
    fn is_answered(&mut self, attacker: Colour, play: u16, p: u16) -> bool {
        if self.board.play(attacker, play).is_err() {
            self.stop_search(Stop::NoMemory);
            return false;
        }
        let key = self.region.life_key(&self.board);
        let lives = self.makes_life(key, p);
        self.board.unplay();
        lives
    }

    /// Refutes the attacker's turns elsewhere that take nothing, by the defender's play that makes life; how many are left. What is
    /// known of them is kept, so that their positions need no visit.
    fn refute_elsewhere(&mut self, attacker: Colour, defence: u16, list: &mut Vec<Child>) -> usize {
        let mut left = 0usize;
        for k in 0..list.len() {
            let child = list[k];
            let SearchTurn::Play(p) = child.turn else {
                continue;
            };
            if child.numbers.proof == 0 {
                continue;
            }
            let effect = self.board.preview_play(attacker, p);
            if p == defence
                || effect.captures > 0
                || effect.is_suicide
                || !self.is_answered(attacker, p, defence)
            {
                left = left.saturating_add(1);
                continue;
            }
            list[k].numbers = WON;
            let hashes = hashes_of(effect.hash, attacker.other(), 0);
            self.keep_position(hashes.position, WON, Some(SearchTurn::Play(defence)), 1);
        }
        left
    }

    /// Refutes the attacker's turns that leave the defender a life at once, at a position that wasn't searched yet.
    #[inline(never)]
    pub(crate) fn refute_by_threats(
        &mut self,
        mover: Colour,
        hashes: Hashes,
        list: &mut Vec<Child>,
    ) {
        if mover == self.region.defender || !self.prunes || !self.is_new(hashes) {
            return;
        }
        let key = self.region.life_key(&self.board);
        for k in 0..self.region.points.len() {
            let p = self.region.point(k);
            if self.makes_life(key, p) && self.refute_elsewhere(mover, p, list) == 0 {
                break;
            }
        }
    }
}
