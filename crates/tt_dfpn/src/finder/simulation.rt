//! Simulation: where a turn was refuted, the same replies mostly refute the turns beside it too, and are tried there before these are
//! searched (Y. Kawano, "Using Similar Positions to Search Game Trees", 1996; A. Kishimoto, M. Müller, "Search versus Knowledge for
//! Solving Life and Death Problems in Go", 2005).
//!
//! The position behind the refuted turn and the same turns is the twin. Its hash differs by one change from the hash here, as long as
//! the turns take the same at both: so it needs no board of its own. Where it isn't in the table, the simulation ends.
//!
//! It fails where a play of the loser is left out since that repeats a board: such a refutation holds on few other lines. Where these
//! were kept, one problem took 3.2 s instead of 0.08 s, since at many lines no proof was found by them.
//!
//! Whole runs of 46 problems of real games took 0.76 of the time that they took without simulations, and those of 97 made ones 0.96,
//! with certificates 1.03 to 1.07 times as long. Where turns were also refuted as those that are known to be before a position is
//! searched, these were 0.71, 0.97 and 1.17.

ghost use Rattle.std.specs.Prelude.{◌≤◌};

use crate::advice::VisitsLeft;
use crate::finder::board::SearchTurn;
use crate::finder::search::{Child, Finder, Hashes, Listed, Stop};
use crate::finder::transpositions::{LOST, WON};
use tt_board::Colour;

/// How many replies a simulation tries. Each is a visit. With 20, 60 and 150 whole runs of 46 problems took 0.88, 0.76 and 0.86 of the
/// time that they took without simulations.
const MOST_SIMULATED_REPLIES: u32 = 60;

/// A simulation: by what the twin's hash differs from the hash here, and that it ends where no more visits are left than these.
#[derive(Clone, Copy)]
struct Simulation {
    change: u64,
    reserve: u32,
}

impl Finder {
    /// By what a turn changes the hash of a position, where it takes nothing.
    fn change_by_turn(&self, mover: Colour, turn: SearchTurn) -> Option<u64> {
        let SearchTurn::Play(p) = turn else {
            return Some(0);
        };
        let effect = self.board.preview_play(mover, p);
        if effect.captures > 0 || effect.is_suicide {
            None
        } else {
            Some(self.board.key_of_stone(mover, p))
        }
    }

    /// Refutes the turns of a list as this one was refuted.
    #[inline(never)]
    pub(crate) fn refute_alike(
        &mut self,
        mover: Colour,
        refuted: SearchTurn,
        list: &mut Vec<Child>,
        visits: &mut VisitsLeft,
    )
        ensures fewer { visits.new.left ≤ visits.old.left }
    {
        let Some(one) = self.change_by_turn(mover, refuted) else {
            return;
        };
        for k in 0..list.len() {
            let child = list[k];
            if child.numbers.is_settled() {
                continue;
            }
            let Some(two) = self.change_by_turn(mover, child.turn) else {
                continue;
            };
            let simulation = Simulation {
                change: one ^ two,
                reserve: visits.left.saturating_sub(MOST_SIMULATED_REPLIES),
            };
            if self.is_as_twin_behind(mover, child.turn, simulation, true, visits) {
                list[k].numbers = WON;
            }
        }
    }

    /// Whether the other colour wins behind a turn, or loses there, as it does at the twin.
    #[cycle(simulation)]
    fn is_as_twin_behind(
        &mut self,
        mover: Colour,
        turn: SearchTurn,
        simulation: Simulation,
        wins: bool,
        visits: &mut VisitsLeft,
    ) -> bool
        ensures fewer { visits.new.left ≤ visits.old.left }
    {
        let SearchTurn::Play(p) = turn else {
            return self.is_as_twin(mover.other(), simulation, wins, visits);
        };
        if self.board.play(mover, p).is_err() {
            self.stop_search(Stop::NoMemory);
            return false;
        }
        let is_as_twin = self.is_as_twin(mover.other(), simulation, wins, visits);
        self.board.unplay();
        is_as_twin
    }

    /// Whether the mover wins, or loses, as it does at the twin. That is kept.
    #[cycle(simulation)]
    #[inline(never)]
    fn is_as_twin(
        &mut self,
        mover: Colour,
        simulation: Simulation,
        wins: bool,
        visits: &mut VisitsLeft,
    ) -> bool
        ensures fewer { visits.new.left ≤ visits.old.left }
    {
        let hashes = self.hashes_of_position(mover);
        if let Some(numbers) = self.settled_numbers(hashes) {
            return (numbers.proof == 0) == wins;
        }
        if let Some(numbers) = self.settle_by_life(mover, hashes) {
            return (numbers.proof == 0) == wins;
        }
        if wins {
            self.wins_as_twin(mover, hashes, simulation, visits)
        } else {
            self.loses_as_twin(mover, hashes, simulation, visits)
        }
    }

    /// The attacker's play that takes a target at once, or the turn that wins at the twin, where it may be played here too; whether it
    /// wins at once.
    fn turn_of_twin(&self, mover: Colour, twin: u64) -> Option<(SearchTurn, bool)> {
        let attacks = mover != self.region.defender;
        if attacks {
            if let Some(p) = self.first_target_capture() {
                return Some((SearchTurn::Play(p), true));
            }
        }
        let entry = self.main_table.find(twin)?;
        if entry.numbers.proof != 0 {
            return None;
        }
        let turn = entry.best?;
        let SearchTurn::Play(p) = turn else {
            return if attacks { None } else { Some((turn, false)) };
        };
        if !self.board.is_empty_point(p) {
            return None;
        }
        let effect = self.board.preview_play(mover, p);
        if effect.is_suicide || self.board.history().has(effect.hash) {
            return None;
        }
        Some((turn, effect.takes_target))
    }

    /// Whether the mover wins by the turn that wins at the twin: a visit.
    #[cycle(simulation)]
    fn wins_as_twin(
        &mut self,
        mover: Colour,
        hashes: Hashes,
        simulation: Simulation,
        visits: &mut VisitsLeft,
    ) -> bool
        ensures fewer { visits.new.left ≤ visits.old.left }
    {
        if visits.left <= simulation.reserve {
            return false;
        }
        visits.left -= 1;
        let Some((turn, ends)) = self.turn_of_twin(mover, hashes.position ^ simulation.change)
        else {
            return false;
        };
        let wins = ends || self.is_as_twin_behind(mover, turn, simulation, false, visits);
        if wins {
            self.keep_entry(hashes, WON, Some(turn), 1);
        }
        wins
    }

    /// Whether each turn of the mover is refuted as it is at the twin.
    #[cycle(simulation)]
    fn loses_as_twin(
        &mut self,
        mover: Colour,
        hashes: Hashes,
        simulation: Simulation,
        visits: &mut VisitsLeft,
    ) -> bool
        ensures fewer { visits.new.left ≤ visits.old.left }
    {
        let mut list = self.take_list();
        let loses = self.list_turns(mover, &mut list) == Listed::NoRepeat
            && self.are_all_refuted(mover, hashes, simulation, &mut list, visits);
        self.give_list_back(list);
        if loses {
            self.keep_entry(hashes, LOST, None, 1);
        }
        loses
    }

    /// Whether each of these turns is refuted as it is at the twin.
    #[cycle(simulation)]
    fn are_all_refuted(
        &mut self,
        mover: Colour,
        hashes: Hashes,
        simulation: Simulation,
        list: &mut Vec<Child>,
        visits: &mut VisitsLeft,
    ) -> bool
        ensures fewer { visits.new.left ≤ visits.old.left }
    {
        self.refute_by_threats(mover, hashes, list);
        for child in list.as_slice() {
            if child.numbers.disproof == 0 {
                return false;
            }
        }
        for k in 0..list.len() {
            let child = list[k];
            if child.numbers.proof != 0
                && !self.is_as_twin_behind(mover, child.turn, simulation, true, visits)
            {
                return false;
            }
        }
        !self.has_stopped()
    }
}
