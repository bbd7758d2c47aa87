//! Who wins at a line, as workers find. They search in rounds: where one ends that settled nothing, the table grows, as no thread
//! reads it then.

ghost use Rattle.std.specs.Prelude.{◌≡◌, ◌≤◌, ◌-◌, All, IfOk, length, sum_by};
ghost use Rattle.std.specs.Thread.{IsSync};

use crate::certifying::certify_alone;
use std::alloc::Global;
use std::thread;
use std::thread::Threads;
use tt_dfpn::{
    Advisor, Certifier, Finding, Guess, MOST_DFPN_WORKERS, OneFinder, SharedWork, VisitsLeft,
    WinnerSearch,
};
use tt_game::{Line, Side};
use tt_sgf::NoMemory;

/// In the first attempts all workers search: the one that leaves out turns, and the one that leaves out none. In those after, the
/// first worker has to know which lines the certifier refused.
const ATTEMPTS_TOGETHER: u8 = 2;

/// How many visits the first worker has alone. Most problems are settled then, and need no threads. The number was chosen without a
/// measurement of others.
const VISITS_ALONE: u32 = 16_384;

/// How many visits the workers have together in their first round, and by how much more in each one after. Between rounds the table
/// grows to what the next may visit. Both numbers were chosen without a measurement of others.
const FIRST_ROUND_VISITS: u32 = 262_144;

const ROUND_FACTOR: u32 = 16;

/// In so many rounds all visits that can be asked for are spent: four have 1,145,307,136.
const MOST_ROUNDS: u8 = 4;

/// Workers that search for the side that wins, in a thread of its own each.
#[derive(Drop)]
pub struct Workers<'a, R> {
    pub rt: &'a R,
    pub alloc: Global,
    pub count: usize,
}

/// Takes the visits of all findings off those that are left.
pub(crate) fn count_visits<T: Drop>(mut findings: Vec<Finding<T>>, visits: &mut VisitsLeft)
    ensures { visits.new.left ≡ visits.old.left - sum_by (λ f. f.visited) findings.items }
{
    while let Some(one) = findings.pop() {
        visits.left = visits.left.saturating_sub(one.visited);
    }
}

/// Who wins, by the guess of the first worker that has one. `NoMemory` where none has, and a worker had no memory.
fn guessed_winner(findings: &[Finding<Guess>]) -> Result<Option<Side>, NoMemory> {
    let mut lacks_memory = false;
    for one in findings {
        match &one.found {
            Ok(guess) => {
                if guess.winner.is_some() {
                    return Ok(guess.winner);
                }
            }
            Err(NoMemory) => lacks_memory = true,
        }
    }
    if lacks_memory {
        Err(NoMemory)
    } else {
        Ok(None)
    }
}

impl<R: Threads + Sync> Workers<'_, R> {
    /// How many workers search or certify together.
    pub(crate) fn workers(&self) -> u32 {
        self.count.min(MOST_DFPN_WORKERS) as u32
    }

    /// What so many workers find within a share of visits each, in a thread of its own each where one can be made.
    pub(crate) fn run_workers<W: SharedWork + Sync>(
        &self,
        work: &W,
        workers: u32,
        share: u32,
    ) -> Result<Vec<Finding<W::Found>>, NoMemory>
        ensures count { IfOk result (λ v. length v.items ≡ workers) }
        ensures shares { IfOk result (λ v. All (λ f. f.visited ≤ share) v.items) }
    {
        let mut numbers = Vec::new(self.alloc);
        for worker in 0..workers {
            numbers.push(worker)?;
        }
        let find = |worker: u32| -> Finding<W::Found>
            ensures { result.visited ≤ share }
        { work.run_worker(worker, share) };
        match thread::map_vec(self.rt, numbers, &find) {
            Ok(findings) => Ok(findings),
            Err(_) => Err(NoMemory),
        }
    }

    /// Who wins at the line, as so many workers find in one round within so many visits of all.
    fn search_round(
        &self,
        line: &Line,
        advisor: &mut Advisor,
        workers: u32,
        most: u32,
        visits: &mut VisitsLeft,
    ) -> Result<Option<Side>, NoMemory>
        ensures fewer { visits.new.left ≤ visits.old.left }
    {
        let round = visits.left.min(most);
        let search = advisor.shared_search(line, round)?;
        let share = round / workers.max(1);
        let findings = self.run_workers(&search, workers, share)?;
        let winner = guessed_winner(findings.as_slice());
        if let Some(first) = findings.first() {
            if let Ok(guess) = &first.found {
                advisor.learn(guess);
            }
        }
        let before = visits.left;
        count_visits(findings, visits);
        advisor.count_visited(before - visits.left);
        winner
    }

    /// Who wins at the line, as the workers find: the first alone where that is soon.
    fn search_in_rounds(
        &self,
        line: &Line,
        advisor: &mut Advisor,
        visits: &mut VisitsLeft,
    ) -> Result<Option<Side>, NoMemory>
        ensures fewer { visits.new.left ≤ visits.old.left }
    {
        let alone = advisor.winner_by_search(line, VISITS_ALONE, visits)?;
        if alone.is_some() {
            return Ok(alone);
        }
        let workers = self.workers();
        let mut most = FIRST_ROUND_VISITS;
        for _ in 0..MOST_ROUNDS {
            if visits.left == 0 {
                break;
            }
            let winner = self.search_round(line, advisor, workers, most, visits)?;
            if winner.is_some() {
                return Ok(winner);
            }
            most = most.saturating_mul(ROUND_FACTOR);
        }
        Ok(None)
    }
}

impl<R: Threads + Sync> WinnerSearch for Workers<'_, R> {
    ghost ready = { λ _. IsSync R.row };

    fn search_winner(
        &self,
        line: &Line,
        attempt: u8,
        advisor: &mut Advisor,
        visits: &mut VisitsLeft,
    ) -> Result<Option<Side>, NoMemory> {
        if self.count <= 1 || attempt >= ATTEMPTS_TOGETHER {
            OneFinder.search_winner(line, attempt, advisor, visits)
        } else {
            self.search_in_rounds(line, advisor, visits)
        }
    }

    fn certify_ahead(
        &self,
        certifier: &mut Certifier<Advisor>,
        line: &mut Line,
        side: Side,
        depth: u16,
        attempt: u8,
    ) -> Result<(), NoMemory> {
        if self.count <= 1 || attempt >= ATTEMPTS_TOGETHER {
            return Ok(());
        }
        if certify_alone(certifier, line, side, depth)? {
            return Ok(());
        }
        self.certify_together(certifier, line, side, depth)
    }
}
