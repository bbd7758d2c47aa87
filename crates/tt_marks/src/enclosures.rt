//! Looks for stones that close the wall around a group, all in bits. No contract says what is found: `closing_stones` sees whether it
//! closes the wall.

use crate::bit_sets::{count, has_none};
use crate::regions::is_fit_count;
use crate::ways::Ways;
use std::alloc::Global;
use tt_sgf::{BITS, Bits, NoMemory};

/// The most stones that close a wall together.
pub const MOST_STONES: usize = 3;

/// Stones that close the wall, and the region of the group once they stand.
#[derive(Clone, Copy)]
pub(crate) struct Enclosure {
    pub stones: Bits,
    pub region: Bits,
}

/// Whether a set is among others.
fn is_listed(sets: &[Bits], points: &Bits) -> bool {
    sets.iter().any(|other| other.same(points))
}

/// A search for enclosures.
#[derive(Drop)]
struct EnclosureSearch<'a> {
    ways: &'a Ways,
    /// Stones that close the wall, whether they are all needed or not.
    known: Vec<Bits>,
    /// Stones that don't wall the group in.
    open: Vec<Bits>,
    found: Vec<Enclosure>,
}

impl EnclosureSearch<'_> {
    /// The stones of an enclosure without the first one that isn't needed: the others wall the group in.
    fn without_unneeded(&mut self, enclosure: &Enclosure) -> Result<Option<Bits>, NoMemory> {
        let inside = enclosure.region.or(&self.ways.group);
        let mut rest = enclosure.stones;
        for _stone in 0..MOST_STONES {
            let p = rest.first_from(0);
            if p == BITS {
                break;
            }
            rest.clear_bit(p);
            let mut others = enclosure.stones;
            others.clear_bit(p);
            if !is_listed(self.open.as_slice(), &others) {
                if self
                    .ways
                    .walled_in_by(&others, &Bits::none(), &inside)
                    .is_some()
                {
                    return Ok(Some(others));
                }
                self.open.push(others)?;
            }
        }
        Ok(None)
    }

    /// Adds what these stones close or, where some of them aren't needed, the others.
    fn add(&mut self, stones: &Bits) -> Result<(), NoMemory> {
        let mut stones = *stones;
        for _stone in 0..MOST_STONES {
            if has_none(&stones) || is_listed(self.known.as_slice(), &stones) {
                return Ok(());
            }
            let Some(region) = self.ways.region_closed_by(&stones) else {
                return Ok(());
            };
            self.known.push(stones)?;
            let enclosure = Enclosure { stones, region };
            match self.without_unneeded(&enclosure)? {
                Some(others) => stones = others,
                None => {
                    self.found.push(enclosure)?;
                    return Ok(());
                }
            }
        }
        Ok(())
    }
}

impl Ways {
    /// The stones among these whose chains have one of these liberties.
    fn stones_with_liberty(&self, stones: &Bits, liberties: &Bits) -> Bits {
        let first = self.grid.neighbours(liberties).and(stones);
        self.grid.flood(stones, &first)
    }

    /// Whether each stone has a liberty once the other colour has these stones too.
    fn are_all_alive(&self, added: &Bits) -> bool {
        let empty = self.empty.minus(added);
        let own = self.own();
        let others = self.others.or(added);
        own.same(&self.stones_with_liberty(&own, &empty))
            && others.same(&self.stones_with_liberty(&others, &empty))
    }

    /// What is within the whole wall once these stones are added, where the group is walled in then by a wall that has the kept ones. The
    /// points from which it is looked for are within in any case.
    fn walled_in_by(&self, added: &Bits, kept: &Bits, from: &Bits) -> Option<Bits> {
        let empty = self.empty.minus(added);
        let others = self.others.or(added);
        let mut wall = others;
        let mut inside = *from;
        for _stone in 0..BITS {
            inside = self
                .grid
                .flood(&self.free.or(&others).minus(&wall), &inside);
            if count(&empty.minus(&inside)) < count(&empty.and(&inside)) {
                return None;
            }
            let left = wall.and(&self.stones_with_liberty(&others, &empty.minus(&inside)));
            if !has_none(&kept.minus(&left)) {
                return None;
            }
            if left.same(&wall) {
                let is_wall = !has_none(&wall) && self.are_all_alive(added);
                return if is_wall { Some(inside) } else { None };
            }
            wall = left;
        }
        None
    }

    /// The region that these stones close, each of which is of the wall.
    fn region_closed_by(&self, stones: &Bits) -> Option<Bits> {
        let inside = self.walled_in_by(stones, stones, &self.group)?;
        let region = inside.minus(&self.group);
        if is_fit_count(count(&region)) {
            Some(region)
        } else {
            None
        }
    }

    /// The place of an enclosure among others: first by the count of its stones, then by how many of these are beside one of the group's
    /// colour, then the more points the region has, the lower.
    fn rank(&self, enclosure: &Enclosure) -> (usize, usize, usize) {
        let beside = self.grid.neighbours(&self.own()).and(&enclosure.stones);
        let room = BITS.saturating_sub(count(&enclosure.region));
        (count(&enclosure.stones), count(&beside), room)
    }

    /// The enclosures by these sets of stones or, where some of these aren't needed, by fewer. The best come first.
    fn enclosures_among(&self, alloc: Global, sets: &[Bits]) -> Result<Vec<Enclosure>, NoMemory> {
        let mut search = EnclosureSearch {
            ways: self,
            known: Vec::new(alloc),
            open: Vec::new(alloc),
            found: Vec::new(alloc),
        };
        for stones in sets {
            search.add(stones)?;
        }
        let mut found = search.found;
        found.sort_by_key(|enclosure| self.rank(enclosure))?;
        Ok(found)
    }

    /// The enclosures by so many stones that shut all ways to what is far or, where some of these aren't needed, by fewer. The best come
    /// first.
    pub(crate) fn enclosures_by(
        &self,
        alloc: Global,
        stones: usize,
    ) -> Result<Vec<Enclosure>, NoMemory> {
        let mut shutting = Vec::new(alloc);
        let way = self.shortest(&Bits::none());
        self.list_shutting(&Bits::none(), stones, &way, &mut shutting)?;
        self.enclosures_among(alloc, shutting.as_slice())
    }

    /// The enclosures by one stone, on any empty point. The best come first.
    fn enclosures_by_one(&self, alloc: Global) -> Result<Vec<Enclosure>, NoMemory> {
        let mut stones = Vec::new(alloc);
        self.list_with_each(&Bits::none(), &self.empty, &mut stones)?;
        self.enclosures_among(alloc, stones.as_slice())
    }

    /// Whether fewer stones than these close the wall.
    pub(crate) fn do_fewer_close(&self, alloc: Global, stones: usize) -> Result<bool, NoMemory> {
        if 1 < stones && !self.enclosures_by_one(alloc)?.is_empty() {
            return Ok(true);
        }
        for fewer in 2..stones {
            if !self.enclosures_by(alloc, fewer)?.is_empty() {
                return Ok(true);
            }
        }
        Ok(false)
    }

    /// The enclosures by the fewest stones, at most `MOST_STONES`. The best come first. Where what is far is within the wall too, one
    /// stone may close it that doesn't shut the ways there: so each is tried before several are.
    pub(crate) fn fewest_enclosures(&self, alloc: Global) -> Result<Vec<Enclosure>, NoMemory> {
        let found = self.enclosures_by_one(alloc)?;
        if !found.is_empty() {
            return Ok(found);
        }
        let fewest = self.separate(&Bits::none(), MOST_STONES + 1);
        for stones in fewest.max(2)..=MOST_STONES {
            let found = self.enclosures_by(alloc, stones)?;
            if !found.is_empty() {
                return Ok(found);
            }
        }
        Ok(Vec::new(alloc))
    }
}
