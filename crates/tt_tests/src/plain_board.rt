//! A board by the rules alone: an array of entries, and a flood fill over it. Chains, liberties and sets of points are no part of
//! it, and it shares no code with `tt_board`.

use tt_board::Colour;
use tt_sgf::Size;

/// The points beside one: above, left, right and below; 361 where there is none.
pub(crate) fn beside(size: Size, p: usize) -> [usize; 4] {
    let columns = usize::from(size.columns());
    let count = size.point_count();
    let column = p.checked_rem(columns).unwrap_or(0);
    let mut near = [361; 4];
    if columns <= p {
        near[0] = p - columns;
    }
    if column != 0 && p != 0 {
        near[1] = p - 1;
    }
    if column.wrapping_add(1) < columns && p < 360 {
        near[2] = p + 1;
    }
    if p.wrapping_add(columns) < count {
        near[3] = p.wrapping_add(columns);
    }
    near
}

/// Points that a fill has found and not looked around yet.
#[derive(Drop)]
struct Found {
    points: [usize; 361],
    count: usize,
}

impl Found {
    fn push(&mut self, p: usize) {
        if self.count < 361 {
            self.points[self.count] = p;
            self.count += 1;
        }
    }

    fn pop(&mut self) -> Option<usize> {
        if self.count == 0 || 361 < self.count {
            return None;
        }
        self.count -= 1;
        Some(self.points[self.count])
    }
}

/// The stone on each point, row by row.
#[derive(Drop)]
pub(crate) struct PlainBoard {
    size: Size,
    entries: [Option<Colour>; 361],
}

impl PlainBoard {
    pub(crate) fn empty(size: Size) -> PlainBoard {
        PlainBoard {
            size,
            entries: [None; 361],
        }
    }

    pub(crate) fn at(&self, p: usize) -> Option<Colour> {
        if p < 361 { self.entries[p] } else { None }
    }

    /// The points that are empty, and the stones of a colour from which a path of that colour leads beside one.
    fn reaching_empty(&self, colour: Colour) -> [bool; 361] {
        let mut reached = [false; 361];
        let mut found = Found {
            points: [0; 361],
            count: 0,
        };
        for p in 0..self.size.point_count() {
            if p < 361 && self.entries[p].is_none() {
                reached[p] = true;
                found.push(p);
            }
        }
        for _ in 0..361 {
            let Some(p) = found.pop() else {
                return reached;
            };
            for q in beside(self.size, p) {
                if q < 361 && !reached[q] && self.entries[q] == Some(colour) {
                    reached[q] = true;
                    found.push(q);
                }
            }
        }
        reached
    }

    /// Empties each point of a colour that doesn't reach empty.
    fn clear(&mut self, colour: Colour) {
        let reached = self.reaching_empty(colour);
        for p in 0..361 {
            if self.entries[p] == Some(colour) && !reached[p] {
                self.entries[p] = None;
            }
        }
    }

    /// Puts a stone on an empty point, clears the other colour, and then the stone's own.
    pub(crate) fn play(&mut self, colour: Colour, p: usize) {
        if p < 361 {
            self.entries[p] = Some(colour);
        }
        self.clear(colour.other());
        self.clear(colour);
    }
}
