//! What the search for stones that close a wall asks of sets of bits. No contract cites it.

use tt_sgf::{BITS, Bits};

/// Whether a set has no point.
pub(crate) fn has_none(points: &Bits) -> bool {
    points.first_from(0) == BITS
}

/// How many points a set has.
pub(crate) fn count(points: &Bits) -> usize {
    let mut count: usize = 0;
    for word in &points.words() {
        count = count.saturating_add(word.count_ones() as usize);
    }
    count
}
