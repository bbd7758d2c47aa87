//! Numbers whose bits are mixed, of which both halves make their hashes.

/// The odd number next to 2^64 over the golden ratio. Its multiples are spread evenly (D. E. Knuth, "Sorting and Searching", 1973, on
/// hashing).
pub(crate) const GOLDEN: u64 = 0x9e37_79b9_7f4a_7c15;

/// A number in which each bit of the given one changes half of the bits (SplitMix64: G. L. Steele, D. Lea, C. H. Flood, 2014).
#[inline]
pub(crate) fn mixed(n: u64) -> u64 {
    let one = (n ^ (n >> 30)).wrapping_mul(0xbf58_476d_1ce4_e5b9);
    let two = (one ^ (one >> 27)).wrapping_mul(0x94d0_49bb_1331_11eb);
    two ^ (two >> 31)
}
