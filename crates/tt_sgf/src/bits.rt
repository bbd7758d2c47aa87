//! Bits in six words: one for each of the numbers below `BITS`, which are more than the points of the largest board.

ghost use Rattle.std.specs.Prelude.{◌≡◌, ℕ, ◌+◌, ◌<◌, ◌≤◌, ◌↔◌, IsTrue, true, false, not, ◌&&◌, ◌||◌};
ghost use Rattle.std.specs.FinSet as set;
ghost use Rattle.tt_sgf.specs.Sizes.{point_count};
ghost use Rattle.tt_sgf.specs.MachineWords.{bit_in, points_of, AreLowBitsOf, IsShiftedLeft, IsShiftedRight, AreSameBits, IsWithinUnion};

use crate::size::{MOST_POINTS, Size};

/// How many bits six words have.
pub const BITS: usize = 384;

/// A bit for each of the numbers below `BITS`: that of `n` is bit `n % 64` of word `n / 64`.
#[derive(Clone, Copy)]
pub struct Bits {
    words: [u64; 6],
}

/// The bits of the numbers below `count`, with 0 for all others.
fn low_bits(word: u64, count: usize) -> u64
    ensures { AreLowBitsOf result word count }
{
    if count >= 64 {
        return word;
    }
    word & ((1 << count) - 1)
}

/// A word moved up by `k` bits, with the highest bits of the word below it.
#[inline]
fn shifted_left(word: u64, below: u64, k: usize) -> u64
    requires some { 0 < k }
    requires few { k < 64 }
    ensures { IsShiftedLeft result word below k }
{
    (word << k) | (below >> (64 - k))
}

/// A word moved down by `k` bits, with the lowest bits of the word above it.
#[inline]
fn shifted_right(word: u64, above: u64, k: usize) -> u64
    requires some { 0 < k }
    requires few { k < 64 }
    ensures { IsShiftedRight result word above k }
{
    (word >> k) | (above << (64 - k))
}

impl Bits {
    /// Bits that are all 0.
    pub fn none() -> Bits
        ensures { (n : ℕ) → n < BITS → bit_in result.words n ≡ false }
    {
        Bits { words: [0; 6] }
    }

    /// The bits of all points of a board of this size, with 0 for all others.
    pub fn whole(size: Size) -> Bits
        ensures on { (p : ℕ) → p < point_count size → bit_in result.words p ≡ true }
        ensures past { (p : ℕ) → point_count size ≤ p → p < BITS → bit_in result.words p ≡ false }
    {
        let mut found = Bits::none();
        for p in 0..size.point_count() {
            found.set(p);
        }
        found
    }

    /// The six words.
    pub fn words(&self) -> [u64; 6]
        ensures { result ≡ self.now.words }
    {
        self.words
    }

    /// Whether the bit of a number is 1.
    pub fn has(&self, n: usize) -> bool
        requires { n < BITS }
        ensures { result ≡ bit_in self.now.words n }
    {
        (self.words[n / 64] >> (n % 64)) & 1 == 1
    }

    /// Makes the bit of a number 1.
    pub fn set(&mut self, n: usize)
        requires { n < BITS }
        ensures same { bit_in self.new.words n ≡ true }
        ensures others { (q : ℕ) → q < BITS → (q ≡ n → ⊥)
            → bit_in self.new.words q ≡ bit_in self.old.words q }
    {
        self.words[n / 64] |= 1 << (n % 64);
    }

    /// Makes the bit of a number 0.
    pub fn clear_bit(&mut self, n: usize)
        requires { n < BITS }
        ensures same { bit_in self.new.words n ≡ false }
        ensures others { (q : ℕ) → q < BITS → (q ≡ n → ⊥)
            → bit_in self.new.words q ≡ bit_in self.old.words q }
    {
        self.words[n / 64] &= !(1 << (n % 64));
    }

    /// Makes the bit of a number 1 or 0.
    pub fn write_bit(&mut self, n: usize, on: bool)
        requires { n < BITS }
        ensures same { bit_in self.new.words n ≡ on }
        ensures others { (q : ℕ) → q < BITS → (q ≡ n → ⊥)
            → bit_in self.new.words q ≡ bit_in self.old.words q }
    {
        if on {
            self.set(n);
        } else {
            self.clear_bit(n);
        }
    }

    /// The least number from `from` on whose bit is 1: `BITS` where there is none. It looks at each word once.
    pub fn first_from(&self, from: usize) -> usize
        requires { from ≤ BITS }
        ensures after { from ≤ result }
        ensures most { result ≤ BITS }
        ensures none { (q : ℕ) → from ≤ q → q < result → q < BITS
            → bit_in self.now.words q ≡ false }
        ensures found { result < BITS → bit_in self.now.words result ≡ true }
    {
        let mut n = from;
        while n < BITS {
            let rest = self.words[n / 64] >> (n % 64);
            if rest != 0 {
                return n + rest.trailing_zeros() as usize;
            }
            n = n / 64 * 64 + 64;
        }
        BITS
    }

    /// How many bits of points are 1.
    pub(crate) fn count_points(&self) -> u16
        ensures { result ≡ set.len (points_of self.now.words) }
    {
        let mut count: u16 = 0;
        for n in 0..usize::from(MOST_POINTS) {
            if self.has(n) {
                count += 1;
            }
        }
        count
    }

    /// The bits of the numbers below `count`, with 0 for all others.
    pub fn truncated_to(&self, count: usize) -> Bits
        ensures kept { (q : ℕ) → q < BITS → q < count
            → bit_in result.words q ≡ bit_in self.now.words q }
        ensures none { (q : ℕ) → q < BITS → count ≤ q → bit_in result.words q ≡ false }
    {
        let mut words = [0u64; 6];
        for k in 0..6 {
            words[k] = low_bits(self.words[k], count.saturating_sub(64 * k));
        }
        Bits { words }
    }

    /// The bits that are 1 in the first alone.
    pub fn minus(&self, other: &Bits) -> Bits
        ensures { (q : ℕ) → q < BITS
            → bit_in result.words q ≡ (bit_in self.now.words q && not (bit_in other.now.words q)) }
    {
        let mut words = [0u64; 6];
        for k in 0..6 {
            words[k] = self.words[k] & !other.words[k];
        }
        Bits { words }
    }

    /// The bits that are 1 in both.
    pub fn and(&self, other: &Bits) -> Bits
        ensures { (q : ℕ) → q < BITS
            → bit_in result.words q ≡ (bit_in self.now.words q && bit_in other.now.words q) }
    {
        let mut words = [0u64; 6];
        for k in 0..6 {
            words[k] = self.words[k] & other.words[k];
        }
        Bits { words }
    }

    /// The bits that are 1 in one or both.
    pub fn or(&self, other: &Bits) -> Bits
        ensures { (q : ℕ) → q < BITS
            → bit_in result.words q ≡ (bit_in self.now.words q || bit_in other.now.words q) }
    {
        let mut words = [0u64; 6];
        for k in 0..6 {
            words[k] = self.words[k] | other.words[k];
        }
        Bits { words }
    }

    /// The bits that are 1 in one alone.
    pub fn xor(&self, other: &Bits) -> Bits
        ensures { (q : ℕ) → q < BITS → (bit_in result.words q ≡ false)
            ↔ (bit_in self.now.words q ≡ bit_in other.now.words q) }
    {
        let mut words = [0u64; 6];
        for k in 0..6 {
            words[k] = self.words[k] ^ other.words[k];
        }
        Bits { words }
    }

    /// The bits moved up: that of each number is the old one of the number `k` before it, and 0 where there is none.
    #[inline]
    pub fn shift_to_higher(&self, k: usize) -> Bits
        requires some { 0 < k }
        requires few { k < 64 }
        ensures moved { (q : ℕ) → q + k < BITS
            → bit_in result.words (q + k) ≡ bit_in self.now.words q }
        ensures low { (q : ℕ) → q < k → bit_in result.words q ≡ false }
    {
        let mut words = [0u64; 6];
        words[0] = shifted_left(self.words[0], 0, k);
        for j in 1..6 {
            words[j] = shifted_left(self.words[j], self.words[j - 1], k);
        }
        Bits { words }
    }

    /// The bits moved down: that of each number is the old one of the number `k` behind it, and 0 where there is none.
    #[inline]
    pub fn shift_to_lower(&self, k: usize) -> Bits
        requires some { 0 < k }
        requires few { k < 64 }
        ensures moved { (q : ℕ) → q + k < BITS
            → bit_in result.words q ≡ bit_in self.now.words (q + k) }
        ensures high { (q : ℕ) → BITS ≤ q + k → q < BITS → bit_in result.words q ≡ false }
    {
        let mut words = [0u64; 6];
        words[5] = shifted_right(self.words[5], 0, k);
        for j in 0..5 {
            words[j] = shifted_right(self.words[j], self.words[j + 1], k);
        }
        Bits { words }
    }

    /// Whether each bit that is 1 here is 1 in one of the others too. It passes over words without a bit, since few words
    /// of a set of targets have some.
    pub fn is_within_union(&self, one: &Bits, other: &Bits) -> bool
        ensures { IsTrue result ↔ IsWithinUnion self.now.words one.now.words other.now.words }
    {
        for k in 0..6 {
            if self.words[k] == 0 {
                continue;
            }
            let left = self.words[k] & !one.words[k] & !other.words[k];
            if left != 0 {
                return false;
            }
        }
        true
    }

    /// Whether both have the same bits; it stops at the first word that differs.
    pub fn same(&self, other: &Bits) -> bool
        ensures { IsTrue result ↔ AreSameBits self.now.words other.now.words }
    {
        for k in 0..6 {
            if self.words[k] != other.words[k] {
                return false;
            }
        }
        true
    }
}
