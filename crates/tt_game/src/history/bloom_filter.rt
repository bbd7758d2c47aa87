//! A Bloom filter: most of what is new is known as new without a look at what was.

ghost use Rattle.std.specs.Prelude.{◌≡◌, ℕ, ◌*◌, ◌/◌, ◌%◌, ◌^◌, ◌<◌, ◌↔◌, length, slice_set, All, IsTrue, Some, None};
ghost use Rattle.tt_sgf.specs.Sizes.{point_count};
ghost use Rattle.tt_sgf.specs.declared.size.TheConstants.{MOST_POINTS};
ghost use Rattle.tt_board.specs.Position.{Colouring};
ghost use Rattle.tt_board.specs.Reach.{entry_at};
ghost use Rattle.tt_sgf.specs.declared.size.Size.{Size};
ghost use Rattle.tt_game.specs.GameHistory.{colourings};
ghost use Rattle.tt_game.specs.Mixing.{mix, mix_board, board_hash};
ghost use Rattle.tt_game.specs.BloomFilter.{filter_index, MayHold, MayHoldAll};

use std::alloc::Global;
use tt_board::{Board, Colour};
use tt_sgf::{BITS, Bits, Point};

/// How many bits a game's filter has: they fill 128 rows of `BITS`.
const FILTER_BITS: usize = 49_152;

/// An odd number with bits of both kinds all over: 2^64 by the golden ratio.
pub(crate) const MIXER: u64 = 0x9e37_79b9_7f4a_7c15;

/// The lowest bits of a product say little of its factors, so where a hash gives an index, it is by the bits above.
pub const HASH_DIVISOR: u64 = 0x100_0000_0000;

/// The powers of `MIXER` by which words count, that of the last one first.
const MIXER_POWERS: [u64; 12] = [
    0x0000_0000_0000_0001,
    0x9e37_79b9_7f4a_7c15,
    0xdf44_2d22_ce48_59b9,
    0x604a_5ce3_adde_f82d,
    0xd943_63fc_5382_27b1,
    0x2e2b_795f_2d10_fd85,
    0x4be7_956e_30a3_37e9,
    0x5ecb_31e4_ccd2_721d,
    0x06d4_b261_1beb_6861,
    0x0f10_cd6a_9be8_8bf5,
    0x80e0_dcf7_6db0_2719,
    0x7790_23cf_069d_510d,
];

/// A bit for each hash; it is 1 where something with that hash was noted. Two things may have one hash, so a bit that is 1 says
/// nothing. A hash that has no bit, as each without memory for the rows, counts as noted: then nothing is known.
#[derive(Drop)]
pub struct BloomFilter {
    rows: Vec<Bits>,
}

/// What words, one after the other, make of a number.
pub(crate) fn mix(start: u64, words: &[u64]) -> u64
    ensures { result ≡ mix start words.now }
{
    let mut sum = start;
    for word in words {
        sum = sum.wrapping_mul(MIXER).wrapping_add(*word);
    }
    sum
}

/// What both colours' words make, Black's first.
pub(crate) fn mix_board(board: &Board) -> u64
    ensures { result ≡ mix_board board.now.size board.now.points }
{
    let black = mix(0, &board.words(Colour::Black));
    mix(black, &board.words(Colour::White))
}

/// A number that other boards mostly haven't, of which the highest bits say most.
pub fn board_hash(board: &Board) -> u64
    ensures { result ≡ board_hash board.now.size board.now.points }
{
    mix_board(board).wrapping_mul(MIXER)
}

/// The index by what both colours' words make: its highest bits, since the last word was only added.
fn filter_index_of_sum(sum: u64) -> usize
    ensures { result ≡ sum * MIXER % 2 ^ 64 / HASH_DIVISOR % FILTER_BITS }
{
    (sum.wrapping_mul(MIXER) / HASH_DIVISOR) as usize % FILTER_BITS
}

/// The index of a colouring with one stone more, which a play of `colour` puts on `p`, by what the words make without it. No board is
/// made for it.
pub(crate) fn filter_index_with_stone(sum: u64, colour: Colour, p: Point) -> usize
    requires { p < MOST_POINTS }
    ensures { (g : Size) (c : Colouring) → length c ≡ point_count g → p < point_count g
        → entry_at c p ≡ None → sum ≡ mix_board g c
        → result ≡ filter_index g (slice_set c p (Some colour)) }
{
    let n = usize::from(p.number());
    let first = match colour {
        Colour::Black => 11,
        Colour::White => 5,
    };
    let added = (1u64 << (n % 64)).wrapping_mul(MIXER_POWERS[first - n / 64]);
    filter_index_of_sum(sum.wrapping_add(added))
}

/// The index of a colouring: a number that others mostly haven't.
pub(crate) fn filter_index(board: &Board) -> usize
    ensures { result ≡ filter_index board.now.size board.now.points }
{
    filter_index_of_sum(mix_board(board))
}

impl BloomFilter {
    /// All may have been noted: it tells nothing, and takes no memory.
    pub fn saturated(alloc: Global) -> BloomFilter
        ensures { (n : ℕ) → MayHold result n }
    {
        BloomFilter {
            rows: Vec::new(alloc),
        }
    }

    /// Nothing was noted yet, of hashes below so many, whole rows of `BITS`. Without memory for the rows it tells nothing. It takes a
    /// byte for eight hashes: 6,144 for `FILTER_BITS`.
    pub fn empty(alloc: Global, hashes: usize) -> BloomFilter {
        let mut filter = BloomFilter::saturated(alloc);
        if filter.rows.resize(hashes / BITS, Bits::none()).is_err() {
            return BloomFilter::saturated(alloc);
        }
        filter
    }

    /// The colourings of these boards, which have one size.
    pub(crate) fn of_boards(alloc: Global, boards: &[Board]) -> BloomFilter
        ensures { (g : Size) → All (λ b. b.size ≡ g) boards.now
            → MayHoldAll result g (colourings boards.now) }
    {
        let mut filter = BloomFilter::empty(alloc, FILTER_BITS);
        for board in boards {
            filter.add(filter_index(board));
        }
        filter
    }

    /// Notes what has this hash.
    pub fn add(&mut self, hash: usize)
        ensures here { MayHold self.new hash }
        ensures still { (n : ℕ) → MayHold self.old n → MayHold self.new n }
    {
        let row = hash / BITS;
        if row < self.rows.len() {
            self.rows[row].set(hash % BITS);
        }
    }

    /// Whether something with this hash may have been noted: where not, nothing was.
    pub fn has(&self, hash: usize) -> bool
        ensures { IsTrue result ↔ MayHold self.now hash }
    {
        let row = hash / BITS;
        row >= self.rows.len() || self.rows[row].has(hash % BITS)
    }
}
