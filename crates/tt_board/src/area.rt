//! The area score of one colour.

ghost use Rattle.std.specs.Prelude.{◌≡◌, ◌≤◌, ◌<◌, ◌^◌, length, None, Some, count_by, count_ones};
ghost use Rattle.std.specs.List.{range_with_len};
ghost use Rattle.tt_sgf.specs.Sizes.{point_count};
ghost use Rattle.tt_sgf.specs.MachineWords.{bit_in};
ghost use Rattle.tt_board.specs.Around.{AreOn, AreThose, AreReaching};
ghost use Rattle.tt_board.specs.Play.{other};
ghost use Rattle.tt_board.specs.Score.{score_of};

use crate::Colour;
use crate::colouring::Colouring;
use crate::colouring::fill::reaching;
use tt_sgf::{Bits, Size};

/// How many bits of the word are 1.
fn ones(word: u64) -> u16
    ensures value { result ≡ count_ones word }
    ensures small { result ≤ 64 }
    ensures fits { word < 2 ^ 64 }
{
    word.count_ones() as u16
}

/// How many points of the board a set has.
fn count(size: Size, points: &Bits) -> u16
    requires { AreOn size points.now.words }
    ensures { result ≡ count_by (bit_in points.now.words) (range_with_len 0 (point_count size)) }
{
    let words = points.words();
    let mut total: u16 = 0;
    for k in 0..size.point_count() / 64 + 1 {
        total += ones(words[k]);
    }
    total
}

/// The empty points that reach a colour.
pub(crate) fn empty_reaching(size: Size, points: &Colouring, empty: &Bits, colour: Colour) -> Bits
    requires fits { length points.now ≡ point_count size }
    requires those { AreThose size empty.now.words points.now None }
    requires on_board { AreOn size empty.now.words }
    ensures reach { AreReaching size result.words points.now None (Some colour) }
    ensures still_on_board { AreOn size result.words }
{
    reaching(size, empty, points.bits(colour))
}

/// How many points are `colour`'s: its stones, and the empty points that reach it alone.
pub(crate) fn count_area(
    size: Size,
    points: &Colouring,
    colour: Colour,
    own: &Bits,
    others: &Bits,
) -> u16
    requires fits { length points.now ≡ point_count size }
    requires own_on_board { AreOn size own.now.words }
    requires own_reach { AreReaching size own.now.words points.now None (Some colour) }
    requires others_reach { AreReaching size others.now.words points.now None (Some (other colour)) }
    ensures { result ≡ score_of size points.now colour }
{
    count(size, &points.bits(colour).or(&own.minus(others)))
}
