//! Where the reading of a certificate stops.

ghost use Rattle.std.specs.Prelude.{◌≡◌, ◌<◌, ◌≤◌, ◌++◌, ◌∷◌, ◌↔◌, ℕ, List, IsTrue, MatchResult};
ghost use Rattle.tt_sgf.specs.Sizes.{point_count};
ghost use Rattle.tt_sgf.specs.declared.size.Size.{Size};
ghost use Rattle.tt_game.specs.declared.frame.Side.{Side};
ghost use Rattle.tt_proof.specs.CertificateText.{pick_symbol, replies_symbol, side_prefix};
ghost use Rattle.tt_proof.specs.CertificateStops.{CertificateStopsAt};
ghost use Rattle.tt_proof.specs.inside.CertificateWalking.{BeginsByText, StopsBefore, BeginsWithTurnFrom, IsTextOfTurnFrom, IsFirstByteOfTurnFrom, IsTextOfTree, HaveInCommon};

use crate::certificate_read::{letter_index, read_turn, split_side, strip_reply_end};
use crate::tree::MOST_DEPTH;
use tt_game::Side;
use tt_sgf::Size;

/// Whether a turn of the board with a number of at least `least` begins with this byte.
fn begins_turn(byte: u8, size: Size, least: u16) -> bool
    requires { least ≤ point_count size }
    ensures { IsTrue result ↔ IsFirstByteOfTurnFrom size least byte }
{
    if byte == b'-' {
        return true;
    }
    match letter_index(byte, size.columns()) {
        Some(column) => least <= (size.rows() - 1) * size.columns() + column,
        None => false,
    }
}

/// What follows a turn at the front of the bytes whose number is at least `least`, and that number; else the bytes from the one on with
/// which no such turn goes on.
fn skip_turn(bytes: &[u8], size: Size, least: u16) -> Result<(u16, &[u8]), &[u8]>
    requires { least ≤ point_count size }
    ensures { MatchResult result
        (λ r. BeginsWithTurnFrom size least r.0 bytes.now r.1.now)
        (λ y. StopsBefore (IsTextOfTurnFrom size least) bytes.now y.now) }
{
    let Some((first, rest)) = bytes.split_first() else {
        return Err(bytes);
    };
    if !begins_turn(*first, size, least) {
        return Err(bytes);
    }
    let Some((_, number, behind)) = read_turn(bytes, size) else {
        return Err(rest);
    };
    if number < least {
        return Err(rest);
    }
    Ok((number, behind))
}

/// What follows a tree at the front of the bytes whose depth is at most `left`; else the bytes from the one on with which no such tree
/// goes on.
#[cycle(skip)]
fn skip_tree(bytes: &[u8], size: Size, left: u16) -> Result<&[u8], &[u8]>
    ensures { MatchResult result
        (λ y. BeginsByText (IsTextOfTree size left) bytes.now y.now)
        (λ y. StopsBefore (IsTextOfTree size left) bytes.now y.now) }
{
    match bytes.split_first() {
        None => Err(bytes),
        Some((first, rest)) => {
            if *first == b'.' {
                return Ok(rest);
            }
            if *first == b'?' {
                return skip_reply(rest, size, left);
            }
            if *first == b'!' && left > 0 {
                return skip_pick(rest, size, left);
            }
            Err(bytes)
        }
    }
}

/// The same behind the `!` of a pick.
#[cycle(skip)]
fn skip_pick(bytes: &[u8], size: Size, left: u16) -> Result<&[u8], &[u8]>
    requires { 0 < left }
    ensures { MatchResult result
        (λ y. BeginsByText (IsTextOfTree size left) (pick_symbol ∷ bytes.now) y.now)
        (λ y. StopsBefore (IsTextOfTree size left) (pick_symbol ∷ bytes.now) y.now) }
{
    let (_, after) = skip_turn(bytes, size, 0)?;
    skip_tree(after, size, left - 1)
}

/// The same behind the `?` of a reply.
#[cycle(skip)]
fn skip_reply(bytes: &[u8], size: Size, left: u16) -> Result<&[u8], &[u8]>
    ensures { MatchResult result
        (λ y. BeginsByText (IsTextOfTree size left) (replies_symbol ∷ bytes.now) y.now)
        (λ y. StopsBefore (IsTextOfTree size left) (replies_symbol ∷ bytes.now) y.now) }
{
    let mut now = bytes;
    let mut least = 0;
    loop {
        if let Some(rest) = strip_reply_end(now) {
            return Ok(rest);
        }
        if left == 0 {
            return Err(now);
        }
        if usize::from(least) > size.point_count() {
            return Err(now);
        }
        let (number, middle) = skip_turn(now, size, least)?;
        now = skip_tree(middle, size, left - 1)?;
        least = number + 1;
    }
}

/// How many bytes the two have in common in front.
fn common_length(bytes: &[u8], word: &[u8]) -> usize
    ensures { HaveInCommon bytes.now word.now result }
{
    let most = bytes.len().min(word.len());
    for i in 0..most {
        if bytes[i] != word[i] {
            return i;
        }
    }
    most
}

/// The index of the byte with which no side's word goes on, where none stands in front.
fn side_stop(bytes: &[u8]) -> usize
    requires { (s : Side) (y : List ℕ) → bytes.now ≡ side_prefix s ++ y → ⊥ }
    ensures { (size : Size) → CertificateStopsAt size bytes.now result }
{
    let killed = common_length(bytes, Side::Attacker.verdict_word());
    let lives = common_length(bytes, Side::Defender.verdict_word());
    killed.max(lives)
}

/// The index of the byte at which the reading of a certificate stops where it is refused: the bytes in front of it begin some certificate
/// for a board of this size, and with it they begin none. A certificate that is too deep stops where its 513th turn begins. The
/// length where all bytes begin one.
pub fn certificate_stop(bytes: &[u8], size: Size) -> usize
    ensures { CertificateStopsAt size bytes.now result }
{
    let Some((_, rest)) = split_side(bytes) else {
        return side_stop(bytes);
    };
    match skip_tree(rest, size, MOST_DEPTH) {
        Ok(behind) => bytes.len() - behind.len(),
        Err(behind) => bytes.len() - behind.len(),
    }
}
