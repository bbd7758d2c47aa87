//! Reads certificates.

ghost use Rattle.std.specs.Prelude.{◌≡◌, ◌≢◌, [], ◌<◌, ◌≤◌, ◌+◌, ◌/◌, ◌%◌, ◌++◌, ◌∷◌, ℕ, List, MatchOption, MatchResult};
ghost use Rattle.tt_sgf.specs.Bytes.{lower_a, semicolon};
ghost use Rattle.tt_sgf.specs.Sizes.{point_count};
ghost use Rattle.tt_sgf.specs.declared.size.TheConstants.{MOST_POINTS};
ghost use Rattle.tt_game.specs.declared.frame.Side.{Side};
ghost use Rattle.tt_game.specs.declared.turns.Turn.{Turn};
ghost use Rattle.tt_proof.specs.Strategy.{strategy_of, entries_of_reply, turn_number_on_size, IsTurnOnBoardOfSize};
ghost use Rattle.tt_proof.specs.CertificateText.{pick_symbol, replies_symbol, turn_text, side_prefix, IsCertificate, IsTooDeep};
ghost use Rattle.tt_proof.specs.inside.CertificateReading.{TreeAt, EntriesAt, FaultAt, EntriesFaultAt};
ghost use Rattle.tt_proof.specs.CertificateFaults.{IsCertFault, code_of};

use crate::tree::{MOST_DEPTH, Tree};
use std::alloc::{AllocFailed, Global};
use std::sync::Arc;
use tt_game::{Side, Turn};
use tt_sgf::{NoMemory, Point, Size};

/// Why bytes are not a certificate.
#[derive(Clone, Copy, Debug, PartialEq, Eq)]
pub enum CertFault {
    /// No certificate.
    Syntax,
    /// A turn below 512 others.
    TooDeep,
    /// Memory was refused.
    NoMemory,
}

impl CertFault {
    /// The number of the refusal: 30, 31 or 40.
    pub fn code(&self) -> u8
        ensures { result ≡ code_of self.now }
    {
        match *self {
            CertFault::Syntax => 30,
            CertFault::TooDeep => 31,
            CertFault::NoMemory => 40,
        }
    }

    /// Why bytes are not a certificate, in English words. No newline ends them.
    pub fn reason(&self) -> &'static [u8]
        ensures { result.now ≢ [] }
    {
        match *self {
            CertFault::Syntax => {
                b"the text is no certificate: a wrong symbol, turns out of order, a point off the board, or text after the end"
            }
            CertFault::TooDeep => b"the certificate goes deeper than 512 turns",
            CertFault::NoMemory => b"memory was refused",
        }
    }
}

impl From<NoMemory> for CertFault {
    ghost use Rattle.tt_proof.specs.declared.certificate_read.CertFault.TheVariants as faults;

    ghost from_gives = { λ _ e. e ≡ faults.NoMemory };

    fn from(_: NoMemory) -> CertFault {
        CertFault::NoMemory
    }
}

impl<T: Drop> From<AllocFailed<T>> for CertFault {
    ghost use Rattle.tt_proof.specs.declared.certificate_read.CertFault.TheVariants as faults;

    ghost from_gives = { λ _ e. e ≡ faults.NoMemory };

    fn from(_: AllocFailed<T>) -> CertFault {
        CertFault::NoMemory
    }
}

/// The number of a letter below `end`, where `a` has 0.
pub(crate) fn letter_index(byte: u8, end: u16) -> Option<u16>
    requires { end ≤ 19 }
    ensures { MatchOption result ((n : ℕ)
        → n < end → byte ≡ lower_a + n → ⊥) (λ n. (n < end) × (byte ≡ lower_a + n)) }
{
    if byte < b'a' {
        return None;
    }
    let n = u16::from(byte - b'a');
    if n < end { Some(n) } else { None }
}

/// The point of these two letters.
fn read_point(first: u8, second: u8, size: Size) -> Option<Point>
    ensures { MatchOption result
        ((p : ℕ) → p < point_count size
        → first ≡ lower_a + p % size.columns → second ≡ lower_a + p / size.columns → ⊥)
        (λ p. (p < point_count size) × (first ≡ lower_a + p % size.columns)
        × (second ≡ lower_a + p / size.columns)) }
{
    let Some(column) = letter_index(first, size.columns()) else {
        return None;
    };
    let Some(row) = letter_index(second, size.rows()) else {
        return None;
    };
    size.point(row * size.columns() + column)
}

/// The turn at the front of the bytes, its number, and what follows.
pub fn read_turn(bytes: &[u8], size: Size) -> Option<(Turn, u16, &[u8])>
    ensures { MatchOption result
        ((t : Turn) (y : List ℕ)
        → IsTurnOnBoardOfSize size t → bytes.now ≡ turn_text size t ++ y → ⊥)
        (λ r. IsTurnOnBoardOfSize size r.0 × (r.1 ≡ turn_number_on_size size r.0)
        × (r.1 ≤ MOST_POINTS) × (bytes.now ≡ turn_text size r.0 ++ r.2.now)) }
{
    let (first, rest) = bytes.split_first()?;
    let (second, rest) = rest.split_first()?;
    if *first == b'-' && *second == b'-' {
        return Some((Turn::Pass, size.point_count() as u16, rest));
    }
    let p = read_point(*first, *second, size)?;
    Some((Turn::Play(p), p.number(), rest))
}

/// What follows the end of a reply, where that is at the front of the bytes.
pub fn strip_reply_end(bytes: &[u8]) -> Option<&[u8]>
    ensures { MatchOption result ((y : List ℕ)
        → bytes.now ≡ semicolon ∷ y → ⊥) (λ r. bytes.now ≡ semicolon ∷ r.now) }
{
    match bytes {
        [b';', rest @ ..] => Some(rest),
        _ => None,
    }
}

/// The tree at the front of the bytes, of a depth of at most `left`, and what follows.
#[cycle(read)]
fn read_strategy(
    alloc: Global,
    bytes: &[u8],
    size: Size,
    left: u16,
) -> Result<(Tree, &[u8]), CertFault>
    ensures { MatchResult result (λ r. TreeAt size left (strategy_of r.0) bytes.now r.1.now)
        (λ e. FaultAt size left bytes.now e) }
{
    match bytes.split_first() {
        None => Err(CertFault::Syntax),
        Some((first, rest)) => {
            if *first == b'.' {
                return Ok((Tree::Done, rest));
            }
            if *first == b'!' {
                return read_pick(alloc, rest, size, left);
            }
            if *first == b'?' {
                return read_reply(alloc, rest, size, left);
            }
            Err(CertFault::Syntax)
        }
    }
}

#[cycle(read)]
fn read_pick(alloc: Global, bytes: &[u8], size: Size, left: u16) -> Result<(Tree, &[u8]), CertFault>
    ensures { MatchResult result
        (λ r. TreeAt size left (strategy_of r.0) (pick_symbol ∷ bytes.now) r.1.now)
        (λ e. FaultAt size left (pick_symbol ∷ bytes.now) e) }
{
    let Some((turn, _, after)) = read_turn(bytes, size) else {
        return Err(CertFault::Syntax);
    };
    if left == 0 {
        return Err(CertFault::TooDeep);
    }
    let (child, rest) = read_strategy(alloc, after, size, left - 1)?;
    Ok((Tree::pick(alloc, turn, child)?, rest))
}

#[cycle(read)]
fn read_reply(
    alloc: Global,
    bytes: &[u8],
    size: Size,
    left: u16,
) -> Result<(Tree, &[u8]), CertFault>
    ensures { MatchResult result
        (λ r. TreeAt size left (strategy_of r.0) (replies_symbol ∷ bytes.now) r.1.now)
        (λ e. FaultAt size left (replies_symbol ∷ bytes.now) e) }
{
    let (entries, rest) = read_entries(alloc, bytes, size, left)?;
    Ok((Tree::Reply(Arc::new(alloc, entries)?), rest))
}

/// The entries up to the end of a reply, and what follows.
#[cycle(read)]
fn read_entries(
    alloc: Global,
    bytes: &[u8],
    size: Size,
    left: u16,
) -> Result<(Vec<(Turn, Tree)>, &[u8]), CertFault>
    ensures { MatchResult result
        (λ r. EntriesAt size left 0 (entries_of_reply r.0.items) bytes.now r.1.now)
        (λ e. EntriesFaultAt size left 0 bytes.now e) }
{
    let mut list = Vec::new(alloc);
    let mut now = bytes;
    let mut least = 0;
    loop {
        if let Some(rest) = strip_reply_end(now) {
            return Ok((list, rest));
        }
        let Some((turn, number, middle)) = read_turn(now, size) else {
            return Err(CertFault::Syntax);
        };
        if number < least {
            return Err(CertFault::Syntax);
        }
        if left == 0 {
            return Err(CertFault::TooDeep);
        }
        let (tree, after) = read_strategy(alloc, middle, size, left - 1)?;
        list.push((turn, tree))?;
        least = number + 1;
        now = after;
    }
}

/// What follows the side's word, where that is at the front of the bytes.
fn strip_side_prefix(bytes: &[u8], s: Side) -> Option<&[u8]>
    ensures { MatchOption result ((y : List ℕ)
        → bytes.now ≡ side_prefix s ++ y → ⊥) (λ r. bytes.now ≡ side_prefix s ++ r.now) }
{
    let blank = bytes.strip_prefix(s.verdict_word())?;
    blank.strip_prefix(b" ".as_slice())
}

/// The side whose word is at the front of the bytes, and what follows.
pub fn split_side(bytes: &[u8]) -> Option<(Side, &[u8])>
    ensures { MatchOption result ((s : Side) (y : List ℕ)
        → bytes.now ≡ side_prefix s ++ y → ⊥) (λ r. bytes.now ≡ side_prefix r.0 ++ r.1.now) }
{
    if let Some(rest) = strip_side_prefix(bytes, Side::Attacker) {
        return Some((Side::Attacker, rest));
    }
    let rest = strip_side_prefix(bytes, Side::Defender)?;
    Some((Side::Defender, rest))
}

/// The side and the tree that the side's word spells with these bytes behind it.
fn read_cert_for_side(
    alloc: Global,
    rest: &[u8],
    s: Side,
    size: Size,
) -> Result<(Side, Tree), CertFault>
    ensures { MatchResult result
        (λ r. IsCertificate size (side_prefix s ++ rest.now) r.0 (strategy_of r.1)
        × (IsTooDeep size (side_prefix s ++ rest.now) → ⊥))
        (λ e. IsCertFault size (side_prefix s ++ rest.now) e) }
{
    let (tree, more) = read_strategy(alloc, rest, size, MOST_DEPTH)?;
    if more.is_empty() {
        Ok((s, tree))
    } else {
        Err(CertFault::Syntax)
    }
}

/// The side and the tree that the bytes are the certificate of, on a board of this size. Where they are none, a turn
/// below 512 others comes before all that is wrong behind it.
pub fn read_cert(alloc: Global, bytes: &[u8], size: Size) -> Result<(Side, Tree), CertFault>
    ensures { MatchResult result
        (λ r. IsCertificate size bytes.now r.0 (strategy_of r.1) × (IsTooDeep size bytes.now → ⊥))
        (λ e. IsCertFault size bytes.now e) }
{
    let Some((side, rest)) = split_side(bytes) else {
        return Err(CertFault::Syntax);
    };
    read_cert_for_side(alloc, rest, side, size)
}
