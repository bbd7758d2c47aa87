//! Tokens of the grammar: white space, identifiers, and what stands between the brackets of a value.

ghost use Rattle.std.specs.Prelude.{◌≡◌, ◌+◌, ◌<◌, length, false, not, IfOk, take, drop, Some, None, MatchOption, ◌∷◌, ◌==◌};
ghost use Rattle.std.specs.List.{filter, list_any};
ghost use Rattle.tt_sgf.specs.Grammar.{is_blank, is_letter_or_digit, is_kept_in_name, is_upper, is_digit};
ghost use Rattle.tt_sgf.specs.inside.Reading.{raw_at, word_of, after_word, begins, Gives};
ghost use Rattle.tt_sgf.specs.Values.{after_blanks};

use crate::faults::SgfFault;
use crate::nodes::small_bytes::SmallBytes;
use std::alloc::{AllocError, Global};

/// Whether a byte is white space: 9 to 13, or 32.
#[tactic(auto, unfolding(crate::specs::Grammar::is_blank))]
pub(crate) fn is_blank(b: u8) -> bool
    ensures { result ≡ is_blank b }
{
    (b >= 9 && b <= 13) || b == 32
}

#[tactic(auto, unfolding(crate::specs::Grammar::is_upper))]
pub(crate) fn is_upper(b: u8) -> bool
    ensures { result ≡ is_upper b }
{
    b >= b'A' && b <= b'Z'
}

#[tactic(auto, unfolding(crate::specs::Grammar::is_digit))]
pub(crate) fn is_digit(b: u8) -> bool
    ensures { result ≡ is_digit b }
{
    b >= b'0' && b <= b'9'
}

#[tactic(auto, unfolding(crate::specs::Grammar::is_kept_in_name))]
fn is_kept_in_name(b: u8) -> bool
    ensures { result ≡ is_kept_in_name b }
{
    is_upper(b) || is_digit(b)
}

#[tactic(auto, unfolding(crate::specs::Grammar::is_lower, crate::specs::Grammar::is_kept_in_name, crate::specs::Grammar::is_letter_or_digit))]
pub(crate) fn is_letter_or_digit(b: u8) -> bool
    ensures { result ≡ is_letter_or_digit b }
{
    is_kept_in_name(b) || (b >= b'a' && b <= b'z')
}

/// What is left behind the white space at the front. Takes no memory.
pub fn skip_blanks(bytes: &[u8]) -> &[u8]
    ensures { result.now ≡ after_blanks bytes.now }
{
    let mut rest = bytes;
    while let Some((first, after)) = rest.split_first() {
        if !is_blank(*first) {
            break;
        }
        rest = after;
    }
    rest
}

/// Where the bracket of a value stands.
fn raw_end(bytes: &[u8]) -> Option<usize>
    ensures { MatchOption result (raw_at false bytes.now ≡ None)
        (λ i. (i < length bytes.now)
        × (raw_at false bytes.now ≡ Some (take i bytes.now, drop (i + 1) bytes.now))) }
{
    let mut escaped = false;
    for (i, b) in bytes.iter().enumerate() {
        if escaped {
            escaped = false;
        } else if *b == b']' {
            return Some(i);
        } else {
            escaped = *b == b'\\';
        }
    }
    None
}

/// The bytes of a value whose bracket is open.
pub(crate) fn value(alloc: Global, bytes: &[u8]) -> Result<(SmallBytes, &[u8]), SgfFault>
    ensures { Gives (λ x. (x.0, x.1.now)) result (raw_at false bytes.now) }
{
    let Some(end) = raw_end(bytes) else {
        return Err(SgfFault::Syntax);
    };
    let raw = SmallBytes::copy_of(alloc, &bytes[..end])?;
    Ok((raw, &bytes[end + 1..]))
}

/// The letters and digits at the front, and what is left.
pub(crate) fn split_identifier(bytes: &[u8]) -> (&[u8], &[u8])
    ensures word { result.0.now ≡ word_of bytes.now }
    ensures rest { result.1.now ≡ after_word bytes.now }
{
    for (i, b) in bytes.iter().enumerate() {
        if !is_letter_or_digit(*b) {
            return bytes.split_at(i);
        }
    }
    bytes.split_at(bytes.len())
}

/// Whether a letter of the word is left out of its name.
fn drops_letters(word: &[u8]) -> bool
    ensures { result ≡ list_any (λ b. not (is_kept_in_name b)) word.now }
{
    word.iter().any(|b| !is_kept_in_name(*b))
}

/// The name of an identifier: its upper-case letters and digits.
#[tactic(auto, using(crate::proofs::TokenLemmas::kept_whole))]
pub(crate) fn name_of(alloc: Global, word: &[u8]) -> Result<SmallBytes, AllocError>
    ensures { IfOk result (λ v. v ≡ filter is_kept_in_name word.now) }
{
    if !drops_letters(word) {
        return SmallBytes::copy_of(alloc, word);
    }
    let name: Vec<u8> = word
        .iter()
        .copied()
        .filter(|b| is_kept_in_name(*b))
        .collect(alloc)?;
    SmallBytes::copy_of(alloc, name.as_slice())
}

/// Whether an upper-case letter is among the letters and digits.
pub(crate) fn has_upper(word: &[u8]) -> bool
    ensures { result ≡ list_any is_upper word.now }
{
    word.iter().any(|b| is_upper(*b))
}

/// What is left behind white space and this byte, where it stands there.
pub(crate) fn skip_blanks_and_byte(bytes: &[u8], byte: u8) -> Option<&[u8]>
    ensures { MatchOption result (begins (λ b. b == byte) (after_blanks bytes.now) ≡ false)
        (λ r. after_blanks bytes.now ≡ byte ∷ r.now) }
{
    match skip_blanks(bytes).split_first() {
        Some((first, after)) if *first == byte => Some(after),
        _ => None,
    }
}
