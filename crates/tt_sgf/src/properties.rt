//! Properties: an identifier with its values, and the lists of both.

ghost use Rattle.std.specs.Prelude.{◌≡◌};
ghost use Rattle.tt_sgf.specs.inside.Reading.{values_at, property_at, property_follows, properties_at, Gives};

use crate::faults::SgfFault;
use crate::nodes::Property;
use crate::nodes::items::add;
use crate::nodes::values::Values;
use crate::tokens::{
    has_upper, is_letter_or_digit, name_of, skip_blanks, skip_blanks_and_byte, split_identifier,
    value,
};
use std::alloc::Global;

/// The values at the front, as long as a `[` follows.
fn values(alloc: Global, bytes: &[u8]) -> Result<(Values, &[u8]), SgfFault>
    ensures { Gives (λ x. (x.0, x.1.now)) result (values_at bytes.now) }
{
    let mut values = Values::none();
    let mut rest = bytes;
    while let Some(opened) = skip_blanks_and_byte(rest, b'[') {
        let (raw, after) = value(alloc, opened)?;
        values = values.with(alloc, raw)?;
        rest = after;
    }
    Ok((values, rest))
}

/// A property, with no white space before it.
#[tactic(auto, unfolding(crate::specs::inside::Reading::property_at))]
fn read_property(alloc: Global, bytes: &[u8]) -> Result<(Property, &[u8]), SgfFault>
    ensures { Gives (λ x. (x.0, x.1.now)) result (property_at bytes.now) }
{
    let (letters, rest) = split_identifier(bytes);
    if !has_upper(letters) {
        return Err(SgfFault::Syntax);
    }
    let ident = name_of(alloc, letters)?;
    let (values, after) = values(alloc, rest)?;
    if values.is_empty() {
        return Err(SgfFault::Syntax);
    }
    Ok((Property { ident, values }, after))
}

/// Whether a letter or a digit follows.
fn property_follows(bytes: &[u8]) -> bool
    ensures { result ≡ property_follows bytes.now }
{
    match skip_blanks(bytes).first() {
        Some(b) => is_letter_or_digit(*b),
        None => false,
    }
}

/// The properties at the front, as long as a letter or a digit follows.
pub(crate) fn properties(alloc: Global, bytes: &[u8]) -> Result<(Vec<Property>, &[u8]), SgfFault>
    ensures { Gives (λ x. (x.0.items, x.1.now)) result (properties_at bytes.now) }
{
    let mut properties = Vec::new(alloc);
    let mut rest = bytes;
    while property_follows(rest) {
        let (one, after) = read_property(alloc, skip_blanks(rest))?;
        add(&mut properties, one)?;
        rest = after;
    }
    Ok((properties, rest))
}
