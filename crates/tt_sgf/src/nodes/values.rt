//! The values of a property, of which one takes no memory for itself.

ghost use Rattle.std.specs.Prelude.{◌≡◌, ◌++◌, ◌∷◌, [], IfOk};
ghost use Rattle.tt_sgf.specs.inside.Reading.{has_none};

use crate::faults::NoMemory;
use crate::nodes::items::add;
use crate::nodes::small_bytes::SmallBytes;
use std::alloc::{AllocError, Global};
use std::marker::Model;

/// No value, one, or a block of them.
#[derive(Drop)]
enum ValueStorage {
    None,
    One(SmallBytes),
    Many(Vec<SmallBytes>),
}

/// Values in order, the bytes between the brackets of each. Contracts see the list of them.
#[derive(Drop)]
pub struct Values {
    row: ValueStorage,
}

impl Model for Values {
    ghost use Rattle.std.specs.Prelude.{ℕ, List};
    ghost use Rattle.tt_sgf.specs.inside.ValueRows.{row_values};

    ghost Value = { List (List ℕ) };

    ghost view = { λ v. row_values v.row };
}

/// A block of two values.
fn vec_of_two(
    alloc: Global,
    first: SmallBytes,
    second: SmallBytes,
) -> Result<Vec<SmallBytes>, AllocError>
    ensures { IfOk result (λ v. v.items ≡ first ∷ second ∷ []) }
{
    let mut values = Vec::with_capacity(alloc, 2)?;
    values.push_reserved(first);
    values.push_reserved(second);
    Ok(values)
}

impl Values {
    /// No value yet.
    pub(crate) fn none() -> Values
        ensures { result ≡ [] }
    {
        Values {
            row: ValueStorage::None,
        }
    }

    /// Whether there is no value.
    pub(crate) fn is_empty(&self) -> bool
        ensures { result ≡ has_none self.now }
    {
        self.as_slice().is_empty()
    }

    /// These values, and one behind them.
    pub(crate) fn with(self, alloc: Global, value: SmallBytes) -> Result<Values, AllocError>
        ensures { IfOk result (λ v. v ≡ self ++ value ∷ []) }
    {
        let row = match self.row {
            ValueStorage::None => ValueStorage::One(value),
            ValueStorage::One(first) => ValueStorage::Many(vec_of_two(alloc, first, value)?),
            ValueStorage::Many(many) => {
                let mut more = many;
                add(&mut more, value)?;
                ValueStorage::Many(more)
            }
        };
        Ok(Values { row })
    }

    /// These values. Takes no memory.
    pub fn from_vec(values: Vec<SmallBytes>) -> Values
        ensures { result ≡ values.items }
    {
        Values {
            row: ValueStorage::Many(values),
        }
    }

    /// The values in a list of their own. It takes memory where there is one value, for it.
    pub fn into_vec(self, alloc: Global) -> Result<Vec<SmallBytes>, NoMemory>
        ensures { IfOk result (λ v. v.items ≡ self) }
    {
        match self.row {
            ValueStorage::None => Ok(Vec::new(alloc)),
            ValueStorage::One(value) => {
                let mut values = Vec::with_capacity(alloc, 1)?;
                values.push_reserved(value);
                Ok(values)
            }
            ValueStorage::Many(values) => Ok(values),
        }
    }

    /// The values, in order.
    pub fn as_slice(&self) -> &[SmallBytes]
        ensures { result.now ≡ self.now }
    {
        match &self.row {
            ValueStorage::None => &[],
            ValueStorage::One(value) => std::slice::from_ref(value),
            ValueStorage::Many(values) => values.as_slice(),
        }
    }
}
