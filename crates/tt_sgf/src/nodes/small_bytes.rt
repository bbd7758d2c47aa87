//! Bytes of which a few take no memory: a record has thousands of names and values of a letter or two.

ghost use Rattle.std.specs.Prelude.{◌≡◌, ◌≤◌, length, take, IfOk};

use crate::faults::NoMemory;
use std::alloc::{AllocError, Global};
use std::marker::Model;

/// How many bytes stand in the value itself: with them it takes 16.
const SHORT: usize = 14;

/// So many bytes of the array, or a block of them.
#[derive(Drop)]
enum ByteStorage {
    Short(u8, [u8; SHORT]),
    Long(Box<Vec<u8>>),
}

/// Bytes that are never changed. Contracts see the list of them.
#[derive(Drop)]
pub struct SmallBytes {
    form: ByteStorage,
}

impl Model for SmallBytes {
    ghost use Rattle.std.specs.Prelude.{ℕ, List};
    ghost use Rattle.tt_sgf.specs.inside.ShortForms.{kept_bytes, IsWithinArray};

    ghost Value = { List ℕ };

    ghost view = { λ b. kept_bytes b.form };

    ghost invariant = { λ b. IsWithinArray b.form };
}

/// So many bytes in an array.
fn zero_padded(bytes: &[u8]) -> [u8; SHORT]
    requires { length bytes.now ≤ SHORT }
    ensures { take (length bytes.now) result ≡ bytes.now }
{
    let mut short = [0; SHORT];
    short[..bytes.len()].copy_from_slice(bytes);
    short
}

impl SmallBytes {
    /// The same bytes. Fourteen at most take no memory.
    pub(crate) fn copy_of(alloc: Global, bytes: &[u8]) -> Result<SmallBytes, AllocError>
        ensures { IfOk result (λ b. b ≡ bytes.now) }
    {
        if bytes.len() <= SHORT {
            let form = ByteStorage::Short(bytes.len() as u8, zero_padded(bytes));
            return Ok(SmallBytes { form });
        }
        let long = Vec::from_slice(alloc, bytes)?;
        let form = ByteStorage::Long(Box::new(alloc, long)?);
        Ok(SmallBytes { form })
    }

    /// These bytes. Fourteen at most give their memory back, more ask for a handle to it.
    pub fn from_vec(alloc: Global, bytes: Vec<u8>) -> Result<SmallBytes, NoMemory>
        ensures { IfOk result (λ b. b ≡ bytes.items) }
    {
        if bytes.len() <= SHORT {
            let form = ByteStorage::Short(bytes.len() as u8, zero_padded(&bytes));
            return Ok(SmallBytes { form });
        }
        let form = ByteStorage::Long(Box::new(alloc, bytes)?);
        Ok(SmallBytes { form })
    }

    /// The bytes in a list of their own. It takes memory where they are fourteen at most.
    pub fn into_vec(self, alloc: Global) -> Result<Vec<u8>, NoMemory>
        ensures { IfOk result (λ v. v.items ≡ self) }
    {
        match self.form {
            ByteStorage::Long(long) => Ok(Box::into_inner(long)),
            form => Ok(Vec::from_slice(alloc, SmallBytes { form }.as_slice())?),
        }
    }

    /// The bytes, in order.
    pub fn as_slice(&self) -> &[u8]
        ensures { result.now ≡ self.now }
    {
        match &self.form {
            ByteStorage::Short(count, short) => &short[..usize::from(*count)],
            ByteStorage::Long(long) => long.as_slice(),
        }
    }
}
