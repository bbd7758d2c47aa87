//! Lists that contracts see as the list of their items.

ghost use Rattle.std.specs.Prelude.{◌≡◌, ◌++◌, ◌∷◌, [], List, OnOk};

use std::alloc::AllocError;
use std::marker::Model;

/// Adds an item to a list that is being made. Where there is no room for it, some is made for a quarter of as many
/// as there are: most lists here hold one item, and a record has thousands of them.
pub(crate) fn add<T: Drop>(items: &mut Vec<T>, item: T) -> Result<(), AllocError>
    ensures { OnOk result (items.new.items ≡ items.old.items ++ item ∷ []) }
{
    if items.len() == items.capacity() {
        items.reserve_exact(items.len() / 4 + 1)?;
    }
    items.push_reserved(item);
    Ok(())
}

/// A list. Contracts see its items alone, and not the memory that holds them.
#[derive(Drop)]
pub struct ItemList<T> {
    items: Vec<T>,
}

impl<T> Model for ItemList<T> {
    ghost Value = { List T };

    ghost view = { λ s. s.items.items };
}

impl<T> ItemList<T> {
    /// The list of these items. Takes no memory.
    pub fn from_vec(items: Vec<T>) -> Self
        ensures { result ≡ items.items }
    {
        ItemList { items }
    }

    /// The items in a list of their own. Takes no memory.
    pub fn into_vec(self) -> Vec<T>
        ensures { result.items ≡ self }
    {
        self.items
    }

    /// The items, in order.
    pub fn as_slice(&self) -> &[T]
        ensures { result.now ≡ self.now }
    {
        self.items.as_slice()
    }
}
