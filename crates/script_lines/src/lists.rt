//! Lists in commands. In contracts they are plain lists.

ghost use Rattle.std.specs.Prelude.{◌≡◌};

use decoration_rules::NewDeco;
use std::marker::Model;

/// Ids of decorations.
pub type Ids = ListOf<u64>;

/// New decorations.
pub type NewDecos = ListOf<NewDeco>;

/// Items in the order of the line.
#[derive(Drop, Debug)]
pub struct ListOf<T> {
    items: Vec<T>,
}

impl<T> Model for ListOf<T> {
    ghost use Rattle.std.specs.Prelude.{List};

    ghost Value = { List T };

    ghost view = { λ list. list.items.items };
}

impl<T> ListOf<T> {
    /// Wraps a vector without copying its items.
    pub fn from_vec(items: Vec<T>) -> ListOf<T>
        ensures { result ≡ items.items }
    {
        ListOf { items }
    }

    /// Returns the vector of the items without copying them.
    pub fn into_vec(self) -> Vec<T>
        ensures { result.items ≡ self }
    {
        self.items
    }

    pub fn as_slice(&self) -> &[T]
        ensures { result.now ≡ self.now }
    {
        self.items.as_slice()
    }
}
