//! A list of items that owns them.
ghost use Rattle.std.specs.Prelude.{◌≡◌, List};

use std::marker::Model;

/// Items in order, which contracts see as their list.
#[derive(Clone, Drop)]
pub struct Rows<T> {
    items: Vec<T>,
}

impl<T> Model for Rows<T> {
    ghost Value = { List T };

    ghost view = { λ r. r.items.items };
}

impl<T> Rows<T> {
    pub fn of(items: Vec<T>) -> Rows<T>
        ensures { result ≡ items.items }
    {
        Rows { items }
    }

    pub fn items(&self) -> &[T]
        ensures { result.now ≡ self.now }
    {
        &self.items
    }

    pub fn into_items(self) -> Vec<T>
        ensures { result.items ≡ self }
    {
        self.items
    }
}

impl<T: PartialEq> PartialEq for Rows<T> {
    ghost use Rattle.std.specs.Cmp.Lexicographic.{pointwise, lists_per};

    ghost eq = { pointwise T.eq };

    ghost laws = { lists_per T.laws };

    fn eq(&self, other: &Rows<T>) -> bool {
        self.items() == other.items()
    }
}

impl<T: Eq> Eq for Rows<T> {
    ghost use Rattle.std.specs.Cmp.Lexicographic.{lists_equiv};

    ghost laws = { lists_equiv T.Eq.laws };
}
