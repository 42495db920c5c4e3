//! Visitors take rows one by one, or in parts side by side.
ghost use Rattle.std.specs.Prelude.{◌≡◌, ◌++◌, ◌∷◌, [], List, ℕ, OnOk, fold};
ghost use Rattle.bt_read.specs.Folds.{copies_as_one};

use bt_keycode::Key;
use bt_messages::Merge;
use std::alloc::{AllocError, Global};
use std::marker::Model;

/// Takes rows one by one, in rising order of keys. It borrows a row only during the call.
pub trait Visitor<V>: Drop {
    /// The visitor after a row.
    ghost visited: { Self → List ℕ × V → Self };

    /// Takes one row.
    fn visit(&mut self, alloc: Global, key: &Key, value: &V) -> Result<(), AllocError>
        ensures { OnOk result (self.new ≡ visited self.old (key.now, value.now)) };
}

/// A visitor that can take rows in parts, side by side. A fork of it takes the later rows, and its result is then joined to the
/// result for the earlier ones.
pub trait ForkVisitor<V>: Visitor<V> {
    /// The fork of a visitor, for later rows.
    ghost forked: { Self → Self };

    /// The visitor joined with a fork that took the later rows.
    ghost joined: { Self → Self → Self };

    /// A fork for the rows after those that this one takes. Allocates nothing.
    fn fork(&self, alloc: Global) -> Self
        ensures { result ≡ forked self.now };

    /// Joins the result of a fork for the later rows.
    fn join(&mut self, alloc: Global, following: Self) -> Result<(), AllocError>
        ensures { OnOk result (self.new ≡ joined self.old following) };

    /// Taking rows in two parts gives the same result as taking them in one.
    ghost as_one: { (visitor : Self) (rows following : List (List ℕ × V)) → joined (fold Self.visited visitor rows) (fold Self.visited (forked visitor) following) ≡ fold Self.visited visitor (rows ++ following) };
}

/// Copies of the rows that it was shown. A contract sees the list of them.
#[derive(Drop)]
pub struct Copies<V: Merge> {
    rows: Vec<(Key, V)>,
}

impl<V: Merge> Model for Copies<V> {
    ghost use Rattle.std.specs.Prelude.{List, ℕ};

    ghost Value = { List (List ℕ × V) };

    ghost view = { λ c. c.rows.items };
}

impl<V: Merge> Copies<V> {
    /// A visitor without copies.
    pub fn new(alloc: Global) -> Self
        ensures { result ≡ [] }
    {
        Copies {
            rows: Vec::new(alloc),
        }
    }

    /// The copied rows.
    pub fn into_rows(self) -> Vec<(Key, V)>
        ensures { result.items ≡ self }
    {
        let Copies { rows } = self;
        rows
    }
}

impl<V: Merge> Visitor<V> for Copies<V> {
    ghost visited = { λ rows row. rows ++ row ∷ [] };

    fn visit(&mut self, alloc: Global, key: &Key, value: &V) -> Result<(), AllocError> {
        self.rows.push((key.copy(alloc)?, value.copy(alloc)?))?;
        Ok(())
    }
}

impl<V: Merge> ForkVisitor<V> for Copies<V> {
    ghost forked = { λ _. [] };

    ghost joined = { λ rows following. rows ++ following };

    fn fork(&self, alloc: Global) -> Self {
        Copies::new(alloc)
    }

    fn join(&mut self, _alloc: Global, following: Self) -> Result<(), AllocError> {
        let Copies { mut rows } = following;
        self.rows.append(&mut rows)
    }

    ghost as_one = { λ copies rows following. copies_as_one copies rows following };
}
