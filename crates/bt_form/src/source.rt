//! Rows that come one at a time.
ghost use Rattle.std.specs.Prelude.{◌≡◌, ◌∷◌, [], List, ℕ, MatchOption};

use bt_keycode::Key;

/// What gives rows in order, so that no list of them is made.
pub trait RowSource<V>: Drop {
    /// The rows that are left.
    ghost left: { Self → List (List ℕ × V) };

    /// Takes the next row.
    fn next_row(&mut self) -> Option<(Key, V)>
        ensures { MatchOption result (left self.old ≡ []) (λ row. left self.old ≡ row ∷ left self.new) };
}
