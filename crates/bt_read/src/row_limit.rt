//! The limit on the rows that are shown.
ghost use Rattle.std.specs.Prelude.{◌≡◌, ◌↔◌, ◌-◌, IsTrue, MatchOption, None, Some, min};

use std::marker::Model;

/// The number of rows that may still be shown. A contract sees that number, or `None` if there is no limit.
#[derive(Drop)]
pub(crate) struct RowLimit {
    left: Option<usize>,
}

impl Model for RowLimit {
    ghost use Rattle.std.specs.Prelude.{Option, ℕ};

    ghost Value = { Option ℕ };

    ghost view = { λ l. l.left };
}

impl RowLimit {
    /// No limit.
    pub(crate) fn none() -> Self
        ensures { result ≡ None }
    {
        RowLimit { left: None }
    }

    /// A limit of this many rows.
    pub(crate) fn rows(count: usize) -> Self
        ensures { result ≡ Some count }
    {
        RowLimit { left: Some(count) }
    }

    /// Whether no more rows may be shown.
    pub(crate) fn is_reached(&self) -> bool
        ensures { IsTrue result ↔ (self.now ≡ Some 0) }
    {
        self.left == Some(0)
    }

    /// Counts more rows, as far as the limit allows. Returns the number that it counted.
    pub(crate) fn count_up_to(&mut self, rows: usize) -> usize
        ensures { MatchOption self.old ((result ≡ rows) × (self.new ≡ None)) (λ left. (result ≡ min left rows) × (self.new ≡ Some (left - rows))) }
    {
        let Some(left) = self.left else {
            return rows;
        };
        let counted = left.min(rows);
        self.left = Some(left - counted);
        counted
    }
}
