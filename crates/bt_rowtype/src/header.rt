//! Records that have the names of columns.
ghost use Rattle.std.specs.Prelude.{◌≡◌, ◌==◌};
ghost use Rattle.std.specs.Cmp.Lexicographic.{pointwise};
ghost use Rattle.bt_rowtype.specs.Loads as loads;

use bt_record::Fields;
use bt_row::Column;

// Whether a column has this name.
fn is_named(column: &Column, name: &[u8]) -> bool
    ensures { result ≡ pointwise ◌==◌ column.now.name name.now }
{
    column.name.as_bytes() == name
}

/// Whether fields are the names of the columns, in order.
pub fn is_header(columns: &[Column], names: &Fields) -> bool
    ensures { result ≡ loads.is_header columns.now names.now }
{
    if names.len() != columns.len() {
        return false;
    }
    for (place, column) in columns.iter().enumerate() {
        if !is_named(column, names.get(place)) {
            return false;
        }
    }
    true
}
