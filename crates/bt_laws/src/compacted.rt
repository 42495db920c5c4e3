//! Tables that were compacted.
ghost use Rattle.std.specs.Prelude.{◌≡◌, List};
ghost use Rattle.bt_value.specs.declared.value.Value.{Value};
ghost use Rattle.bt_table.specs.Tables.{PlainTable};
ghost use Rattle.bt_snapshot.specs.Snapshots.{AreShown, IsCompactedTable};
ghost use Rattle.bt_laws.specs.CanonicalForms.{all_rebuilt};
ghost use Rattle.bt_laws.specs.Dumps.{HasPlainHeader};
ghost use Rattle.bt_laws.specs.StoredTables.{IsStored};

/// A table that was compacted, as `compact` of bt_snapshot says, is the table after each of its trees was rebuilt. So a snapshot keeps the columns, the shape,
/// all rows and all indexes.
pub fn compacted_tables()
    ensures rebuilt { (table new : PlainTable) (rows : List (List Value)) → IsStored table → HasPlainHeader table → AreShown table rows → IsCompactedTable table new → new ≡ all_rebuilt table }
{}
