//! Dumps of tables, and loading them.
ghost use Rattle.std.specs.Prelude.{◌≡◌, ◌++◌, List, [], flat_map, fold, map};
ghost use Rattle.bt_value.specs.declared.value.Value.{Value};
ghost use Rattle.bt_form.specs.Messages.{Rows};
ghost use Rattle.bt_table.specs.Standing.{IsSoundTable};
ghost use Rattle.bt_table.specs.Tables.{PlainTable};
ghost use Rattle.bt_show.specs.RecordTexts.{record_line};
ghost use Rattle.bt_laws.specs.Dumps.{HasPlainHeader, IsReadyFor, LoadsImagesOf, LoadsRowsOf};
ghost use Rattle.bt_laws.specs.StoredTables.{IsStored};

/// The dump of a table is a header with the names of its columns, followed by the text that a `RecordText` of bt_view has after a scan of all rows. A table
/// without rows that loads the dump has the same rows. Its trees have the images that the trees of the first table have after they are rebuilt.
///
/// The clause `visited` says that the text of a `RecordText`, which each row adds its line to, is the lines of all rows.
pub fn dump_and_load()
    ensures rows { (table other : PlainTable) → IsStored table → HasPlainHeader table → IsReadyFor table other → LoadsRowsOf table other }
    ensures images { (table other : PlainTable) → IsStored table → HasPlainHeader table → IsReadyFor table other → IsSoundTable other → other.shape ≡ table.shape → LoadsImagesOf table other }
    ensures visited { (rows : Rows (List Value)) → fold (λ text row. text ++ record_line row.1) [] rows ≡ flat_map record_line (map (λ row. row.1) rows) }
{}
