//! Trees after a rebuild, and what their images depend on.
ghost use Rattle.std.specs.Prelude.{List, ℕ};
ghost use Rattle.bt_table.specs.Standing.{IsSoundTable};
ghost use Rattle.bt_table.specs.Tables.{PlainTable};
ghost use Rattle.bt_laws.specs.CanonicalForms.{HaveSameRows, ImagesTellRows, IsLoadedOnceRebuilt, LoadsFromScratch, RebuildAlike, RebuildsFromScratch};
ghost use Rattle.bt_laws.specs.StoredTables.{IsStored};

/// The image of a rebuilt tree depends only on the columns, the shape and the rows of the table, and that of an index also on its definition. The same is true
/// of the image of a tree in a table that has loaded a text. And the image of a rebuilt tree of rows determines the rows.
///
/// Each table that is not lost is sound (`IsSoundTable`). So earlier calls on it, their order and the number of workers make no difference to these images.
pub fn canonical_form()
    ensures rebuilt { (table : PlainTable) (name : List ℕ) → IsSoundTable table → RebuildsFromScratch table name }
    ensures loaded { (table : PlainTable) (text name : List ℕ) → IsSoundTable table → LoadsFromScratch table text name }
    ensures whole { (table : PlainTable) → IsSoundTable table → IsLoadedOnceRebuilt table }
    ensures alike { (first second : PlainTable) (name : List ℕ) → IsSoundTable first → IsSoundTable second → HaveSameRows first second → RebuildAlike first second name }
    ensures rows { (first second : PlainTable) → IsStored first → IsStored second → ImagesTellRows first second }
{}
