//! Records of a batch, and the values that they encode.
ghost use Rattle.std.specs.Prelude.{◌≡◌, List, ℕ};
ghost use Rattle.bt_batch.specs.Batches.{read_key, read_message};
ghost use Rattle.bt_batch.specs.Changes.{checked_del, checked_put, checked_ups};
ghost use Rattle.bt_row.specs.Ops.{upsert_as};
ghost use Rattle.bt_row.specs.Schemas.{Schema, read_as};
ghost use Rattle.bt_row.specs.declared.operations.op.Op.{Op};
ghost use Rattle.bt_rowtype.specs.declared.item.Item.TheVariants as item;
ghost use Rattle.bt_value.specs.Results.{and_then};
ghost use Rattle.bt_value.specs.declared.value.Value.{Value};

/// A record of a batch encodes the message of the values that it is read as. So a table takes values as it takes the records that encode them: the same
/// messages, with the same refusals.
pub fn records_as_values()
    ensures puts { (schema : Schema) (number : ℕ) (fields : List (List ℕ)) → read_message schema number (item.Put fields)
        ≡ and_then (checked_put schema number) (read_as schema.columns number fields) }
    ensures dels { (schema : Schema) (number : ℕ) (fields : List (List ℕ)) → read_message schema number (item.Del fields)
        ≡ and_then (checked_del schema number) (read_key schema number fields) }
    ensures upserts { (schema : Schema) (number : ℕ) (fields : List (List ℕ)) → read_message schema number (item.Ups fields)
        ≡ and_then (λ (upsert : List Value × List Op). checked_ups schema number upsert.0 upsert.1) (upsert_as schema number fields) }
{}
