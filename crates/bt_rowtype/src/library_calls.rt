//! Calls that the engine does not make, since it reads lines by a [`RecordReader`](crate::RecordReader). They are for callers in Rattle who
//! have the fields of a record.
ghost use Rattle.std.specs.Prelude.{◌≡◌, ◌≢◌, Err, false, length, take};
ghost use Rattle.bt_value.specs.Answers.{Answers};
ghost use Rattle.bt_row.specs.Ops as spec;
ghost use Rattle.bt_row.specs.Schemas.{read_as};

use crate::row_reader::read_values;
use crate::upsert::read_ops_record;
use bt_record::Fields;
use bt_row::{Ops, Row, Schema};
use bt_value::Refusal;
use std::alloc::Global;

/// The values of the key that a record encodes, one field for each key column, refused as in [`read_row`](crate::read_row).
pub fn read_key(alloc: Global, schema: &Schema, item: u64, fields: &Fields) -> Result<Row, Refusal>
    ensures answer { Answers (read_as (take schema.now.keys schema.now.columns) item fields.now) result }
    ensures certain { length fields.now ≢ schema.now.keys → result ≡ Err (Refusal.BadLength item) }
{
    read_values(alloc, schema.key_columns(), item, &fields.as_ref())
}

/// The operations that the record of an upsert encodes: the fields of the key, then 1 to 16 groups of a word, the name of a column
/// and an argument. They are refused as by [`RecordReader::read_change`](crate::RecordReader::read_change).
pub fn read_ops(alloc: Global, schema: &Schema, item: u64, fields: &Fields) -> Result<Ops, Refusal>
    ensures answer { Answers (spec.ops_as schema.now item fields.now) result }
    ensures certain { spec.is_upsert schema.now.keys (length fields.now) ≡ false → result ≡ Err (Refusal.BadLength item) }
{
    read_ops_record(alloc, schema, item, &fields.as_ref())
}
