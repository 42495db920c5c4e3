//! Reading lines by a schema, one after the other.
ghost use Rattle.std.specs.Prelude.{◌≡◌, ◌≢◌, ◌<◌, ◌≤◌, length, take, IfErr, IfOk};
ghost use Rattle.std.specs.Result.{result_map_both};
ghost use Rattle.bt_value.specs.Answers.{Answers};
ghost use Rattle.bt_row.specs.Ops as spec;
ghost use Rattle.bt_row.specs.Schemas.{prefix_as, read_as};

use crate::plain_row::read_plain_row;
use crate::row_reader::{read_fields, read_values};
use crate::upsert::{Upsert, read_plain_upsert, read_upsert};
use bt_record::{FieldsRef, RecordCutter, RecordLine};
use bt_row::{Change, Column, MOST_OPS, Row, Schema, default_row};
use bt_value::Refusal;
use std::alloc::Global;

/// Reads lines, one after the other. Lines share the reader's memory. A line with too many fields takes no more of it than one
/// with as many fields as are allowed.
#[derive(Drop)]
pub struct RecordReader {
    cutter: RecordCutter,
}

impl RecordReader {
    /// Nothing was read.
    pub fn new(alloc: Global) -> Self {
        RecordReader {
            cutter: RecordCutter::new(alloc),
        }
    }

    // The fields of a line, or `BadLength` of this item if there are more than the limit.
    fn bounded_fields<'b>(
        &'b mut self,
        item: u64,
        line: &'b RecordLine<'_>,
        most: usize,
    ) -> Result<FieldsRef<'b>, Refusal>
        ensures fields { IfOk result (λ fields. fields ≡ line.now) }
        ensures few { IfOk result (λ fields. length fields ≤ most) }
        ensures many { IfErr result (λ e. e ≢ Refusal.OutOfMemory → (e ≡ Refusal.BadLength item) × (most < length line.now)) }
    {
        match self.cutter.fields(line, most)? {
            Some(fields) => Ok(fields),
            None => Err(Refusal::BadLength(item)),
        }
    }

    // The values that a line encodes, one for each column.
    //
    // A plain line is read in one pass over its bytes. Any other line is cut into fields before they are read, which is slower.
    #[tactic(auto, using(crate::proofs::Columnwise::values_read))]
    fn read_values(
        &mut self,
        alloc: Global,
        columns: &[Column],
        item: u64,
        line: &RecordLine<'_>,
    ) -> Result<Row, Refusal>
        ensures { Answers (read_as columns.now item line.now) result }
    {
        if let Some(row) = read_plain_row(alloc, columns, line.text())? {
            return Ok(row);
        }
        let fields = self.bounded_fields(item, line, columns.len())?;
        read_values(alloc, columns, item, &fields)
    }

    /// The row that a line encodes. The result is the same as that of `read_row` for the line's fields.
    pub fn read_row(
        &mut self,
        alloc: Global,
        schema: &Schema,
        item: u64,
        line: &RecordLine<'_>,
    ) -> Result<Row, Refusal>
        ensures { Answers (read_as schema.now.columns item line.now) result }
    {
        self.read_values(alloc, schema.columns(), item, line)
    }

    /// The values of the key that a line encodes. The result is the same as that of `read_key` for the line's fields.
    pub fn read_key(
        &mut self,
        alloc: Global,
        schema: &Schema,
        item: u64,
        line: &RecordLine<'_>,
    ) -> Result<Row, Refusal>
        ensures { Answers (read_as (take schema.now.keys schema.now.columns) item line.now) result }
    {
        self.read_values(alloc, schema.key_columns(), item, line)
    }

    /// The values that a line encodes in the first of these columns, one for each field. `BadLength` if there are no fields, or more than
    /// columns. Otherwise `BadField` if a field is not a value of its column. Both have this item.
    pub fn read_prefix(
        &mut self,
        alloc: Global,
        columns: &[Column],
        item: u64,
        line: &RecordLine<'_>,
    ) -> Result<Row, Refusal>
        ensures { Answers (prefix_as columns.now item line.now) result }
    {
        let fields = self.bounded_fields(item, line, columns.len())?;
        if fields.len() == 0 {
            return Err(Refusal::BadLength(item));
        }
        read_fields(alloc, &columns[..fields.len()], item, &fields)
    }

    /// What the upsert that a line encodes does to the row of its key. The row to begin with starts with the key's values.
    ///
    /// Its operations are refused as in [`read_ops`](crate::read_ops), and a field of the key as `BadField`. If both are at fault, the
    /// smaller refusal is returned.
    ///
    /// If the line is plain, a single arithmetic operation needs no list.
    #[tactic(auto, using(bt_row::proofs::offered::Fits::upsert_begins))]
    pub fn read_change(
        &mut self,
        alloc: Global,
        schema: &Schema,
        item: u64,
        line: &RecordLine<'_>,
    ) -> Result<Change, Refusal>
        ensures answer { Answers (spec.upsert_as schema.now item line.now) (result_map_both (λ new. (take schema.now.keys new.base, new.ops)) (λ e. e) result) }
        ensures base { IfOk result (λ change. change.base ≡ spec.default_row schema.now (take schema.now.keys change.base)) }
    {
        if let Some((key, op)) = read_plain_upsert(alloc, schema, item, line.text())? {
            let base = default_row(alloc, schema, key)?;
            return Ok(Change::of_one(alloc, base, op)?);
        }
        let Upsert { key, ops } = self.read_cut_upsert(alloc, schema, item, line)?;
        let base = default_row(alloc, schema, key)?;
        Ok(Change::new(alloc, base, ops)?)
    }

    // The key and the operations that a line encodes. The line is cut into fields first.
    fn read_cut_upsert(
        &mut self,
        alloc: Global,
        schema: &Schema,
        item: u64,
        line: &RecordLine<'_>,
    ) -> Result<Upsert, Refusal>
        ensures { Answers (spec.upsert_as schema.now item line.now) (result_map_both (λ upsert. (upsert.key, upsert.ops)) (λ e. e) result) }
    {
        let keys = schema.key_columns().len();
        let fields = self.bounded_fields(item, line, keys + 3 * MOST_OPS)?;
        read_upsert(alloc, schema, item, &fields)
    }
}
