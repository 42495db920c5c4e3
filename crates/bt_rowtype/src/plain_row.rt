//! Reading a plain line as a row in one pass over its bytes.
ghost use Rattle.std.specs.Prelude.{◌≡◌, IfOk, IfSome, Some, is_some, true};
ghost use Rattle.bt_record.specs.Records.{csv_record, fields_in};
ghost use Rattle.bt_row.specs.Schemas.{values_of};
ghost use Rattle.bt_rowtype.specs.inside.PlainRows.{HasRead};

use bt_row::{Column, Row};
use bt_value::tail;
use std::alloc::{AllocError, Global};

// A row keeps up to 30 bytes in itself. Three ints fill these, and take at most 59 bytes of a line: 19 each, and two commas. The limit is
// that number, rounded up. A longer line seldom encodes such a row, and is cut into fields at once.
const LONGEST_SHORT_LINE: usize = 64;

/// The values that the first fields of a text encode, one for each column, and the place after the last one's comma. After the last field
/// that is one past the end. Returns `None` unless all fields are plain and the row keeps the values in itself.
pub(crate) fn read_plain_columns(
    alloc: Global,
    columns: &[Column],
    text: &[u8],
) -> Result<Option<(Row, usize)>, AllocError>
    ensures { IfOk result (λ found. IfSome found (λ read. HasRead columns.now text.now read.0 read.1)) }
{
    if text.len() > LONGEST_SHORT_LINE {
        return Ok(None);
    }
    let mut row = Row::new();
    let mut at = 0;
    for column in columns {
        if at > text.len() {
            return Ok(None);
        }
        let Some((value, end)) = column.kind.read_plain(tail(text, at)) else {
            return Ok(None);
        };
        if !row.has_room(value) {
            return Ok(None);
        }
        row.push(alloc, value)?;
        at += end + 1;
    }
    Ok(Some((row, at)))
}

/// The values that the fields of a text encode, one for each column, if all fields are plain and the row keeps the values in itself.
#[tactic(auto, using(crate::proofs::PlainRows::row_read))]
pub(crate) fn read_plain_row(
    alloc: Global,
    columns: &[Column],
    text: &[u8],
) -> Result<Option<Row>, AllocError>
    requires { is_some (csv_record text.now) ≡ true }
    ensures { IfOk result (λ found. IfSome found (λ row. values_of columns.now (fields_in text.now) ≡ Some row)) }
{
    let Some((row, at)) = read_plain_columns(alloc, columns, text)? else {
        return Ok(None);
    };
    if at <= text.len() {
        return Ok(None);
    }
    Ok(Some(row))
}
