//! Calls that the engine does not make. They are for callers in Rattle.
ghost use Rattle.std.specs.Prelude.{◌≡◌, ◌++◌, OnErr, OnOk, map};
ghost use Rattle.bt_row.specs.RecordTexts.{record_text};
ghost use Rattle.bt_value.specs.Values.{text_of};

use crate::rows::record_writer::{reserve_text, write_fields};
use crate::rows::row::room_for_values;
use crate::rows::values::Values;
use bt_value::Value;
use std::alloc::AllocError;

/// Adds the text of the record of these values, as [`write_row`](crate::write_row) does for a row.
pub fn write_record(out: &mut Vec<u8>, values: &[Value]) -> Result<(), AllocError>
    ensures ok { OnOk result (out.new.items ≡ out.old.items ++ record_text (map text_of values.now)) }
    ensures err { OnErr result (out.new.items ≡ out.old.items) }
{
    reserve_text(out, room_for_values(values))?;
    write_fields(out, Values::of(values));
    Ok(())
}
