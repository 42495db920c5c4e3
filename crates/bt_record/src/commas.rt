//! Cutting a text at its commas.
ghost use Rattle.std.specs.Prelude.{◌≡◌, ◌≤◌, is_some, length, true, IfOk};
ghost use Rattle.bt_record.specs.inside.Pieces.{LieWithin, pieces};
ghost use Rattle.bt_record.specs.Records.{csv_record, fields_in};
ghost use Rattle.bt_value.specs.PlainFields.{is_special as is_quote_or_line_end};

use crate::fields::FieldSpan;
use bt_value::is_special;
use std::alloc::AllocError;

/// Finds the spans of the fields of a text, which are the parts between its commas. Returns `false` if there are too many fields, or if
/// the text has a byte with a special meaning in a record.
pub(crate) fn cut_plain(
    spans: &mut Vec<FieldSpan>,
    text: &[u8],
    most: usize,
) -> Result<bool, AllocError>
    requires { is_some (csv_record text.now) ≡ true }
    ensures fields { IfOk result (λ plain. plain ≡ true → fields_in text.now ≡ pieces text.now spans.new.items) }
    ensures few { IfOk result (λ plain. plain ≡ true → length spans.new.items ≤ most) }
    ensures within { IfOk result (λ plain. plain ≡ true → LieWithin (length text.now) spans.new.items) }
{
    spans.clear();
    let mut start = 0;
    for (place, byte) in text.iter().enumerate() {
        if *byte == b',' {
            if spans.len() >= most {
                return Ok(false);
            }
            spans.push(FieldSpan { start, end: place })?;
            start = place + 1;
        } else if is_special(*byte) {
            return Ok(false);
        }
    }
    if spans.len() >= most {
        return Ok(false);
    }
    let end = text.len();
    spans.push(FieldSpan { start, end })?;
    Ok(true)
}
