//! Cutting lines into fields, one after the other.
ghost use Rattle.std.specs.Prelude.{◌≡◌, ◌<◌, ◌≤◌, length, IfNone, IfOk, IfSome};

use crate::commas::cut_plain;
use crate::csv_states::cut_quoted;
use crate::fields::{FieldSpan, FieldsRef};
use crate::line::RecordLine;
use std::alloc::{AllocError, Global};

/// Memory for cutting lines, one after the other: the spans of the fields, and the bytes of the fields if the line has quotes. Lines
/// share this memory. A line with too many fields takes no more of it than one with as many fields as are allowed.
#[derive(Drop)]
pub struct RecordCutter {
    bytes: Vec<u8>,
    spans: Vec<FieldSpan>,
}

impl RecordCutter {
    /// Nothing was cut.
    pub fn new(alloc: Global) -> Self {
        RecordCutter {
            bytes: Vec::new(alloc),
            spans: Vec::new(alloc),
        }
    }

    /// The fields of a line, or `None` if it has more than the limit.
    ///
    /// A text without quotes is cut at its commas, and its fields are borrowed from it. Any other text is read byte by byte, by the states
    /// of csv's reader, which is slower.
    pub fn fields<'a>(
        &'a mut self,
        line: &'a RecordLine<'_>,
        most: usize,
    ) -> Result<Option<FieldsRef<'a>>, AllocError>
        ensures fields { IfOk result (λ found. IfSome found (λ fields. fields ≡ line.now)) }
        ensures few { IfOk result (λ found. IfSome found (λ fields. length fields ≤ most)) }
        ensures many { IfOk result (λ found. IfNone found (most < length line.now)) }
    {
        let text = line.text();
        if cut_plain(&mut self.spans, text, most)? {
            return Ok(Some(FieldsRef::new(text, self.spans.as_slice())));
        }
        if cut_quoted(&mut self.bytes, &mut self.spans, text, most)? {
            return Ok(Some(FieldsRef::new(self.bytes.as_slice(), self.spans.as_slice())));
        }
        Ok(None)
    }
}
