//! The range of keys between two bounds.
ghost use Rattle.std.specs.Prelude.{◌≡◌, IfOk, None, Ok};
ghost use Rattle.std.specs.Option.{option_copied};
ghost use Rattle.bt_value.specs.Answers.{Answers};
ghost use Rattle.bt_show.specs.Ranges as spec;

use bt_keycode::{Key, encode_row};
use bt_record::RecordLine;
use bt_row::Column;
use bt_rowtype::{RecordReader, both_read};
use bt_value::Refusal;
use std::alloc::{AllocError, Global};

/// The keys at or after `from` and before `to`. A bound that is absent does not limit the range.
#[derive(Drop)]
pub struct KeyRange {
    pub from: Option<Key>,
    pub to: Option<Key>,
}

impl KeyRange {
    /// What is left of the range after a key. If the last row of a page has this key, it is the range of the next page.
    pub fn after(&self, alloc: Global, key: &Key) -> Result<Self, AllocError>
        ensures range { IfOk result (λ range. range ≡ spec.range_after self.now key.now) }
        ensures goes_on { IfOk result (spec.GoesOn self.now key.now) }
    {
        self.rest_after(alloc, key)
    }

    /// What is left of the range before a key. If the last row of a page from the end has this key, it is the range of the next page.
    pub fn before(&self, alloc: Global, key: &Key) -> Result<Self, AllocError>
        ensures range { IfOk result (λ range. range ≡ spec.range_before self.now key.now) }
        ensures goes_on { IfOk result (spec.GoesOnBefore self.now key.now) }
    {
        self.rest_before(alloc, key)
    }

    // What is left of the range before a key.
    fn rest_before(&self, alloc: Global, key: &Key) -> Result<Self, AllocError>
        ensures { IfOk result (λ range. range ≡ spec.range_before self.now key.now) }
    {
        let to = key.copy(alloc)?;
        let from = match &self.from {
            Some(from) => Some(from.copy(alloc)?),
            None => None,
        };
        Ok(KeyRange { from, to: Some(to) })
    }

    // What is left of the range after a key.
    fn rest_after(&self, alloc: Global, key: &Key) -> Result<Self, AllocError>
        ensures { IfOk result (λ range. range ≡ spec.range_after self.now key.now) }
    {
        let from = key.next(alloc)?;
        let to = match &self.to {
            Some(to) => Some(to.copy(alloc)?),
            None => None,
        };
        Ok(KeyRange {
            from: Some(from),
            to,
        })
    }

    /// The lower bound and the upper one.
    pub fn bounds(&self) -> (Option<&Key>, Option<&Key>)
        ensures from { option_copied result.0 ≡ self.now.from }
        ensures to { option_copied result.1 ≡ self.now.to }
    {
        (self.from.as_ref(), self.to.as_ref())
    }
}

// The key that a bound encodes, if there is a bound.
fn read_bound(
    alloc: Global,
    columns: &[Column],
    item: u64,
    bound: Option<&RecordLine<'_>>,
) -> Result<Option<Key>, Refusal>
    ensures answer { Answers (spec.bound_as columns.now item (option_copied bound.entry)) result }
    ensures absent { bound.entry ≡ None → result ≡ Ok None }
{
    let Some(line) = bound else {
        return Ok(None);
    };
    let mut reader = RecordReader::new(alloc);
    let values = reader.read_prefix(alloc, columns, item, line)?;
    Ok(Some(encode_row(alloc, &values, values.len())?))
}

/// The range between two bounds. Each of them encodes at least one of the first of these key columns. If they are refused, with `BadField` or `BadLength` and
/// item 1 for `from` and 2 for `to`, the lowest refusal is returned. If there is no bound, nothing is allocated.
pub fn read_range(
    alloc: Global,
    columns: &[Column],
    from: Option<&RecordLine<'_>>,
    to: Option<&RecordLine<'_>>,
) -> Result<KeyRange, Refusal>
    ensures answer { Answers (spec.range_as columns.now (option_copied from.entry) (option_copied to.entry)) result }
    ensures unbounded { from.entry ≡ None → to.entry ≡ None → result ≡ Ok spec.all_keys }
{
    let from = read_bound(alloc, columns, 1, from);
    let to = read_bound(alloc, columns, 2, to);
    let (from, to) = both_read(from, to)?;
    Ok(KeyRange { from, to })
}
