//! Reading the page that packed bytes ask for.
ghost use Rattle.std.specs.Prelude.{◌≡◌, ◌≢◌, Err, IfErr, IfOk, Ok};
ghost use Rattle.bt_packed.specs.Calls as spec;

use crate::fault::Fault;
use crate::reading::{value_at, values_at};
use bt_keycode::{Key, encode_row};
use bt_row::Column;
use bt_value::{Kind, Refusal, Text, ValueRef};
use bt_view::KeyRange;
use std::alloc::Global;

/// The name at the front of bytes, and the bytes after it.
pub(crate) fn name_at(alloc: Global, bytes: &[u8]) -> Result<(Text, &[u8]), Fault>
    ensures done { IfOk result (λ read. spec.name_at bytes.now ≡ Ok (read.0, read.1.now)) }
    ensures fault { IfErr result (λ fault. fault.refusal ≢ Refusal.OutOfMemory → spec.name_at bytes.now ≡ Err fault) }
{
    match value_at(Kind::Text, bytes) {
        Some((ValueRef::Text(name), rest)) => Ok((Text::from_bytes(alloc, name)?, rest)),
        _ => Err(Fault::bad_bytes(0, 0)),
    }
}

// The key of this many values of the first of these columns at the front of bytes, and the bytes after them.
fn prefix_at<'b>(
    alloc: Global,
    columns: &[Column],
    item: u64,
    count: usize,
    bytes: &'b [u8],
) -> Result<(Option<Key>, &'b [u8]), Fault>
    ensures done { IfOk result (λ read. spec.prefix_at columns.now item count bytes.now ≡ Ok (read.0, read.1.now)) }
    ensures fault { IfErr result (λ fault. fault.refusal ≢ Refusal.OutOfMemory → spec.prefix_at columns.now item count bytes.now ≡ Err fault) }
{
    if count == 0 || count > columns.len() {
        return Err(Fault::at(Refusal::BadLength(item), item, 0));
    }
    let (values, rest) = values_at(alloc, item, &columns[..count], bytes)?;
    Ok((Some(encode_row(alloc, &values, values.len())?), rest))
}

// The smallest key after that of the values of these columns at the front of bytes, and the bytes after them.
fn after_at<'b>(
    alloc: Global,
    columns: &[Column],
    item: u64,
    bytes: &'b [u8],
) -> Result<(Option<Key>, &'b [u8]), Fault>
    ensures done { IfOk result (λ read. spec.after_at columns.now item bytes.now ≡ Ok (read.0, read.1.now)) }
    ensures fault { IfErr result (λ fault. fault.refusal ≢ Refusal.OutOfMemory → spec.after_at columns.now item bytes.now ≡ Err fault) }
{
    let (values, rest) = values_at(alloc, item, columns, bytes)?;
    let key = encode_row(alloc, &values, values.len())?;
    Ok((Some(key.next(alloc)?), rest))
}

// The bound at the front of bytes, and the bytes after it.
fn bound_at<'b>(
    alloc: Global,
    columns: &[Column],
    item: u64,
    bytes: &'b [u8],
) -> Result<(Option<Key>, &'b [u8]), Fault>
    ensures done { IfOk result (λ read. spec.bound_at columns.now item bytes.now ≡ Ok (read.0, read.1.now)) }
    ensures fault { IfErr result (λ fault. fault.refusal ≢ Refusal.OutOfMemory → spec.bound_at columns.now item bytes.now ≡ Err fault) }
{
    match bytes {
        [0, rest @ ..] => Ok((None, rest)),
        [1, count, rest @ ..] => prefix_at(alloc, columns, item, *count as usize, rest),
        [2, rest @ ..] => after_at(alloc, columns, item, rest),
        _ => Err(Fault::bad_bytes(item, 0)),
    }
}

/// The range that bytes encode: a lower bound and an upper one, with nothing after them.
pub(crate) fn range_at(alloc: Global, columns: &[Column], bytes: &[u8]) -> Result<KeyRange, Fault>
    ensures done { IfOk result (λ range. spec.range_at columns.now bytes.now ≡ Ok range) }
    ensures fault { IfErr result (λ fault. fault.refusal ≢ Refusal.OutOfMemory → spec.range_at columns.now bytes.now ≡ Err fault) }
{
    let (from, rest) = bound_at(alloc, columns, 1, bytes)?;
    let (to, rest) = bound_at(alloc, columns, 2, rest)?;
    if rest.is_empty() {
        Ok(KeyRange { from, to })
    } else {
        Err(Fault::bad_bytes(2, 0))
    }
}
