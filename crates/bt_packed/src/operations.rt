//! Reading the operations of an upsert from packed bytes.
ghost use Rattle.std.specs.Prelude.{◌≡◌, ◌≢◌, [], Err, IfErr, IfOk, Ok};
ghost use Rattle.std.specs.Option.{option_copied};
ghost use Rattle.bt_packed.specs.Changes as spec;

use crate::fault::Fault;
use crate::reading::{int_at, value_at};
use bt_row::{Arithmetic, Column, Op, Ops, Schema, check_ops};
use bt_value::Refusal;
use std::alloc::Global;
use std::slice;

// The arithmetic of an operation with this code.
fn arithmetic_of(code: u8) -> Option<Arithmetic>
    ensures { result ≡ spec.arithmetic_of code }
{
    match code {
        1 => Some(Arithmetic::Add),
        2 => Some(Arithmetic::Max),
        3 => Some(Arithmetic::Min),
        _ => None,
    }
}

// The operation that sets the value at a place of this column.
fn set_at<'b>(
    alloc: Global,
    item: u64,
    place: u8,
    column: Option<&Column>,
    bytes: &'b [u8],
) -> Result<(Op, &'b [u8]), Fault>
    ensures done { IfOk result (λ read. spec.set_at item place (option_copied column.entry) bytes.now ≡ Ok (read.0, read.1.now)) }
    ensures fault { IfErr result (λ fault. fault.refusal ≢ Refusal.OutOfMemory → spec.set_at item place (option_copied column.entry) bytes.now ≡ Err fault) }
{
    let at = place as u64 + 1;
    let Some(column) = column else {
        return Err(Fault::at(Refusal::NoSuchColumn, item, at));
    };
    let Some((value, rest)) = value_at(column.kind, bytes) else {
        return Err(Fault::bad_bytes(item, at));
    };
    Ok((Op::Set(place as usize, value.to_value(alloc)?), rest))
}

// The operation that does arithmetic on the int at a place.
fn make_at<'b>(
    item: u64,
    place: u8,
    arithmetic: Option<Arithmetic>,
    bytes: &'b [u8],
) -> Result<(Op, &'b [u8]), Fault>
    ensures done { IfOk result (λ read. spec.make_at item place arithmetic bytes.now ≡ Ok (read.0, read.1.now)) }
    ensures fault { IfErr result (λ fault. spec.make_at item place arithmetic bytes.now ≡ Err fault) }
{
    let Some(arithmetic) = arithmetic else {
        return Err(Fault::bad_bytes(item, 0));
    };
    let Some((number, rest)) = int_at(bytes) else {
        return Err(Fault::bad_bytes(item, place as u64 + 1));
    };
    Ok((Op::making(arithmetic, place as usize, number), rest))
}

// The operation with this code at a place.
fn read_op<'b>(
    alloc: Global,
    schema: &Schema,
    item: u64,
    code: u8,
    place: u8,
    bytes: &'b [u8],
) -> Result<(Op, &'b [u8]), Fault>
    ensures done { IfOk result (λ read. spec.read_op schema.now item code place bytes.now ≡ Ok (read.0, read.1.now)) }
    ensures fault { IfErr result (λ fault. fault.refusal ≢ Refusal.OutOfMemory → spec.read_op schema.now item code place bytes.now ≡ Err fault) }
{
    if code == 0 {
        let column = schema.columns().get(place as usize);
        set_at(alloc, item, place, column, bytes)
    } else {
        make_at(item, place, arithmetic_of(code), bytes)
    }
}

// An operation that was read, if the schema allows it, and the bytes after it.
fn allowed<'b>(
    schema: &Schema,
    item: u64,
    place: u8,
    op: Op,
    rest: &'b [u8],
) -> Result<(Op, &'b [u8]), Fault>
    ensures done { IfOk result (λ read. spec.allowed schema.now item place (op, rest.now) ≡ Ok (read.0, read.1.now)) }
    ensures fault { IfErr result (λ fault. spec.allowed schema.now item place (op, rest.now) ≡ Err fault) }
{
    match check_ops(schema, item, slice::from_ref(&op)) {
        Ok(()) => Ok((op, rest)),
        Err(refusal) => Err(Fault::at(refusal, item, place as u64 + 1)),
    }
}

// One operation at the front of bytes, and the bytes after it.
fn op_at<'b>(
    alloc: Global,
    schema: &Schema,
    item: u64,
    bytes: &'b [u8],
) -> Result<(Op, &'b [u8]), Fault>
    ensures done { IfOk result (λ read. spec.op_at schema.now item bytes.now ≡ Ok (read.0, read.1.now)) }
    ensures fault { IfErr result (λ fault. fault.refusal ≢ Refusal.OutOfMemory → spec.op_at schema.now item bytes.now ≡ Err fault) }
{
    let [code, place, rest @ ..] = bytes else {
        return Err(Fault::bad_bytes(item, 0));
    };
    let (op, rest) = read_op(alloc, schema, item, *code, *place, rest)?;
    allowed(schema, item, *place, op, rest)
}

/// The operations at the front of bytes, after their number, and the bytes after them.
pub(crate) fn ops_at<'b>(
    alloc: Global,
    schema: &Schema,
    item: u64,
    bytes: &'b [u8],
) -> Result<(Ops, &'b [u8]), Fault>
    ensures done { IfOk result (λ read. spec.ops_at schema.now item bytes.now ≡ Ok (read.0, read.1.now)) }
    ensures fault { IfErr result (λ fault. fault.refusal ≢ Refusal.OutOfMemory → spec.ops_at schema.now item bytes.now ≡ Err fault) }
{
    let [count, rest @ ..] = bytes else {
        return Err(Fault::bad_bytes(item, 0));
    };
    ops_from(alloc, schema, item, *count, rest)
}

// This many operations at the front of bytes, and the bytes after them.
fn ops_from<'b>(
    alloc: Global,
    schema: &Schema,
    item: u64,
    count: u8,
    bytes: &'b [u8],
) -> Result<(Ops, &'b [u8]), Fault>
    ensures done { IfOk result (λ read. spec.ops_from schema.now item count [] bytes.now ≡ Ok (read.0, read.1.now)) }
    ensures fault { IfErr result (λ fault. fault.refusal ≢ Refusal.OutOfMemory → spec.ops_from schema.now item count [] bytes.now ≡ Err fault) }
{
    let mut ops = Ops::new(alloc);
    let mut rest = bytes;
    let mut left = count;
    while left > 0 {
        let (op, others) = op_at(alloc, schema, item, rest)?;
        ops.push(op)?;
        rest = others;
        left -= 1;
    }
    Ok((ops, rest))
}
