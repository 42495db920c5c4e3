//! Reading the names and the filter of an index.
ghost use Rattle.std.specs.Prelude.{◌≡◌, Err, IfErr, IfSome, None, Option, Result, is_some, map, string_bytes};
ghost use Rattle.std.specs.Option.{option_copied};
ghost use Rattle.std.specs.Result.{result_err};
ghost use Rattle.bt_value.specs.Answers.{Answers};
ghost use Rattle.bt_value.specs.Results.{both_read, or_refused};
ghost use Rattle.bt_value.specs.Refusals.{lower};
ghost use Rattle.bt_fanout.specs.Definitions as spec;

use crate::definition::{Condition, MOST_INCLUDED, MOST_ON};
use bt_row::{Column, Filter, find_column};
use bt_value::{Refusal, Sequence, read_field};
use std::alloc::Global;

// The condition of a filter.
fn read_condition(alloc: Global, columns: &[Column], filter: &Filter) -> Result<Condition, Refusal>
    ensures answer { Answers (spec.condition_of columns.now filter.now) result }
    ensures certain { IfErr (spec.condition_of columns.now filter.now) (λ e. result ≡ Err e) }
{
    let Some((place, kind)) = find_column(columns, 0, filter.column.as_bytes()) else {
        return Err(Refusal::NoSuchColumn);
    };
    let constant = read_field(alloc, kind, filter.constant.as_slice())?;
    Ok(Condition {
        place,
        test: filter.test,
        constant,
    })
}

// The condition of a filter, if there is one.
fn read_condition_in(
    alloc: Global,
    columns: &[Column],
    filter: Option<&Filter>,
) -> Result<Option<Condition>, Refusal>
    ensures answer { Answers (spec.condition_in columns.now (option_copied filter.entry)) result }
    ensures certain { IfErr (spec.condition_in columns.now (option_copied filter.entry)) (λ e. result ≡ Err e) }
{
    match filter {
        Some(filter) => Ok(Some(read_condition(alloc, columns, filter)?)),
        None => Ok(None),
    }
}

// Whether there are columns with all these names.
fn are_there(columns: &[Column], names: &[String]) -> bool
    ensures { result ≡ is_some (spec.places_of columns.now (map string_bytes names.now)) }
{
    for name in names {
        if find_column(columns, 0, name.as_bytes()).is_none() {
            return false;
        }
    }
    true
}

// The refusal of the columns that an index is ordered by and of those that it includes, if they have one. Allocates nothing.
fn chosen_fault(columns: &[Column], on: &[String], include: &[String]) -> Option<Refusal>
    ensures fault { result ≡ result_err (spec.chosen columns.now (map string_bytes on.now) (map string_bytes include.now)) }
    ensures lowest { IfSome result (λ fault. lower Refusal.OutOfMemory fault ≡ fault) }
{
    if on.len() > MOST_ON || include.len() > MOST_INCLUDED {
        return Some(Refusal::TooMany);
    }
    if are_there(columns, on) && are_there(columns, include) {
        return None;
    }
    Some(Refusal::NoSuchColumn)
}

// The smaller of the refusal of a filter, if it has one, and a fault. Out of memory is larger than any fault.
fn refusal_with(read: Result<Option<Condition>, Refusal>, fault: Refusal) -> Refusal
    requires { lower Refusal.OutOfMemory fault ≡ fault }
    ensures { (answer : Result (Option Condition) Refusal) → Answers answer read → IfErr answer (λ e. read ≡ Err e) → both_read {T = Unit {0}} answer (Err fault) ≡ Err result }
{
    match read {
        Ok(_) => fault,
        Err(Refusal::OutOfMemory) => fault,
        Err(refusal) => refusal.lower(fault),
    }
}

// The places of the columns with these names.
fn read_places(
    alloc: Global,
    columns: &[Column],
    names: &[String],
) -> Result<Sequence<usize>, Refusal>
    ensures { Answers (or_refused Refusal.NoSuchColumn (spec.places_of columns.now (map string_bytes names.now))) result }
{
    let mut places = Sequence::with_capacity(alloc, names.len())?;
    for name in names {
        let Some((place, _)) = find_column(columns, 0, name.as_bytes()) else {
            return Err(Refusal::NoSuchColumn);
        };
        places.push(place)?;
    }
    Ok(places)
}

// The places of the columns that an index is ordered by and of those that it includes, if these have no fault.
fn read_chosen(
    alloc: Global,
    columns: &[Column],
    on: &[String],
    include: &[String],
) -> Result<(Sequence<usize>, Sequence<usize>), Refusal>
    requires { result_err (spec.chosen columns.now (map string_bytes on.now) (map string_bytes include.now)) ≡ None }
    ensures { Answers (spec.chosen columns.now (map string_bytes on.now) (map string_bytes include.now)) result }
{
    let first = read_places(alloc, columns, on)?;
    let others = read_places(alloc, columns, include)?;
    Ok((first, others))
}

// The condition of a filter, if there is one, and the chosen columns. A fault is reported rather than out of memory.
pub(crate) fn read_parts(
    alloc: Global,
    columns: &[Column],
    on: &[String],
    include: &[String],
    filter: Option<&Filter>,
) -> Result<(Option<Condition>, (Sequence<usize>, Sequence<usize>)), Refusal>
    ensures answer { Answers (both_read (spec.condition_in columns.now (option_copied filter.entry)) (spec.chosen columns.now (map string_bytes on.now) (map string_bytes include.now))) result }
    ensures certain { IfErr (both_read (spec.condition_in columns.now (option_copied filter.entry)) (spec.chosen columns.now (map string_bytes on.now) (map string_bytes include.now))) (λ e. result ≡ Err e) }
{
    let read = read_condition_in(alloc, columns, filter);
    if let Some(fault) = chosen_fault(columns, on, include) {
        return Err(refusal_with(read, fault));
    }
    let condition = read?;
    let chosen = read_chosen(alloc, columns, on, include)?;
    Ok((condition, chosen))
}
