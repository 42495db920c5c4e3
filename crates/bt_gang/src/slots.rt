//! The answers of all workers, at the numbers of their jobs.
ghost use Rattle.std.specs.Prelude.{◌≡◌, ◌<◌, ◌≤◌, ℕ, List, [], ◌∷◌, ◌++◌, length, vec_capacity, vec_len, Err, IfErr, IfOk, IsTrue, IsFalse, None, Option, Result, Some, set};
ghost use lib.ListN.{get_elem?};
ghost use mathlib.Core.Option.{some};
ghost use Rattle.bt_gang.specs.Numbered.{numbered, present};
ghost use Rattle.bt_gang.specs.inside.Places.{AllBelow, IsFull, ok_slots, puts};

use crate::answers::{Answer, Answers};
use std::collections::LinkedList;

/// A place for each job's answer.
pub(crate) type Slots<D, F> = Vec<Option<Result<D, F>>>;

// Puts an answer into the place of its number.
fn put<D: Drop, F: Drop>(slots: &mut Slots<D, F>, number: usize, value: Result<D, F>)
    requires { number < length slots.old.items }
    ensures { slots.new.items ≡ set slots.old.items number (Some value) }
{
    slots[number] = Some(value);
}

// Puts an answer into its place, if there is one.
fn put_some<D: Drop, F: Drop>(slots: &mut Slots<D, F>, answer: Option<Answer<D, F>>)
    requires { AllBelow (length slots.old.items) (present (answer ∷ [])) }
    ensures { slots.new.items ≡ puts slots.old.items (present (answer ∷ [])) }
{
    if let Some(Answer { number, value }) = answer {
        put(slots, number, value);
    }
}

/// Puts a worker's answers into their places, and returns their numbers.
pub(crate) fn place<D: Drop, F: Drop>(
    out: Answers<D, F>,
    slots: &mut Slots<D, F>,
) -> LinkedList<usize>
    requires numbers { AllBelow (length slots.old.items) (present out.list) }
    ensures slots { slots.new.items ≡ puts slots.old.items (present out.list) }
    ensures numbers { result ≡ numbered (present out.list) }
{
    for answer in out.list {
        put_some(slots, answer);
    }
    out.numbers
}

/// Whether no place is empty.
pub(crate) fn is_full<D, F>(slots: &Slots<D, F>) -> bool
    ensures full { IsTrue result → IsFull slots.now.items }
    ensures free { IsFalse result → (i : ℕ) × (get_elem? slots.now.items i ≡ some None) }
{
    for place in 0..slots.len() {
        if slots[place].is_none() {
            return false;
        }
    }
    true
}

/// The fault of a job.
#[derive(Drop)]
pub(crate) struct JobFault<F> {
    pub number: usize,
    pub fault: F,
}

/// The values in order, if each place has one, or else the first fault.
pub(crate) fn values<D: Drop, F: Drop>(
    slots: Slots<D, F>,
    mut done: Vec<D>,
) -> Result<Vec<D>, JobFault<F>>
    requires full { IsFull slots.items }
    requires done { (done.items ≡ []) × (vec_len slots ≤ vec_capacity done) }
    ensures ok { IfOk result (λ d. slots.items ≡ ok_slots d.items) }
    ensures err { IfErr result (λ e. (before : List D) × (after : List (Option (Result D F))) × (length before ≡ e.number) × (slots.items ≡ ok_slots before ++ Some (Err e.fault) ∷ after)) }
{
    let mut number = 0;
    for slot in slots {
        match slot {
            Some(Ok(value)) => done.push_reserved(value),
            Some(Err(fault)) => return Err(JobFault { number, fault }),
            None => unreachable!(),
        }
        number += 1;
    }
    Ok(done)
}
