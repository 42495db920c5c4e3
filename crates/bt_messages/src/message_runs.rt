//! Runs: lists of sorted messages, one after the other.
ghost use Rattle.std.specs.Prelude.{◌≡◌, ◌<◌, ◌++◌, [], IfOk, OnOk, vec_capacity, vec_len};
ghost use Rattle.bt_keycode.specs.Keys.{IsSorted};
ghost use Rattle.bt_value.specs.Lists.{concatenation};
ghost use Rattle.bt_messages.specs.inside.Runs.{AreSome};

use crate::buffer::Buffer;
use bt_keycode::Key;
use bt_message::{Merge, Message};
use std::alloc::{AllocError, Global};
use std::mem::replace;

// The number of messages in a run. It is small, so that a freed run is used again while it is in the cache, and that little is
// moved when a run is divided.
const RUN_LEN: usize = 32;

/// Pushes a list of messages as a run, unless it is empty.
pub(crate) fn add_run<V: Merge>(
    runs: &mut Vec<Buffer<V>>,
    run: Vec<(Key, Message<V>)>,
) -> Result<(), AllocError>
    requires sorted { IsSorted run.items }
    requires some { AreSome runs.old.items }
    ensures concatenation { OnOk result (concatenation runs.new.items ≡ concatenation runs.old.items ++ run.items) }
    ensures some { OnOk result (AreSome runs.new.items) }
{
    if run.is_empty() {
        return Ok(());
    }
    runs.push(Buffer::from_sorted(run))?;
    Ok(())
}

// Takes out the messages of a run and leaves an empty list with capacity.
#[inline(never)]
fn take_run<V: Merge>(
    alloc: Global,
    run: &mut Vec<(Key, Message<V>)>,
) -> Result<Vec<(Key, Message<V>)>, AllocError>
    ensures taken { IfOk result (λ taken. taken.items ≡ run.old.items) }
    ensures left { OnOk result (run.new.items ≡ []) }
    ensures room { OnOk result (vec_len run.new < vec_capacity run.new) }
{
    Ok(replace(run, Vec::with_capacity(alloc, RUN_LEN)?))
}

/// Makes room for one more message: a full run is pushed to the others and replaced by an empty one.
#[inline(always)]
pub(crate) fn room_for_one<V: Merge>(
    alloc: Global,
    runs: &mut Vec<Buffer<V>>,
    run: &mut Vec<(Key, Message<V>)>,
) -> Result<(), AllocError>
    requires sorted { IsSorted run.old.items }
    requires some { AreSome runs.old.items }
    ensures concatenation { OnOk result (concatenation runs.new.items ++ run.new.items ≡ concatenation runs.old.items ++ run.old.items) }
    ensures some { OnOk result (AreSome runs.new.items) }
    ensures room { OnOk result (vec_len run.new < vec_capacity run.new) }
{
    // There is usually room, and only this test is inlined at the call.
    if run.len() < run.capacity() {
        return Ok(());
    }
    let full = take_run(alloc, run)?;
    add_run(runs, full)
}

// Sorted messages as one run, or as none if there are no messages.
fn one_run<V: Merge>(
    alloc: Global,
    messages: Vec<(Key, Message<V>)>,
) -> Result<Vec<Buffer<V>>, AllocError>
    requires { IsSorted messages.items }
    ensures concatenation { IfOk result (λ runs. concatenation runs.items ≡ messages.items) }
    ensures some { IfOk result (λ runs. AreSome runs.items) }
{
    let mut runs = Vec::new(alloc);
    add_run(&mut runs, messages)?;
    Ok(runs)
}

/// The runs of sorted messages. A short list becomes one run without moving a message.
pub(crate) fn runs_of<V: Merge>(
    alloc: Global,
    messages: Vec<(Key, Message<V>)>,
) -> Result<Vec<Buffer<V>>, AllocError>
    requires { IsSorted messages.items }
    ensures concatenation { IfOk result (λ runs. concatenation runs.items ≡ messages.items) }
    ensures some { IfOk result (λ runs. AreSome runs.items) }
{
    if messages.len() <= RUN_LEN {
        return one_run(alloc, messages);
    }
    let mut runs = Vec::new(alloc);
    let mut run = Vec::new(alloc);
    for entry in messages {
        room_for_one(alloc, &mut runs, &mut run)?;
        run.push_reserved(entry);
    }
    add_run(&mut runs, run)?;
    Ok(runs)
}
