//! Questions to a table that may not be there yet, and changes of it.
ghost use Rattle.std.specs.Prelude.{◌≡◌, ◌≢◌, Err, IfErr, IfOk, IfSome, IsErrOf, None, Ok, OnOk};
ghost use Rattle.bt_table.specs.Standing.{IsConsistent};
ghost use Rattle.bt_packed.specs.Questions.{KeepsOrLoses, answer_of, applied_to, no_table, reply_from};

use crate::calls::{
    apply_packed, columns_packed, get_packed, last_page_packed, page_packed, sums_packed,
    trees_packed, usage_packed,
};
use crate::fault::Fault;
use crate::rows::ReplyRoom;
use crate::workforce::PackedWorkforce;
use bt_gang::Context;
use bt_table::Table;
use bt_value::Refusal;

/// A question to a table in packed bytes.
#[derive(Clone, Copy, Drop)]
pub enum Question {
    /// Which row has a key?
    Row,
    /// Which rows are on a page?
    Page,
    /// Which rows are on a page from the end?
    LastPage,
    /// Which sums have the groups of a range?
    Sums,
    /// Which columns have the rows of a tree?
    Columns,
    /// How much does a tree hold?
    Usage,
    /// Which trees are there?
    Trees,
}

// The reply of a table to a question.
fn answer<T, W: PackedWorkforce<T>>(
    context: &Context<'_, T, W>,
    table: &Table,
    question: Question,
    bytes: &[u8],
    room: ReplyRoom,
) -> Result<Vec<u8>, Fault>
    requires ready { W.accepts context.now.crew.now }
    ensures done { IfOk result (λ reply. answer_of question table.now bytes.now ≡ Ok reply.items) }
    ensures fault { IfErr result (λ fault. fault.refusal ≢ Refusal.OutOfMemory → answer_of question table.now bytes.now ≡ Err fault) }
{
    let alloc = context.alloc;
    match question {
        Question::Row => get_packed(alloc, table, bytes, room),
        Question::Page => page_packed(alloc, table, bytes, room),
        Question::LastPage => last_page_packed(alloc, table, bytes, room),
        Question::Sums => sums_packed(context, table, bytes, room),
        Question::Columns => columns_packed(alloc, table, bytes, room),
        Question::Usage => usage_packed(alloc, table, bytes, room),
        Question::Trees => trees_packed(alloc, table, bytes, room),
    }
}

/// The reply to a question. If there is no table, it is refused.
pub fn ask<T, W: PackedWorkforce<T>>(
    context: &Context<'_, T, W>,
    table: &Option<Table>,
    question: Question,
    bytes: &[u8],
    room: ReplyRoom,
) -> Result<Vec<u8>, Fault>
    requires ready { W.accepts context.now.crew.now }
    ensures done { IfOk result (λ reply. reply_from (answer_of question) table.now bytes.now ≡ Ok reply.items) }
    ensures fault { IfErr result (λ fault. fault.refusal ≢ Refusal.OutOfMemory → reply_from (answer_of question) table.now bytes.now ≡ Err fault) }
    ensures certain { table.now ≡ None → IsErrOf result no_table }
{
    match table {
        None => Err(Fault::of_call(Refusal::NoTable)),
        Some(table) => answer(context, table, question, bytes, room),
    }
}

/// Applies packed changes in order. If one is refused, or there is no table, none is applied. After `OutOfMemory` the table is as it was, or lost.
pub fn apply<T, W: PackedWorkforce<T>>(
    context: &Context<'_, T, W>,
    table: &mut Option<Table>,
    changes: &[u8],
) -> Result<(), Fault>
    requires ready { W.accepts context.now.crew.now }
    ensures done { OnOk result (applied_to table.old changes.now ≡ Ok table.new) }
    ensures fault { IfErr result (λ fault. fault.refusal ≢ Refusal.OutOfMemory → (applied_to table.old changes.now ≡ Err fault) × (table.new ≡ table.old)) }
    ensures memory { IfErr result (λ fault. fault.refusal ≡ Refusal.OutOfMemory → KeepsOrLoses table.old table.new) }
    ensures certain { table.old ≡ None → IsErrOf result no_table }
    ensures consistent { IfSome table.new IsConsistent }
{
    match table {
        None => Err(Fault::of_call(Refusal::NoTable)),
        Some(table) => apply_packed(context, table, changes),
    }
}
