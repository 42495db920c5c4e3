//! A table for programs in C and other languages: you open a session, run script after script in it, copy the replies, and close it.
//!
//! C begins with a handle of zeros, and passes its address to one call at a time. Each call detects a handle without a session.
//! `include/betable.h` has the other obligations of C, the calls, and the codes of [`Status`] by name.
//!
//! ```text
//! betable_session session = {0};
//! betable_open(&session);
//! betable_run(&session, script, length);          // table 2, batch 1
//! betable_copy_replies(&session, 0, out, sizeof out);
//! betable_close(&session);
//! ```
//!
//! A table can be in a file. The library opens no files: [`betable_keep_read`] takes the bytes of one, and after each call on the table
//! [`betable_file_call_at`] says which calls of the file the host is to make before it uses the replies.
#![tactic(auto)]

ghost use Rattle.std.specs.Prelude.{◌≡◌, ◌≢◌, ◌⊎◌, ◌-◌, [], IfErr, IfSome, Ok, OnOk, List, None, Some, ℕ, drop, flat_map, is_some, length, min, take, true, false};
ghost use Rattle.std.specs.Option.{MatchOption};
ghost use Rattle.bt_script.specs.Commands.{commands};
ghost use Rattle.bt_shell.specs.Faults.{StopsBetweenReplies, StopsWithinReply, lost_reply};
ghost use Rattle.bt_shell.specs.Runs.{AreOneRun, EndsBetweenCommands, after_commands, refused_count, replies};
ghost use Rattle.bt_shell.specs.Steps.{State};
ghost use Rattle.bt_table.specs.Standing.{IsConsistent, IsSound};
ghost use Rattle.bt_table.specs.Tables.{Lost};
ghost use Rattle.bt_packed.specs.Calls.{columns_reply, get_reply, last_page_reply, page_reply, sums_reply, trees_reply, usage_reply};
ghost use Rattle.bt_c.specs.Kept.{HasNoFile, SameFile, table_asked};
ghost use Rattle.bt_c.specs.Reasons.{IsReason};
ghost use Rattle.bt_fault.specs.Commands.{first_reason};
ghost use Rattle.bt_c.specs.Replies.{checked_marks, marks_of, reply_at};
ghost use Rattle.bt_packed.specs.Questions.{answer_of, applied_to, reply_from};
ghost use Rattle.bt_c.specs.Sessions.{IsAnswered, IsFault, IsUnmarked, StaysOpen, StaysOrIsLostIn, code_of, fault_of, is_lost, session_of};
ghost use Rattle.bt_c.specs.declared.status.Status.TheVariants as status;

mod fault;
mod file_call;
mod file_calls;
mod handle;
mod kept;
mod parts;
mod reason;
mod reply;
mod session;
mod slot;
mod status;

use crate::reply::reply_at;
use crate::session::copy_from;
use bt_packed::{Fault, Question};
use bt_script::RunFault;
use bt_value::Refusal;
pub use fault::FaultInC;
pub use file_call::CallInC;
pub use file_calls::{
    betable_copy_file_call, betable_file_call_at, betable_file_call_count, betable_keep_add,
    betable_keep_begin, betable_keep_checkpoint, betable_keep_commit, betable_keep_end_of_file,
    betable_keep_is_due, betable_keep_open, betable_keep_read, betable_keep_run,
};
pub use handle::Handle;
pub use kept::{KeptGroup, KeptOpening, KeptTable};
pub use reason::ReasonInC;
pub use reply::{ReplyInC, ReplyMark};
pub use session::Session;
pub use status::Status;
use std::alloc::{AllocError, Global};

// A value that may go to another thread, as a handle may.
pub(crate) fn sent<T: Send>(value: T) -> T
    ensures { result ≡ value }
{
    value
}

/// Opens a session that has no table. A handle that has a session keeps it.
#[unsafe(no_mangle)]
pub extern "C" fn betable_open(alloc: Global, handle: &mut Handle) -> u32
    ensures opened { result ≡ code_of status.Done → MatchOption (session_of handle.new) ⊥ (λ session. (session.table ≡ None) × (session.text.items ≡ []) × (session.refused ≡ 0) × (session.marks.items ≡ []) × HasNoFile session) }
    ensures closed { result ≡ code_of status.OutOfMemory → session_of handle.new ≡ None }
    ensures ends { session_of handle.old ≡ None → (result ≡ code_of status.Done) ⊎ (result ≡ code_of status.OutOfMemory) }
    ensures refused { is_some (session_of handle.old) ≡ true → (result ≡ code_of status.AlreadyOpen) × (session_of handle.new ≡ session_of handle.old) }
{
    if handle.is_open() {
        return Status::AlreadyOpen.code();
    }
    let Ok(session) = Box::new(alloc, Session::new(alloc)) else {
        return Status::OutOfMemory.code();
    };
    *handle = sent(Handle::of(session));
    Status::Done.code()
}

/// Carries out the commands of a script on the session's table. Their replies are kept until the next run.
///
/// `Done`: each command has its reply, and the table is the one that they leave. `OutOfMemory`: the whole replies to the first n commands are kept, and the
/// table is the one after n commands, the one after n + 1, or lost. `ReplyCut`: an allocation for the list of replies failed; the table is the one after n + 1
/// commands, and the whole replies to the first n are kept with the first bytes of the next one, if any.
///
/// A lost table stays lost, and each command on it except `table` is refused as `Failed`.
#[unsafe(no_mangle)]
pub extern "C" fn betable_run(alloc: Global, handle: &mut Handle, script: &[u8]) -> u32
    ensures closed { session_of handle.old ≡ None → (result ≡ code_of status.NotOpen) × (session_of handle.new ≡ None) }
    ensures open { is_some (session_of handle.new) ≡ is_some (session_of handle.old) }
    ensures ends { is_some (session_of handle.old) ≡ true → (result ≡ code_of status.Done) ⊎ (result ≡ code_of status.OutOfMemory) ⊎ (result ≡ code_of status.ReplyCut) }
    ensures written { result ≡ code_of status.Done → StaysOpen handle.old handle.new (λ old new. new.text.items ≡ replies old.table (commands script.now)) }
    ensures state { result ≡ code_of status.Done → StaysOpen handle.old handle.new (λ old new. new.table ≡ after_commands old.table (commands script.now)) }
    ensures refused { result ≡ code_of status.Done → StaysOpen handle.old handle.new (λ old new. new.refused ≡ refused_count old.table (commands script.now)) }
    ensures memory { result ≡ code_of status.OutOfMemory → StaysOpen handle.old handle.new (λ old new. StopsBetweenReplies (λ bytes. new.text.items ≡ bytes) old.table new.table script.now) }
    ensures cut { result ≡ code_of status.ReplyCut → StaysOpen handle.old handle.new (λ old new. StopsWithinReply (λ bytes. new.text.items ≡ bytes) old.table new.table script.now) }
    ensures marks { result ≡ code_of status.Done → StaysOpen handle.old handle.new (λ old new. new.marks.items ≡ marks_of old.table (commands script.now)) }
    ensures uncounted { result ≢ code_of status.Done → IfSome (session_of handle.new) (λ session. (session.refused ≡ 0) × (session.marks.items ≡ [])) }
    ensures file { is_some (session_of handle.old) ≡ true → StaysOpen handle.old handle.new SameFile }

    // A lost table stays lost, and each command on it except `table` is refused as Failed.
    ensures lost { is_some (session_of handle.old) ≡ true → StaysOpen handle.old handle.new (λ old new. old.table ≡ Some Lost → (new.table ≡ Some Lost) × (replies old.table (commands script.now) ≡ flat_map lost_reply (commands script.now))) }

    // After any result the table is sound unless it is lost, and so each complete index holds exactly the entries that its definition selects from the rows.
    ensures consistent { IfSome (session_of handle.new) (λ session. IfSome session.table IsConsistent) }

    // A run that is done loses no table.
    ensures kept { result ≡ code_of status.Done → StaysOpen handle.old handle.new (λ old new. IfSome old.table IsSound → IfSome new.table IsSound) }

    // This script, after any script that ends between two commands, is the rest of one script.
    ensures one_run { (first : List ℕ) (before : State) → EndsBetweenCommands first → AreOneRun before first script.now }
{
    let Some(mut session) = handle.take(alloc) else {
        return Status::NotOpen.code();
    };
    let ended = session.run(alloc, script);
    *handle = Handle::of(session);
    match ended {
        Ok(()) => Status::Done.code(),
        Err(RunFault::OutOfMemory) => Status::OutOfMemory.code(),
        Err(RunFault::Write) => Status::ReplyCut.code(),
        // A run reads no stream.
        Err(RunFault::Read) => unreachable!(),
    }
}

/// Finds which commands of a script would be refused, each by itself on the table as it is. None is carried out. [`betable_reply`] has what each would do; the
/// replies are empty.
#[unsafe(no_mangle)]
pub extern "C" fn betable_check(alloc: Global, handle: &mut Handle, script: &[u8]) -> u32
    ensures closed { session_of handle.old ≡ None → (result ≡ code_of status.NotOpen) × (session_of handle.new ≡ None) }
    ensures ends { is_some (session_of handle.old) ≡ true → (result ≡ code_of status.Done) ⊎ (result ≡ code_of status.OutOfMemory) }
    ensures done { result ≡ code_of status.Done → StaysOpen handle.old handle.new (λ old new. new.marks.items ≡ checked_marks (table_asked old) (commands script.now)) }
    ensures memory { result ≡ code_of status.OutOfMemory → IfSome (session_of handle.new) (λ session. session.marks.items ≡ []) }
    ensures unanswered { IfSome (session_of handle.new) (λ session. (session.text.items ≡ []) × (session.refused ≡ 0)) }
    ensures table { is_some (session_of handle.old) ≡ true → StaysOpen handle.old handle.new (λ old new. new.table ≡ old.table) }
    ensures file { is_some (session_of handle.old) ≡ true → StaysOpen handle.old handle.new SameFile }
{
    let Some(mut session) = handle.take(alloc) else {
        return Status::NotOpen.code();
    };
    let ended = session.check(alloc, script);
    *handle = Handle::of(session);
    match ended {
        Ok(()) => Status::Done.code(),
        Err(AllocError) => Status::OutOfMemory.code(),
    }
}

/// Finds why the first command of a script would be refused because of its records, on the table as it is. The command is not carried out, and the replies are
/// kept.
///
/// `Refused`: the reason says which record is at fault and why; the reply to the command would be its refusal. `Done`: there is no command, or it has no
/// record at fault.
#[unsafe(no_mangle)]
pub extern "C" fn betable_explain(
    alloc: Global,
    handle: &mut Handle,
    script: &[u8],
    reason: &mut ReasonInC,
) -> u32
    ensures closed { session_of handle.old ≡ None → result ≡ code_of status.NotOpen }
    ensures ends { is_some (session_of handle.old) ≡ true → (result ≡ code_of status.Done) ⊎ (result ≡ code_of status.OutOfMemory) ⊎ (result ≡ code_of status.Refused) }
    ensures done { result ≡ code_of status.Done → IfSome (session_of handle.old) (λ session. first_reason (table_asked session) (commands script.now) ≡ None) }
    ensures refused { result ≡ code_of status.Refused → MatchOption (session_of handle.old) ⊥ (λ session. IsReason (table_asked session) (commands script.now) reason.new) }
    ensures kept { session_of handle.new ≡ session_of handle.old }
{
    let Some(session) = handle.take(alloc) else {
        return Status::NotOpen.code();
    };
    let found = session.explain(alloc, script);
    *handle = Handle::of(session);
    match found {
        Ok(None) => Status::Done.code(),
        Ok(Some(found)) => {
            *reason = ReasonInC::of(found);
            Status::Refused.code()
        }
        Err(AllocError) => Status::OutOfMemory.code(),
    }
}

// The code of the result of a call on packed bytes, and its fault.
fn code_of_answer(ended: Result<(), Fault>, fault: &mut FaultInC) -> u32
    ensures done { OnOk ended (result ≡ code_of status.Done) }
    ensures memory { IfErr ended (λ f. f.refusal ≡ Refusal.OutOfMemory → result ≡ code_of status.OutOfMemory) }
    ensures refused { IfErr ended (λ f. f.refusal ≢ Refusal.OutOfMemory → (result ≡ code_of status.Refused) × (fault.new ≡ fault_of f)) }
{
    match ended {
        Ok(()) => Status::Done.code(),
        Err(
            Fault {
                refusal: Refusal::OutOfMemory,
                ..
            },
        ) => Status::OutOfMemory.code(),
        Err(other) => {
            *fault = FaultInC::of(other);
            Status::Refused.code()
        }
    }
}

// The reply to a question in packed bytes. Its clauses are the fields of `IsAnswered`.
fn question_reply(
    alloc: Global,
    handle: &mut Handle,
    question: Question,
    bytes: &[u8],
    fault: &mut FaultInC,
) -> u32
    ensures closed { session_of handle.old ≡ None → (result ≡ code_of status.NotOpen) × (session_of handle.new ≡ None) }
    ensures ends { is_some (session_of handle.old) ≡ true → (result ≡ code_of status.Done) ⊎ (result ≡ code_of status.OutOfMemory) ⊎ (result ≡ code_of status.Refused) }
    ensures done { result ≡ code_of status.Done → StaysOpen handle.old handle.new (λ old new. reply_from (answer_of question) (table_asked old) bytes.now ≡ Ok new.text.items) }
    ensures refused { result ≡ code_of status.Refused → StaysOpen handle.old handle.new (λ old _. IsFault (reply_from (answer_of question) (table_asked old) bytes.now) fault.new) }
    ensures unanswered { result ≢ code_of status.Done → IfSome (session_of handle.new) (λ session. session.text.items ≡ []) }
    ensures unmarked { IfSome (session_of handle.new) IsUnmarked }
    ensures certain { IfSome (session_of handle.old) (λ session. table_asked session ≡ None → result ≡ code_of status.Refused) }
    ensures table { is_some (session_of handle.old) ≡ true → StaysOpen handle.old handle.new (λ old new. new.table ≡ old.table) }
    ensures file { is_some (session_of handle.old) ≡ true → StaysOpen handle.old handle.new SameFile }
{
    let Some(mut session) = handle.take(alloc) else {
        return Status::NotOpen.code();
    };
    let ended = session.ask(alloc, question, bytes);
    *handle = Handle::of(session);
    code_of_answer(ended, fault)
}

// The reply to a question in packed bytes.
fn answered(
    alloc: Global,
    handle: &mut Handle,
    question: Question,
    bytes: &[u8],
    fault: &mut FaultInC,
) -> u32
    ensures { IsAnswered (answer_of question) bytes.now handle.old handle.new fault.new result }
{
    question_reply(alloc, handle, question, bytes, fault)
}

/// Applies packed changes to the table, all or none. The replies are emptied.
///
/// `Done`: the table has applied all of them. `Refused`: the fault says which change is refused and why, and the table is as it was. `OutOfMemory`: the table
/// is as it was, or lost.
#[unsafe(no_mangle)]
pub extern "C" fn betable_apply(
    alloc: Global,
    handle: &mut Handle,
    changes: &[u8],
    fault: &mut FaultInC,
) -> u32
    ensures closed { session_of handle.old ≡ None → (result ≡ code_of status.NotOpen) × (session_of handle.new ≡ None) }
    ensures ends { is_some (session_of handle.old) ≡ true → (result ≡ code_of status.Done) ⊎ (result ≡ code_of status.OutOfMemory) ⊎ (result ≡ code_of status.Refused) }
    ensures done { result ≡ code_of status.Done → StaysOpen handle.old handle.new (λ old new. applied_to old.table changes.now ≡ Ok new.table) }
    ensures refused { result ≡ code_of status.Refused → StaysOpen handle.old handle.new (λ old new. IsFault (applied_to old.table changes.now) fault.new × (new.table ≡ old.table)) }
    ensures memory { result ≡ code_of status.OutOfMemory → StaysOpen handle.old handle.new StaysOrIsLostIn }
    ensures unanswered { IfSome (session_of handle.new) (λ session. session.text.items ≡ []) }
    ensures unmarked { IfSome (session_of handle.new) IsUnmarked }
    ensures certain { IfSome (session_of handle.old) (λ session. session.table ≡ None → result ≡ code_of status.Refused) }
    ensures consistent { IfSome (session_of handle.new) (λ session. IfSome session.table IsConsistent) }
    ensures file { is_some (session_of handle.old) ≡ true → StaysOpen handle.old handle.new SameFile }
{
    let Some(mut session) = handle.take(alloc) else {
        return Status::NotOpen.code();
    };
    let ended = session.apply(alloc, changes);
    *handle = Handle::of(session);
    code_of_answer(ended, fault)
}

/// Replies with the packed row of a packed key, or with no row. The reply can be copied until the next call that replies. The table is as it was.
#[unsafe(no_mangle)]
pub extern "C" fn betable_get(
    alloc: Global,
    handle: &mut Handle,
    key: &[u8],
    fault: &mut FaultInC,
) -> u32
    ensures answered { IsAnswered get_reply key.now handle.old handle.new fault.new result }
{
    answered(alloc, handle, Question::Row, key, fault)
}

/// Replies with the packed rows of a page of a tree, in ascending order of their keys, as [`betable_get`] does.
#[unsafe(no_mangle)]
pub extern "C" fn betable_page(
    alloc: Global,
    handle: &mut Handle,
    page: &[u8],
    fault: &mut FaultInC,
) -> u32
    ensures answered { IsAnswered page_reply page.now handle.old handle.new fault.new result }
{
    answered(alloc, handle, Question::Page, page, fault)
}

/// Replies with the packed rows of the last page of a range of a tree, in descending order of their keys, as [`betable_get`] does.
#[unsafe(no_mangle)]
pub extern "C" fn betable_last_page(
    alloc: Global,
    handle: &mut Handle,
    page: &[u8],
    fault: &mut FaultInC,
) -> u32
    ensures answered { IsAnswered last_page_reply page.now handle.old handle.new fault.new result }
{
    answered(alloc, handle, Question::LastPage, page, fault)
}

/// Replies with the packed groups of a range, as [`betable_get`] does.
#[unsafe(no_mangle)]
pub extern "C" fn betable_sums(
    alloc: Global,
    handle: &mut Handle,
    sums: &[u8],
    fault: &mut FaultInC,
) -> u32
    ensures answered { IsAnswered sums_reply sums.now handle.old handle.new fault.new result }
{
    answered(alloc, handle, Question::Sums, sums, fault)
}

/// Replies with the packed columns of the tree that packed bytes name, as [`betable_get`] does.
#[unsafe(no_mangle)]
pub extern "C" fn betable_columns(
    alloc: Global,
    handle: &mut Handle,
    name: &[u8],
    fault: &mut FaultInC,
) -> u32
    ensures answered { IsAnswered columns_reply name.now handle.old handle.new fault.new result }
{
    answered(alloc, handle, Question::Columns, name, fault)
}

/// Replies with how much the tree that packed bytes name holds, as [`betable_get`] does.
#[unsafe(no_mangle)]
pub extern "C" fn betable_usage(
    alloc: Global,
    handle: &mut Handle,
    name: &[u8],
    fault: &mut FaultInC,
) -> u32
    ensures answered { IsAnswered usage_reply name.now handle.old handle.new fault.new result }
{
    answered(alloc, handle, Question::Usage, name, fault)
}

/// Replies with the packed trees of the table, as [`betable_get`] does.
#[unsafe(no_mangle)]
pub extern "C" fn betable_trees(
    alloc: Global,
    handle: &mut Handle,
    request: &[u8],
    fault: &mut FaultInC,
) -> u32
    ensures answered { IsAnswered trees_reply request.now handle.old handle.new fault.new result }
{
    answered(alloc, handle, Question::Trees, request, fault)
}

/// The number of bytes of the replies to the last script: none, if there is no session.
#[unsafe(no_mangle)]
pub extern "C" fn betable_replies_length(alloc: Global, handle: &mut Handle) -> usize
    ensures count { MatchOption (session_of handle.old) (result ≡ 0) (λ session. result ≡ length session.text.items) }
    ensures kept { session_of handle.new ≡ session_of handle.old }
{
    let Some(session) = handle.take(alloc) else {
        return 0;
    };
    let count = session.text.len();
    *handle = Handle::of(session);
    count
}

/// Copies the bytes of the replies to the last script from a place on, as many as there are and as fit, and returns their number.
#[unsafe(no_mangle)]
pub extern "C" fn betable_copy_replies(
    alloc: Global,
    handle: &mut Handle,
    from: usize,
    out: &mut [u8],
) -> usize
    ensures bytes { MatchOption (session_of handle.old) (result ≡ 0) (λ session. take result out.new ≡ take result (drop from session.text.items)) }
    ensures rest { drop result out.new ≡ drop result out.old }
    ensures count { MatchOption (session_of handle.old) (result ≡ 0) (λ session. result ≡ min (length session.text.items - from) (length out.old)) }
    ensures kept { session_of handle.new ≡ session_of handle.old }
{
    let Some(session) = handle.take(alloc) else {
        return 0;
    };
    let count = copy_from(session.text.as_slice(), from, out);
    *handle = Handle::of(session);
    count
}

/// The number of commands of the last script that were refused. After a script that was not carried out to its end it is 0.
#[unsafe(no_mangle)]
pub extern "C" fn betable_refused_count(alloc: Global, handle: &mut Handle) -> usize
    ensures count { MatchOption (session_of handle.old) (result ≡ 0) (λ session. result ≡ session.refused) }
    ensures kept { session_of handle.new ≡ session_of handle.old }
{
    let Some(session) = handle.take(alloc) else {
        return 0;
    };
    let count = session.refused;
    *handle = Handle::of(session);
    count
}

/// The number of replies to the last script. After a script that was not carried out to its end, and after a call on packed bytes, it is 0.
#[unsafe(no_mangle)]
pub extern "C" fn betable_reply_count(alloc: Global, handle: &mut Handle) -> usize
    ensures count { MatchOption (session_of handle.old) (result ≡ 0) (λ session. result ≡ length session.marks.items) }
    ensures kept { session_of handle.new ≡ session_of handle.old }
{
    let Some(session) = handle.take(alloc) else {
        return 0;
    };
    let count = session.marks.len();
    *handle = Handle::of(session);
    count
}

/// Where the reply at a place, counted from 0, is among the bytes of the replies to the last script, and what its command did. Returns whether there is
/// one.
#[unsafe(no_mangle)]
pub extern "C" fn betable_reply(
    alloc: Global,
    handle: &mut Handle,
    place: usize,
    reply: &mut ReplyInC,
) -> bool
    ensures found { result ≡ true → MatchOption (session_of handle.old) ⊥ (λ session. reply_at session.marks.items place ≡ Some reply.new) }
    ensures none { result ≡ false → IfSome (session_of handle.old) (λ session. reply_at session.marks.items place ≡ None) }
    ensures unchanged { result ≡ false → reply.new ≡ reply.old }
    ensures kept { session_of handle.new ≡ session_of handle.old }
{
    let Some(session) = handle.take(alloc) else {
        return false;
    };
    let found = reply_at(session.marks.as_slice(), place);
    *handle = Handle::of(session);
    match found {
        Some(place) => {
            *reply = place;
            true
        }
        None => false,
    }
}

/// Whether the table was lost because memory ran out: then each command on it is refused.
#[unsafe(no_mangle)]
pub extern "C" fn betable_is_lost(alloc: Global, handle: &mut Handle) -> bool
    ensures lost { MatchOption (session_of handle.old) (result ≡ false) (λ session. result ≡ is_lost (table_asked session)) }
    ensures kept { session_of handle.new ≡ session_of handle.old }
{
    let Some(session) = handle.take(alloc) else {
        return false;
    };
    let is_lost = session.is_lost();
    *handle = Handle::of(session);
    is_lost
}

/// Closes the session and frees its memory. The handle has no session afterwards.
#[unsafe(no_mangle)]
pub extern "C" fn betable_close(alloc: Global, handle: &mut Handle) -> u32
    ensures closed { session_of handle.new ≡ None }
    ensures open { is_some (session_of handle.old) ≡ true → result ≡ code_of status.Done }
    ensures not_open { session_of handle.old ≡ None → result ≡ code_of status.NotOpen }
{
    match handle.take(alloc) {
        None => Status::NotOpen.code(),
        Some(session) => {
            drop(session);
            Status::Done.code()
        }
    }
}
