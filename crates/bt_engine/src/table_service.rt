//! A table as a service: requests are carried out on it.
ghost use Rattle.std.specs.Prelude.{◌≡◌, ◌≢◌, Err, IfErr, IfNone, IfOk, IfSome, List, None, Ok, OnOk, false, ℕ};
ghost use Rattle.bt_script.specs.Commands.{commands};
ghost use Rattle.bt_shell.specs.Runs.{after_commands};
ghost use Rattle.bt_packed.specs.Questions.{applied_to};
ghost use Rattle.bt_shell.specs.Steps.{State};
ghost use Rattle.bt_engine.specs.Exchanges as exchanges;
ghost use Rattle.bt_engine.specs.Payloads as payloads;
ghost use Rattle.bt_engine.specs.Unchanged.{arrival_leaves, others_leave};
ghost use Rattle.bt_frame.specs.Services.{AddsRestore, IsNoRequest};

use crate::marks::Marks;
use crate::reply::{carried_out, done, fault_reply, invalid};
use crate::request::{Request, request_of};
use bt_fault::script_reason;
use bt_frame::{Arrival, CompactService, RESTORE, Reply, Service, add_frame, number_bytes};
use bt_packed::{Fault, PackedWorkforce, Question, ReplyRoom, apply, ask};
use bt_script::Counted;
use bt_shell::{Context, ScriptWorkforce, check_commands, run_commands};
use bt_snapshot::{compact, restore};
use bt_table::{Alone, Table};
use bt_value::Refusal;
use std::alloc::{AllocError, Global};
use std::marker::Model;

// The payload of the reply to a script, which is carried out, in the memory of some bytes, and whether it can have changed the table.
fn run_script<T, C: ScriptWorkforce<T>>(
    context: &Context<'_, T, C>,
    table: &mut Option<Table>,
    script: &[u8],
    room: Vec<u8>,
) -> Result<(Vec<u8>, bool), AllocError>
    requires ready { C.accepts context.now.crew.now }
    ensures payload { IfOk result (λ run. run.0.items ≡ payloads.script_payload table.old script.now) }
    ensures changes { IfOk result (λ run. run.1 ≡ payloads.has_change (payloads.script_marks table.old script.now)) }
    ensures state { OnOk result (table.new ≡ after_commands table.old (commands script.now)) }
{
    let mut text = room;
    text.clear();
    let mut marks = Marks::new(context.alloc);
    let mut writer = Counted::new(text);
    match run_commands(context, script, table, &mut writer, &mut marks) {
        Ok(_refused) => {
            let mut payload = writer.into_inner();
            marks.add_to(&mut payload)?;
            Ok((payload, marks.has_change()))
        }
        // A vector takes all bytes if there is memory for them.
        Err(_fault) => Err(AllocError),
    }
}

// The payload of the reply to a script that is checked.
fn check_script(
    alloc: Global,
    table: &Option<Table>,
    script: &[u8],
    room: Vec<u8>,
) -> Result<Vec<u8>, AllocError>
    ensures { IfOk result (λ payload. payload.items ≡ payloads.check_payload table.now script.now) }
{
    let mut marks = Marks::new(alloc);
    check_commands(alloc, script, table, &mut marks)?;
    let mut payload = room;
    payload.clear();
    marks.add_to(&mut payload)?;
    Ok(payload)
}

// Packed changes of fewer bytes are applied by the caller alone, because starting threads would take longer than the workers gain.
const FEW_BYTES: usize = 32_768;

// Applies packed changes by a crew, or by the caller alone if they are few.
fn apply_by_size<T, C: PackedWorkforce<T>>(
    context: &Context<'_, T, C>,
    table: &mut Option<Table>,
    changes: &[u8],
) -> Result<(), Fault>
    requires ready { C.accepts context.now.crew.now }
    ensures done { OnOk result (applied_to table.old changes.now ≡ Ok table.new) }
    ensures fault { IfErr result (λ fault. fault.refusal ≢ Refusal.OutOfMemory → (applied_to table.old changes.now ≡ Err fault) × (table.new ≡ table.old)) }
{
    if changes.len() >= FEW_BYTES {
        return apply(context, table, changes);
    }
    let alone = Context {
        rt: context.rt,
        alloc: context.alloc,
        crew: &Alone,
    };
    apply(&alone, table, changes)
}

// The reply to packed changes, which are applied.
fn apply_changes<T, C: PackedWorkforce<T>>(
    context: &Context<'_, T, C>,
    table: &mut Option<Table>,
    changes: &[u8],
    room: Vec<u8>,
) -> Result<Reply, AllocError>
    requires ready { C.accepts context.now.crew.now }
    ensures state { OnOk result (table.new ≡ (exchanges.carried_out table.old Request.Apply changes.now).0) }
    ensures reply { IfOk result (λ reply. (reply.kind, reply.payload.items) ≡ (exchanges.carried_out table.old Request.Apply changes.now).1) }
    ensures changes { IfOk result (λ reply. reply.is_change ≡ exchanges.request_changes table.old Request.Apply changes.now) }
{
    match apply_by_size(context, table, changes) {
        Ok(()) => {
            let mut payload = room;
            payload.clear();
            Ok(carried_out(payload, true))
        }
        Err(fault) => Ok(fault_reply(fault, room)?),
    }
}

// The reply to a question in packed bytes.
fn ask_table<T, C: PackedWorkforce<T>>(
    context: &Context<'_, T, C>,
    table: &Option<Table>,
    question: Question,
    bytes: &[u8],
    room: Vec<u8>,
) -> Result<Reply, AllocError>
    requires ready { C.accepts context.now.crew.now }
    ensures reply { IfOk result (λ reply. (reply.kind, reply.payload.items) ≡ (exchanges.carried_out table.now (Request.Ask question) bytes.now).1) }
    ensures changes { IfOk result (λ reply. reply.is_change ≡ exchanges.request_changes table.now (Request.Ask question) bytes.now) }
{
    match ask(context, table, question, bytes, ReplyRoom::of(room)) {
        Ok(payload) => Ok(done(payload)),
        Err(fault) => Ok(fault_reply(fault, Vec::new(context.alloc))?),
    }
}

// The payload of the reply to a script whose first command is explained.
fn explain_script(
    alloc: Global,
    table: &Option<Table>,
    script: &[u8],
    room: Vec<u8>,
) -> Result<Vec<u8>, AllocError>
    ensures { IfOk result (λ payload. payload.items ≡ payloads.explain_payload table.now script.now) }
{
    let mut payload = room;
    payload.clear();
    if let Some(reason) = script_reason(alloc, table, script)? {
        payload.extend_from_slice(&number_bytes(reason.refusal.number() as u64))?;
        payload.extend_from_slice(&number_bytes(reason.item))?;
        payload.extend_from_slice(&number_bytes(reason.field))?;
        payload.extend_from_slice(&number_bytes(reason.problem.number() as u64))?;
    }
    Ok(payload)
}

// Makes the table of a snapshot, if there is none.
fn restore_table<T, C: ScriptWorkforce<T>>(
    context: &Context<'_, T, C>,
    table: &mut Option<Table>,
    snapshot: &[u8],
) -> Result<(), Fault>
    requires ready { C.accepts context.now.crew.now }
    ensures done { OnOk result (exchanges.restored_into table.old snapshot.now ≡ Ok table.new) }
    ensures fault { IfErr result (λ fault. fault.refusal ≢ Refusal.OutOfMemory → (exchanges.restored_into table.old snapshot.now ≡ Err fault) × (table.new ≡ table.old)) }
{
    if table.is_some() {
        return Err(Fault::of_call(Refusal::TableExists));
    }
    match restore(context, snapshot) {
        Ok(restored) => {
            *table = Some(restored);
            Ok(())
        }
        Err(refusal) => Err(Fault::of_call(refusal)),
    }
}

// The reply to a snapshot, which is restored.
fn restore_snapshot<T, C: ScriptWorkforce<T>>(
    context: &Context<'_, T, C>,
    table: &mut Option<Table>,
    snapshot: &[u8],
    room: Vec<u8>,
) -> Result<Reply, AllocError>
    requires ready { C.accepts context.now.crew.now }
    ensures state { OnOk result (table.new ≡ (exchanges.carried_out table.old Request.Restore snapshot.now).0) }
    ensures reply { IfOk result (λ reply. (reply.kind, reply.payload.items) ≡ (exchanges.carried_out table.old Request.Restore snapshot.now).1) }
    ensures changes { IfOk result (λ reply. reply.is_change ≡ exchanges.request_changes table.old Request.Restore snapshot.now) }
{
    match restore_table(context, table, snapshot) {
        Ok(()) => {
            let mut text = room;
            text.clear();
            Ok(carried_out(text, true))
        }
        Err(fault) => Ok(fault_reply(fault, room)?),
    }
}

// The reply to a request, which is carried out.
fn carry_out<T, C: ScriptWorkforce<T> + PackedWorkforce<T>>(
    context: &Context<'_, T, C>,
    table: &mut Option<Table>,
    request: Request,
    payload: &[u8],
    room: Vec<u8>,
) -> Result<Reply, AllocError>
    requires ready { C.accepts context.now.crew.now }
    ensures state { OnOk result (table.new ≡ (exchanges.carried_out table.old request payload.now).0) }
    ensures reply { IfOk result (λ reply. (reply.kind, reply.payload.items) ≡ (exchanges.carried_out table.old request payload.now).1) }
    ensures changes { IfOk result (λ reply. reply.is_change ≡ exchanges.request_changes table.old request payload.now) }
{
    match request {
        Request::Script => {
            let (replies, is_change) = run_script(context, table, payload, room)?;
            Ok(carried_out(replies, is_change))
        }
        Request::Check => Ok(done(check_script(context.alloc, table, payload, room)?)),
        Request::Explain => Ok(done(explain_script(context.alloc, table, payload, room)?)),
        Request::Apply => Ok(apply_changes(context, table, payload, room)?),
        Request::Ask(question) => Ok(ask_table(context, table, question, payload, room)?),
        Request::Restore => Ok(restore_snapshot(context, table, payload, room)?),
    }
}

/// The reply to what arrived, which is carried out.
pub(crate) fn exchange<T, C: ScriptWorkforce<T> + PackedWorkforce<T>>(
    context: &Context<'_, T, C>,
    table: &mut Option<Table>,
    arrival: Arrival,
    payload: &[u8],
    room: Vec<u8>,
) -> Result<Reply, AllocError>
    requires ready { C.accepts context.now.crew.now }
    ensures state { OnOk result (table.new ≡ exchanges.after table.old arrival payload.now) }
    ensures reply { IfOk result (λ reply. (reply.kind, reply.payload.items) ≡ exchanges.reply table.old arrival payload.now) }
    ensures changes { IfOk result (λ reply. reply.is_change ≡ exchanges.changes table.old arrival payload.now) }
{
    match arrival {
        Arrival::Frame(kind) => match request_of(kind) {
            None => Ok(invalid("UnknownKind", room)?),
            Some(request) => Ok(carry_out(context, table, request, payload, room)?),
        },
        Arrival::TooLong => Ok(invalid("TooLong", room)?),
        Arrival::NoFrame => Ok(invalid("NoFrame", room)?),
        Arrival::CutOff => Ok(invalid("CutOff", room)?),
    }
}

/// The reply to what arrived and is no request.
pub(crate) fn refuse(arrival: Arrival, room: Vec<u8>) -> Result<Reply, AllocError>
    requires refused { IsNoRequest arrival }
    ensures reply { IfOk result (λ reply. (table : State) (payload : List ℕ) → (reply.kind, reply.payload.items) ≡ exchanges.reply table arrival payload) }
    ensures changes { IfOk result (λ reply. reply.is_change ≡ false) }
{
    match arrival {
        Arrival::Frame(_) => unreachable!(),
        Arrival::TooLong => invalid("TooLong", room),
        Arrival::NoFrame => invalid("NoFrame", room),
        Arrival::CutOff => invalid("CutOff", room),
    }
}

/// The number of the format of payloads in a file: each is a run of whole frames of requests.
pub const FORMAT: u64 = 1;

/// The number of the engine in a file. It is another one if a request can lead to another table.
pub const ENGINE: u64 = 1;

/// A table, or none so far, that answers requests. A contract sees the table.
#[derive(Drop)]
pub struct TableService {
    table: Option<Table>,
}

impl Model for TableService {
    ghost use Rattle.std.specs.Prelude.{Option};
    ghost use Rattle.std.specs.Coded.{coded_option};
    ghost use Rattle.bt_table.specs.Tables.{TableState};
    ghost use Rattle.bt_table.specs.contracts.table.Table.{the_row as table_row};

    ghost Value = { Option TableState };

    ghost coded = { coded_option table_row.coded };

    ghost view = { λ s. s.table };
}

impl TableService {
    /// No table.
    pub fn new() -> Self
        ensures { result ≡ None }
    {
        TableService { table: None }
    }
}

impl<'a, T, C: ScriptWorkforce<T> + PackedWorkforce<T>> Service<Context<'a, T, C>>
    for TableService {
    ghost accepts = { λ context. C.accepts context.crew.now };

    ghost blank = { None };

    ghost after = { exchanges.after };

    ghost reply = { exchanges.reply };

    ghost changes = { exchanges.changes };

    ghost same = { arrival_leaves };

    ghost idle = { others_leave };

    fn exchange(
        &mut self,
        context: &Context<'a, T, C>,
        arrival: Arrival,
        payload: &[u8],
        room: Vec<u8>,
    ) -> Result<Reply, AllocError> {
        exchange(context, &mut self.table, arrival, payload, room)
    }

    fn refuse(&self, arrival: Arrival, room: Vec<u8>) -> Result<Reply, AllocError> {
        refuse(arrival, room)
    }
}

/// Compacts a table, and adds to some bytes the frame of a request that restores it. `None`: nothing has changed.
pub(crate) fn compact_table<T, C: ScriptWorkforce<T>>(
    context: &Context<'_, T, C>,
    table: &mut Option<Table>,
    bytes: Vec<u8>,
) -> Option<Vec<u8>>
    requires ready { C.accepts context.now.crew.now }
    ensures compacted { IfSome result (λ _. exchanges.is_compacted table.old table.new) }
    ensures restores { IfSome result (λ all. AddsRestore exchanges.after None bytes.items all.items table.new) }
    ensures unchanged { IfNone result (table.new ≡ table.old) }
{
    let Some(old) = table else {
        return None;
    };
    let compacted = compact(context, old)?;
    let mut all = bytes;
    if add_frame(&mut all, RESTORE, compacted.snapshot.as_slice()).is_err() {
        return None;
    }
    *table = Some(compacted.table);
    Some(all)
}

impl<'a, T, C: ScriptWorkforce<T> + PackedWorkforce<T>> CompactService<Context<'a, T, C>>
    for TableService {
    ghost is_compacted = { exchanges.is_compacted };

    fn compact(&mut self, context: &Context<'a, T, C>, bytes: Vec<u8>) -> Option<Vec<u8>> {
        compact_table(context, &mut self.table, bytes)
    }
}
