//! The table between commands, and the reply to each.
ghost use Rattle.std.specs.Prelude.{◌≡◌, ◌<◌, ◌≤◌, false, true, None, Ok, Some, IfErr, IfOk, IfNone, IfSome, IsErrOf, OnErr, OnOk, [], drop, length};
ghost use Rattle.bt_script.specs.Commands.{commands};
ghost use Rattle.bt_script.specs.declared.command.Command.TheVariants as command;
ghost use Rattle.bt_shell.specs.Faults.{IsLeftAfter};
ghost use Rattle.bt_shell.specs.inside.Turns.{CarriesOut, IsCutShort, IsTurn, first_kind};
ghost use Rattle.bt_shell.specs.Replies as spec;
ghost use Rattle.bt_shell.specs.Replies.{refused_text};
ghost use Rattle.bt_shell.specs.Logs as logs;
ghost use Rattle.bt_shell.specs.Steps as step;
ghost use Rattle.bt_value.specs.Answers.{Answers};
ghost use Rattle.bt_value.specs.Results.{map_ok};
ghost use Rattle.bt_table.specs.Standing.{Suits};

use crate::log::ReplyKind;
use crate::replies::{Lines, count_reply, refusal_reply, reply_text, sums_reply};
use crate::reply_text::{ReplyRoom, ReplyText};
use crate::workforce::ScriptWorkforce;
use bt_fanout::IndexDef;
use bt_gang::Context;
use bt_node::Shape;
use bt_row::Schema;
use bt_rowtype::both_read;
use bt_script::{Bounds, Capacity, Command, IndexForm, Parsed, SumsForm, TableForm};
use bt_table::{Reply, Table};
use bt_value::{Refusal, Text};
use std::alloc::{AllocError, Global};

/// A shape with buffers of this capacity, if it is within the limits.
pub(crate) fn shape_of(fanout: u32, buffer: Capacity, leaf: u32) -> Result<Shape, Refusal>
    ensures ok { IfOk result (λ shape. shape ≡ step.shape_of fanout buffer leaf) }
    ensures allowed { IfOk result (λ _. step.is_allowed (step.shape_of fanout buffer leaf) ≡ true) }
    ensures refused { IfErr result (λ e. (e ≡ Refusal.BadShape) × (step.is_allowed (step.shape_of fanout buffer leaf) ≡ false)) }
{
    match buffer {
        Capacity::Messages(most) => Shape::new(fanout, most, leaf),
        Capacity::Bytes(most) => Shape::weighed(fanout, most, leaf),
    }
}

// The text of the result of a call on the table.
fn call_text(
    alloc: Global,
    reply: Result<Reply, Refusal>,
    room: ReplyRoom,
) -> Result<ReplyText, Refusal>
    ensures answer { Answers (map_ok spec.reply_text reply) result }
    ensures refused { IfErr reply (IsErrOf result) }
{
    Ok(reply_text(alloc, reply?, room)?)
}

/// The definition of a new index, or the lowest refusal of its name and of its parts.
pub(crate) fn index_def(alloc: Global, table: &Table, form: &IndexForm) -> Result<IndexDef, Refusal>
    ensures answer { Answers (step.definition_of table.now form.now) result }
    ensures suits { IfOk result (λ def. Suits table.now def) }
{
    let schema = table.schema()?;
    let free = table.check_index(&form.name);
    let def = IndexDef::new(alloc, schema, &form.on, &form.include, form.filter.as_ref());
    let (_, def) = both_read(free, def)?;
    Ok(def)
}

// Creates an index.
fn create_index(
    alloc: Global,
    table: &mut Table,
    form: IndexForm,
    room: ReplyRoom,
) -> Result<ReplyText, Refusal>
    ensures done { CarriesOut (Some table.old) (Some table.new) (command.Index form) result }
    ensures memory { IsErrOf result Refusal.OutOfMemory → IsCutShort (Some table.old) (Some table.new) (command.Index form) }
{
    let def = index_def(alloc, table, &form);
    let IndexForm {
        name,
        on,
        include,
        filter,
    } = form;
    drop((on, include, filter));
    call_text(alloc, table.create_index(alloc, name, def?), room)
}

// Writes the rows of a range as lines, into the memory of a list.
fn scan<T, C: ScriptWorkforce<T>>(
    context: &Context<'_, T, C>,
    table: &Table,
    name: &Text,
    bounds: &Bounds<'_>,
    room: ReplyRoom,
) -> Result<ReplyText, Refusal>
    requires ready { C.accepts context.now.crew.now }
    ensures { CarriesOut (Some table.now) (Some table.now) (command.Scan name.now bounds.now) result }
{
    let Context { rt, alloc, crew } = *context;
    let lines = crew.scan(rt, alloc, table, name, bounds, Lines::in_room(alloc, room))?;
    Ok(lines.into_reply(b"rows ")?)
}

// Writes the groups of a range as lines, into the memory of a list.
fn sums<T, C: ScriptWorkforce<T>>(
    context: &Context<'_, T, C>,
    table: &Table,
    form: &SumsForm<'_>,
    room: ReplyRoom,
) -> Result<ReplyText, Refusal>
    requires ready { C.accepts context.now.crew.now }
    ensures { CarriesOut (Some table.now) (Some table.now) (command.Sums form.now) result }
{
    let Context { rt, alloc, crew } = *context;
    let sums = crew.sums(rt, alloc, table, form)?;
    Ok(sums_reply(alloc, sums.as_slice(), room)?)
}

fn image(alloc: Global, table: &Table, name: &Text) -> Result<ReplyText, Refusal>
    ensures { CarriesOut (Some table.now) (Some table.now) (command.Image name.now) result }
{
    Ok(ReplyText::new(alloc, bt_view::image(alloc, table, name)?))
}

// The reply to a command on an existing table, or its refusal. All replies except an image are written into the memory of a list.
fn reply_of_table<T, C: ScriptWorkforce<T>>(
    context: &Context<'_, T, C>,
    table: &mut Table,
    command: Command<'_>,
    room: ReplyRoom,
) -> Result<ReplyText, Refusal>
    requires ready { C.accepts context.now.crew.now }
    ensures done { CarriesOut (Some table.old) (Some table.new) command.entry result }
    ensures memory { IsErrOf result Refusal.OutOfMemory → IsCutShort (Some table.old) (Some table.new) command.entry }
{
    let Context { rt, alloc, crew } = *context;
    match command {
        Command::Table(_form) => Err(Refusal::TableExists),
        Command::Batch(items) => call_text(
            alloc,
            table.apply(rt, alloc, items.as_slice(), crew),
            room,
        ),
        Command::Get(fields) => call_text(alloc, table.get(alloc, &fields), room),
        Command::Scan(tree, bounds) => scan(context, table, &tree, &bounds, room),
        Command::Sums(form) => sums(context, table, &form, room),
        Command::Image(tree) => image(alloc, table, &tree),
        Command::Index(form) => create_index(alloc, table, form, room),
        Command::Build(name, count) => call_text(
            alloc,
            table.build_step(rt, alloc, &name, count as usize, crew),
            room,
        ),
        Command::Drop(name) => call_text(alloc, table.drop_index(&name), room),
        Command::Load(text) => {
            call_text(alloc, crew.load(rt, alloc, table, text.as_bytes()), room)
        }
        Command::Drain(tree) => call_text(alloc, table.drain(rt, alloc, &tree, crew), room),
        Command::Rebuild(tree) => call_text(alloc, table.rebuild(rt, alloc, &tree, crew), room),
    }
}

// Creates the table, if there is none so far.
fn create_table(
    alloc: Global,
    table: &mut Option<Table>,
    form: TableForm,
    room: ReplyRoom,
) -> Result<ReplyText, Refusal>
    requires { table.old ≡ None }
    ensures done { CarriesOut table.old table.new (command.Table form) result }
    ensures memory { IsErrOf result Refusal.OutOfMemory → table.new ≡ table.old }
{
    let count = form.columns.len();
    let Ok(schema) = Schema::new(form.columns, form.keys as usize) else {
        return Err(Refusal::BadSchema);
    };
    let shape = shape_of(form.fanout, form.buffer, form.leaf)?;
    let text = count_reply(alloc, b"table ", count, room)?;
    *table = Some(Table::new(alloc, schema, shape));
    Ok(text)
}

// The result of a command, or its refusal.
fn command_reply<T, C: ScriptWorkforce<T>>(
    context: &Context<'_, T, C>,
    table: &mut Option<Table>,
    command: Command<'_>,
    room: ReplyRoom,
) -> Result<ReplyText, Refusal>
    requires ready { C.accepts context.now.crew.now }
    ensures done { CarriesOut table.old table.new command.entry result }
    ensures memory { IsErrOf result Refusal.OutOfMemory → IsCutShort table.old table.new command.entry }
{
    if let Some(table) = table {
        return reply_of_table(context, table, command, room);
    }
    match command {
        Command::Table(form) => create_table(context.alloc, table, form, room),
        _ => Err(Refusal::NoTable),
    }
}

/// The reply to a command, and what it did.
#[derive(Drop)]
pub(crate) struct CommandReply {
    pub(crate) text: ReplyText,
    pub(crate) kind: ReplyKind,
}

// The reply that is a refusal.
fn refusal_answer(alloc: Global, refusal: Refusal) -> Result<CommandReply, AllocError>
    ensures text { IfOk result (λ reply. reply.text ≡ refused_text refusal) }
    ensures refused { IfOk result (λ reply. reply.kind ≡ ReplyKind.Refused) }
{
    Ok(CommandReply {
        text: refusal_reply(alloc, refusal)?,
        kind: ReplyKind::Refused,
    })
}

/// What a command does if it is carried out.
pub(crate) fn kind_of_done(command: &Command<'_>) -> ReplyKind
    ensures { result ≡ logs.kind_of_done command.now }
{
    match command {
        Command::Get(_) | Command::Scan(..) | Command::Sums(_) | Command::Image(_) => {
            ReplyKind::Read
        }
        Command::Table(_)
        | Command::Batch(_)
        | Command::Index(_)
        | Command::Build(..)
        | Command::Drop(_)
        | Command::Load(_)
        | Command::Drain(_)
        | Command::Rebuild(_) => ReplyKind::Changed,
    }
}

// The reply to a command, after it is carried out. An `Err` means that an allocation failed.
fn take_turn<T, C: ScriptWorkforce<T>>(
    context: &Context<'_, T, C>,
    table: &mut Option<Table>,
    command: Command<'_>,
    room: ReplyRoom,
) -> Result<CommandReply, AllocError>
    requires ready { C.accepts context.now.crew.now }
    ensures text { IfOk result (λ reply. reply.text ≡ (step.turn table.old (Ok command.entry)).1) }
    ensures kind { IfOk result (λ reply. reply.kind ≡ logs.kind_of table.old (Ok command.entry)) }
    ensures state { OnOk result (table.new ≡ (step.turn table.old (Ok command.entry)).0) }
    ensures left { OnErr result (IsCutShort table.old table.new command.entry) }
{
    let kind = kind_of_done(&command);
    match command_reply(context, table, command, room) {
        Ok(text) => Ok(CommandReply { text, kind }),
        Err(Refusal::OutOfMemory) => Err(AllocError),
        Err(refusal) => refusal_answer(context.alloc, refusal),
    }
}

/// The reply to the command at a place, with the place after it, or `None` if there are no more commands. An `Err` means that an allocation failed: the table
/// is as it was, as the command leaves it, or lost.
///
/// The reply is written into the memory of a list, such as the reply before it, so that replies one after the other allocate it once.
pub(crate) fn next_reply<T, C: ScriptWorkforce<T>>(
    context: &Context<'_, T, C>,
    script: &[u8],
    table: &mut Option<Table>,
    at: usize,
    room: ReplyRoom,
) -> Result<Option<(CommandReply, usize)>, AllocError>
    requires ready { C.accepts context.now.crew.now }
    ensures step { IfOk result (λ found. IfSome found (λ f. IsTurn table.old table.new (commands (drop at script.now)) (commands (drop f.1 script.now)) f.0.text (logs.is_refusal f.0.kind))) }
    ensures kind { IfOk result (λ found. IfSome found (λ f. f.0.kind ≡ first_kind table.old (commands (drop at script.now)))) }
    ensures end { IfOk result (λ found. IfNone found (commands (drop at script.now) ≡ [])) }
    ensures kept { IfOk result (λ found. IfNone found (table.new ≡ table.old)) }
    ensures past { IfOk result (λ found. IfSome found (λ f. (at < f.1) × (f.1 ≤ length script.now))) }
    ensures left { OnErr result (IsLeftAfter table.old table.new (commands (drop at script.now)) 0) }
{
    let Context { rt, alloc, crew } = *context;
    match crew.parse(rt, alloc, script, at)? {
        Parsed::End => Ok(None),
        Parsed::Bad { refusal, next } => {
            let reply = refusal_answer(alloc, refusal)?;
            Ok(Some((reply, next)))
        }
        Parsed::Good { command, next } => {
            let reply = take_turn(context, table, command, room)?;
            Ok(Some((reply, next)))
        }
    }
}
