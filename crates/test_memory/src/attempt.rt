//! The calls of a table that the commands of a script ask for.
ghost use Rattle.std.specs.Prelude.{IfOk};
ghost use Rattle.bt_table.specs.Standing.{Suits};

use crate::answers::Answer;
use crate::marks::{Mark, set_mark};
use anyhow::{Result, bail};
use bt_fanout::IndexDef;
use bt_rowtype::Refusal;
use bt_script::{Command, IndexForm, Parsed, parse_command};
use bt_shell::{Lines, ReplyRoom, ScriptWorkforce};
use bt_table::{Reply, Table};
use bt_view::image;
use std::alloc::Global;

/// The name of the call that a command asks for.
fn name_of(command: &Command<'_>) -> &'static str {
    match command {
        Command::Table(_) => "new",
        Command::Load(_) => "load",
        Command::Batch(_) => "apply",
        Command::Get(_) => "get",
        Command::Scan(_, _) => "scan",
        Command::Sums(_) => "sums",
        Command::Image(_) => "image",
        Command::Index(_) => "create_index",
        Command::Build(_, _) => "build_step",
        Command::Drop(_) => "drop_index",
        Command::Drain(_) => "drain",
        Command::Rebuild(_) => "rebuild",
    }
}

fn index_def(alloc: Global, table: &Table, form: &IndexForm) -> Result<IndexDef, Refusal>
    ensures suits { IfOk result (λ def. Suits table.now def) }
{
    let schema = table.schema()?;
    IndexDef::new(alloc, schema, &form.on, &form.include, form.filter.as_ref())
}

fn create_index(alloc: Global, table: &mut Table, form: IndexForm) -> Result<Reply, Refusal> {
    let def = index_def(alloc, table, &form);
    let IndexForm {
        name,
        on,
        include,
        filter,
    } = form;
    drop((on, include, filter));
    table.create_index(alloc, name, def?)
}

// The result of a call that returns a reply.
fn change<R: AllocGlobal, C: ScriptWorkforce<R>>(
    rt: &R,
    crew: &C,
    table: &mut Table,
    command: Command<'_>,
) -> Result<Reply, Refusal>
    requires ready { C.accepts crew.now }
{
    let alloc = rt.alloc();
    match command {
        Command::Load(text) => crew.load(rt, alloc, table, text.as_bytes()),
        Command::Batch(items) => table.apply(rt, alloc, items.as_slice(), crew),
        Command::Get(fields) => table.get(alloc, &fields),
        Command::Index(form) => create_index(alloc, table, form),
        Command::Build(name, count) => table.build_step(rt, alloc, &name, count as usize, crew),
        Command::Drop(name) => table.drop_index(&name),
        Command::Drain(name) => table.drain(rt, alloc, &name, crew),
        Command::Rebuild(name) => table.rebuild(rt, alloc, &name, crew),
        _ => Err(Refusal::TableExists),
    }
}

// The result of the call that a command asks for.
fn call<R: AllocGlobal, C: ScriptWorkforce<R>>(
    rt: &R,
    crew: &C,
    table: &mut Table,
    command: Command<'_>,
) -> Result<Answer, Refusal>
    requires ready { C.accepts crew.now }
{
    let alloc = rt.alloc();
    match command {
        Command::Scan(name, bounds) => {
            let lines = Lines::in_room(alloc, ReplyRoom::new(alloc));
            Ok(Answer::Lines(crew.scan(rt, alloc, table, &name, &bounds, lines)?))
        }
        Command::Sums(form) => Ok(Answer::Sums(crew.sums(rt, alloc, table, &form)?)),
        Command::Image(name) => Ok(Answer::Image(image(alloc, table, &name)?)),
        other => Ok(Answer::Reply(change(rt, crew, table, other)?)),
    }
}

/// A call: its name, its result, and the place after its command.
#[derive(Drop)]
pub(crate) struct Attempt {
    pub(crate) name: &'static str,
    pub(crate) answer: Result<Answer, Refusal>,
    pub(crate) next: usize,
}

/// Makes the call that the command at a place of a script asks for; if `marked`, its allocations may be refused. There is none after the last command.
pub(crate) fn call_at<R: Print + AllocGlobal, C: ScriptWorkforce<R>>(
    rt: &R,
    crew: &C,
    table: &mut Table,
    script: &[u8],
    at: usize,
    marked: bool,
) -> Result<Option<Attempt>>
    requires ready { C.accepts crew.now }
{
    match parse_command(rt.alloc(), script, at)? {
        Parsed::End => Ok(None),
        Parsed::Bad { .. } => bail!("the script has what is no command"),
        Parsed::Good { command, next } => {
            let name = name_of(&command);
            if marked {
                set_mark(rt, Mark::Begin)?;
            }
            let answer = call(rt, crew, table, command);
            if marked {
                set_mark(rt, Mark::End)?;
            }
            Ok(Some(Attempt { name, answer, next }))
        }
    }
}
