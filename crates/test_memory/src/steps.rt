//! The steps of a script on a table, each of them first with refused allocations and then again with all memory.
use crate::answers::{Answer, answer_text};
use crate::attempt::{Attempt, call_at};
use crate::lost::fail_all;
use crate::marks::{Mark, set_mark};
use anyhow::{Result, bail};
use bt_node::Shape;
use bt_rowtype::{Refusal, Schema, Text};
use bt_script::{Capacity, Command, Parsed, TableForm, parse_command};
use bt_shell::ScriptWorkforce;
use bt_table::Table;
use bt_view::image;
use std::alloc::Global;
use std::io;
use std::io::Write;

/// A script, and who takes its steps. Nothing is printed or marked in a rehearsal.
#[derive(Clone, Copy)]
pub(crate) struct Stage<'a, R, C> {
    pub(crate) rt: &'a R,
    pub(crate) crew: &'a C,
    pub(crate) script: &'a [u8],
    pub(crate) is_rehearsal: bool,
}

// The shape that a form describes.
fn shape_of(form: &TableForm) -> Result<Shape, Refusal> {
    match form.buffer {
        Capacity::Messages(messages) => Shape::new(form.fanout, messages, form.leaf),
        Capacity::Bytes(bytes) => Shape::weighed(form.fanout, bytes, form.leaf),
    }
}

// The table that a form describes.
fn table_of(alloc: Global, form: TableForm) -> Result<Table> {
    let Ok(shape) = shape_of(&form) else {
        bail!("the sizes make no shape")
    };
    let Ok(schema) = Schema::new(form.columns, form.keys as usize) else {
        bail!("the columns make no schema")
    };
    Ok(Table::new(alloc, schema, shape))
}

// Whether the call of this name may change the table.
fn is_change(name: &str) -> bool {
    !matches!(name, "get" | "scan" | "sums" | "image")
}

fn print<R: Print + AllocGlobal, C>(stage: &Stage<'_, R, C>, text: &[u8]) -> Result<()> {
    if !stage.is_rehearsal {
        io::writer(stage.rt).write_all(text)?;
    }
    Ok(())
}

// Prints the image of each tree that the script makes.
fn print_images<R: Print + AllocGlobal, C>(stage: &Stage<'_, R, C>, table: &Table) -> Result<()> {
    let alloc = stage.rt.alloc();
    for name in ["primary", "by_qty", "by_city"] {
        let answer = image(alloc, table, &Text::new(alloc, name)?).map(Answer::Image);
        print(stage, answer_text(alloc, answer)?.as_slice())?;
    }
    Ok(())
}

// Notes the number of bytes in use.
fn note<R: Print + AllocGlobal, C>(stage: &Stage<'_, R, C>) -> Result<()> {
    if !stage.is_rehearsal {
        set_mark(stage.rt, Mark::Note)?;
    }
    Ok(())
}

// Makes a call again that ran out of memory.
fn again<R: Print + AllocGlobal, C: ScriptWorkforce<R>>(
    stage: &Stage<'_, R, C>,
    table: &mut Table,
    at: usize,
    name: &str,
) -> Result<Option<Attempt>>
    requires ready { C.accepts stage.now.crew.now }
{
    let rt = stage.rt;
    note(stage)?;
    print(
        stage,
        format!(in rt.alloc(); "{name}: out of memory\n")?.as_bytes(),
    )?;
    call_at(rt, stage.crew, table, stage.script, at, false)
}

// Makes the call at a place, and makes it again if it runs out of memory.
fn answered<R: Print + AllocGlobal, C: ScriptWorkforce<R>>(
    stage: &Stage<'_, R, C>,
    table: &mut Table,
    at: usize,
) -> Result<Option<Attempt>>
    requires ready { C.accepts stage.now.crew.now }
{
    note(stage)?;
    let rt = stage.rt;
    let is_marked = !stage.is_rehearsal;
    let Some(first) = call_at(rt, stage.crew, table, stage.script, at, is_marked)? else {
        return Ok(None);
    };
    print(
        stage,
        format!(in rt.alloc(); "{}\n", first.name)?.as_bytes(),
    )?;
    if matches!(first.answer, Err(Refusal::OutOfMemory)) {
        return again(stage, table, at, first.name);
    }
    Ok(Some(first))
}

// Takes the step at a place. Returns the place after it, unless there is none or the table is lost.
fn step<R: Print + AllocGlobal, C: ScriptWorkforce<R>>(
    stage: &Stage<'_, R, C>,
    table: &mut Table,
    at: usize,
) -> Result<Option<usize>>
    requires ready { C.accepts stage.now.crew.now }
{
    let Some(Attempt { name, answer, next }) = answered(stage, table, at)? else {
        return Ok(None);
    };
    let is_lost = matches!(answer, Err(Refusal::Failed));
    print(stage, answer_text(stage.rt.alloc(), answer)?.as_slice())?;
    if is_lost {
        fail_all(stage.rt, stage.crew, table, stage.script)?;
        return Ok(None);
    }
    if is_change(name) {
        print_images(stage, table)?;
    }
    Ok(Some(next))
}

// Takes the steps from a place on.
fn take_steps<R: Print + AllocGlobal, C: ScriptWorkforce<R>>(
    stage: &Stage<'_, R, C>,
    table: &mut Table,
    start: usize,
) -> Result<()>
    requires ready { C.accepts stage.now.crew.now }
{
    let mut at = start;
    for _ in 0..stage.script.len() {
        match step(stage, table, at)? {
            Some(next) => at = next,
            None => return Ok(()),
        }
    }
    Ok(())
}

// The form of the table that a script begins with, and the place after its command.
fn first_form(alloc: Global, script: &[u8]) -> Result<(TableForm, usize)> {
    match parse_command(alloc, script, 0)? {
        Parsed::Good { command, next } => match command {
            Command::Table(form) => Ok((form, next)),
            _ => bail!("the script begins with no table"),
        },
        _ => bail!("the script begins with no table"),
    }
}

/// The table of a script after all steps are taken.
pub(crate) fn table_after<R: Print + AllocGlobal, C: ScriptWorkforce<R>>(
    stage: &Stage<'_, R, C>,
) -> Result<Table>
    requires ready { C.accepts stage.now.crew.now }
{
    let alloc = stage.rt.alloc();
    let (form, next) = first_form(alloc, stage.script)?;
    let mut table = table_of(alloc, form)?;
    take_steps(stage, &mut table, next)?;
    Ok(table)
}

/// Takes all steps of a script, and notes the number of bytes in use before and after them.
pub(crate) fn go_through<R: Print + AllocGlobal, C: ScriptWorkforce<R>>(
    stage: &Stage<'_, R, C>,
) -> Result<()>
    requires ready { C.accepts stage.now.crew.now }
{
    note(stage)?;
    drop(table_after(stage)?);
    note(stage)
}
