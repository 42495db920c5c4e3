//! The calls on a table that is lost.
use crate::attempt::{Attempt, call_at};
use anyhow::{Result, bail};
use bt_fanout::IndexDef;
use bt_rowtype::{Column, Kind, Refusal, Schema, Sequence, Text, Texts};
use bt_shell::ScriptWorkforce;
use bt_table::Table;
use std::alloc::Global;

// A schema with the column `qty`.
fn other_schema(alloc: Global) -> Result<Schema, Refusal> {
    let mut columns = Sequence::new(alloc);
    columns.push(Column {
        name: Text::new(alloc, "qty")?,
        kind: Kind::Int,
    })?;
    match Schema::new(columns, 1) {
        Ok(schema) => Ok(schema),
        Err(_) => Err(Refusal::BadSchema),
    }
}

// Whether a lost table creates no index.
fn creates_none(alloc: Global, table: &mut Table) -> Result<bool, Refusal> {
    let mut on = Texts::new(alloc);
    on.push("qty")?;
    let schema = other_schema(alloc)?;
    let def = IndexDef::new(alloc, &schema, &on, &Texts::new(alloc), None)?;
    let name = Text::new(alloc, "other")?;
    let Err(_) = table.schema() else {
        drop((name, def));
        return Ok(false);
    };
    let answer = table.create_index(alloc, name, def);
    Ok(matches!(answer, Err(Refusal::Failed)))
}

// Whether the calls that no command asks for are refused as `Failed`.
fn fails_without_command(alloc: Global, table: &mut Table) -> Result<bool, Refusal> {
    let name = Text::new(alloc, "other")?;
    let found = matches!(table.check_index(&name), Err(Refusal::Failed))
        && matches!(table.tree(&name), Err(Refusal::Failed))
        && matches!(table.schema(), Err(Refusal::Failed));
    Ok(found && creates_none(alloc, table)?)
}

/// Makes each call of a script on a table that is lost, and refuses any result except `Failed`.
pub(crate) fn fail_all<R: Print + AllocGlobal, C: ScriptWorkforce<R>>(
    rt: &R,
    crew: &C,
    table: &mut Table,
    script: &[u8],
) -> Result<()>
    requires ready { C.accepts crew.now }
{
    let mut at = 0;
    for _ in 0..script.len() {
        let Some(Attempt { name, answer, next }) = call_at(rt, crew, table, script, at, false)?
        else {
            break;
        };
        if at > 0 && !matches!(answer, Err(Refusal::Failed)) {
            drop(answer);
            bail!("{name} on a lost table is not refused as Failed");
        }
        drop(answer);
        at = next;
    }
    if !matches!(fails_without_command(rt.alloc(), table), Ok(true)) {
        bail!("a call on a lost table is not refused as Failed");
    }
    println!(rt; "lost")?;
    Ok(())
}
