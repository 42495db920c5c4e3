//! Which commands of a script would be refused. Nothing changes.
ghost use Rattle.std.specs.Prelude.{◌≡◌, ◌<◌, ◌≤◌, IfNone, IfOk, IfSome, None, Ok, OnOk, Some, [], drop, length};
ghost use Rattle.bt_value.specs.Answers.{Answers};
ghost use Rattle.bt_script.specs.Commands.{commands};
ghost use Rattle.bt_script.specs.declared.command.Command.TheVariants as command;
ghost use Rattle.bt_shell.specs.Logs.{checked, kind_of, permitted};
ghost use Rattle.bt_shell.specs.Steps as step;
ghost use Rattle.bt_shell.specs.inside.Turns.{IsChecked};

use crate::log::{CommandLog, ReplyKind};
use crate::turn::{index_def, kind_of_done, shape_of};
use bt_load::InTurn;
use bt_row::Schema;
use bt_script::{Command, Parsed, TableForm, parse_command};
use bt_table::{Alone, Table};
use bt_value::Refusal;
use bt_view::{check_scan, sums_alone};
use std::alloc::{AllocError, Global};

// Whether a command would be refused on a table, and as what. It is carried out as far as it reads.
fn check_of_table(alloc: Global, table: &Table, command: Command<'_>) -> Result<(), Refusal>
    ensures { Answers (permitted (step.outcome (Some table.now) command.entry)) result }
{
    match command {
        Command::Table(_form) => Err(Refusal::TableExists),
        Command::Batch(items) => table.check_apply(&(), alloc, items.as_slice(), &Alone),
        Command::Get(fields) => {
            drop(table.get(alloc, &fields)?);
            Ok(())
        }
        Command::Scan(tree, bounds) => {
            check_scan(
                alloc,
                table,
                &tree,
                bounds.from.as_ref(),
                bounds.to.as_ref(),
            )
        }
        Command::Sums(form) => {
            let (from, to) = (form.bounds.from.as_ref(), form.bounds.to.as_ref());
            let (tree, column) = (&form.tree, &form.column);
            drop(sums_alone(alloc, table, tree, form.columns, column, from, to)?);
            Ok(())
        }
        Command::Image(tree) => {
            let _tree = table.tree(&tree)?;
            Ok(())
        }
        Command::Index(form) => {
            drop(index_def(alloc, table, &form)?);
            Ok(())
        }
        Command::Build(name, _count) => table.check_build(&name),
        Command::Drop(name) => table.check_drop(&name),
        Command::Load(text) => table.check_load(&InTurn, alloc, text.as_bytes()),
        Command::Drain(tree) => table.check_upkeep(&tree),
        Command::Rebuild(tree) => table.check_upkeep(&tree),
    }
}

// Whether a table could be made, and why not. There is none so far.
fn check_form(form: TableForm) -> Result<(), Refusal>
    ensures { result ≡ permitted (step.outcome None (command.Table form)) }
{
    let Ok(schema) = Schema::new(form.columns, form.keys as usize) else {
        return Err(Refusal::BadSchema);
    };
    drop(schema);
    let _shape = shape_of(form.fanout, form.buffer, form.leaf)?;
    Ok(())
}

// Whether a command would be refused, and as what.
fn check_command(alloc: Global, table: &Option<Table>, command: Command<'_>) -> Result<(), Refusal>
    ensures { Answers (permitted (step.outcome table.now command.entry)) result }
{
    if let Some(table) = table {
        return check_of_table(alloc, table, command);
    }
    match command {
        Command::Table(form) => check_form(form),
        _ => Err(Refusal::NoTable),
    }
}

// What a command would do.
fn kind_on(
    alloc: Global,
    table: &Option<Table>,
    command: Command<'_>,
) -> Result<ReplyKind, AllocError>
    ensures { IfOk result (λ kind. kind ≡ kind_of table.now (Ok command.entry)) }
{
    let kind = kind_of_done(&command);
    match check_command(alloc, table, command) {
        Ok(()) => Ok(kind),
        Err(Refusal::OutOfMemory) => Err(AllocError),
        Err(_) => Ok(ReplyKind::Refused),
    }
}

// What the command at a place would do, with the place after it, or `None` if there are no more commands.
fn next_kind(
    alloc: Global,
    script: &[u8],
    table: &Option<Table>,
    at: usize,
) -> Result<Option<(ReplyKind, usize)>, AllocError>
    ensures step { IfOk result (λ found. IfSome found (λ f. IsChecked table.now (commands (drop at script.now)) (commands (drop f.1 script.now)) f.0)) }
    ensures end { IfOk result (λ found. IfNone found (commands (drop at script.now) ≡ [])) }
    ensures past { IfOk result (λ found. IfSome found (λ f. (at < f.1) × (f.1 ≤ length script.now))) }
{
    match parse_command(alloc, script, at)? {
        Parsed::End => Ok(None),
        Parsed::Bad { next, .. } => Ok(Some((ReplyKind::Refused, next))),
        Parsed::Good { command, next } => Ok(Some((kind_on(alloc, table, command)?, next))),
    }
}

/// Tells a log what each command of a script would do, by itself, to a table as it is, or to none. No command is carried out, and no reply is written: the log
/// is told that each ends at 0.
pub fn check_commands<L: CommandLog>(
    alloc: Global,
    script: &[u8],
    table: &Option<Table>,
    log: &mut L,
) -> Result<(), AllocError>
    ensures { OnOk result (log.new ≡ checked L.added log.old table.now (commands script.now)) }
{
    let mut at = 0;
    'commands: while let Some((kind, next)) = next_kind(alloc, script, table, at)? {
        log.add(0, kind)?;
        at = next;
    }
    Ok(())
}
