//! Why a command is refused because of its records.
ghost use Rattle.std.specs.Prelude.{◌≡◌, IfOk, IfSome};
ghost use Rattle.bt_fault.specs.Commands as spec;
ghost use Rattle.bt_script.specs.Commands.{commands};
ghost use Rattle.bt_view.specs.Ranges.{tree_columns as columns_of_tree};

use crate::batch::{batch_reason, key_reason};
use crate::bounds::range_reason;
use crate::load::text_reason;
use crate::reason::Reason;
use bt_script::{Bounds, Command, Parsed, parse_command};
use bt_table::Table;
use bt_value::{Refusal, Text};
use bt_view::tree_columns;
use std::alloc::{AllocError, Global};

// Why the bounds of a range of the tree of this name are refused; none if there is no such tree.
fn bounds_reason(
    alloc: Global,
    table: &Table,
    tree: &Text,
    bounds: &Bounds<'_>,
) -> Result<Option<Reason>, AllocError>
    ensures { IfOk result (λ reason. reason ≡ spec.bounds_reason bounds.now (columns_of_tree table.now tree.now)) }
{
    match tree_columns(alloc, table, tree) {
        Ok(columns) => range_reason(
            alloc,
            columns.key_columns(),
            bounds.from.as_ref(),
            bounds.to.as_ref(),
        ),
        Err(Refusal::OutOfMemory) => Err(AllocError),
        Err(_) => Ok(None),
    }
}

// Why a command is refused because of its records.
#[tactic(auto, using(crate::proofs::ExplainedCommands::few_keys))]
fn reason_of(
    alloc: Global,
    table: &Table,
    command: &Command<'_>,
) -> Result<Option<Reason>, AllocError>
    ensures reason { IfOk result (λ reason. reason ≡ spec.command_reason table.now command.now) }
    ensures few { IfOk result (λ _. spec.HasFewKeys table.now) }
{
    let Ok(schema) = table.schema() else {
        return Ok(None);
    };
    let _keys = schema.keys();
    match command {
        Command::Batch(items) => batch_reason(alloc, schema, items.as_slice()),
        Command::Get(key) => key_reason(alloc, schema, key),
        Command::Load(text) => text_reason(alloc, schema, text.as_bytes()),
        Command::Scan(tree, bounds) => bounds_reason(alloc, table, tree, bounds),
        Command::Sums(form) => bounds_reason(alloc, table, &form.tree, &form.bounds),
        _ => Ok(None),
    }
}

/// Why a command is refused on a table because of its records: the lines of a batch, the key of a get, the text of a load, or the bounds of a scan or of sums.
/// `None` if its records have no fault. The table and the command are as they were.
pub fn command_reason(
    alloc: Global,
    table: &Table,
    command: &Command<'_>,
) -> Result<Option<Reason>, AllocError>
    ensures reason { IfOk result (λ reason. reason ≡ spec.command_reason table.now command.now) }
    ensures refused { IfOk result (λ reason. IfSome reason (λ r. spec.IsRefused table.now command.now r.refusal)) }
{
    reason_of(alloc, table, command)
}

/// Why the first command of a script is refused on a table because of its records. `None` if there is no table or no command, or if its records have no fault.
pub fn script_reason(
    alloc: Global,
    table: &Option<Table>,
    script: &[u8],
) -> Result<Option<Reason>, AllocError>
    ensures reason { IfOk result (λ reason. reason ≡ spec.first_reason table.now (commands script.now)) }
    ensures refused { IfOk result (λ reason. IfSome reason (λ r. spec.FirstIsRefused table.now (commands script.now) r.refusal)) }
{
    let Some(table) = table else {
        return Ok(None);
    };
    match parse_command(alloc, script, 0)? {
        Parsed::Good { command, .. } => command_reason(alloc, table, &command),
        _ => Ok(None),
    }
}
