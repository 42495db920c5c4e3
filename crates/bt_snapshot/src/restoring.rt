//! The table that a snapshot restores.
ghost use Rattle.std.specs.Int.{from_le_bytes, w64};
ghost use Rattle.std.specs.Prelude.{◌≡◌, ◌≢◌, ◌≤◌, Err, IfErr, IfOk, None, Ok, drop, length, take};
ghost use Rattle.bt_script.specs.Commands.{commands};
ghost use Rattle.bt_shell.specs.Runs.{after_commands};
ghost use Rattle.bt_table.specs.Standing.{IsConsistent};
ghost use Rattle.bt_snapshot.specs.Snapshots as spec;

use bt_gang::Context;
use bt_script::Counted;
use bt_shell::{NoLog, ScriptWorkforce, run_commands};
use bt_table::Table;
use bt_value::{Refusal, front, tail};

// The number that the first eight bytes encode.
fn number_from(bytes: &[u8]) -> u64
    requires { 8 ≤ length bytes.now }
    ensures { result ≡ from_le_bytes w64 bytes.now }
{
    u64::from_le_bytes([
        bytes[0], bytes[1], bytes[2], bytes[3], bytes[4], bytes[5], bytes[6], bytes[7],
    ])
}

// The first bytes, this many or all if there are fewer, and those after them.
fn divided(bytes: &[u8], count: u64) -> (&[u8], &[u8])
    ensures first { result.0.now ≡ take count bytes.now }
    ensures others { result.1.now ≡ drop count bytes.now }
{
    if count >= bytes.len() as u64 {
        return (bytes, tail(bytes, bytes.len()));
    }
    (front(bytes, count as usize), tail(bytes, count as usize))
}

// The script of a snapshot, and the text of its rows.
fn parts(payload: &[u8]) -> (&[u8], &[u8])
    ensures script { result.0.now ≡ spec.script_of payload.now }
    ensures text { result.1.now ≡ spec.text_of payload.now }
{
    if payload.len() < 8 {
        return divided(tail(payload, payload.len()), 0);
    }
    divided(tail(payload, 8), number_from(front(payload, 8)))
}

// The table that a script makes, or none.
fn table_of_script<T, C: ScriptWorkforce<T>>(
    context: &Context<'_, T, C>,
    script: &[u8],
) -> Result<Option<Table>, Refusal>
    requires ready { C.accepts context.now.crew.now }
    ensures table { IfOk result (λ table. table ≡ after_commands None (commands script.now)) }
    ensures memory { IfErr result (λ refusal. refusal ≡ Refusal.OutOfMemory) }
{
    let mut table = None;
    let mut replies = Counted::new(Vec::new(context.alloc));
    match run_commands(context, script, &mut table, &mut replies, &mut NoLog) {
        Ok(_refused) => Ok(table),
        // A vector takes all bytes if there is memory for them.
        Err(_fault) => Err(Refusal::OutOfMemory),
    }
}

// A table after it has loaded a text.
fn loaded<T, C: ScriptWorkforce<T>>(
    context: &Context<'_, T, C>,
    table: Option<Table>,
    text: &[u8],
) -> Result<Table, Refusal>
    requires ready { C.accepts context.now.crew.now }
    ensures done { IfOk result (λ new. spec.loaded_into table text.now ≡ Ok new) }
    ensures refused { IfErr result (λ refusal. refusal ≢ Refusal.OutOfMemory → spec.loaded_into table text.now ≡ Err refusal) }
    ensures consistent { IfOk result IsConsistent }
{
    let Some(mut table) = table else {
        return Err(Refusal::NoTable);
    };
    let Context { rt, alloc, crew } = *context;
    drop(crew.load(rt, alloc, &mut table, text)?);
    Ok(table)
}

/// The table that a snapshot restores: the one that its script makes, after it has loaded the text of the rows. The replies to the commands are dropped, so some of
/// them may be refused.
///
/// `NoTable` if the script makes no table. The other refusals are those of a load.
pub fn restore<T, C: ScriptWorkforce<T>>(
    context: &Context<'_, T, C>,
    payload: &[u8],
) -> Result<Table, Refusal>
    requires ready { C.accepts context.now.crew.now }
    ensures done { IfOk result (λ table. spec.restored payload.now ≡ Ok table) }
    ensures refused { IfErr result (λ refusal. refusal ≢ Refusal.OutOfMemory → spec.restored payload.now ≡ Err refusal) }
    ensures consistent { IfOk result IsConsistent }
{
    let (script, text) = parts(payload);
    let table = table_of_script(context, script)?;
    loaded(context, table, text)
}
