//! The entries of rows as messages, made in portions of a tree.
ghost use Rattle.std.specs.Prelude.{◌≡◌, [], IfOk, fold, length};
ghost use Rattle.bt_form.specs.Flushes.{holds};
ghost use Rattle.bt_fanout.specs.Effects.{row_effect};
ghost use Rattle.bt_fanout.specs.Entries.{entry_of};
ghost use Rattle.bt_fanout.specs.Promises.{SuitsRows};
ghost use Rattle.bt_fanout.specs.Selections.{select};
ghost use Rattle.bt_fanout.specs.inside.Portions.{puts_after_row};
ghost use Rattle.bt_fanout.specs.inside.Readings as spec;
ghost use Rattle.bt_fanout.specs.inside.RowEntries as rows;

use crate::building::add_put;
use crate::cover::{Cover, next_key};
use crate::definition::IndexDef;
use crate::selecting::entry_at;
use bt_gang::{Context, Crew, Gate};
use bt_keycode::Key;
use bt_messages::{Entry, Message, Packet};
use bt_node::{ForkVisitor, Tree, Visitor};
use bt_portions::read;
use bt_row::Row;
use std::alloc::{AllocError, Global};
use std::marker::Model;
use std::sync::Wait;
use std::thread::Threads;

/// The entries of rows as messages for an index. A contract sees the definition and the messages.
#[derive(Drop)]
pub(crate) struct EntryPuts<'a> {
    def: &'a IndexDef,
    pub(crate) messages: Vec<(Key, Message<Entry>)>,
}

impl<'a> Model for EntryPuts<'a> {
    ghost use Rattle.bt_fanout.specs.inside.Portions.{Puts};

    ghost Value = { Puts };

    ghost view = { λ puts. (puts.def.now, puts.messages.items) };
}

// The entry of a row under its key, if the row has all places of the definition.
#[tactic(auto, using(crate::proofs::RowsRead::within_tested))]
fn entry_within(
    alloc: Global,
    def: &IndexDef,
    key: &Key,
    row: &Row,
) -> Result<Option<(Key, Entry)>, AllocError>
    ensures { IfOk result (λ entry. entry ≡ rows.entry_within def.now key.now row.now) }
{
    if def.is_within(row.len()) {
        entry_at(alloc, def, key, row)
    } else {
        Ok(None)
    }
}

impl<'a> EntryPuts<'a> {
    /// No messages.
    pub(crate) fn new(alloc: Global, def: &'a IndexDef) -> Self
        ensures { result ≡ (def.now, []) }
    {
        EntryPuts {
            def,
            messages: Vec::new(alloc),
        }
    }
}

impl<'a> Visitor<Row> for EntryPuts<'a> {
    ghost use Rattle.bt_fanout.specs.inside.Portions.{puts_after_row};

    ghost visited = { puts_after_row };

    fn visit(&mut self, alloc: Global, key: &Key, row: &Row) -> Result<(), AllocError> {
        let entry = entry_within(alloc, self.def, key, row)?;
        add_put(&mut self.messages, entry)
    }
}

impl<'a> ForkVisitor<Row> for EntryPuts<'a> {
    ghost use Rattle.std.specs.Prelude.{[], ◌++◌};
    ghost use Rattle.bt_fanout.specs.inside.Portions.{puts_as_one};

    ghost forked = { λ puts. (puts.0, []) };

    ghost joined = { λ puts later. (puts.0, puts.1 ++ later.1) };

    fn fork(&self, alloc: Global) -> Self {
        EntryPuts::new(alloc, self.def)
    }

    fn join(&mut self, _alloc: Global, later: Self) -> Result<(), AllocError> {
        let EntryPuts { mut messages, .. } = later;
        self.messages.append(&mut messages)
    }

    ghost as_one = { λ puts rows later. puts_as_one puts rows later };
}

// The first key after those up to the last one of a cover. A cover of no key, or of all keys, has no last one.
fn key_after(alloc: Global, cover: &Cover) -> Result<Option<Key>, AllocError>
    ensures { IfOk result (λ key. key ≡ spec.key_after cover.now) }
{
    match cover {
        Cover::UpTo(last) => Ok(Some(next_key(alloc, last)?)),
        _ => Ok(None),
    }
}

// Whether a cover has no key that an earlier one has not, since it has none or the earlier one has all.
fn adds_nothing(earlier: &Cover, later: &Cover) -> bool
    ensures { result ≡ spec.adds_nothing earlier.now later.now }
{
    match earlier {
        Cover::Whole => true,
        _ => matches!(later, Cover::Nothing),
    }
}

/// The entries of the rows that a cover has and an earlier one has not, made by the workers of a crew in portions of the tree.
pub(crate) fn portion_puts<'a, G: Gate + Sync, T: Threads + Wait + Sync>(
    context: &Context<'_, T, Crew<G>>,
    def: &'a IndexDef,
    earlier: &Cover,
    later: &Cover,
    tree: &Tree<Row>,
) -> Result<EntryPuts<'a>, AllocError>
    ensures { IfOk result (λ puts. puts ≡ fold puts_after_row (def.now, []) (spec.rows_between earlier.now later.now (holds row_effect tree.now.1))) }
{
    let alloc = context.alloc;
    let puts = EntryPuts::new(alloc, def);
    if adds_nothing(earlier, later) {
        return Ok(puts);
    }
    let from = key_after(alloc, earlier)?;
    let to = key_after(alloc, later)?;
    read(context, tree, from.as_ref(), to.as_ref(), puts)
}
