//! Entries of an index, shown as rows.
ghost use Rattle.std.specs.Prelude.{◌≡◌, IfOk};
ghost use Rattle.bt_show.specs.inside.Entries.{row_of_entry, after_entry};
ghost use Rattle.bt_show.specs.inside.EntryParts.{entries_as_one};

use bt_keycode::{DecodeError, Key, decode_onto};
use bt_messages::Entry;
use bt_node::{ForkVisitor, Visitor};
use bt_row::Row;
use bt_value::Kind;
use std::alloc::{AllocError, Global};
use std::marker::Model;

/// Entries of an index that are shown as rows; the kinds are those of the key columns of the index.
#[derive(Drop)]
pub struct EntryRows<'a, S: Visitor<Row>> {
    pub kinds: &'a [Kind],
    pub visitor: S,
}

impl<'a, S: Visitor<Row>> Model for EntryRows<'a, S> {
    ghost use Rattle.std.specs.Prelude.{List};
    ghost use Rattle.bt_value.specs.declared.value.Kind.{Kind as kind};

    ghost Value = { List kind × S };

    ghost view = { λ r. (r.kinds.now, r.visitor) };
}

/// The row of an entry, if its key is a code of values of these kinds.
pub fn row_of_entry(
    alloc: Global,
    kinds: &[Kind],
    key: &[u8],
    entry: &Entry,
) -> Result<Option<Row>, AllocError>
    ensures { IfOk result (λ row. row ≡ row_of_entry kinds.now (key.now, entry.now)) }
{
    let mut row = Row::new();
    match decode_onto(alloc, kinds, key, &mut row) {
        Ok(()) => {}
        Err(DecodeError::NotACode) => return Ok(None),
        Err(DecodeError::OutOfMemory) => return Err(AllocError),
    }
    let included = entry.as_row();
    row.push_first(alloc, included, included.len())?;
    Ok(Some(row))
}

impl<'a, S: Visitor<Row>> Visitor<Entry> for EntryRows<'a, S> {
    ghost visited = { after_entry S.visited };

    // A visitor accepts any key. It is proved for the whole walk that each key of an index is such a code, so no entry is skipped.
    fn visit(&mut self, alloc: Global, key: &Key, entry: &Entry) -> Result<(), AllocError> {
        match row_of_entry(alloc, self.kinds, key.as_slice(), entry)? {
            Some(row) => self.visitor.visit(alloc, key, &row),
            None => Ok(()),
        }
    }
}

impl<'a, S: ForkVisitor<Row>> ForkVisitor<Entry> for EntryRows<'a, S> {
    ghost forked = { λ r. (r.0, S.forked r.1) };

    ghost joined = { λ r following. (r.0, S.joined r.1 following.1) };

    fn fork(&self, alloc: Global) -> Self {
        EntryRows {
            kinds: self.kinds,
            visitor: self.visitor.fork(alloc),
        }
    }

    fn join(&mut self, alloc: Global, following: Self) -> Result<(), AllocError> {
        let EntryRows { visitor, .. } = following;
        self.visitor.join(alloc, visitor)
    }

    ghost as_one = { λ r entries following. entries_as_one S.visited S.forked S.joined S.as_one r entries following };
}
