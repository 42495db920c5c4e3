//! Changes of rows that are given by values.
ghost use Rattle.std.specs.Prelude.{◌≡◌, ◌≢◌, ◌==◌, IfErr, IfOk, IsErrOf, Ok, Err, OnErr, OnOk, length};
ghost use Rattle.bt_message.specs.Messages.{sorted_batch};
ghost use Rattle.bt_row.specs.Fits.{OpsInRange};
ghost use Rattle.bt_row.specs.Ops.{checked_ops};
ghost use Rattle.bt_value.specs.Values.{AreInRange};
ghost use Rattle.bt_batch.specs.Changes as spec;
ghost use Rattle.bt_batch.specs.Changes.{AreOfSchema, IsOfSchema};

use bt_keycode::{Key, encode_row};
use bt_messages::{Message, Packet};
use bt_row::{Change, Ops, Row, Schema, check_ops, default_row};
use bt_value::Refusal;
use std::alloc::{AllocError, Global};
use std::marker::Model;

/// Puts, dels and upserts that are given by values, in order. Each is checked by the schema when it is added. A contract sees the schema, and the messages that
/// the changes are.
#[derive(Drop)]
pub struct Changes<'s> {
    schema: &'s Schema,
    messages: Vec<(Key, Message<Row>)>,
}

impl<'s> Model for Changes<'s> {
    ghost use Rattle.bt_batch.specs.Changes as changes;
    ghost use Rattle.bt_batch.specs.Changes.{AreOfSchema};

    ghost Value = { changes.Changes };

    ghost view = { λ c. record { schema = c.schema.now; messages = c.messages.items } };

    ghost invariant = { λ c. AreOfSchema c.schema.now c.messages.items };
}

// Two checks, or the smaller of their refusals.
fn both_checked(first: Result<(), Refusal>, second: Result<(), Refusal>) -> Result<(), Refusal>
    ensures { result ≡ spec.both_checked first second }
{
    match first {
        Ok(()) => second,
        Err(refusal) => match second {
            Ok(()) => Err(refusal),
            Err(other) => Err(refusal.lower(other)),
        },
    }
}

// Whether the key and the operations of an upsert fit a schema, or the smaller of their refusals as this item.
fn check_upsert(schema: &Schema, item: u64, key: &Row, ops: &Ops) -> Result<(), Refusal>
    ensures answer { result ≡ spec.both_checked (spec.checked_key schema.now item key.now) (checked_ops schema.now item ops.now) }
    ensures in_range { OnOk result (AreInRange key.now × OpsInRange ops.now) }
{
    let key = schema.check_key(item, key);
    let ops = check_ops(schema, item, ops.as_slice());
    both_checked(key, ops)
}

impl<'s> Changes<'s> {
    /// No changes, of rows of a table with this schema. Allocates nothing.
    pub fn new(alloc: Global, schema: &'s Schema) -> Self
        ensures { result ≡ spec.no_changes schema.now }
    {
        Changes {
            schema,
            messages: Vec::new(alloc),
        }
    }

    /// The schema that the changes are checked by.
    pub fn schema(&self) -> &'s Schema
        ensures { result.now ≡ self.now.schema }
    {
        self.schema
    }

    /// The number of changes.
    pub fn len(&self) -> usize
        ensures { result ≡ length self.now.messages }
    {
        self.messages.len()
    }

    /// Whether there are no changes.
    pub fn is_empty(&self) -> bool
        ensures { result ≡ (length self.now.messages == 0) }
    {
        self.messages.is_empty()
    }

    /// The number of the next change, counted from 1.
    pub fn next_item(&self) -> u64
        ensures { result ≡ spec.next_item self.now }
    {
        self.messages.len() as u64 + 1
    }

    // Adds the message of a change. An `Err` changes nothing.
    fn add(&mut self, key: Key, message: Message<Row>) -> Result<(), AllocError>
        requires { IsOfSchema self.old.schema (key, message) }
        ensures ok { OnOk result (self.new ≡ spec.with_change self.old (key, message)) }
        ensures err { OnErr result (self.new ≡ self.old) }
        ensures same_schema { self.new.schema ≡ self.old.schema }
    {
        if let Err(error) = self.messages.reserve(1) {
            drop((key, message));
            return Err(error);
        }
        self.messages.push_reserved((key, message));
        Ok(())
    }

    /// Adds the put of a row. It is refused as `BadLength` if the number of values differs from that of the columns, and otherwise as `BadField` if a value is
    /// not of its column, with the number of the change, counted from 1. A refusal comes before anything is allocated. An `Err` changes nothing.
    pub fn put(&mut self, alloc: Global, row: Row) -> Result<(), Refusal>
        ensures done { OnOk result (spec.after_put self.old row ≡ Ok self.new) }
        ensures refused { IfErr result (λ refusal. refusal ≢ Refusal.OutOfMemory → spec.after_put self.old row ≡ Err refusal) }
        ensures certain { IfErr (spec.after_put self.old row) (IsErrOf result) }
        ensures unchanged { OnErr result (self.new ≡ self.old) }
        ensures same_schema { self.new.schema ≡ self.old.schema }
    {
        self.schema().check_row(self.next_item(), &row)?;
        let key = encode_row(alloc, &row, self.schema().keys())?;
        Ok(self.add(key, Message::Put(row))?)
    }

    /// Adds the del of the row of a key. The key is refused like the row of a put, by the key columns. An `Err` changes nothing.
    pub fn del(&mut self, alloc: Global, key: &Row) -> Result<(), Refusal>
        ensures done { OnOk result (spec.after_del self.old key.now ≡ Ok self.new) }
        ensures refused { IfErr result (λ refusal. refusal ≢ Refusal.OutOfMemory → spec.after_del self.old key.now ≡ Err refusal) }
        ensures certain { IfErr (spec.after_del self.old key.now) (IsErrOf result) }
        ensures unchanged { OnErr result (self.new ≡ self.old) }
        ensures same_schema { self.new.schema ≡ self.old.schema }
    {
        self.schema().check_key(self.next_item(), key)?;
        let code = encode_row(alloc, key, key.len())?;
        Ok(self.add(code, Message::Del)?)
    }

    /// Adds an upsert of the row of a key: 1 to 16 operations, which are applied in order. The key is refused like that of a del. The operations are refused as
    /// `BadLength` if they are too few or too many. Otherwise each has one fault, the first of: a column that does not exist or is a key column
    /// (`NoSuchColumn`), arithmetic at a column that is not int (`NotInt`), a value that is not of its column (`BadField`). The lowest of the refusals is
    /// returned. It comes before anything is allocated. An `Err` changes nothing.
    pub fn ups(&mut self, alloc: Global, key: Row, ops: Ops) -> Result<(), Refusal>
        ensures done { OnOk result (spec.after_ups self.old key ops ≡ Ok self.new) }
        ensures refused { IfErr result (λ refusal. refusal ≢ Refusal.OutOfMemory → spec.after_ups self.old key ops ≡ Err refusal) }
        ensures certain { IfErr (spec.after_ups self.old key ops) (IsErrOf result) }
        ensures unchanged { OnErr result (self.new ≡ self.old) }
        ensures same_schema { self.new.schema ≡ self.old.schema }
    {
        check_upsert(self.schema(), self.next_item(), &key, &ops)?;
        let code = encode_row(alloc, &key, key.len())?;
        let base = default_row(alloc, self.schema(), key)?;
        let change = Change::new(alloc, base, ops)?;
        Ok(self.add(code, Message::Ups(change))?)
    }

    /// The packet of the changes: their messages sorted by key, those of one key in order. Each is of the schema, so a table with this schema takes the packet.
    /// An `Err` drops the changes.
    pub fn into_packet(self, alloc: Global) -> Result<Packet<Row>, AllocError>
        ensures packet { IfOk result (λ packet. packet ≡ sorted_batch self.entry.messages) }
        ensures of_schema { IfOk result (AreOfSchema self.entry.schema) }
    {
        let Changes {
            schema: _schema,
            messages,
        } = self;
        Packet::from_batch(alloc, messages)
    }
}
