//! Writing values and rows as packed bytes.
ghost use Rattle.std.specs.Prelude.{◌≡◌, ◌++◌, ◌≤◌, ◌∷◌, IfOk, OnOk, length};
ghost use Rattle.bt_value.specs.Values.{BytesFit};
ghost use Rattle.bt_value.specs.Views.{value_of_ref};
ghost use Rattle.bt_packed.specs.Calls as calls;
ghost use Rattle.bt_packed.specs.Layout as spec;

use crate::reading::MAGIC;
use bt_keycode::Key;
use bt_node::Visitor;
use bt_row::{Row, Values};
use bt_value::{Content, ValueRef};
use std::alloc::{AllocError, Global};
use std::marker::Model;

/// The memory of an earlier reply, into which a packed one is written.
#[derive(Drop)]
pub struct ReplyRoom {
    bytes: Vec<u8>,
}

impl ReplyRoom {
    /// The memory of these bytes, which are dropped.
    pub fn of(bytes: Vec<u8>) -> Self {
        ReplyRoom { bytes }
    }

    /// The first bytes of a reply, in this memory.
    pub(crate) fn begin(self) -> Result<Vec<u8>, AllocError>
        ensures { IfOk result (λ out. out.items ≡ spec.magic) }
    {
        let ReplyRoom { bytes: mut out } = self;
        out.clear();
        out.extend_from_slice(MAGIC.as_slice())?;
        Ok(out)
    }
}

/// The eight bytes of a count.
#[tactic(auto, unfolding(crate::specs::Calls::count_bytes))]
pub(crate) fn count_bytes(count: u64) -> [u8; 8]
    ensures { result ≡ calls.count_bytes count }
{
    count.to_le_bytes()
}

// The eight bytes of an int.
#[tactic(auto, unfolding(crate::specs::Layout::int_bytes))]
fn int_bytes(number: i64) -> [u8; 8]
    ensures { result ≡ spec.int_bytes number }
{
    number.cast_unsigned().to_le_bytes()
}

/// Adds the length of bytes, and the bytes.
pub(crate) fn add_bytes(out: &mut Vec<u8>, bytes: &[u8]) -> Result<(), AllocError>
    requires { length bytes.now ≤ 255 }
    ensures { OnOk result (out.new.items ≡ out.old.items ++ length bytes.now ∷ bytes.now) }
{
    out.push(bytes.len() as u8)?;
    out.extend_from_slice(bytes)
}

// Adds the bytes of a value.
fn add_value(out: &mut Vec<u8>, value: ValueRef<'_>) -> Result<(), AllocError>
    requires { BytesFit (value_of_ref value) }
    ensures { OnOk result (out.new.items ≡ out.old.items ++ spec.value_bytes (value_of_ref value.entry)) }
{
    match value.content() {
        Content::Number(number) => out.extend_from_slice(&int_bytes(number)),
        Content::Bytes(bytes) => add_bytes(out, bytes),
        Content::Bit(bit) => Ok(out.push(if bit { 1 } else { 0 })?),
    }
}

/// Adds the bytes of values.
pub(crate) fn add_values(out: &mut Vec<u8>, values: Values<'_>) -> Result<(), AllocError>
    ensures { OnOk result (out.new.items ≡ out.old.items ++ spec.row_bytes values.entry) }
{
    let mut rest = values;
    while let Some(value) = rest.next() {
        add_value(out, value)?;
    }
    Ok(())
}

/// The packed rows of a reply, to which a scan adds. A contract sees the bytes.
#[derive(Drop)]
pub struct PackedRows {
    bytes: Vec<u8>,
}

impl Model for PackedRows {
    ghost use Rattle.std.specs.Prelude.{List, ℕ};

    ghost Value = { List ℕ };

    ghost view = { λ p. p.bytes.items };
}

impl PackedRows {
    /// No rows, in this room.
    pub fn in_room(room: ReplyRoom) -> Result<Self, AllocError>
        ensures { IfOk result (λ rows. rows ≡ spec.magic) }
    {
        Ok(PackedRows {
            bytes: room.begin()?,
        })
    }

    /// Adds a row.
    pub fn add(&mut self, row: &Row) -> Result<(), AllocError>
        ensures { OnOk result (self.new ≡ self.old ++ spec.row_bytes row.now) }
    {
        add_values(&mut self.bytes, row.values())
    }

    /// The bytes.
    pub fn into_bytes(self) -> Vec<u8>
        ensures { result.items ≡ self }
    {
        let PackedRows { bytes } = self;
        bytes
    }
}

impl Visitor<Row> for PackedRows {
    ghost visited = { λ bytes row. bytes ++ spec.row_bytes row.1 };

    fn visit(&mut self, _alloc: Global, _key: &Key, row: &Row) -> Result<(), AllocError> {
        self.add(row)
    }
}
