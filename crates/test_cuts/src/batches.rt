//! The batches of a script, as packets for a tree.
use anyhow::{Result, bail};
use bt_batch::read_packet_alone;
use bt_messages::Packet;
use bt_node::Shape;
use bt_rowtype::{Refusal, Row, Schema};
use bt_script::{Capacity, Command, Items, Parsed, TableForm, parse_command};
use std::alloc::Global;

/// A table and its batches.
#[derive(Drop)]
pub(crate) struct Batches<'a> {
    schema: Schema,
    shape: Shape,
    batches: Vec<Items<'a>>,
}

// The shape of a table, if its numbers are within the limits.
fn shape_of(form: &TableForm) -> Option<Shape> {
    let shape = match form.buffer {
        Capacity::Messages(messages) => Shape::new(form.fanout, messages, form.leaf),
        Capacity::Bytes(bytes) => Shape::weighed(form.fanout, bytes, form.leaf),
    };
    shape.ok()
}

// The schema and the shape that a command creates a table with.
fn table_of(command: Command<'_>) -> Option<(Schema, Shape)> {
    match command {
        Command::Table(form) => {
            let shape = shape_of(&form)?;
            let schema = Schema::new(form.columns, form.keys as usize).ok()?;
            Some((schema, shape))
        }
        other => {
            drop(other);
            None
        }
    }
}

// The lines of a batch.
fn items_of(command: Command<'_>) -> Option<Items<'_>> {
    match command {
        Command::Batch(items) => Some(items),
        other => {
            drop(other);
            None
        }
    }
}

// The first table that a script creates, and the place after its command.
fn first_table(alloc: Global, script: &[u8]) -> Result<((Schema, Shape), usize)> {
    let mut at = 0;
    for _ in 0..script.len() {
        match parse_command(alloc, script, at)? {
            Parsed::End => break,
            Parsed::Bad { next, .. } => at = next,
            Parsed::Good { command, next } => {
                if let Some(table) = table_of(command) {
                    return Ok((table, next));
                }
                at = next;
            }
        }
    }
    bail!("it has no table")
}

// All batches of a script from a place on.
fn batches_from(alloc: Global, script: &[u8], start: usize) -> Result<Vec<Items<'_>>> {
    let mut batches = Vec::new(alloc);
    let mut at = start;
    for _ in 0..script.len() {
        match parse_command(alloc, script, at)? {
            Parsed::End => break,
            Parsed::Bad { next, .. } => at = next,
            Parsed::Good { command, next } => {
                if let Some(items) = items_of(command) {
                    batches.push(items)?;
                }
                at = next;
            }
        }
    }
    Ok(batches)
}

impl<'a> Batches<'a> {
    /// The first table of a script, and all batches after it.
    pub(crate) fn read(alloc: Global, script: &'a [u8]) -> Result<Self> {
        let (table, next) = first_table(alloc, script)?;
        match batches_from(alloc, script, next) {
            Ok(batches) => {
                let (schema, shape) = table;
                Ok(Batches {
                    schema,
                    shape,
                    batches,
                })
            }
            Err(error) => {
                drop(table);
                Err(error)
            }
        }
    }

    pub(crate) fn shape(&self) -> Shape {
        self.shape
    }

    /// The messages that the lines of each batch encode.
    pub(crate) fn items(&self) -> &[Items<'a>] {
        self.batches.as_slice()
    }

    /// The packet of a batch, or none if one of its lines is refused.
    pub(crate) fn packet(&self, alloc: Global, items: &Items<'a>) -> Result<Option<Packet<Row>>> {
        match read_packet_alone(alloc, &self.schema, items.as_slice()) {
            Ok(packet) => Ok(Some(packet)),
            Err(Refusal::OutOfMemory) => bail!("out of memory"),
            Err(_) => Ok(None),
        }
    }
}
