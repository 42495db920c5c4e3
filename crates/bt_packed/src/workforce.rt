//! Who works on the calls on packed bytes: the caller alone, or a crew.
ghost use Rattle.std.specs.Prelude.{◌≡◌, ◌≢◌, Err, IfErr, IfOk, IsErrOf, Ok};
ghost use Rattle.bt_value.specs.Answers.{Answers};
ghost use Rattle.bt_batch.specs.Changes.{AreOfSchema};
ghost use Rattle.bt_view.specs.RangeSums as groups;
ghost use Rattle.bt_packed.specs.Changes as spec;

use crate::changes::read_messages;
use crate::fault::Fault;
use crate::pieces::read_messages_by_crew;
use bt_gang::{Context, Crew, NoGate};
use bt_messages::Packet;
use bt_row::{Row, Schema};
use bt_table::{Alone, Table, Workforce};
use bt_value::{Refusal, Sequence, Text};
use bt_view::{KeyRange, Sum, has_few_rows, sums_between, sums_between_alone};
use std::alloc::Global;
use std::sync::Wait;
use std::thread::Threads;

/// Who works on the calls on packed bytes: a [`Workforce`] that also reads changes and sums groups. The calls have the same clauses for either.
pub trait PackedWorkforce<T>: Workforce<T> {
    /// The messages of packed changes, or the first fault.
    fn read_messages(
        &self,
        rt: &T,
        alloc: Global,
        schema: &Schema,
        bytes: &[u8],
    ) -> Result<Packet<Row>, Fault>
        requires ready { Self.accepts self.now }
        ensures done { IfOk result (λ packet. spec.packed_messages schema.now bytes.now ≡ Ok packet) }
        ensures fault { IfErr result (λ fault. fault.refusal ≢ Refusal.OutOfMemory → spec.packed_messages schema.now bytes.now ≡ Err fault) }
        ensures of_schema { IfOk result (AreOfSchema schema.now) };

    /// The groups of the rows of a tree in a range of keys, with the sum of a column.
    fn sums_between(
        &self,
        rt: &T,
        alloc: Global,
        table: &Table,
        name: &Text,
        range: KeyRange,
        grouping: u32,
        column: &Text,
    ) -> Result<Sequence<Sum>, Refusal>
        requires ready { Self.accepts self.now }
        ensures answer { Answers (groups.sums_between table.now name.now grouping column.now range) result }
        ensures certain { IfErr (groups.sums_between table.now name.now grouping column.now range) (λ refusal. refusal ≢ Refusal.TooMany → IsErrOf result refusal) };
}

impl<T> PackedWorkforce<T> for Alone {
    fn read_messages(
        &self,
        _rt: &T,
        alloc: Global,
        schema: &Schema,
        bytes: &[u8],
    ) -> Result<Packet<Row>, Fault> {
        read_messages(alloc, schema, bytes)
    }

    fn sums_between(
        &self,
        _rt: &T,
        alloc: Global,
        table: &Table,
        name: &Text,
        range: KeyRange,
        grouping: u32,
        column: &Text,
    ) -> Result<Sequence<Sum>, Refusal> {
        sums_between_alone(alloc, table, name, range, grouping, column)
    }
}

impl<T: Threads + Wait + Sync> PackedWorkforce<T> for Crew<NoGate> {
    fn read_messages(
        &self,
        rt: &T,
        alloc: Global,
        schema: &Schema,
        bytes: &[u8],
    ) -> Result<Packet<Row>, Fault> {
        let context = Context {
            rt,
            alloc,
            crew: self,
        };
        read_messages_by_crew(&context, schema, bytes)
    }

    fn sums_between(
        &self,
        rt: &T,
        alloc: Global,
        table: &Table,
        name: &Text,
        range: KeyRange,
        grouping: u32,
        column: &Text,
    ) -> Result<Sequence<Sum>, Refusal> {
        if has_few_rows(table, name) {
            return sums_between_alone(alloc, table, name, range, grouping, column);
        }
        let context = Context {
            rt,
            alloc,
            crew: self,
        };
        sums_between(&context, table, name, range, grouping, column)
    }
}
