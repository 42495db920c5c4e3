//! A table as a service without workers.
ghost use Rattle.std.specs.Prelude.{◌≡◌, None, ⊤};
ghost use Rattle.bt_engine.specs.Exchanges as exchanges;
ghost use Rattle.bt_engine.specs.Unchanged.{arrival_leaves, others_leave};

use crate::table_service::{compact_table, exchange, refuse};
use bt_frame::{Arrival, CompactService, Reply, Service};
use bt_shell::Context;
use bt_table::{Alone, Table};
use std::alloc::{AllocError, Global};
use std::marker::Model;

/// A table, or none so far, on which the caller carries out requests alone. A contract sees the table.
#[derive(Drop)]
pub struct LocalService {
    alloc: Global,
    table: Option<Table>,
}

impl Model for LocalService {
    ghost use Rattle.std.specs.Prelude.{Option};
    ghost use Rattle.std.specs.Coded.{coded_option};
    ghost use Rattle.bt_table.specs.Tables.{TableState};
    ghost use Rattle.bt_table.specs.contracts.table.Table.{the_row as table_row};

    ghost Value = { Option TableState };

    ghost coded = { coded_option table_row.coded };

    ghost view = { λ s. s.table };
}

/// What calls of a table take besides, if the caller works alone.
pub fn alone<'a>(alloc: Global) -> Context<'a, (), Alone> {
    Context {
        rt: &(),
        alloc,
        crew: &Alone,
    }
}

impl LocalService {
    /// No table.
    pub fn new(alloc: Global) -> Self
        ensures { result ≡ None }
    {
        LocalService { alloc, table: None }
    }

    /// The table, if there is one.
    pub fn table(&self) -> &Option<Table>
        ensures { result.now ≡ self.now }
    {
        &self.table
    }
}

impl Service<()> for LocalService {
    ghost accepts = { λ _. ⊤ };

    ghost blank = { None };

    ghost after = { exchanges.after };

    ghost reply = { exchanges.reply };

    ghost changes = { exchanges.changes };

    ghost same = { arrival_leaves };

    ghost idle = { others_leave };

    fn exchange(
        &mut self,
        _nothing: &(),
        arrival: Arrival,
        payload: &[u8],
        room: Vec<u8>,
    ) -> Result<Reply, AllocError> {
        exchange(&alone(self.alloc), &mut self.table, arrival, payload, room)
    }

    fn refuse(&self, arrival: Arrival, room: Vec<u8>) -> Result<Reply, AllocError> {
        refuse(arrival, room)
    }
}

impl CompactService<()> for LocalService {
    ghost is_compacted = { exchanges.is_compacted };

    fn compact(&mut self, _nothing: &(), bytes: Vec<u8>) -> Option<Vec<u8>> {
        compact_table(&alone(self.alloc), &mut self.table, bytes)
    }
}
