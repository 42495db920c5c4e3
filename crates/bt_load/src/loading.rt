//! How to load: on several threads, or on one.
ghost use Rattle.std.specs.List.Sorted.{IsPermutation, IsSorted};
ghost use Rattle.std.specs.Prelude.{◌≡◌, ◌≤◌, ◌+◌, length};
ghost use Rattle.bt_load.specs.Steps.{AreAtTheirPlaces, AreKeysOrNone, AreRowsOrNone, placed_cmp};

use crate::lines::Lines;
use crate::placed::{Placed, encode_piece, placed_order};
use crate::typing::type_piece;
use bt_message::sort_by_key;
use bt_row::{Row, Schema};
use rayon::prelude::*;
use std::alloc::Global;
use std::thread::Threads;

/// The largest number of threads that `rayon` keeps busy.
pub const MOST_THREADS: usize = 64;

// The smallest number of records that are typed, or of keys that are encoded, in one job. It is large enough that the work costs
// far more than the job itself.
const SMALL_PIECE: usize = 1024;

/// The three steps of a load that may run on several threads. A program has a runtime with threads, but a library for C has none.
/// Code that is generic over a loading serves both, and starts threads only if its loading does.
///
/// There are two loadings: [`InThreads`] and [`InTurn`]. Other crates can't write their own, because [`Lines`] and [`Placed`] aren't public.
pub trait Loading {
    /// What a loading requires. One on several threads requires that these may share the runtime.
    ghost accepts: { Self → Type 0 };

    /// Writes the row of each record to its place, or a row without values if the record is refused or an allocation fails.
    fn type_records(&self, alloc: Global, schema: &Schema, records: &Lines<'_>, rows: &mut [Row])
        requires ready { accepts self.now }
        requires same { length rows.old ≡ length records.now }
        ensures long { length rows.new ≡ length rows.old }
        ensures typed { AreRowsOrNone schema.now.columns 0 records.now rows.new };

    /// Writes the key of each row to its place, or the empty key if an allocation fails. The key is the code of the first `keys`
    /// values.
    fn encode_keys(&self, alloc: Global, rows: &[Row], keys: usize, placed: &mut [Placed])
        requires ready { accepts self.now }
        requires same { length placed.old ≡ length rows.now }
        ensures long { length placed.new ≡ length placed.old }
        ensures encoded { AreKeysOrNone keys 0 rows.now placed.new };

    /// Sorts by key, and for equal keys by place. Each key is at its own place before.
    fn sort(&self, alloc: Global, placed: &mut Vec<Placed>)
        requires ready { accepts self.now }
        requires places { AreAtTheirPlaces placed.old.items }
        ensures permutation { IsPermutation placed.old.items placed.new.items }
        ensures sorted { IsSorted placed_cmp placed.new.items };
}

/// Loads on the threads of a runtime, with `rayon`. At most `workers` threads type records and encode keys at the same time. The sort
/// of `rayon` takes its number of threads from the machine: two for each processor, and at most 64.
#[derive(Clone, Copy)]
pub struct InThreads<'a, R> {
    pub rt: &'a R,
    pub workers: usize,
}

impl<'a, R> InThreads<'a, R> {
    /// The largest number of records or rows of one job, if there are `count` of them. There are then at most `workers` jobs.
    pub fn piece_len(&self, count: usize) -> usize
        ensures { 1 ≤ result }
    {
        count.div_ceil(self.workers.max(1)).max(SMALL_PIECE)
    }
}

impl<'a, R: Threads + Sync> Loading for InThreads<'a, R> {
    ghost use denote.Param.Send.{IsSync};

    ghost accepts = { λ _. IsSync R.row };

    fn type_records(&self, alloc: Global, schema: &Schema, records: &Lines<'_>, rows: &mut [Row]) {
        let len = self.piece_len(rows.len());
        par_chunks_mut_for_each(
            self.rt,
            rows,
            len,
            |start: usize, piece: &mut [Row]|
                requires { start + length piece.now ≤ length records.now }
                ensures long { length piece.new ≡ length piece.old }
                ensures typed { AreRowsOrNone schema.entry.now.columns start records.entry.now piece.new }
            { type_piece(alloc, schema, records, start, piece) },
        );
    }

    fn encode_keys(&self, alloc: Global, rows: &[Row], keys: usize, placed: &mut [Placed]) {
        let len = self.piece_len(placed.len());
        par_chunks_mut_for_each(
            self.rt,
            placed,
            len,
            |start: usize, piece: &mut [Placed]|
                requires { start + length piece.now ≤ length rows.now }
                ensures long { length piece.new ≡ length piece.old }
                ensures encoded { AreKeysOrNone keys start rows.entry.now piece.new }
            { encode_piece(alloc, rows, keys, start, piece) },
        );
    }

    fn sort(&self, _alloc: Global, placed: &mut Vec<Placed>) {
        par_sort_unstable_by(self.rt, placed.as_mut_slice(), placed_order);
    }
}

/// Loads on one thread: types one record after the other and sorts all keys at once, by their numbers.
#[derive(Clone, Copy)]
pub struct InTurn;

impl Loading for InTurn {
    ghost use Rattle.std.specs.Prelude.{⊤};

    ghost accepts = { λ _. ⊤ };

    fn type_records(&self, alloc: Global, schema: &Schema, records: &Lines<'_>, rows: &mut [Row]) {
        type_piece(alloc, schema, records, 0, rows);
    }

    fn encode_keys(&self, alloc: Global, rows: &[Row], keys: usize, placed: &mut [Placed]) {
        encode_piece(alloc, rows, keys, 0, placed);
    }

    fn sort(&self, alloc: Global, placed: &mut Vec<Placed>) {
        if sort_by_key(alloc, placed).is_err() {
            // Out of memory: the keys are as they were, and are sorted in place.
            placed.as_mut_slice().sort_unstable_by(placed_order);
        }
    }
}
