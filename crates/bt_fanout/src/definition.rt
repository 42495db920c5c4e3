//! The definition of an index.
ghost use Rattle.std.specs.Prelude.{◌≡◌, Err, IfErr, IfOk, nat_lt};
ghost use Rattle.std.specs.List.{list_all};
ghost use Rattle.std.specs.Option.{option_copied};
ghost use Rattle.bt_value.specs.Answers.{Answers};
ghost use Rattle.bt_fanout.specs.Definitions.{definition_as, kinds_of};
ghost use Rattle.bt_fanout.specs.Entries as spec;

use crate::definition_parts::read_parts;
use bt_row::{Filter, Schema, Test};
use bt_value::{Refusal, Sequence, Texts, Value};
use std::alloc::Global;
use std::marker::Model;

/// The largest number of columns that an index is ordered by.
pub const MOST_ON: usize = 4;

/// The largest number of columns that an index includes.
pub const MOST_INCLUDED: usize = 8;

/// The rows that an index has: those whose value at a place, counted from 0, passes the test against a constant.
#[derive(Debug, Drop)]
pub struct Condition {
    pub place: usize,
    pub test: Test,
    pub constant: Value,
}

/// The definition of an index: the places of the columns that it is ordered by and of those that it includes, the condition on its rows, and the number of
/// key columns of the table. Places are counted from 0 and are in the order in which the columns were named.
#[derive(Debug, Drop)]
pub struct IndexDef {
    on: Sequence<usize>,
    include: Sequence<usize>,
    condition: Option<Condition>,
    keys: usize,
}

impl Model for IndexDef {
    ghost use Rattle.bt_fanout.specs.Entries.{Definition};

    ghost Value = { Definition };

    ghost view = { λ d. record { on = d.on; include = d.include; condition = d.condition; keys = d.keys } };
}

// Whether all places are below a number of columns.
fn are_below(places: &[usize], columns: usize) -> bool
    ensures { result ≡ list_all (λ place. nat_lt place columns) places.now }
{
    for place in places {
        if *place >= columns {
            return false;
        }
    }
    true
}

// Whether the place of a condition, if there is one, is below a number of columns.
fn has_place(condition: &Option<Condition>, columns: usize) -> bool
    ensures { result ≡ spec.has_place condition.now columns }
{
    match condition {
        None => true,
        Some(condition) => condition.place < columns,
    }
}

impl IndexDef {
    /// The definition of an index on 1 to 4 columns that includes up to 8, by the names of the columns. A name may occur twice.
    ///
    /// If several refusals apply, the lowest of them is returned: `BadField` of item 1 if the constant is not a value of the filter's column, which is not
    /// tested if there is no such column; `TooMany` if one of the lists is too long; `NoSuchColumn` if a name is not in the schema.
    /// Each of them is found before any memory is allocated.
    pub fn new(
        alloc: Global,
        schema: &Schema,
        on: &Texts,
        include: &Texts,
        filter: Option<&Filter>,
    ) -> Result<Self, Refusal>
        ensures answer { Answers (definition_as schema.now on.now include.now (option_copied filter.entry)) result }
        ensures certain { IfErr (definition_as schema.now on.now include.now (option_copied filter.entry)) (λ e. result ≡ Err e) }
        ensures suits { IfOk result (λ def. spec.SuitsKinds def (kinds_of schema.now.columns)) }
        ensures keys { IfOk result (λ def. def.keys ≡ schema.now.keys) }
    {
        let (condition, chosen) = read_parts(
            alloc,
            schema.columns(),
            on.as_slice(),
            include.as_slice(),
            filter,
        )?;
        Ok(IndexDef {
            on: chosen.0,
            include: chosen.1,
            condition,
            keys: schema.keys(),
        })
    }

    /// The places of the columns that the index is ordered by.
    pub fn on(&self) -> &[usize]
        ensures { result.now ≡ self.now.on }
    {
        self.on.as_slice()
    }

    /// The places of the columns that the index includes.
    pub fn include(&self) -> &[usize]
        ensures { result.now ≡ self.now.include }
    {
        self.include.as_slice()
    }

    // Whether all places are below a number of columns.
    pub(crate) fn is_within(&self, columns: usize) -> bool
        ensures { result ≡ spec.is_within self.now columns }
    {
        are_below(self.on(), columns)
            && are_below(self.include(), columns)
            && has_place(&self.condition, columns)
    }

    /// The condition on the rows, if there is one.
    pub fn condition(&self) -> &Option<Condition>
        ensures { result.now ≡ self.now.condition }
    {
        &self.condition
    }

    // The number of key columns of the table.
    pub(crate) fn keys(&self) -> usize
        ensures { result ≡ self.now.keys }
    {
        self.keys
    }
}
