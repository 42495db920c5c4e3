//! Whether two tables have the same definitions.
ghost use Rattle.std.specs.Cmp.Lexicographic.{pointwise};
ghost use Rattle.std.specs.Prelude.{◌≡◌, true};
ghost use Rattle.bt_table.specs.Indexes.{index_of_ref, indexes_of_refs};
ghost use Rattle.bt_table.specs.Standing.{IsConsistent};
ghost use Rattle.bt_snapshot.specs.inside.Compacting.{HaveSameDefinitions, table_of};
ghost use Rattle.bt_snapshot.specs.inside.Sameness as spec;

use bt_fanout::{Condition, IndexDef};
use bt_form::Shape;
use bt_messages::Measure;
use bt_row::{Column, Schema, Test, Values, same_values};
use bt_table::{IndexRef, IndexRefs, Table, TreeRefs};
use std::slice;

#[tactic(auto, using(bt_value::proofs::offered::Kinds::tags_agree))]
fn same_column(a: &Column, b: &Column) -> bool
    ensures { result ≡ spec.same_column a.now b.now }
{
    a.name.as_bytes() == b.name.as_bytes() && a.kind.tag() == b.kind.tag()
}

fn same_columns(first: &[Column], second: &[Column]) -> bool
    ensures { result ≡ pointwise spec.same_column first.now second.now }
{
    let mut rest = first;
    let mut others = second;
    while let [a, more @ ..] = rest {
        let [b, following @ ..] = others else {
            return false;
        };
        if !same_column(a, b) {
            return false;
        }
        rest = more;
        others = following;
    }
    others.is_empty()
}

fn same_schema(a: &Schema, b: &Schema) -> bool
    ensures { result ≡ spec.same_schema a.now b.now }
{
    a.keys() == b.keys() && same_columns(a.columns(), b.columns())
}

fn same_measure(a: Measure, b: Measure) -> bool
    ensures { result ≡ spec.same_measure a b }
{
    match (a, b) {
        (Measure::Messages, Measure::Messages) | (Measure::Bytes, Measure::Bytes) => true,
        _ => false,
    }
}

fn same_shape(a: Shape, b: Shape) -> bool
    ensures { result ≡ spec.same_shape a b }
{
    a.fanout() == b.fanout()
        && a.buffer() == b.buffer()
        && a.leaf() == b.leaf()
        && same_measure(a.measure(), b.measure())
}

fn same_test(a: Test, b: Test) -> bool
    ensures { result ≡ spec.same_test a b }
{
    match (a, b) {
        (Test::Equal, Test::Equal) | (Test::Less, Test::Less) | (Test::AtLeast, Test::AtLeast) => {
            true
        }
        _ => false,
    }
}

fn same_condition(a: &Condition, b: &Condition) -> bool
    ensures { result ≡ spec.same_condition a.now b.now }
{
    let constant = Values::of(slice::from_ref(&a.constant));
    let other = Values::of(slice::from_ref(&b.constant));
    a.place == b.place && same_test(a.test, b.test) && same_values(constant, other)
}

fn same_conditions(a: &Option<Condition>, b: &Option<Condition>) -> bool
    ensures { result ≡ spec.same_conditions a.now b.now }
{
    match (a, b) {
        (None, None) => true,
        (Some(a), Some(b)) => same_condition(a, b),
        _ => false,
    }
}

fn same_definition(a: &IndexDef, b: &IndexDef) -> bool
    ensures { result ≡ spec.same_definition a.now b.now }
{
    a.on() == b.on() && a.include() == b.include() && same_conditions(a.condition(), b.condition())
}

fn same_index(a: IndexRef<'_>, b: IndexRef<'_>) -> bool
    ensures { result ≡ spec.same_index (index_of_ref a.entry) (index_of_ref b.entry) }
{
    a.head.name.as_bytes() == b.head.name.as_bytes() && same_definition(&a.head.def, &b.head.def)
}

fn same_indexes(first: IndexRefs<'_>, second: IndexRefs<'_>) -> bool
    ensures { result ≡ pointwise spec.same_index (indexes_of_refs first.entry) (indexes_of_refs second.entry) }
{
    let mut rest = first;
    let mut others = second;
    while let Some(index) = rest.next() {
        let Some(other) = others.next() else {
            return false;
        };
        if !same_index(index, other) {
            return false;
        }
    }
    others.next().is_none()
}

// Apart from the numbers of key columns in the definitions of indexes, which are those of the tables.
fn same_trees(a: TreeRefs<'_>, b: TreeRefs<'_>) -> bool
    ensures { result ≡ spec.same_table (table_of a.entry) (table_of b.entry) }
{
    same_schema(a.schema, b.schema)
        && same_shape(a.rows.shape(), b.rows.shape())
        && same_indexes(a.indexes, b.indexes)
}

// What is true of a table between any two calls. It does nothing.
fn soundness(table: &Table)
    ensures { IsConsistent table.now }
{
    let _schema = table.schema();
}

/// Whether two tables are not lost and have the same definitions: columns, shape, and the names and definitions of their indexes in order.
pub(crate) fn have_same_definitions(old: &Table, new: &Table) -> bool
    ensures { result ≡ true → HaveSameDefinitions old.now new.now }
{
    soundness(old);
    soundness(new);
    let Ok(first) = old.trees() else {
        return false;
    };
    let Ok(second) = new.trees() else {
        return false;
    };
    same_trees(second, first)
}
