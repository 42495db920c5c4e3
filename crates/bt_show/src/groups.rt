//! Groups of rows: how many rows each has, and the sum of a column.
ghost use Rattle.std.specs.Prelude.{◌≡◌, ◌≤◌, ◌++◌, ◌∷◌, [], IfOk, List, None, Some, false, if◌then◌else◌, take, true};
ghost use Rattle.bt_value.specs.Answers.{Answers};
ghost use Rattle.bt_value.specs.Results.{or_refused};
ghost use Rattle.bt_value.specs.Views.{value_of_ref};
ghost use Rattle.bt_show.specs.Groups as spec;
ghost use Rattle.bt_value.specs.declared.value.Value.{Value as value};
ghost use Rattle.bt_show.specs.inside.Fronts.{IsLastOf};
ghost use Rattle.bt_show.specs.inside.GroupParts.{groups_as_one};
ghost use Rattle.bt_show.specs.inside.Neighbours.{AreBounded, IsBounded, after_row, group_of, grouped, groups_then, joined_with, with_more};

use bt_keycode::Key;
use bt_node::{ForkVisitor, Visitor};
use bt_row::{Row, same_values};
use bt_value::{Kind, Refusal, Sequence, ValueRef};
use std::alloc::{AllocError, Global};
use std::marker::Model;
use std::mem::replace;

/// The rows of one group.
#[derive(Drop)]
pub struct Sum {
    /// Their values in the columns that they are grouped by.
    pub group: Row,
    /// The number of rows.
    pub count: u64,
    /// The sum of a column. It cannot overflow, since `count` numbers of 64 bits have a sum within the range.
    pub total: i128,
}

fn number_of(value: ValueRef<'_>) -> i64
    ensures { result ≡ spec.number_of_value (value_of_ref value.entry) }
{
    match value {
        ValueRef::Int(number) => number,
        _ => 0,
    }
}

/// The number at a place of a row; 0 if there is none.
pub fn number_in(row: &Row, place: usize) -> i64
    ensures { result ≡ spec.number_in row.now place }
{
    match row.find(place) {
        Some(value) => number_of(value),
        None => 0,
    }
}

// The group of one row.
fn group_of(alloc: Global, columns: usize, place: usize, row: &Row) -> Result<Sum, AllocError>
    ensures sum { IfOk result (λ sum. sum ≡ group_of columns place row.now) }
    ensures bounded { IfOk result (λ sum. IsBounded sum.count sum.total) }
{
    Ok(Sum {
        group: row.first(alloc, columns)?,
        count: 1,
        total: i128::from(number_in(row, place)),
    })
}

// Counts more rows to a group, with their total, and returns whether that was possible: it is not if the group would have more rows than can be counted.
fn count_rows(sum: &mut Sum, count: u64, total: i128) -> bool
    requires own { IsBounded sum.old.count sum.old.total }
    requires more { IsBounded count total }
    ensures over { result ≡ false → with_more sum.old count total ≡ None }
    ensures counted { result ≡ true → with_more sum.old count total ≡ Some sum.new }
    ensures bounded { IsBounded sum.new.count sum.new.total }
{
    let Some(count) = sum.count.checked_add(count) else {
        return false;
    };
    sum.count = count;
    sum.total += total;
    true
}

// Whether a row belongs to the last group.
fn is_of_last(groups: &[Sum], columns: usize, row: &Row) -> bool
    ensures last { result ≡ true → IsLastOf (take columns row.now) (Some groups.now) }
    ensures other { result ≡ false → (own : Sum) → own.group ≡ take columns row.now → groups_then groups.now (own ∷ []) ≡ Some (groups.now ++ own ∷ []) }
{
    match groups.last() {
        Some(last) => row.starts_with(columns, &last.group),
        None => false,
    }
}

// Adds a row after groups, to the last group if it belongs there, and returns whether that was possible.
fn add_row(
    alloc: Global,
    groups: &mut Vec<Sum>,
    columns: usize,
    place: usize,
    row: &Row,
) -> Result<bool, AllocError>
    requires { AreBounded groups.old.items }
    ensures groups { IfOk result (λ fits. groups_then groups.old.items (group_of columns place row.now ∷ []) ≡ (if fits then Some groups.new.items else None)) }
    ensures bounded { AreBounded groups.new.items }
{
    if is_of_last(groups, columns, row) {
        return Ok(count_in_last(groups, number_in(row, place)));
    }
    groups.push(group_of(alloc, columns, place, row)?)?;
    Ok(true)
}

// Counts one more row to the last of groups, with its number, and returns whether that was possible.
fn count_in_last(groups: &mut Vec<Sum>, number: i64) -> bool
    requires { AreBounded groups.old.items }
    ensures groups { (values : List value) → IsLastOf values (Some groups.old.items) → groups_then groups.old.items (record { group = values; count = 1; total = number } ∷ []) ≡ (if result then Some groups.new.items else None) }
    ensures bounded { AreBounded groups.new.items }
{
    let Some(last) = groups.last_mut() else {
        return true;
    };
    count_rows(last, 1, i128::from(number))
}

// Adds groups after others, and returns whether that was possible. If the first of them and the last of the others are the same group, they become one.
fn add_groups(groups: &mut Vec<Sum>, following: Vec<Sum>) -> Result<bool, AllocError>
    requires groups { AreBounded groups.old.items }
    requires following { AreBounded following.items }
    ensures groups { IfOk result (λ fits. groups_then groups.old.items following.items ≡ (if fits then Some groups.new.items else None)) }
    ensures bounded { AreBounded groups.new.items }
{
    let mut following = following;
    if following.is_empty() {
        return Ok(true);
    }
    let Some(mut last) = groups.pop() else {
        groups.append(&mut following)?;
        return Ok(true);
    };
    let first = &following[0];
    if same_values(last.group.values(), first.group.values()) {
        if !count_rows(&mut last, first.count, first.total) {
            return Ok(false);
        }
        drop(replace(&mut following[0], last));
        groups.append(&mut following)?;
        return Ok(true);
    }
    groups.push(last)?;
    groups.append(&mut following)?;
    Ok(true)
}

/// Rows that are grouped one by one by their first columns, with the sum of the column at a place. A contract sees the columns, the place, and the groups; the
/// group of the last row is at the end. There are no groups once one has more rows than can be counted.
#[derive(Drop)]
pub struct Grouping {
    columns: usize,
    place: usize,
    groups: Vec<Sum>,
    is_over: bool,
}

impl Model for Grouping {
    ghost use Rattle.std.specs.Prelude.{ℕ, None, Some, if◌then◌else◌};
    ghost use Rattle.bt_show.specs.inside.Neighbours.{AreBounded, Groups};

    ghost Value = { ℕ × ℕ × Groups };

    ghost view = { λ g. (g.columns, g.place, if g.is_over then None else Some g.groups.items) };

    ghost invariant = { λ g. AreBounded g.groups.items };
}

impl Grouping {
    /// Without rows.
    pub fn new(alloc: Global, columns: usize, place: usize) -> Self
        ensures { result ≡ (columns, place, Some []) }
    {
        Grouping {
            columns,
            place,
            groups: Vec::new(alloc),
            is_over: false,
        }
    }

    /// The number of columns of a group.
    pub fn columns(&self) -> usize
        ensures { result ≡ self.now.0 }
    {
        self.columns
    }

    /// The place of the column that is summed.
    pub fn place(&self) -> usize
        ensures { result ≡ self.now.1 }
    {
        self.place
    }

    /// Counts a row to the last group, which it belongs to, with its number at the place.
    pub fn add_to_last(&mut self, number: i64)
        ensures { (row : List value) → IsLastOf (take self.old.0 row) self.old.2 → spec.number_in row self.old.1 ≡ number → self.new ≡ (self.old.0, self.old.1, grouped self.old.0 self.old.1 self.old.2 row) }
    {
        if self.is_over {
            return;
        }
        self.is_over = !count_in_last(&mut self.groups, number);
    }

    /// The groups, or `TooMany` if one has too many rows.
    pub fn finish(self) -> Result<Sequence<Sum>, Refusal>
        ensures { Answers (or_refused Refusal.TooMany self.2) result }
    {
        let Grouping {
            groups,
            is_over,
            ..
        } = self;
        if is_over {
            return Err(Refusal::TooMany);
        }
        Ok(Sequence::from_vec(groups))
    }
}

impl Visitor<Row> for Grouping {
    ghost visited = { after_row };

    fn visit(&mut self, alloc: Global, _key: &Key, row: &Row) -> Result<(), AllocError> {
        if self.is_over {
            return Ok(());
        }
        self.is_over = !add_row(alloc, &mut self.groups, self.columns, self.place, row)?;
        Ok(())
    }
}

impl ForkVisitor<Row> for Grouping {
    ghost forked = { λ g. (g.0, g.1, Some []) };

    ghost joined = { joined_with };

    fn fork(&self, alloc: Global) -> Self {
        Grouping::new(alloc, self.columns, self.place)
    }

    fn join(&mut self, _alloc: Global, following: Self) -> Result<(), AllocError> {
        let Grouping {
            groups,
            is_over,
            ..
        } = following;
        if self.is_over {
            return Ok(());
        }
        if is_over {
            self.is_over = true;
            return Ok(());
        }
        self.is_over = !add_groups(&mut self.groups, groups)?;
        Ok(())
    }

    ghost as_one = { λ g rows following. groups_as_one g rows following };
}

/// The place of a column that is summed, if one of its name was found. `NoSuchColumn` if none was found, or if a group has no columns or more than the key,
/// `NotInt` if the column is not int. Allocates nothing.
pub fn summed_place(
    found: Option<(usize, Kind)>,
    keys: usize,
    grouping: u32,
) -> Result<usize, Refusal>
    ensures place { result ≡ spec.summed_at keys grouping found }
    ensures few { IfOk result (λ _. grouping ≤ keys) }
{
    let grouping = grouping as usize;
    if grouping == 0 || grouping > keys {
        return Err(Refusal::NoSuchColumn);
    }
    match found {
        Some((place, Kind::Int)) => Ok(place),
        Some((_place, _)) => Err(Refusal::NotInt),
        None => Err(Refusal::NoSuchColumn),
    }
}
