//! A service on the library: it counts hits of pages with batches of upserts, builds an index of them in steps between the batches, and reads both trees. It
//! hands values over, and formats and parses no text.
#![tactic(auto)]

use anyhow::Result;
use bt_batch::Changes;
use bt_fanout::IndexDef;
use bt_gang::{Context, Crew, NoGate};
use bt_keycode::encode_row;
use bt_node::Shape;
use bt_rowtype::{
    Column, Columns, Kind, MOST_VALUE_BYTES, Op, Ops, Refusal, Row, Schema, Text, Texts, ValueRef,
};
use bt_table::{Reply, Table};
use bt_view::{KeyRange, RecordText, RowList, page, scan};
use std::alloc::{AllocError, Global};
use std::sync::Wait;
use std::thread::Threads;
use thiserror::Error;

// Hits of pages in the order of their arrival: a page and a day.
const FIRST: &[(&str, i64)] = &[("home", 1), ("shop", 1), ("home", 1), ("about", 2)];

const SECOND: &[(&str, i64)] = &[("shop", 1), ("home", 1), ("home", 2), ("shop", 1)];

const THIRD: &[(&str, i64)] = &[("about", 2), ("docs", 3)];

// The place of the column that counts hits.
const HITS: usize = 2;

// The most rows that are read of the index.
const PAGE: usize = 100;

/// Why the service stops.
#[derive(Debug, Drop, Error)]
enum Fault {
    #[error("refused {} {}", .0.number(), .0.name())]
    Refused(#[from] Refusal),
    #[error("a name is over 255 bytes")]
    NameTooLong,
    #[error(transparent)]
    Memory(#[from(alloc)] AllocError),
}

/// A table of hits with an index, and the crew that works on it.
#[derive(Drop)]
struct Service {
    alloc: Global,
    crew: Crew<NoGate>,
    table: Table,
    rows: Text,
    index: Text,
}

// An empty table; its key is a page and a day.
fn new_table(alloc: Global) -> Result<Table, Fault> {
    let mut columns = Columns::new(alloc);
    for (name, kind) in [
        ("page", Kind::Text),
        ("day", Kind::Int),
        ("hits", Kind::Int),
    ] {
        let name = Text::new(alloc, name)?;
        columns.push(Column { name, kind })?;
    }
    let schema = Schema::new(columns, 2)?;
    Ok(Table::new(alloc, schema, Shape::new(16, 1024, 256)?))
}

// A name from outside as a text.
fn text(alloc: Global, name: &str) -> Result<Text, Fault> {
    if name.len() > MOST_VALUE_BYTES {
        return Err(Fault::NameTooLong);
    }
    Ok(Text::new(alloc, name)?)
}

// The key columns of a row: a page and a day.
fn key(alloc: Global, name: &str, day: i64) -> Result<Row, Fault> {
    let mut key = Row::new();
    let name = text(alloc, name)?;
    key.push(alloc, ValueRef::Text(name.as_bytes()))?;
    key.push(alloc, ValueRef::Int(day))?;
    Ok(key)
}

// The hits in a row of the table.
fn hits_in(row: &Row) -> i64 {
    match row.find(HITS) {
        Some(ValueRef::Int(hits)) => hits,
        _ => 0,
    }
}

impl Service {
    fn new(alloc: Global) -> Result<Self, Fault> {
        Ok(Service {
            alloc,
            crew: Crew::new(2, 2, 64, NoGate)?,
            table: new_table(alloc)?,
            rows: Text::new(alloc, "primary")?,
            index: Text::new(alloc, "by_hits")?,
        })
    }

    // Applies one batch; each event in it adds one to the hits of its key.
    fn count<R: Threads + Wait + Sync>(
        &mut self,
        rt: &R,
        events: &[(&str, i64)],
    ) -> Result<(), Fault> {
        let alloc = self.alloc;
        let mut changes = Changes::new(alloc, self.table.schema()?);
        for (name, day) in events {
            let mut ops = Ops::new(alloc);
            ops.push(Op::Add(HITS, 1))?;
            changes.ups(alloc, key(alloc, name, *day)?, ops)?;
        }
        let packet = changes.into_packet(alloc)?;
        self.table.apply_messages(rt, alloc, packet, &self.crew)?;
        Ok(())
    }

    // Creates the index, which covers no row yet.
    fn create_index(&mut self) -> Result<(), Fault> {
        let alloc = self.alloc;
        let mut on = Texts::new(alloc);
        on.push("hits")?;
        let include = Texts::new(alloc);
        let def = IndexDef::new(alloc, self.table.schema()?, &on, &include, None)?;
        let name = self.index.copy(alloc)?;
        self.table.create_index(alloc, name, def)?;
        Ok(())
    }

    // One step of building: reads the next two rows (a real service would read thousands), and returns whether the index is complete.
    fn build_more<R: Threads + Wait + Sync>(&mut self, rt: &R) -> Result<bool, Fault> {
        let (index, crew) = (&self.index, &self.crew);
        let reply = self.table.build_step(rt, self.alloc, index, 2, crew)?;
        Ok(matches!(reply, Reply::Built { complete: true, .. }))
    }

    // The hits of a page on a day.
    fn hits(&self, name: &str, day: i64) -> Result<i64, Fault> {
        let alloc = self.alloc;
        let key = key(alloc, name, day)?;
        let code = encode_row(alloc, &key, key.len())?;
        match self.table.get_at(alloc, &code)? {
            Reply::Row(Some(row)) => Ok(hits_in(&row)),
            _ => Ok(0),
        }
    }

    // The first records of the index with at least `least` hits: the hits, the page and the day.
    fn busiest(&self, least: i64) -> Result<RecordText, Fault> {
        let alloc = self.alloc;
        let mut bound = Row::new();
        bound.push(alloc, ValueRef::Int(least))?;
        let range = KeyRange {
            from: Some(encode_row(alloc, &bound, bound.len())?),
            to: None,
        };
        let text = RecordText::new(alloc);
        Ok(page(alloc, &self.table, &self.index, &range, PAGE, text)?)
    }

    // All rows.
    fn all<R: Threads + Wait + Sync>(&self, rt: &R) -> Result<RowList, Fault> {
        let (alloc, crew) = (self.alloc, &self.crew);
        let context = Context { rt, alloc, crew };
        let list = RowList::new(alloc);
        Ok(scan(&context, &self.table, &self.rows, None, None, list)?)
    }
}

// Counts the events, builds the index meanwhile, and prints what is asked. The service is borrowed: the prover has less to do where a function that can end
// early has few values to drop.
fn count_and_print<R: Print + AllocGlobal + Threads + Wait + Sync>(
    rt: &R,
    service: &mut Service,
) -> Result<()> {
    service.count(rt, FIRST)?;
    service.create_index()?;
    for events in [SECOND, THIRD] {
        println!(rt; "index complete: {}", service.build_more(rt)?)?;
        service.count(rt, events)?;
    }
    println!(rt; "index complete: {}", service.build_more(rt)?)?;
    println!(rt; "hits of home on day 1: {}", service.hits("home", 1)?)?;
    let text = service.busiest(2)?;
    print!(rt; "{}", String::from_utf8_lossy(rt.alloc(), text.as_bytes())?)?;
    Ok(())
}

// Prints how many rows there are, and all their hits.
fn print_totals<R: Print + Threads + Wait + Sync>(rt: &R, service: &Service) -> Result<()> {
    let list = service.all(rt)?;
    let mut total: i64 = 0;
    for row in list.as_slice() {
        total = total.saturating_add(hits_in(row));
    }
    println!(rt; "{} rows, {total} hits", list.as_slice().len())?;
    Ok(())
}

fn serve<R: Print + AllocGlobal + Threads + Wait + Sync>(rt: &R) -> Result<()> {
    let mut service = Service::new(rt.alloc())?;
    count_and_print(rt, &mut service)?;
    print_totals(rt, &service)
}

fn main(rt: HostRuntime) -> Result<()> {
    serve(&rt)
}
