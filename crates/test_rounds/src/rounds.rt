//! Batches, steps of building and drains by crews: two jobs are run at the same time, and packets from the grain on are divided into jobs.
use crate::gates::{Counting, Meeting};
use crate::tables::{
    EIGHT_MESSAGES, SIX_ROWS, apply, create_index, image_of_rows, primary, table_after,
    table_with_room_after,
};
use bt_gang::{Crew, Gate};
use bt_rowtype::Text;
use bt_table::{Alone, Reply};
use std::sync::atomic::{AtomicUsize, Ordering};
use std::test::Fail;

const AFTER_EIGHT: &str = "\
image primary height 2
inner 4 2
  + 8000000000000005 5,51
  + 8000000000000006 6,61
  leaf 2
    = 7fffffffffffffff -1,-10
    = 8000000000000000 0,0
  | 8000000000000001
  leaf 2
    = 8000000000000001 1,11
    = 8000000000000002 2,21
  | 8000000000000003
  leaf 2
    = 8000000000000003 3,31
    = 8000000000000004 4,41
  | 8000000000000005
  leaf 2
    = 8000000000000005 5,50
    = 8000000000000006 6,60
end
";

// A tree of three levels: its first child has three leaves, and its second child two.
const THREE_LEVELS: [&str; 4] = [
    "batch\nput 1,10\nput 2,20\nput 3,30\nput 4,40\nend\n",
    "batch\nput 5,50\nput 6,60\nput 1,11\nend\n",
    "batch\nput 7,70\nend\n",
    "batch\nput 8,80\nput 0,0\nput -1,-10\nput 4,44\nend\n",
];

const TWELVE_ROWS: &str =
    "batch\nput 1,10\nput 2,50\nput 3,20\nput 4,60\nput 5,11\nput 6,51\nput 7,12\nput 8,52\nput 9,13\nput 10,53\nput 11,14\nput 12,54\nend\n";

const A_ROW_TWICE: &str = "batch\nput 1,10\nput 2,20\nput 3,30\nput 2,21\nend\n";

// Each leaf of twelve new rows is a job. If a key comes twice, the tree is one job.
#[test]
fn leaves_of_the_first_batch(rt: HostRuntime) -> Result<(), Fail> {
    let alloc = rt.alloc();
    for (script, jobs) in [(TWELVE_ROWS, 6), (A_ROW_TWICE, 1)] {
        let mut table = table_after(alloc, &[])?;
        let gate = Counting {
            entered: AtomicUsize::new(0),
        };
        let crew = Crew::new(2, 1, 1, &gate as &(dyn Gate + Sync))?;
        drop(apply(&rt, alloc, &mut table, script, &crew)?);
        let alone = table_after(alloc, &[script])?;
        assert_eq!(&rt;
            image_of_rows(alloc, &table)?.as_slice(),
            image_of_rows(alloc, &alone)?.as_slice()
        );
        assert_eq!(&rt; gate.entered.load(Ordering::SeqCst), jobs);
    }
    Ok(())
}

#[test]
fn two_jobs_of_a_batch(rt: HostRuntime) -> Result<(), Fail> {
    let alloc = rt.alloc();
    let mut table = table_after(alloc, &[SIX_ROWS])?;
    let gate = Meeting::new();
    let crew = Crew::new(2, 1, 1, &gate as &(dyn Gate + Sync))?;
    let reply = apply(&rt, alloc, &mut table, EIGHT_MESSAGES, &crew)?;
    assert!(&rt; matches!(reply, Reply::Batch { count: 8, .. }));
    assert_eq!(&rt;
        image_of_rows(alloc, &table)?.as_slice(),
        AFTER_EIGHT.as_bytes()
    );
    assert_eq!(&rt; gate.entered(), Some(2));
    Ok(())
}

#[test]
fn two_jobs_of_the_look_ups_of_a_batch(rt: HostRuntime) -> Result<(), Fail> {
    let alloc = rt.alloc();
    // Each root has room for the messages of the batch, so no flush is a job.
    let mut table = table_with_room_after(alloc, 100, &[SIX_ROWS])?;
    drop(create_index(alloc, &mut table)?);
    let name = Text::new(alloc, "q")?;
    drop(table.build_step(&(), alloc, &name, 7, &Alone)?);
    let gate = Meeting::new();
    let crew = Crew::new(2, 1, 1, &gate as &(dyn Gate + Sync))?;
    let reply = apply(&rt, alloc, &mut table, EIGHT_MESSAGES, &crew)?;
    assert!(&rt; matches!(reply, Reply::Batch { count: 8, .. }));
    assert_eq!(&rt; gate.entered(), Some(2));
    Ok(())
}

#[test]
fn jobs_from_the_grain_on(rt: HostRuntime) -> Result<(), Fail> {
    let alloc = rt.alloc();
    for (grain, jobs) in [(9, 0), (8, 2)] {
        let mut table = table_after(alloc, &[SIX_ROWS])?;
        let gate = Counting {
            entered: AtomicUsize::new(0),
        };
        let crew = Crew::new(2, 1, grain, &gate as &(dyn Gate + Sync))?;
        drop(apply(&rt, alloc, &mut table, EIGHT_MESSAGES, &crew)?);
        assert_eq!(&rt;
            image_of_rows(alloc, &table)?.as_slice(),
            AFTER_EIGHT.as_bytes()
        );
        assert_eq!(&rt; gate.entered.load(Ordering::SeqCst), jobs);
    }
    Ok(())
}

#[test]
fn jobs_of_a_drain(rt: HostRuntime) -> Result<(), Fail> {
    let alloc = rt.alloc();
    for (cut, jobs) in [(1, 2), (2, 5)] {
        let mut table = table_after(alloc, &THREE_LEVELS)?;
        let gate = Counting {
            entered: AtomicUsize::new(0),
        };
        let crew = Crew::new(2, cut, 1, &gate as &(dyn Gate + Sync))?;
        drop(table.drain(&rt, alloc, &primary(alloc)?, &crew)?);
        assert_eq!(&rt; gate.entered.load(Ordering::SeqCst), jobs);
    }
    Ok(())
}

#[test]
fn two_jobs_of_a_drain(rt: HostRuntime) -> Result<(), Fail> {
    let alloc = rt.alloc();
    let mut table = table_after(alloc, &[SIX_ROWS, EIGHT_MESSAGES])?;
    let gate = Meeting::new();
    let crew = Crew::new(2, 1, 1, &gate as &(dyn Gate + Sync))?;
    drop(table.drain(&rt, alloc, &primary(alloc)?, &crew)?);
    assert_eq!(&rt; gate.entered(), Some(4));
    Ok(())
}

#[test]
fn two_jobs_of_a_step_of_building(rt: HostRuntime) -> Result<(), Fail> {
    let alloc = rt.alloc();
    let mut table = table_after(alloc, &[TWELVE_ROWS])?;
    drop(create_index(alloc, &mut table)?);
    let name = Text::new(alloc, "q")?;
    drop(table.build_step(&(), alloc, &name, 4, &Alone)?);
    let gate = Meeting::new();
    let crew = Crew::new(2, 1, 1, &gate as &(dyn Gate + Sync))?;
    let reply = table.build_step(&rt, alloc, &name, 8, &crew)?;
    assert!(&rt;
        matches!(
            reply,
            Reply::Built {
                read: 8,
                complete: false,
                ..
            }
        )
    );
    assert_eq!(&rt; gate.entered(), Some(2));
    Ok(())
}
