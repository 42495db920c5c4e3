//! Calls that the engine does not make, since a batch makes the packets of all indexes in one round. They are for callers in Rattle who make
//! the packet of one index, or its entries.
ghost use Rattle.std.specs.Prelude.{◌≡◌, ◌<◌, IfOk, length};
ghost use Rattle.bt_value.specs.Lists.{concatenation};
ghost use Rattle.bt_keycode.specs.Standing.{row_key};
ghost use Rattle.bt_form.specs.Flushes.{holds};
ghost use Rattle.bt_fanout.specs.Effects.{effects_within, row_effect};
ghost use Rattle.bt_fanout.specs.Entries.{IsWithin, entry_of};

use crate::cover::Cover;
use crate::definition::IndexDef;
use crate::effect::Effect;
use crate::effect_jobs::{EffectJob, effect_jobs, effects_of_job};
use crate::row_effects::{NamedKeys, effects_alone, named_keys};
use crate::selecting::entry_at;
use bt_gang::{Crew, Gate, Work, job_values, most_workers};
use bt_keycode::{Key, encode_row};
use bt_messages::{Entry, Packet};
use bt_node::Tree;
use bt_row::Row;
use std::alloc::{AllocError, Global};
use std::marker::Model;
use std::sync::Wait;
use std::thread::Threads;

/// The entry of a row as returned by [`entry_at`], under the code of the row's key columns.
pub fn entry(alloc: Global, def: &IndexDef, row: &Row) -> Result<Option<(Key, Entry)>, AllocError>
    requires { IsWithin def.now (length row.now) }
    ensures { IfOk result (λ entry. entry ≡ entry_of def.now (row_key def.now.keys row.now) row.now) }
{
    let key = encode_row(alloc, row, def.keys())?;
    entry_at(alloc, def, &key, row)
}

/// The effects at the keys of a job. A contract sees the list of them.
#[derive(Drop)]
struct EffectList {
    effects: Vec<Effect>,
}

impl Model for EffectList {
    ghost use Rattle.std.specs.Prelude.{List};
    ghost use Rattle.bt_fanout.specs.declared.effect.Effect.{Effect as effect};

    ghost Value = { List effect };

    ghost view = { λ l. l.effects.items };
}

/// Works out the effects of a packet.
#[derive(Drop)]
struct JobEffects<'a> {
    packet: &'a Packet<Row>,
}

impl<'a> Work for JobEffects<'a> {
    type Job = EffectJob<'a>;

    type Done = EffectList;

    type Fault = AllocError;

    ghost use Rattle.std.specs.Prelude.{◌≡◌, MatchResult, ⊤};
    ghost use Rattle.std.proofs.Common.{sym, ◌∙◌};
    ghost use Rattle.bt_fanout.specs.inside.EffectJobs.{IsWhole, effects_there};

    ghost accepts = { λ _ job. IsWhole job };

    ghost allows = { λ work job answer. MatchResult answer (λ effects. effects ≡ effects_there work.packet.now job) (λ _. ⊤) };

    fn run(&self, alloc: Global, job: EffectJob<'a>) -> Result<EffectList, AllocError> {
        let effects = effects_of_job(alloc, self.packet, job)?;
        Ok(EffectList { effects })
    }

    ghost one_value = { λ _ _ _ _ e f. e ∙ sym f };
}

// The effects of all jobs, one list after the other.
fn all_effects(alloc: Global, lists: Vec<EffectList>) -> Result<Vec<Effect>, AllocError>
    ensures { IfOk result (λ effects. effects.items ≡ concatenation lists.items) }
{
    let mut all = Vec::new(alloc);
    for list in lists {
        let EffectList { mut effects } = list;
        all.append(&mut effects)?;
    }
    Ok(all)
}

/// The same effects as those of [`effects_alone`], worked out by a crew.
///
/// The jobs are the portions of the tree at the crew's depth that own a key, each with the keys that it owns. There is at most one worker for each job, and at
/// most one for every four grains of messages. With one worker, no thread starts. An `Err` is a failed allocation; every worker has ended by then. The tree is only
/// read.
pub fn effects<G: Gate + Sync, T: Threads + Wait + Sync>(
    rt: &T,
    alloc: Global,
    tree: &Tree<Row>,
    packet: &Packet<Row>,
    cover: &Cover,
    crew: &Crew<G>,
) -> Result<Vec<Effect>, AllocError>
    ensures { IfOk result (λ effects. effects.items ≡ effects_within cover.now packet.now (holds row_effect tree.now.1)) }
{
    let crew = crew.with_at_most(most_workers(crew, packet.len()));
    if crew.workers == 1 {
        return effects_alone(alloc, tree, packet, cover);
    }
    let NamedKeys { keys, others } = named_keys(alloc, packet, cover)?;
    let jobs = effect_jobs(alloc, tree, keys.as_slice(), others.as_slice(), 0, crew.cut)?;
    let lists = job_values(rt, alloc, &JobEffects { packet }, jobs, &crew)?;
    all_effects(alloc, lists)
}
