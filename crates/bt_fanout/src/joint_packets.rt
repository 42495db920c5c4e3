//! The packets of all indexes for a batch, which a crew makes in two rounds.
ghost use Rattle.std.specs.Prelude.{◌≡◌, ◌<◌, ◌≤◌, ◌-◌, ◌^◌, [], IfOk, drop, fold, length, map, replicate, take};
ghost use Rattle.std.specs.FinMap.{find};
ghost use Rattle.std.specs.List.{All, flat_map};
ghost use Rattle.bt_keycode.specs.Keys.{key_cmp};
ghost use Rattle.bt_message.specs.Messages.{Messages};
ghost use Rattle.bt_form.specs.Flushes.{holds};
ghost use Rattle.bt_form.specs.Parts.{AreRising};
ghost use Rattle.bt_fanout.specs.Effects.{RowMessage, effects_within, row_effect};
ghost use Rattle.bt_fanout.specs.Targets.{SuitAll, packet_of};
ghost use Rattle.bt_fanout.specs.inside.EffectJobs.{IsWhole, message_total};
ghost use Rattle.bt_fanout.specs.inside.Groups.{effects_in};
ghost use Rattle.bt_fanout.specs.inside.PacketGroups.{effects_in_group, with_next};

use crate::cover::Cover;
use crate::definition::IndexDef;
use crate::effect::Effect;
use crate::effect_jobs::{EffectJob, effect_jobs, effects_of_job, message_count};
use crate::entry_packet::index_packet;
use crate::row_effects::{NamedKeys, effects_alone, named_keys};
use bt_batch::merged_groups;
use bt_gang::{Context, Crew, Gate, Work, job_values, most_workers};
use bt_keycode::Key;
use bt_messages::{Entry, Packet};
use bt_node::Tree;
use bt_row::Row;
use std::alloc::{AllocError, Global};
use std::marker::Model;
use std::sync::Wait;
use std::thread::Threads;

/// An index that a batch is sent to.
#[derive(Clone, Copy, Drop)]
pub struct IndexTarget<'a> {
    pub def: &'a IndexDef,
    /// The keys whose rows it has.
    pub cover: &'a Cover,
}

// The packets of indexes for effects, made by the caller.
fn packets_of_effects(
    alloc: Global,
    indexes: &[IndexTarget<'_>],
    effects: &[Effect],
) -> Result<Vec<Packet<Entry>>, AllocError>
    requires { SuitAll indexes.now effects.now }
    ensures { IfOk result (λ packets. packets.items ≡ map (packet_of effects.now) indexes.now) }
{
    let mut packets = Vec::new(alloc);
    for index in indexes {
        packets.reserve(1)?;
        let packet = index_packet(alloc, index.def, index.cover, effects)?;
        packets.push_reserved(packet);
    }
    Ok(packets)
}

/// The jobs for consecutive keys, which a worker does one after the other.
#[derive(Drop)]
pub(crate) struct JobGroup<'a> {
    pub(crate) jobs: Vec<EffectJob<'a>>,
}

// The items between two places.
fn between<T>(items: &[T], start: usize, end: usize) -> &[T]
    requires ordered { start ≤ end }
    requires within { end ≤ length items.now }
    ensures { result.now ≡ take (end - start) (drop start items.now) }
{
    &items[start..end]
}

// The jobs for the keys that a packet names, in this many groups of about as many keys. The jobs of a group are the portions of the tree at a depth that own
// a key of the group.
fn job_groups<'a>(
    alloc: Global,
    tree: &'a Tree<Row>,
    keys: &'a [&'a Key],
    others: &'a [usize],
    depth: usize,
    count: usize,
) -> Result<Vec<JobGroup<'a>>, AllocError>
    requires some { 0 < count }
    requires rising { AreRising (map (λ k. k.now) keys.now) }
    requires same { length others.now ≡ length keys.now }
    requires few { message_total others.now < 2 ^ 63 }
    ensures whole { IfOk result (λ groups. All (λ group. All IsWhole group.jobs.items) groups.items) }
    ensures effects { IfOk result (λ groups. (messages : Messages RowMessage) → flat_map (effects_in_group messages) groups.items
        ≡ effects_in (map (λ k. k.now) keys.now) others.now (map (λ k. find key_cmp k.now (holds row_effect tree.now.1)) keys.now) messages) }
{
    let share = keys.len() / count;
    let mut groups = Vec::new(alloc);
    let mut start: usize = 0;
    let mut skipped = 0;
    for _ in 1..count {
        let end = start.saturating_add(share).min(keys.len());
        let own = between(others, start, end);
        let jobs = effect_jobs(alloc, tree, between(keys, start, end), own, skipped, depth)?;
        groups.push(JobGroup { jobs })?;
        skipped += message_count(own);
        start = end;
    }
    let last = between(keys, start, keys.len());
    let own = between(others, start, keys.len());
    let jobs = effect_jobs(alloc, tree, last, own, skipped, depth)?;
    groups.push(JobGroup { jobs })?;
    Ok(groups)
}

// The effects of a packet at the keys of a group of jobs.
fn effects_of_group(
    alloc: Global,
    packet: &Packet<Row>,
    group: JobGroup<'_>,
) -> Result<Vec<Effect>, AllocError>
    requires { All IsWhole group.jobs.items }
    ensures { IfOk result (λ effects. effects.items ≡ effects_in_group packet.now group.entry) }
{
    let mut all = Vec::new(alloc);
    for job in group.jobs {
        let mut effects = effects_of_job(alloc, packet, job)?;
        all.append(&mut effects)?;
    }
    Ok(all)
}

/// The packets of the indexes for some of the effects of a batch. A contract sees the list of them.
#[derive(Drop)]
struct PacketList {
    packets: Vec<Packet<Entry>>,
}

impl Model for PacketList {
    ghost use Rattle.std.specs.Prelude.{List};
    ghost use Rattle.bt_message.specs.Messages.{Messages};
    ghost use Rattle.bt_fanout.specs.Effects.{EntryMessage};

    ghost Value = { List (Messages EntryMessage) };

    ghost view = { λ l. l.packets.items };
}

/// Makes the packets of indexes for a packet of rows.
#[derive(Drop)]
struct JobPackets<'a> {
    packet: &'a Packet<Row>,
    indexes: &'a [IndexTarget<'a>],
}

impl<'a> Work for JobPackets<'a> {
    type Job = JobGroup<'a>;

    type Done = PacketList;

    type Fault = AllocError;

    ghost use Rattle.std.specs.Prelude.{◌≡◌, MatchResult, map, ⊤};
    ghost use Rattle.std.proofs.Common.{sym, ◌∙◌};
    ghost use Rattle.bt_fanout.specs.Targets.{SuitAll, packet_of};
    ghost use Rattle.std.specs.List.{All};
    ghost use Rattle.bt_fanout.specs.inside.EffectJobs.{IsWhole};
    ghost use Rattle.bt_fanout.specs.inside.PacketGroups.{effects_in_group};

    ghost accepts = { λ work group. All IsWhole group.jobs.items × SuitAll work.indexes.now (effects_in_group work.packet.now group) };

    ghost allows = { λ work group answer. MatchResult answer (λ packets. packets ≡ map (packet_of (effects_in_group work.packet.now group)) work.indexes.now) (λ _. ⊤) };

    fn run(&self, alloc: Global, group: JobGroup<'a>) -> Result<PacketList, AllocError> {
        let effects = effects_of_group(alloc, self.packet, group)?;
        let packets = packets_of_effects(alloc, self.indexes, effects.as_slice())?;
        Ok(PacketList { packets })
    }

    ghost one_value = { λ _ _ _ _ e f. e ∙ sym f };
}

// This many groups without packets.
fn empty_groups(alloc: Global, count: usize) -> Result<Vec<Vec<Packet<Entry>>>, AllocError>
    ensures { IfOk result (λ groups. map (λ group. group.items) groups.items ≡ replicate count []) }
{
    let mut groups = Vec::with_capacity(alloc, count)?;
    for _ in 0..count {
        groups.push(Vec::new(alloc))?;
    }
    Ok(groups)
}

// Groups of packets with one more packet each.
fn with_packets(
    alloc: Global,
    groups: Vec<Vec<Packet<Entry>>>,
    packets: Vec<Packet<Entry>>,
) -> Result<Vec<Vec<Packet<Entry>>>, AllocError>
    requires { length packets.items ≡ length groups.items }
    ensures { IfOk result (λ more. map (λ group. group.items) more.items ≡ with_next (map (λ group. group.items) groups.items) packets.items) }
{
    let mut more = Vec::new(alloc);
    let mut packets = packets.into_iter();
    for group in groups {
        let mut group = group;
        let Some(packet) = packets.next() else {
            unreachable!()
        };
        group.push(packet)?;
        more.push(group)?;
    }
    Ok(more)
}

// For each index the packets that the jobs made of it, in the order of the jobs.
fn packet_groups(
    alloc: Global,
    count: usize,
    lists: Vec<PacketList>,
) -> Result<Vec<Vec<Packet<Entry>>>, AllocError>
    requires { All (λ list. length list ≡ count) lists.items }
    ensures { IfOk result (λ groups. map (λ group. group.items) groups.items ≡ fold with_next (replicate count []) lists.items) }
{
    let mut groups = empty_groups(alloc, count)?;
    for list in lists {
        let PacketList { packets } = list;
        groups = with_packets(alloc, groups, packets)?;
    }
    Ok(groups)
}

/// The packets of indexes for a packet of rows, which the tree does not have yet. Keys outside of the cover are not looked up.
///
/// The keys are divided among the workers, as many consecutive ones for each. A worker looks its keys up in the portions of the tree at the crew's cut that own
/// them, works out how the messages change the rows, and makes of that a packet for each index. A second round merges the packets. There is at most one worker
/// for each job, and at most one for every four grains of messages. With one worker, or without an index, no thread starts. An `Err` is a failed allocation;
/// every worker has ended by then. The tree is only read.
pub fn index_packets<G: Gate + Sync, T: Threads + Wait + Sync>(
    context: &Context<'_, T, Crew<G>>,
    tree: &Tree<Row>,
    packet: &Packet<Row>,
    cover: &Cover,
    indexes: &[IndexTarget<'_>],
) -> Result<Vec<Packet<Entry>>, AllocError>
    requires { SuitAll indexes.now (effects_within cover.now packet.now (holds row_effect tree.now.1)) }
    ensures { IfOk result (λ packets. packets.items ≡ map (packet_of (effects_within cover.now packet.now (holds row_effect tree.now.1))) indexes.now) }
{
    let Context { rt, alloc, crew } = *context;
    let crew = crew.with_at_most(most_workers(crew, packet.len()));
    if crew.workers == 1 || indexes.is_empty() {
        return index_packets_alone(alloc, tree, packet, cover, indexes);
    }
    let NamedKeys { keys, others } = named_keys(alloc, packet, cover)?;
    let groups = job_groups(
        alloc,
        tree,
        keys.as_slice(),
        others.as_slice(),
        crew.cut,
        crew.workers,
    )?;
    let lists = job_values(rt, alloc, &JobPackets { packet, indexes }, groups, &crew)?;
    let packets = packet_groups(alloc, indexes.len(), lists)?;
    merged_groups(rt, alloc, packets, &crew)
}

/// The same packets, made by the caller without workers.
pub fn index_packets_alone(
    alloc: Global,
    tree: &Tree<Row>,
    packet: &Packet<Row>,
    cover: &Cover,
    indexes: &[IndexTarget<'_>],
) -> Result<Vec<Packet<Entry>>, AllocError>
    requires { SuitAll indexes.now (effects_within cover.now packet.now (holds row_effect tree.now.1)) }
    ensures { IfOk result (λ packets. packets.items ≡ map (packet_of (effects_within cover.now packet.now (holds row_effect tree.now.1))) indexes.now) }
{
    let effects = effects_alone(alloc, tree, packet, cover)?;
    packets_of_effects(alloc, indexes, effects.as_slice())
}
