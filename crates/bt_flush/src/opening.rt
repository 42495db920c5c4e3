//! How messages enter an inner node. They stay there, or the node is opened and messages go down to its children.
ghost use Rattle.std.specs.Prelude.{◌≡◌, ◌+◌, ◌<◌, ◌≤◌, IfOk, get_or, length, map, replicate};
ghost use Rattle.bt_messages.specs.Bins.{LieBetween, each_with};
ghost use Rattle.bt_messages.specs.Parts.{parted, total};
ghost use Rattle.bt_messages.specs.Shares.{counts, share_of};
ghost use Rattle.bt_message.specs.Weights.{load, weigh_of};
ghost use Rattle.bt_form.specs.Marks.{flush_marks};
ghost use Rattle.bt_flush.specs.Steps.{IsStep};
ghost use Rattle.bt_form.specs.Trees.{pivots_of};

use crate::planning::{are_within, plan};
use arrayvec::ArrayVec;
use bt_form::{Children, LARGEST_FANOUT, Mode, Node, Shape, Siblings};
use bt_messages::{Bins, Measure, Merge, Share, Stream};
use std::alloc::{AllocError, Global};

/// An inner node whose messages go down.
#[derive(Drop)]
pub struct Opened<V: Merge> {
    /// Its children, each with its bin.
    pub children: Children<V>,
    /// The number of incoming messages for each child.
    pub shares: Vec<Share>,
    /// Whether the pending messages of each child go down to it.
    pub marks: ArrayVec<bool, LARGEST_FANOUT>,
}

/// The result of messages entering an inner node.
#[derive(Drop)]
pub enum Step<V: Merge> {
    /// The node has room for all messages, and none goes down. They are in its bins.
    Stays(Node<V>),
    /// Messages go down from the node. The incoming ones are still in the stream.
    Opens(Opened<V>),
}

// The load of each child: that of its bin plus that of its share of the incoming messages. No message is moved.
fn loads<V: Merge>(
    alloc: Global,
    measure: Measure,
    bins: &Bins<V>,
    stream: &Stream<V>,
    shares: &[Share],
) -> Result<Vec<u128>, AllocError>
    requires len { length shares.now ≡ length bins.now }
    requires weighed { shares.now ≡ map (share_of (weigh_of V.terms) measure) (parted (counts shares.now) stream.now) }
    ensures { IfOk result (λ loads. loads.items ≡ map (load (weigh_of V.terms) measure) (each_with (parted (counts shares.now) stream.now) bins.now)) }
{
    // Called for its contract: a stream has fewer than 2^63 messages, so the sums below fit in a `u128`.
    let _bound = stream.len();
    let mut loads = Vec::with_capacity(alloc, shares.len())?;
    for child in 0..shares.len() {
        loads.push_reserved(bins.load(child, measure) + shares[child].load(measure));
    }
    Ok(loads)
}

// The same mark for each of `count` children.
fn equal_marks(mark: bool, count: usize) -> ArrayVec<bool, LARGEST_FANOUT>
    requires { count ≤ LARGEST_FANOUT }
    ensures { result.items ≡ replicate count mark }
{
    let mut marks = ArrayVec::from([mark; LARGEST_FANOUT]);
    marks.truncate(count);
    marks
}

// Whether the plan flushes each child, given the loads.
fn planned_marks(loads: &[u128], capacity: u64) -> ArrayVec<bool, LARGEST_FANOUT>
    requires { length loads.now ≤ LARGEST_FANOUT }
    ensures { result.items ≡ flush_marks Mode.Absorb capacity loads.now }
{
    let mut marks = equal_marks(false, loads.len());
    for place in plan(loads, capacity) {
        marks[place as usize] = true;
    }
    marks
}

/// Takes the first messages of a stream into an inner node. If it has room for all, they move from the stream to its bins.
/// Otherwise the children to flush are marked: the fullest ones, until there is room for what is left, or all of them, by the mode.
/// After an `Err` messages may be lost.
pub fn open<V: Merge>(
    alloc: Global,
    shape: Shape,
    mode: Mode,
    children: Siblings<V>,
    bins: Bins<V>,
    stream: &mut Stream<V>,
    count: usize,
) -> Result<Step<V>, AllocError>
    requires enough { count ≤ length stream.old }
    requires divided { LieBetween (pivots_of children) bins }
    requires few { length children ≤ LARGEST_FANOUT }
    ensures { IfOk result (IsStep (weigh_of V.terms) mode shape children bins stream.old count stream.new) }
{
    let (measure, room) = (shape.measure(), shape.buffer() as u64);
    let shares = stream.shares(alloc, measure, count, children.pivots())?;
    let marks = match mode {
        Mode::Absorb => {
            let loads = loads(alloc, measure, &bins, stream, shares.as_slice())?;
            if children.len() <= shape.fanout() && are_within(loads.as_slice(), room) {
                let mut bins = bins;
                bins.add_shares(alloc, stream, shares.as_slice())?;
                return Ok(Step::Stays(Node::inner(children, bins)));
            }
            planned_marks(loads.as_slice(), room)
        }
        Mode::Drain => equal_marks(true, shares.len()),
    };
    Ok(Step::Opens(Opened {
        children: Children::with_pending(children, bins),
        shares,
        marks,
    }))
}
