//! Reads a tree with a crew. Each portion of the tree is shown to its own visitor, and the visitors are joined in the order of the
//! portions.
ghost use Rattle.std.specs.Prelude.{◌≡◌, ◌<◌, IfOk, IfSome, fold, length, map};
ghost use Rattle.std.specs.Option.{option_copied};
ghost use Rattle.bt_message.specs.Effects.{effect_of};
ghost use Rattle.bt_message.specs.Weights.{weigh_of};
ghost use Rattle.bt_flush.specs.Drains.{IsDry, rebuilt};
ghost use Rattle.bt_form.specs.Fits.{HasShape};
ghost use Rattle.bt_form.specs.Flushes.{holds};
ghost use Rattle.bt_flush.specs.Laws.{HoldsTheSame};
ghost use Rattle.bt_form.specs.Messages.{between};
ghost use Rattle.bt_form.specs.Walks.{children_of};

use bt_gang::{Context, Crew, Gate, Work, job_values};
use bt_keycode::Key;
use bt_messages::Merge;
use bt_node::{Copies, ForkVisitor, Portion, Tree, Visitor, Walk, pack};
use std::alloc::{AllocError, Global};
use std::cmp::Ordering;
use std::marker::PhantomData;
use std::sync::{Mutex, Wait};
use std::thread::Threads;

/// Shows the rows of portions to visitors. A job is a portion with its visitor.
#[derive(Drop)]
struct PortionVisits<'a, V: Merge, S> {
    portions: PhantomData<&'a V>,
    // The workers share the work, and each has its own visitors. So a visitor only has to be `Send`, as if it were in a mutex.
    visitors: PhantomData<Mutex<S>>,
}

impl<'a, V: Merge + Send + Sync, S: Visitor<V> + Send> Work for PortionVisits<'a, V, S>
where
    V::Delta: Send + Sync,
{
    type Job = (Portion<'a, V>, S);

    type Done = S;

    type Fault = AllocError;

    ghost use Rattle.std.specs.Prelude.{◌≡◌, MatchResult, ⊤, fold};
    ghost use Rattle.std.proofs.Common.{sym, ◌∙◌};
    ghost use Rattle.bt_message.specs.Effects.{effect_of};
    ghost use Rattle.bt_form.specs.Portions.{rows_of};

    ghost accepts = { λ _ _. ⊤ };

    ghost allows = { λ _ job answer. MatchResult answer (λ visitor. visitor ≡ fold S.visited job.1 (rows_of (effect_of V.terms.merged) job.0)) (λ _. ⊤) };

    fn run(&self, alloc: Global, job: (Portion<'a, V>, S)) -> Result<S, AllocError> {
        let (portion, mut visitor) = job;
        portion.visit(alloc, &mut visitor)?;
        Ok(visitor)
    }

    ghost one_value = { λ _ _ _ _ e f. e ∙ sym f };
}

// The portions, each with a fork of the visitor.
fn with_forks<'a, V: Merge, S: ForkVisitor<V>>(
    alloc: Global,
    portions: Vec<Portion<'a, V>>,
    visitor: &S,
) -> Result<Vec<(Portion<'a, V>, S)>, AllocError>
    ensures { IfOk result (λ jobs. jobs.items ≡ map (λ p. (p, S.forked visitor.now)) portions.entry.items) }
{
    let mut jobs = Vec::with_capacity(alloc, portions.len())?;
    for portion in portions {
        jobs.push_reserved((portion, visitor.fork(alloc)));
    }
    Ok(jobs)
}

// The visitor with each fork joined to it, from the first to the last.
fn with_all<V: Merge, S: ForkVisitor<V>>(
    alloc: Global,
    visitor: S,
    forks: Vec<S>,
) -> Result<S, AllocError>
    ensures { IfOk result (λ after. after ≡ fold S.joined visitor forks.items) }
{
    let mut all = visitor;
    for fork in forks {
        all.join(alloc, fork)?;
    }
    Ok(all)
}

// Shows the rows to the visitor on the caller's thread.
fn read_alone<V: Merge, S: Visitor<V>>(
    alloc: Global,
    tree: &Tree<V>,
    from: Option<&Key>,
    to: Option<&Key>,
    visitor: S,
) -> Result<S, AllocError>
    ensures { IfOk result (λ after. after ≡ fold S.visited visitor (between (option_copied from.entry) (option_copied to.entry) (holds (effect_of V.terms.merged) tree.now.1))) }
{
    let mut visitor = visitor;
    tree.walk().visit(alloc, from, to, &mut visitor)?;
    Ok(visitor)
}

// The only child of an inner node that the rows between two bounds can be in, counted from 0, or `None` if there are several.
fn only_child<V: Merge>(node: &Walk<'_, V>, from: Option<&Key>, to: Option<&Key>) -> Option<usize>
    ensures { IfSome result (λ place. place < length (children_of node.now)) }
{
    let last = node.child_count().checked_sub(1)?;
    let mut place = 0;
    if let Some(from) = from {
        let mut high = last;
        'halving: while place < high {
            let middle = high - (high - place) / 2;
            if node.pivot(middle).compare(from) == Ordering::Greater {
                high = middle - 1;
            } else {
                place = middle;
            }
        }
    }
    if place == last {
        return Some(place);
    }
    match to {
        Some(to) if node.pivot(place + 1).compare(to) != Ordering::Less => Some(place),
        _ => None,
    }
}

// Whether the rows between two bounds are in one portion of a tree at a depth. It decides who shows them, and not which they are.
fn is_one_portion<V: Merge>(
    tree: &Tree<V>,
    depth: usize,
    from: Option<&Key>,
    to: Option<&Key>,
) -> bool {
    let mut node = tree.walk();
    for _ in 0..depth {
        if node.is_leaf() {
            return true;
        }
        let Some(place) = only_child(&node, from, to) else {
            return false;
        };
        node = node.child(place);
    }
    true
}

/// Shows a visitor the rows with a key at or past `from` and before `to`, in rising order, when all messages have had their effect.
/// Returns the visitor. An absent bound doesn't limit.
///
/// The jobs are the portions of the tree at the crew's depth, with any number of rows. Each is shown to a fork of the visitor. The
/// caller makes the forks before the first job and joins them after the last. There is at most one worker for each portion. If the
/// crew has one worker, or the range lies in one portion, no thread starts and no fork is made: the caller shows the rows to the
/// visitor. An `Err` comes from a visitor or from a failed allocation. By then every worker has ended, and the visitor is
/// dropped. The tree is only read.
pub fn read<
    V: Merge + Send + Sync,
    S: ForkVisitor<V> + Send,
    G: Gate + Sync,
    T: Threads + Wait + Sync,
>(
    context: &Context<'_, T, Crew<G>>,
    tree: &Tree<V>,
    from: Option<&Key>,
    to: Option<&Key>,
    visitor: S,
) -> Result<S, AllocError>
where
    V::Delta: Send + Sync,
    ensures { IfOk result (λ after. after ≡ fold S.visited visitor (between (option_copied from.entry) (option_copied to.entry) (holds (effect_of V.terms.merged) tree.now.1))) }
{
    let Context { rt, alloc, crew } = *context;
    if crew.workers == 1 || is_one_portion(tree, crew.cut, from, to) {
        return read_alone(alloc, tree, from, to, visitor);
    }
    let portions = tree.walk().portions(alloc, crew.cut, from, to)?;
    let jobs = with_forks(alloc, portions, &visitor)?;
    let work = PortionVisits {
        portions: PhantomData,
        visitors: PhantomData,
    };
    let forks = job_values(rt, alloc, &work, jobs, crew)?;
    with_all(alloc, visitor, forks)
}

/// A new tree, packed by the caller from copies of the rows, which a crew makes as in [`read`]. The old tree stays as it is, also
/// after an `Err`.
pub fn rebuild<V: Merge + Send + Sync, G: Gate + Sync, T: Threads + Wait + Sync>(
    rt: &T,
    alloc: Global,
    tree: &Tree<V>,
    crew: &Crew<G>,
) -> Result<Tree<V>, AllocError>
where
    V::Delta: Send + Sync,
    ensures tree { IfOk result (λ new. new ≡ (tree.now.0, rebuilt (effect_of V.terms.merged) tree.now.0 tree.now.1)) }
    ensures fits { IfOk result (λ new. HasShape (weigh_of V.terms) new.0 new.1) }
    ensures rows { IfOk result (λ new. HoldsTheSame (effect_of V.terms.merged) tree.now.1 new.1) }
    ensures dry { IfOk result (λ new. IsDry new.1) }
{
    let _root = tree.walk();
    let none = Copies::new(alloc);
    let context = Context { rt, alloc, crew };
    let copies = read(&context, tree, None, None, none)?;
    let rows = copies.into_rows();
    Ok(pack(alloc, tree.shape(), rows)?)
}
