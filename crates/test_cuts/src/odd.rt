//! Pieces that do not fill a tree.
ghost use Rattle.std.specs.Prelude.{◌≡◌, ◌≤◌, IfOk, IfSome, IsTrue, None, map};
ghost use Rattle.std.specs.FinMap.{find};
ghost use Rattle.bt_gather.specs.Views.{pieces_of};
ghost use Rattle.bt_message.specs.Meanings.{meaning_of};
ghost use Rattle.bt_plan.specs.Pieces.{node_place_cmp};
ghost use Rattle.bt_plan.specs.Views.{node_place};
ghost use Rattle.test_cuts.specs.Turns.{AreInOrder, AreOdd, AreRun};

use arrayvec::ArrayVec;
use bt_gang::DEEPEST_CUT;
use bt_gather::{FillError, Misfit, fill, run_job};
use bt_messages::{Merge, Packet};
use bt_node::{Shape, Siblings, Tree};
use bt_plan::{Job, Mode, Place, cut};
use std::alloc::{AllocError, Global};

/// A piece at each of these children of the root of a tree: first the result of the job there, if there is one, and then leaves without rows.
#[derive(Clone, Copy)]
pub(crate) struct Odd {
    pub tree: u16,
    pub children: &'static [u16],
}

// The place of a child of a root.
fn child_of_root(tree: u16, number: u16) -> Place {
    let mut path = ArrayVec::new();
    path.push(number);
    Place { tree, path }
}

// One leaf without rows.
fn one_leaf<V: Merge>(alloc: Global, shape: Shape) -> Result<Siblings<V>, AllocError> {
    let (_shape, leaf) = Tree::empty(alloc, shape).apart();
    let nodes = vec![in alloc; leaf]?;
    Ok(Siblings::new(nodes, Vec::new(alloc)))
}

// Whether there is no piece at a place.
fn is_free<V: Merge>(pieces: &[(Place, Siblings<V>)], place: &Place) -> bool
    ensures { IsTrue result → find node_place_cmp (node_place place.now) (pieces_of pieces.now) ≡ None }
{
    for piece in pieces {
        if place.compare(&piece.0).is_eq() {
            return false;
        }
    }
    true
}

// The result of the job at a place, and the places of the jobs that are not run.
fn run_at<V: Merge>(
    alloc: Global,
    shape: Shape,
    jobs: Vec<Job<V>>,
    place: &Place,
) -> Result<(Vec<(Place, Siblings<V>)>, Vec<Place>), AllocError>
    requires { AreInOrder jobs.items }
    ensures { IfOk result (λ run. AreRun (meaning_of V.terms) shape jobs.items (pieces_of run.0.items) (map node_place run.1.items)) }
{
    let mut pieces = Vec::new(alloc);
    let mut left = Vec::new(alloc);
    for job in jobs {
        if job.place.compare(place).is_eq() && is_free(pieces.as_slice(), &job.place) {
            pieces.push(run_job(alloc, shape, job)?)?;
        } else {
            let place = job.place.copy();
            drop(job);
            left.push(place)?;
        }
    }
    Ok((pieces, left))
}

// The odd pieces, or none if one of them is at the place of a job that is not run.
fn odd_pieces<V: Merge>(
    alloc: Global,
    shape: Shape,
    jobs: Vec<Job<V>>,
    odd: Odd,
) -> Result<Option<Vec<(Place, Siblings<V>)>>, AllocError>
    requires { AreInOrder jobs.items }
    ensures { IfOk result (λ made. IfSome made (λ pieces. AreOdd (meaning_of V.terms) shape jobs.items (pieces_of pieces.items))) }
{
    let [first, ..] = odd.children else {
        return Ok(None);
    };
    let (mut pieces, left) = run_at(alloc, shape, jobs, &child_of_root(odd.tree, *first))?;
    for number in &odd.children[pieces.len().min(1)..] {
        let leaf = one_leaf(alloc, shape)?;
        pieces.push((child_of_root(odd.tree, *number), leaf))?;
    }
    for place in &left {
        if !is_free(pieces.as_slice(), place) {
            return Ok(None);
        }
    }
    Ok(Some(pieces))
}

/// The misfit that `fill` reports for odd pieces, and the pieces that it returns; or none if there are no such pieces, or if it accepts them.
pub(crate) fn misfit_of<V: Merge>(
    alloc: Global,
    tree: Tree<V>,
    packet: Packet<V>,
    depth: usize,
    odd: Odd,
) -> Result<Option<(Misfit, Vec<(Place, Siblings<V>)>)>, AllocError>
    requires { (1 ≤ depth) × (depth ≤ DEEPEST_CUT) }
{
    let shape = tree.shape();
    let (holed, jobs) = cut(alloc, 0, tree, packet, depth, Mode::Absorb)?;
    let Some(pieces) = odd_pieces(alloc, shape, jobs, odd)? else {
        drop(holed);
        return Ok(None);
    };
    match fill(alloc, holed, pieces) {
        Ok(siblings) => {
            drop(siblings);
            Ok(None)
        }
        Err(FillError::OutOfMemory) => Err(AllocError),
        Err(
            FillError::Misfit {
                misfit,
                holed,
                pieces,
            },
        ) => {
            drop(holed);
            Ok(Some((misfit, pieces)))
        }
    }
}
