//! The places of holes, and the pieces at these places.
ghost use Rattle.std.specs.Prelude.{◌≡◌, ◌<◌, ◌++◌, [], IfOk, IfSome, MatchOption, None, OnOk, Some, false, length, map, option_map, replicate, slice_get, true};
ghost use Rattle.std.specs.Option.{unwrap_or};
ghost use Rattle.bt_gather.specs.Misfits.{AreRisingPlaces, first_misfit, is_place_among};
ghost use Rattle.bt_gather.specs.Views.{misfit_of, pieces_of};
ghost use Rattle.bt_gather.specs.inside.Marks.{first_unmarked};
ghost use Rattle.bt_gather.specs.inside.Slots.{AreFull};
ghost use Rattle.bt_gather.specs.inside.Views.{node_places};
ghost use Rattle.bt_plan.specs.Pieces.{holes, piece_at};
ghost use Rattle.bt_plan.specs.Views.{node_place};

use crate::misfit::Misfit;
use bt_messages::Merge;
use bt_node::Siblings;
use bt_plan::{HoledNode, HoledParts, Place};
use std::alloc::{AllocError, Global};

// Adds the places of the holes of a node and of those below it, from left to right.
fn add_places<V: Merge>(node: &HoledNode<V>, places: &mut Vec<Place>) -> Result<(), AllocError>
    ensures { OnOk result (node_places places.new.items ≡ node_places places.old.items ++ holes node.now) }
{
    match node.parts() {
        HoledParts::Whole(_) => Ok(()),
        HoledParts::Hole(place) => {
            places.push(place.copy())?;
            Ok(())
        }
        HoledParts::Opened { children, .. } => {
            for child in children {
                add_places(child, places)?;
            }
            Ok(())
        }
    }
}

/// The places of the holes, from left to right.
pub(crate) fn hole_places<V: Merge>(
    alloc: Global,
    root: &HoledNode<V>,
) -> Result<Vec<Place>, AllocError>
    ensures { IfOk result (λ places. node_places places.items ≡ holes root.now) }
{
    let mut places = Vec::new(alloc);
    add_places(root, &mut places)?;
    Ok(places)
}

// Whether the hole with this number is at a place.
fn stands_at(places: &[Place], hole: usize, place: &Place) -> bool
    ensures bound { result ≡ true → hole < length places.now }
    ensures stands { result ≡ true → slice_get (node_places places.now) hole ≡ Some (node_place place.now) }
{
    if hole < places.len() {
        return places[hole].compare(place).is_eq();
    }
    false
}

// The number of the hole at a place, if there is one. Tries the guess first, and otherwise uses binary search.
fn hole_at(places: &[Place], place: &Place, guess: usize) -> Option<usize>
    requires { AreRisingPlaces (node_places places.now) }
    ensures bound { IfSome result (λ hole. hole < length places.now) }
    ensures stands { MatchOption result (is_place_among (node_place place.now) (node_places places.now) ≡ false) (λ hole. slice_get (node_places places.now) hole ≡ Some (node_place place.now)) }
{
    if stands_at(places, guess, place) {
        return Some(guess);
    }
    places.binary_search_by(|hole| hole.compare(place)).ok()
}

// A mark for each hole, all of them unset.
fn no_marks(alloc: Global, count: usize) -> Result<Vec<bool>, AllocError>
    ensures { IfOk result (λ marks. marks.items ≡ replicate count false) }
{
    let mut marks = Vec::with_capacity(alloc, count)?;
    for _ in 0..count {
        marks.push(false)?;
    }
    Ok(marks)
}

// The first hole without a mark.
fn first_unmarked(places: &[Place], marks: &[bool]) -> Option<Misfit>
    requires { length marks.now ≡ length places.now }
    ensures { option_map misfit_of result ≡ first_unmarked (node_places places.now) marks.now }
{
    for (hole, place) in places.iter().enumerate() {
        if !marks[hole] {
            return Some(Misfit::Missing(place.copy()));
        }
    }
    None
}

/// The first piece that is at no hole, or at a hole that already has a piece. If there is none, the first hole without a piece.
/// `None` if the pieces fit.
pub(crate) fn first_misfit<V: Merge>(
    alloc: Global,
    places: &[Place],
    pieces: &[(Place, Siblings<V>)],
) -> Result<Option<Misfit>, AllocError>
    requires { AreRisingPlaces (node_places places.now) }
    ensures { IfOk result (λ found. option_map misfit_of found ≡ first_misfit (node_places places.now) [] (pieces_of pieces.now)) }
{
    let mut marks = no_marks(alloc, places.len())?;
    let mut next = 0;
    for piece in pieces {
        let Some(hole) = hole_at(places, &piece.0, next) else {
            return Ok(Some(Misfit::Stranger(piece.0.copy())));
        };
        if marks[hole] {
            return Ok(Some(Misfit::Double(piece.0.copy())));
        }
        marks[hole] = true;
        next = hole + 1;
    }
    Ok(first_unmarked(places, marks.as_slice()))
}

// An empty slot for each hole.
fn empty_slots<V: Merge>(
    alloc: Global,
    count: usize,
) -> Result<Vec<Option<Siblings<V>>>, AllocError>
    ensures { IfOk result (λ slots. slots.items ≡ replicate count None) }
{
    let mut slots = Vec::with_capacity(alloc, count)?;
    for _ in 0..count {
        slots.push(None)?;
    }
    Ok(slots)
}

// The contents of the slots, none of which is empty.
fn all_held<V: Merge>(
    alloc: Global,
    slots: Vec<Option<Siblings<V>>>,
) -> Result<Vec<Siblings<V>>, AllocError>
    requires { AreFull slots.items }
    ensures { IfOk result (λ held. held.items ≡ map (λ slot. unwrap_or slot []) slots.items) }
{
    let mut held = Vec::with_capacity(alloc, slots.len())?;
    for slot in slots {
        let Some(siblings) = slot else { unreachable!() };
        held.push(siblings)?;
    }
    Ok(held)
}

/// The siblings of the pieces in the order of their holes, from left to right.
pub(crate) fn siblings_at_holes<V: Merge>(
    alloc: Global,
    places: &[Place],
    pieces: Vec<(Place, Siblings<V>)>,
) -> Result<Vec<Siblings<V>>, AllocError>
    requires rise { AreRisingPlaces (node_places places.now) }
    requires fit { first_misfit (node_places places.now) [] (pieces_of pieces.items) ≡ None }
    ensures { IfOk result (λ slots. slots.items ≡ map (piece_at (pieces_of pieces.items)) (node_places places.now)) }
{
    let mut slots = empty_slots(alloc, places.len())?;
    let mut next = 0;
    for (place, siblings) in pieces {
        let Some(hole) = hole_at(places, &place, next) else {
            unreachable!()
        };
        slots[hole] = Some(siblings);
        next = hole + 1;
    }
    all_held(alloc, slots)
}
