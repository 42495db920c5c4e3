//! The children that a node flushes, computed from their loads.
//!
//! Loads and capacities are numbers of messages, or of bytes if the shape measures bytes. Places are counted from 0, the leftmost
//! child.
ghost use Rattle.std.specs.Prelude.{◌≡◌, ◌<◌, ◌≤◌, ◌∷◌, [], IfSome, MatchOption, length, nat_le};
ghost use Rattle.bt_form.specs.Plans.{fullest, planned, renewed, total};

use arrayvec::ArrayVec;
use bt_form::LARGEST_FANOUT;

/// Whether the loads together are at most the capacity. They aren't added up, so no sum can overflow.
pub fn are_within(loads: &[u128], capacity: u64) -> bool
    ensures { result ≡ nat_le (total loads.now) capacity }
{
    let mut left = u128::from(capacity);
    for load in loads {
        if left < *load {
            return false;
        }
        left -= *load;
    }
    true
}

// The place of the largest load, the leftmost of them.
fn fullest_place(loads: &[u128]) -> usize
    ensures { result ≡ fullest loads.now }
{
    let mut best = 0;
    let mut most = 0;
    for (place, load) in loads.iter().enumerate() {
        if *load > most {
            most = *load;
            best = place;
        }
    }
    best
}

// The next child to flush, given the loads. Returns `None` if they are at most the capacity together. Otherwise returns the fullest
// child and sets its load to 0.
fn next_planned(rest: &mut [u128], capacity: u64) -> Option<usize>
    ensures found { MatchOption result (planned rest.old capacity ≡ []) (λ place. planned rest.old capacity ≡ place ∷ planned rest.new capacity) }
    ensures place { IfSome result (λ place. place < length rest.old) }
    ensures fewer { IfSome result (λ _. total rest.new < total rest.old) }
    ensures len { length rest.new ≡ length rest.old }
{
    if are_within(rest, capacity) {
        return None;
    }
    let place = fullest_place(rest);
    rest[place] = 0;
    Some(place)
}

/// The places of the children to flush, given the load of each as returned by `Bins::load`. The fullest comes first, and the
/// leftmost of equally full ones. There are just enough places that the loads of the other children together are at most the
/// capacity. Allocates nothing.
pub fn plan(loads: &[u128], capacity: u64) -> ArrayVec<u16, LARGEST_FANOUT>
    requires { length loads.now ≤ LARGEST_FANOUT }
    ensures places { result.items ≡ planned loads.now capacity }
    ensures renewed { result.items ≡ renewed capacity (total loads.now) loads.now }
{
    let mut rest = ArrayVec::<u128, LARGEST_FANOUT>::new();
    if rest.try_extend_from_slice(loads).is_err() {
        unreachable!()
    }
    let mut places = ArrayVec::new();
    while let Some(place) = next_planned(rest.as_mut_slice(), capacity) {
        places.push(place as u16);
    }
    places
}
