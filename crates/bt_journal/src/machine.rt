//! What a store keeps: a state that payloads change.
ghost use Rattle.std.specs.Prelude.{◌≡◌, ◌++◌, Bool, List, ℕ, [], false, IfNone, IfOk, IfSome, OnOk};

use std::alloc::{AllocError, Global};

/// A state that payloads change. The same payloads in the same order lead to the same state.
pub trait Machine: Drop {
    /// The state before any payload.
    ghost blank: { Self };

    /// The state after a payload.
    ghost after: { Self → List ℕ → Self };

    /// What a payload is answered, from the state before it.
    ghost answer_to: { Self → List ℕ → List ℕ };

    /// Whether a payload may change a state. One that does not is not kept.
    ghost changes: { Self → List ℕ → Bool };

    /// Goes on to the state after a payload, replaces the bytes of `answer` by its answer, and says whether the payload may have changed the state. After an
    /// `Err` nothing is known of the state.
    fn run(&mut self, payload: &[u8], answer: &mut Vec<u8>) -> Result<bool, AllocError>
        ensures after { OnOk result (self.new ≡ after self.old payload.now) }
        ensures answer { OnOk result (answer.new.items ≡ answer_to self.old payload.now) }
        ensures changes { IfOk result (λ is_changed. is_changed ≡ changes self.old payload.now) }
        ensures same { changes self.old payload.now ≡ false → after self.old payload.now ≡ self.old };
}

/// A machine whose whole state one payload can encode.
pub trait Compact: Machine {
    /// Whether a state is another one compacted. To those who read it, it is the same one.
    ghost is_compacted: { Self → Self → Type 0 };

    /// Goes on to the compacted state, and returns a payload that leads to it from the blank one. `None` if the state cannot be compacted now, or if memory ran
    /// out; it is as it was then.
    fn compact(&mut self, alloc: Global) -> Option<Vec<u8>>
        ensures compacted { IfSome result (λ _. is_compacted self.old self.new) }
        ensures payload { IfSome result (λ payload. Self.Machine.after Self.Machine.blank payload.items ≡ self.new) }
        ensures unchanged { IfNone result (self.new ≡ self.old) };
}

/// A machine whose payloads can be parts of one.
pub trait Join: Machine {
    /// Whether other parts can follow bytes in a payload.
    ghost is_part: { List ℕ → Type 0 };

    /// Whether there is a part that does what a payload does.
    ghost can_join: { List ℕ → Bool };

    /// Returns a part that does what a payload does. `None` if there is none.
    fn part_of(&self, alloc: Global, payload: &[u8]) -> Result<Option<Vec<u8>>, AllocError>
        ensures part { IfOk result (λ found. IfSome found (λ part. is_part part.items)) }
        ensures same { IfOk result (λ found. IfSome found (λ part. (state : Self) → Self.Machine.after state part.items ≡ Self.Machine.after state payload.now)) }
        ensures none { IfOk result (λ found. IfNone found (can_join payload.now ≡ false)) };

    /// No bytes are a part.
    ghost none_is_part: { is_part [] };

    /// Two parts are one.
    ghost both_are_part: { (first second : List ℕ) → is_part first → is_part second → is_part (first ++ second) };

    /// No bytes leave each state as it is.
    ghost after_none: { (state : Self) → Self.Machine.after state [] ≡ state };

    /// Two parts as one do what they do one after the other.
    ghost after_both: { (state : Self) (first second : List ℕ) → is_part first
        → Self.Machine.after state (first ++ second) ≡ Self.Machine.after (Self.Machine.after state first) second };
}
