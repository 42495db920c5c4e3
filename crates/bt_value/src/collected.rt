//! Reading several things in order: all their values, or the lowest refusal.
ghost use Rattle.std.specs.Prelude.{◌≡◌, ◌≢◌, ◌++◌, [], Err, IfOk, None, OnOk};
ghost use Rattle.std.specs.Option.{option_to_list};
ghost use Rattle.std.specs.Result.{result_err, result_ok};
ghost use Rattle.bt_value.specs.Results.{unless};
ghost use Rattle.bt_value.specs.Refusals.{lowest_from};

use crate::refusal::{Refusal, lowest_with};
use crate::sequence::Sequence;
use std::alloc::{AllocError, Global};

/// What was read so far.
#[derive(Drop)]
pub struct Collected<T> {
    /// The values, in order.
    pub values: Sequence<T>,
    /// The lowest of the refusals, if there are any.
    pub refusal: Option<Refusal>,
}

impl<T> Collected<T> {
    /// Nothing was read.
    pub fn new(alloc: Global) -> Self
        ensures values { result.values ≡ [] }
        ensures refusal { result.refusal ≡ None }
    {
        Collected {
            values: Sequence::new(alloc),
            refusal: None,
        }
    }

    /// Nothing was read, and there is room for this many values.
    pub fn with_capacity(alloc: Global, capacity: usize) -> Result<Self, AllocError>
        ensures values { IfOk result (λ new. new.values ≡ []) }
        ensures refusal { IfOk result (λ new. new.refusal ≡ None) }
    {
        Ok(Collected {
            values: Sequence::with_capacity(alloc, capacity)?,
            refusal: None,
        })
    }
}

impl<T: Drop> Collected<T> {
    /// Adds the result of one more reading. If it ran out of memory, the error is passed on.
    pub fn add(&mut self, read: Result<T, Refusal>) -> Result<(), AllocError>
        ensures values { OnOk result (self.new.values ≡ self.old.values ++ option_to_list (result_ok read)) }
        ensures refusal { OnOk result (self.new.refusal ≡ lowest_from self.old.refusal (option_to_list (result_err read))) }
        ensures memory { OnOk result (read ≢ Err Refusal.OutOfMemory) }
    {
        match read {
            Ok(value) => self.values.push(value),
            Err(Refusal::OutOfMemory) => Err(AllocError),
            Err(other) => {
                self.refusal = Some(lowest_with(self.refusal, other));
                Ok(())
            }
        }
    }

    /// All values, or the lowest refusal if there is one.
    pub fn finish(self) -> Result<Sequence<T>, Refusal>
        ensures { result ≡ unless self.refusal self.values }
    {
        let Collected { values, refusal } = self;
        match refusal {
            None => Ok(values),
            Some(refusal) => Err(refusal),
        }
    }
}
