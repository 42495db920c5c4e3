//! Why packed bytes are refused, and where.
ghost use Rattle.std.specs.Prelude.{◌≡◌};
ghost use Rattle.bt_packed.specs.Layout as spec;

use bt_value::Refusal;
use std::alloc::AllocError;

/// Why packed bytes are refused, and where. `Syntax` if they do not begin with a header, and `BadField` if the bytes of an item are none of its layout.
#[derive(Clone, Copy, Debug, PartialEq, Eq)]
pub struct Fault {
    /// The refusal.
    pub refusal: Refusal,
    /// The item at fault, counted from 1: a change, the key, or 1 for the lower bound of a page and 2 for the upper one; 0 if it is none of them.
    pub item: u64,
    /// The column at fault, counted from 1; 0 if it is none.
    pub column: u64,
}

impl Fault {
    /// A refusal at a column of an item.
    pub(crate) fn at(refusal: Refusal, item: u64, column: u64) -> Self
        ensures { result ≡ spec.fault_at refusal item column }
    {
        Fault {
            refusal,
            item,
            column,
        }
    }

    /// The bytes of an item are none of its layout.
    pub(crate) fn bad_bytes(item: u64, column: u64) -> Self
        ensures { result ≡ spec.bad_bytes item column }
    {
        Fault::at(Refusal::BadField(item), item, column)
    }

    /// The bytes do not begin with a header.
    pub(crate) fn no_header() -> Self
        ensures { result ≡ spec.no_header }
    {
        Fault::at(Refusal::Syntax, 0, 0)
    }

    /// A refusal of the whole call.
    pub fn of_call(refusal: Refusal) -> Self
        ensures { result ≡ spec.fault_at refusal 0 0 }
    {
        Fault::at(refusal, 0, 0)
    }
}

impl From<AllocError> for Fault {
    ghost use Rattle.std.specs.Prelude.{◌≡◌};
    ghost use Rattle.bt_value.specs.declared.refusal.Refusal.TheVariants.{OutOfMemory};
    ghost use Rattle.bt_packed.specs.Layout.{fault_at};

    ghost from_gives = { λ _ fault. fault ≡ fault_at OutOfMemory 0 0 };

    fn from(_error: AllocError) -> Self {
        Fault::of_call(Refusal::OutOfMemory)
    }
}
