//! Why a call on packed bytes was refused, as C sees it.
ghost use Rattle.std.specs.Prelude.{◌≡◌};
ghost use Rattle.bt_c.specs.Sessions.{fault_of};

use bt_packed::Fault;

/// Why a call on packed bytes was refused, and where. C has it as `betable_fault`.
#[repr(C)]
#[derive(Clone, Copy, Drop)]
pub struct FaultInC {
    /// The number of the refusal.
    pub refusal: u64,
    /// The item at fault, counted from 1, or 0.
    pub item: u64,
    /// The column at fault, counted from 1, or 0.
    pub column: u64,
}

impl FaultInC {
    /// A fault in C.
    pub fn of(fault: Fault) -> FaultInC
        ensures { result ≡ fault_of fault }
    {
        FaultInC {
            refusal: fault.refusal.number() as u64,
            item: fault.item,
            column: fault.column,
        }
    }
}
