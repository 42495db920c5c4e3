//! Why a command is refused because of its records, as C sees it.
ghost use Rattle.std.specs.Prelude.{◌≡◌};
ghost use Rattle.bt_c.specs.Reasons.{reason_in_c};

use bt_fault::Reason;

/// Why a command is refused because of its records: the refusal, the item and the field at fault, and what is wrong with it. C has it as `betable_reason`.
#[repr(C)]
#[derive(Clone, Copy, Drop)]
pub struct ReasonInC {
    /// The number of the refusal.
    pub refusal: u64,
    /// The item at fault, counted from 1; 0 for the header of a load.
    pub item: u64,
    /// The field of the item, counted from 1; 0 if no single field is at fault.
    pub field: u64,
    /// The code of what is wrong with it.
    pub problem: u32,
}

impl ReasonInC {
    /// A reason in C.
    pub fn of(reason: Reason) -> ReasonInC
        ensures { result ≡ reason_in_c reason }
    {
        ReasonInC {
            refusal: reason.refusal.number() as u64,
            item: reason.item,
            field: reason.field,
            problem: reason.problem.number(),
        }
    }
}
