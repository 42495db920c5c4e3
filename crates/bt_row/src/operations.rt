//! Operations on rows: what they do, when they are refused, and changes made of them.

pub(crate) mod apply;
pub(crate) mod arguments;
pub(crate) mod arithmetic;
pub(crate) mod change;
pub(crate) mod lent_row;
pub(crate) mod op;
pub(crate) mod op_faults;
