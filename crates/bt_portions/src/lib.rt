//! Reads a tree with a crew: its portions at the crew's depth are jobs that borrow it.
//!
//! [`read`] shows each portion to a fork of a visitor, and joins the forks in order. [`rebuild`] copies the rows and packs them into a new tree. [`owned_keys`]
//! divides keys among the portions that own them, for jobs that look them up.
//!
//! ```text
//! let crew = Crew::new(4, 2, 64, NoGate)?;
//! let context = Context { rt: &rt, alloc, crew: &crew };
//! let copies = read(&context, &rows, Some(&from), None, Copies::new(alloc))?;
//! ```
//!
//! The definitions are in `specs`: `KeyShares` defines which portion owns which of some keys. What portions are is defined in bt_form.
#![tactic(auto)]

mod key_shares;
mod portion_visits;

pub use bt_node::Portion;
pub use key_shares::owned_keys;
pub use portion_visits::{read, rebuild};
