//! Laws: consequences of the definitions of the crates below that no single call states.
//!
//! Each law is a clause of a public function that has no arguments and does nothing. A proof that calls the function may cite the clause. `specs` has the
//! definitions that the statements use.
//!
//! - [`tree_height`]: a tree of n levels has at least 2^(n - 1) leaves. So no tree in memory has more than 63 levels, and the stack of a
//!   worker, which makes one call for each level, is large enough.
//! - [`flush_sizes`]: each flush of a child moves down more than the child's share of the buffer, so packets lead to few flushes. This is
//!   why a Bε-tree absorbs many small writes at a low cost.
//! - [`cut_script`]: the commands of the first n bytes of a script are the first commands of the script, and at most one more. So a log of
//!   scripts whose end was lost is still a log.
//! - [`canonical_form`]: the image of a rebuilt tree depends only on the columns, the shape and the rows of the table. So images of rebuilt
//!   trees compare tables, even if different calls were made on them before.
//! - [`records_as_values`]: a record of a batch encodes the message of the values that it is read as. So values can be given to a table in
//!   place of the records that encode them, with the same refusals.
//! - [`dump_and_load`]: a table that loads the dump of another table has the same rows, and the same images.
//! - [`compacted_tables`]: a table that was compacted is the table after each of its trees was rebuilt. So it has the same columns, rows and
//!   indexes.
#![tactic(auto)]

mod canonical;
mod compacted;
mod cuts;
mod dumps;
mod flushes;
mod heights;
mod values;

pub use canonical::canonical_form;
pub use compacted::compacted_tables;
pub use cuts::cut_script;
pub use dumps::dump_and_load;
pub use flushes::flush_sizes;
pub use heights::tree_height;
pub use values::records_as_values;
