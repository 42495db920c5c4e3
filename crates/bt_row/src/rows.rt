//! Rows: values, packed into bytes and printed as records; their columns, and filters on them.

pub(crate) mod filter;
pub(crate) mod growing_bytes;
pub(crate) mod packed_values;
pub(crate) mod record_writer;
pub(crate) mod row;
pub(crate) mod schema;
pub(crate) mod values;
