//! How far messages go down.

/// How far messages go down: to the first buffer that has room for them, or all to the leaves.
#[derive(Clone, Copy)]
pub enum Mode {
    Absorb,
    Drain,
}
