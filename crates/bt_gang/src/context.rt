//! What work by a crew needs.
use std::alloc::Global;

/// The runtime that has the threads, the allocator, and who works: a [`Crew`](crate::Crew), or what a caller has in its place. Functions that take a context
/// have these three as one parameter.
#[derive(Clone, Copy)]
pub struct Context<'a, T, C> {
    pub rt: &'a T,
    pub alloc: Global,
    pub crew: &'a C,
}
