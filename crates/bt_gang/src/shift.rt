//! What the workers of a run share.
use crate::crew::Crew;
use crate::jobs::Jobs;
use crate::work::Work;

/// The work of a run, its jobs in their queue, and the crew. The snapshot of the jobs is passed separately, because threads cannot share
/// a struct that has one.
#[derive(Drop)]
pub(crate) struct Shift<'s, W: Work, G> {
    pub work: &'s W,
    pub jobs: &'s Jobs<W::Job, W::Done, W::Fault>,
    pub crew: &'s Crew<G>,
}
