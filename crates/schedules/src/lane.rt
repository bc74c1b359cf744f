//! The lane of a worker.

use inbox::Job;
use std::alloc::Global;
use std::collections::VecDeque;
use taf_codes::Memory;

/// The jobs on their way to a worker, and how many of them there is a place for.
#[derive(Drop)]
pub(crate) struct Lane {
    jobs: VecDeque<Job>,
    places: usize,
}

impl Lane {
    pub(crate) fn new(alloc: Global, places: usize) -> Lane {
        Lane {
            jobs: VecDeque::new(alloc),
            places,
        }
    }

    /// Puts a job behind the others. It comes back where there is no place for it.
    pub(crate) fn put(&mut self, job: Job) -> Result<Option<Job>, Memory> {
        if self.jobs.len() >= self.places {
            return Ok(Some(job));
        }
        self.jobs.push_back(job)?;
        Ok(None)
    }

    /// The job in front.
    pub(crate) fn take(&mut self) -> Option<Job> {
        self.jobs.pop_front()
    }
}
