//! What a job passes before it takes the hub's lock.
use inbox::Job;

/// Called with each job before its call takes the hub's lock, so that a test can hold jobs.
pub trait Gate {
    fn before(&self, job: &Job);
}

/// The gate that returns at once.
#[derive(Clone, Copy, Debug, Default)]
pub struct OpenGate;

impl Gate for OpenGate {
    fn before(&self, _job: &Job) {}
}
