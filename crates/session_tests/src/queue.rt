//! Tests of `inbox`.
//!
//! One pass puts and takes in an inbox of one place. Each growth of a new inbox is refused in turn, and all other calls do
//! without memory. Threads put and take in the shifts of `shift_tests`.

mod jobs;
mod one_place;
mod scarcity;
