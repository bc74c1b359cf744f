//! The right of one thread to put jobs and take them.
use crate::rule::{Job, PassView};
use std::marker::Model;

/// The right of one thread to put jobs into an inbox and to take them.
///
/// Contracts see which inbox it is of, its parts, and the jobs that it put and took, oldest first. All passes of an inbox
/// together have 2^20 parts.
#[derive(Drop)]
pub struct Pass {
    pub(crate) pass: crossbeam_queue::Pass<Job, PassView>,
}

impl Model for Pass {
    ghost use Rattle.std.specs.Prelude.{◌≡◌, []};
    ghost use Rattle.crossbeam_queue.specs.Passes.{view as view_of};
    ghost use Rattle.inbox.specs.Rules.{IsOnePass};
    ghost use Rattle.inbox.specs.States.{PassState, state_of};

    ghost Value = { PassState };

    ghost view = { λ p. state_of p.pass.table_id (view_of p.pass) };

    ghost invariant = { λ p. (p.pass.me.1 ≡ []) × IsOnePass (view_of p.pass) };
}
