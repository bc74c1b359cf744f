//! A thread beside others.
ghost use Rattle.std.specs.Prelude.{IfOk, Ok};

use crate::fault::ThreadFault;
use std::sync::Wait;
use std::thread;
use std::thread::Threads;

/// What a thread does beside others.
pub trait Beside {
    /// Whether there is anything to do.
    fn is_wanted(&self) -> bool;

    /// Does it, until it is told to end.
    fn run(&self);

    /// Has [`Beside::run`] return. It may be told before that begins.
    fn end(&self);
}

/// Runs something, with a thread beside it where one is wanted, which is ended afterwards. Where that thread can't be had nothing is
/// run.
pub fn run_beside<'x, T, B, F, R>(rt: &'x R, beside: &'x B, run: F) -> Result<T, ThreadFault>
where
    B: Beside + Sync,
    F: FnOnce() -> Result<T, ThreadFault>,
    R: Threads + Wait + Sync,
    requires { F.IsAlwaysCallable run }
    ensures { IfOk result (λ ran. F.post run (Ok ran)) }
{
    if !beside.is_wanted() {
        return run();
    }
    thread::scope(
        thread::scope_env(),
        rt,
        move |scope| -> Result<T, ThreadFault>
            requires { F.IsAlwaysCallable run }
            ensures { IfOk result (λ ran. F.post run (Ok ran)) }
        {
            let ran = match scope.spawn(move || beside.run()) {
                Ok(_) => run(),
                Err(_) => Err(ThreadFault::Thread),
            };
            beside.end();
            ran
        },
    )
}
