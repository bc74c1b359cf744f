//! The laws of shifts.
ghost use Rattle.hub_shifts.specs.Laws.{ShiftInOrder, LanesInOrder};

/// In a shift whose tallies settle against its history, each entry of the history behind those from before the shift is of exactly one
/// session, and those of a session stand there in the order of its reader's lines, each once: they are its own jobs that were answered Ok, with these
/// answers. Where a session ended well, it was given all whole lines of its reader, each of the jobs that it put has its answer,
/// each line that is not blank has one line that was said, and all that was said was written. Where no line of these said that
/// memory was refused, they are those of lock step, with these answers. It does nothing.
pub fn shift_in_order()
    ensures { ShiftInOrder }
{}

/// After a shift, what a worker took of a session's jobs, and then what its lane still held of them, is what the session
/// put, in order. It does nothing.
pub fn lanes_in_order()
    ensures { LanesInOrder }
{}
