//! The laws of sessions.
ghost use Rattle.session_lines.specs.Law.{WindowsAreLockStep, TalliesAreOwn, EachLineIsAnswered};

/// In whatever order a session's lines and its own Dones come, and whatever Dones its jobs that are out will get: the
/// jobs that it gives out, the lines that it says, followed by those of its slots, and its tally are those of the
/// same lines with each Done directly after its job. Memory is not refused. It does nothing.
pub fn windows_are_lock_step()
    ensures { WindowsAreLockStep }
{}

/// Whatever lines and Dones a session takes, and wherever memory is refused, its jobs are counted from 0, and so are
/// the Dones that it takes as its own; its tally has, in order, for each of these that is Ok, the position, the call
/// of the job and the reply, and nothing else. Unless a stranger came, each job has its Done or is out. It does nothing.
pub fn tallies_are_own()
    ensures { TalliesAreOwn }
{}

/// Whatever lines and Dones a session takes, and wherever memory is refused: unless a stranger came, the lines that it said and
/// its slots are together as many as the lines that it read and that are not blank, where a line that is too long counts in any
/// case. So where no slot is taken, each of these lines has one answer. It does nothing.
pub fn each_line_is_answered()
    ensures { EachLineIsAnswered }
{}
