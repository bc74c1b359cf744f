//! The laws of services.
ghost use Rattle.hub_service.specs.Laws.{SessionsInOrder, HandlersInOrder};

/// In a service whose tallies settle against its history, each entry of the history behind those from before the service is of exactly
/// one session, of all that its handlers served, and those of a session stand there in the order of its reader's lines, each once:
/// they are its own jobs that were answered Ok, with these answers. Where a session ended well, it was given all whole lines of its
/// reader, each of the jobs that it put has its answer, each line that is not blank has one line that was said, and all that it said
/// was written. Those of a handler's sessions stand there session after session. It does nothing.
pub fn sessions_in_order()
    ensures { SessionsInOrder }
{}

/// After a service, what a worker took of the jobs of a handler's sessions, and then what its lane still held of them, is what these
/// sessions put, one after another, in order. It does nothing.
pub fn handlers_in_order()
    ensures { HandlersInOrder }
{}
