//! A law of the definitions. The function does nothing: what it promises is proved.
ghost use Rattle.outbox.specs.Keeping.{StartsEmpty, LastCounts, FetchesFirst, PushesLast, TellsAhead, Acknowledges};

/// What is kept for a railway answers as the list of all items that it ever got would.
pub fn boxes_keep_the_lists()
    ensures start { StartsEmpty }
    ensures last { LastCounts }
    ensures fetch { FetchesFirst }
    ensures push { PushesLast }
    ensures ahead { TellsAhead }
    ensures acknowledgement { Acknowledges }
{}
