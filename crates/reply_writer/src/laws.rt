//! Laws of what is written and read. The functions do nothing: what they promise is proved.
ghost use Rattle.reply_writer.specs.Laws.{RepliesAreReadAsWritten, ItemsAreReadAsWritten, RecordsAreReadAsWritten, FaultsAreReadAsWritten, MessagesAreTheirRecords, MessagesAreReadBack, WhatIsReadIsKept, NoticesAreReadBack, CallsAreReadBack, CallsReadAreKept};

/// The text of a reply, an item, a record or a fault is read by `serde_json` as its tree, where each
/// number is a whole one of 64 bits. In what [`write_reply`](crate::write_reply) and the others write
/// each is one, so they promise it of every text.
pub fn texts_are_read_as_written()
    ensures reply { RepliesAreReadAsWritten }
    ensures item { ItemsAreReadAsWritten }
    ensures shown { RecordsAreReadAsWritten }
    ensures fault { FaultsAreReadAsWritten }
{}

/// The message that a notice carries is read as the call that sends it: always where its parts keep
/// their limits, as those of every message that was read do.
pub fn messages_are_read_back()
    ensures tree { MessagesAreTheirRecords }
    ensures text { MessagesAreReadBack }
    ensures kept { WhatIsReadIsKept }
    ensures notice { NoticesAreReadBack }
{}

/// The text that [`append_call`](crate::append_call) writes is read as the call: always where its parts
/// keep their limits, as those of every call that was read do.
pub fn calls_are_read_back()
    ensures text { CallsAreReadBack }
    ensures kept { CallsReadAreKept }
{}
