//! Laws of hubs that are opened after a crash. The functions do nothing: what they promise is proved.
ghost use Rattle.journaled_hub.specs.Laws.{HistoriesComeBack, RepliesStay, RepliesOutliveACrash};

use journal_lines::journal_lines_are_calls;

/// A hub that is opened from what a crash left of a journal has the history whose lines were written, where the parts of its calls
/// keep their limits, as those of every call that was read do (`reply_writer::calls_are_read_back`). So a message that had its
/// reply before the crash, and is sent again, gets the same reply, and it was taken once (`hub_model::messages_are_taken_once`).
pub fn reopened_hub()
    ensures history { HistoriesComeBack }
    ensures replies { RepliesStay }
    ensures crash { RepliesOutliveACrash }
{
    journal_lines_are_calls();
}
