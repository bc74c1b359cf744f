//! Laws of the lines of calls. The functions do nothing: what they promise is proved.
ghost use Rattle.journal_lines.specs.Laws.{LinesAreCalls, LinesTellTheCalls, AnotherByteShows, AnotherLineBeforeShows};

/// A reader of records reads the line of a call as the call, where its parts keep their limits. So lines tell of which calls
/// they are.
pub fn journal_lines_are_calls()
    ensures line { LinesAreCalls }
    ensures lines { LinesTellTheCalls }
{}

/// A text of which one byte turned into another has another sum, and so has the same text behind a line of another sum.
pub fn sums_show_changes()
    ensures byte { AnotherByteShows }
    ensures before { AnotherLineBeforeShows }
{}
