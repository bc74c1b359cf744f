ghost use Rattle.taf_moment.specs.Laws.{TextIsRead, ReadingIsExact};

/// What `Moment::text` writes, `Moment::read` reads, and it reads no other text as that moment.
pub fn moment_text_is_read()
    ensures read { TextIsRead }
    ensures exact { ReadingIsExact }
{}
