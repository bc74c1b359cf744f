ghost use Rattle.wagon_number.specs.Laws.{ValidityIsTested, DigitsGiveTheNumber, NumberGivesTheDigits, TextIsRead, ReadingIsExact, MarkedTextIsRead, MarkedReadingIsExact};

/// The test of digits that computes says whether they are valid.
pub fn validity_is_tested()
    ensures { ValidityIsTested }
{}

/// A vehicle number and its twelve digits determine each other.
pub fn numbers_are_their_digits()
    ensures number { DigitsGiveTheNumber }
    ensures digits { NumberGivesTheDigits }
{}

/// What `WagonNumber::text` writes, `WagonNumber::read` reads, and it reads no other text as that
/// number.
pub fn text_is_read()
    ensures read { TextIsRead }
    ensures exact { ReadingIsExact }
{}

/// What `Display` prints, `WagonNumber::read_marked` reads, and it reads no other text as that
/// number.
pub fn marked_text_is_read()
    ensures read { MarkedTextIsRead }
    ensures exact { MarkedReadingIsExact }
{}
