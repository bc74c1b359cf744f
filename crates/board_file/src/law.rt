//! What the escape is good for.
ghost use Rattle.board_file.specs.Files.{NoTextEndsItsElement};

/// A text that is escaped has no `<`, so it has no end of the element that it stands in. It does nothing.
pub fn no_text_ends_its_element()
    ensures { NoTextEndsItsElement }
{}
