//! The words of a line by their places.
ghost use Rattle.tap_base.specs.Laws.{WordsAreParts};

/// States that the words of a line by their places are its longest runs of bytes that aren't
/// blanks.
pub fn words_are_the_parts_between_blanks()
    ensures { WordsAreParts }
{}
