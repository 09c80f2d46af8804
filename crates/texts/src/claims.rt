// What is proved of the lines of a text, beyond the contracts of the calls.
ghost use Rattle.texts.specs.Joined.{LinesMakeTheText};

/// The lines of a text, joined by byte 10, are the text; none has a byte 10, and there is one more than bytes 10.
pub fn the_lines_joined_by_byte_10_are_the_text()
    ensures { LinesMakeTheText }
{}
